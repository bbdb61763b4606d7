// What a container answers, in words.
ghost use Rattle.std.specs.Prelude.{◌≡◌, IfOk, None, option_map, string_bytes};
ghost use Rattle.borsh_walks.specs.Answers.{SaysRules, SaysSize, words_of};
ghost use Rattle.borsh_walks.specs.Definitions.{definitions_in};

use crate::counted::{Counted, Expansions};
use crate::definition::{Declaration, Definition};
use crate::error::SchemaMaxSerializedSizeError;
use crate::rules::check_rules;
use crate::sizes::root_size;
use std::alloc::{AllocError, Global};
use std::collections::BTreeMap;

/// Words of printable ASCII, and a name behind them, if there is one; how that is written is for the caller to say.
#[derive(Debug, Drop)]
pub struct Words {
    pub text: String,
    pub name: Option<Declaration>,
}

/// Whether the names that the root refers to keep the rules: `valid`, or `invalid`, a rule, and a name that breaks it. Left
/// open: as of [`check_rules`].
///
/// ```
/// let (is_valid, words) = rules_in_words(alloc, "Vec<u8>", &definitions)?;
/// ```
pub fn rules_in_words(
    alloc: Global,
    root: &str,
    definitions: &BTreeMap<String, Definition>,
) -> Result<(bool, Words), AllocError>
    ensures { IfOk result (λ r. SaysRules (definitions_in definitions.now) root.now r.0 (words_of r.1)) }
{
    let mut counts = Expansions::NONE;
    let mut counted = Counted::new(definitions, &mut counts);
    match check_rules(alloc, root, &mut counted) {
        Ok(()) => {
            let text = String::from_str(alloc, "valid")?;
            Ok((true, Words { text, name: None }))
        }
        Err(error) => {
            let (rule, name) = error.broken_rule().ok_or(AllocError)?;
            let text = format!(in alloc; "invalid {rule}")?;
            let name = Some(String::from_str(alloc, name)?);
            Ok((false, Words { text, name }))
        }
    }
}

/// The greatest size of the root, and the same in decimal; or why there is none: `overflow`, `recursive`, or `missing` and a
/// name. Left open: as of [`root_size`].
///
/// ```
/// let (size, words) = size_in_words(alloc, "Vec<u8>", &definitions)?;
/// ```
pub fn size_in_words(
    alloc: Global,
    root: &str,
    definitions: &BTreeMap<String, Definition>,
) -> Result<(Option<usize>, Words), AllocError>
    ensures { IfOk result (λ r. SaysSize (definitions_in definitions.now) root.now r.0 (words_of r.1)) }
{
    let mut counts = Expansions::NONE;
    let mut counted = Counted::new(definitions, &mut counts);
    match root_size(alloc, root, &mut counted) {
        Ok(size) => {
            let text = format!(in alloc; "{size}")?;
            Ok((Some(size), Words { text, name: None }))
        }
        Err(SchemaMaxSerializedSizeError::Overflow) => no_size(alloc, "overflow", None),
        Err(SchemaMaxSerializedSizeError::Recursive) => no_size(alloc, "recursive", None),
        Err(SchemaMaxSerializedSizeError::MissingDefinition(name)) => {
            no_size(alloc, "missing", Some(name))
        }
        // The size of a container never has two definitions of one name: only that of a type has.
        Err(_) => Err(AllocError),
    }
}

fn no_size(
    alloc: Global,
    text: &str,
    name: Option<Declaration>,
) -> Result<(Option<usize>, Words), AllocError>
    ensures { IfOk result
        (λ r. (r.0 ≡ None) × (words_of r.1 ≡ (text.now, option_map (λ n. string_bytes n) name))) }
{
    let text = String::from_str(alloc, text)?;
    Ok((None, Words { text, name }))
}
