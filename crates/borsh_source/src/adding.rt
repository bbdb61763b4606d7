// What a compilation has found so far.
ghost use Rattle.std.specs.Prelude.{◌≡◌, ◌∷◌, [], Decides, IsTrue, OnOk, map, string_bytes};
ghost use Rattle.borsh_definitions.specs.Described.{forms_in, form_of};
ghost use Rattle.borsh_source.specs.Container.{Adds, AreThese, Brings, IsKept, uses_in};
ghost use Rattle.borsh_source.specs.Errors.{Answers};
ghost use Rattle.borsh_source.specs.Forms.{entry as entry_of};
ghost use Rattle.borsh_source.specs.Lists.{IsListed};
ghost use Rattle.borsh_source.specs.Views.{source_of, used as used_of};

use crate::context::{Context, element, spend};
use crate::error::{Cause, CompileError, refused};
use crate::forms::Entry;
use crate::tree::Place;
use crate::uses::Use;
use borsh_walks::{Declaration, Definition};
use std::alloc::AllocError;
use std::collections::BTreeMap;

/// The definitions so far, the items that are used, and what may still be read and written.
#[derive(Drop)]
pub struct Output<'a> {
    pub definitions: BTreeMap<Declaration, Definition>,
    pub uses: Vec<Use>,
    /// Where an item was noted last, by its index.
    pub places: BTreeMap<usize, usize>,
    pub left: u64,
    /// A name, and the place at which it was first defined.
    pub wanted: Option<&'a str>,
    pub found: Option<Place>,
}

// Whether two definitions are equal, names and all.
fn says_the_same(known: &Definition, given: &Definition) -> bool
    ensures { Decides result (form_of known.now ≡ form_of given.now) }
{
    known == given
}

// Notes the place, if it is the first that defines the name that is wanted.
fn note(place: Place, name: &str, output: &mut Output<'_>)
    ensures { IsKept output.old output.new }
{
    if output.wanted == Some(name) && output.found.is_none() {
        output.found = Some(place);
    }
}

// Adds a definition under its name, unless it is there already.
fn put(
    context: &Context<'_>,
    place: Place,
    name: Declaration,
    definition: Definition,
    definitions: &mut BTreeMap<Declaration, Definition>,
) -> Result<(), CompileError>
    ensures { Answers (source_of context.now) result (λ _. Adds (forms_in definitions.old)
        (forms_in definitions.new) ((string_bytes name, form_of definition) ∷ [])) }
{
    if let Some(known) = definitions.get(name.as_str()) {
        if says_the_same(known, &definition) {
            return Ok(());
        }
        return Err(refused(context.alloc, place, Cause::TwoDefinitions, name.as_str()));
    }
    definitions.insert(name, definition)?;
    Ok(())
}

// Adds a definition under its name.
fn add(
    context: &Context<'_>,
    place: Place,
    entry: Entry,
    output: &mut Output<'_>,
) -> Result<(), CompileError>
    ensures { Answers (source_of context.now) result (λ _. Brings (AreThese (entry_of entry ∷ []) []) output.old output.new) }
{
    let (name, definition) = entry;
    spend(context, place, name.len() as u64, &mut output.left)?;
    note(place, name.as_str(), output);
    put(context, place, name, definition, &mut output.definitions)?;
    Ok(())
}

/// Adds definitions under their names.
pub fn add_all(
    context: &Context<'_>,
    place: Place,
    entries: Vec<Entry>,
    output: &mut Output<'_>,
) -> Result<(), CompileError>
    ensures { Answers (source_of context.now) result (λ _. Brings (AreThese (map entry_of entries.items) []) output.old output.new) }
{
    for entry in entries {
        add(context, place, entry, output)?;
    }
    Ok(())
}

// Whether the use of an item is known.
fn is_noted(output: &Output<'_>, used: &Use) -> bool
    ensures { IsTrue result → IsListed (used_of used.now) (uses_in output.now) }
{
    let Some(place) = output.places.get(&used.item) else {
        return false;
    };
    let Some(known) = element(&output.uses, *place) else {
        return false;
    };
    if known == used {
        return true;
    }
    output.uses.as_slice().contains(used)
}

/// Notes that an item is used. One that is known is not noted again.
pub fn add_use(used: Use, output: &mut Output<'_>) -> Result<(), AllocError>
    ensures { OnOk result (Brings (AreThese [] (used_of used ∷ [])) output.old output.new) }
{
    if is_noted(output, &used) {
        return Ok(());
    }
    output.places.insert(used.item, output.uses.len())?;
    output.uses.push(used)?;
    Ok(())
}
