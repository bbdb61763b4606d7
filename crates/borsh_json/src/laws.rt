// Laws of the JSON of values.
ghost use Rattle.borsh_json.specs.Words.{IsGivenUp, IsNoJsonReason, Member, TextSays, definitions_in, forms_in};
ghost use Rattle.std.specs.Prelude.{◌≡◌, ◌⊎◌, ℕ, List, MatchResult};

use crate::error::JsonError;
use crate::output::Style;
use crate::reading::from_json;
use crate::writing::to_json;
use borsh_walks::Definition;
use std::alloc::Global;
use std::collections::BTreeMap;

/// A law, for proofs: a JSON text says at most one byte string as a value of `root`, and that is a member. Left open: none.
///
/// ```
/// text_determines_bytes("u8", &definitions, "7");
/// ```
pub fn text_determines_bytes(root: &str, map: &BTreeMap<String, Definition>, text: &str)
    ensures bytes { (a b : List ℕ) → TextSays (forms_in map.now) root.now text.now a →
        TextSays (forms_in map.now) root.now text.now b → a ≡ b }
    ensures member { (a : List ℕ) → TextSays (forms_in map.now) root.now text.now a →
        Member (definitions_in map.now) root.now a }
{}

/// A law, for proofs: of the JSON of some bytes these are read back, unless the reader gives up: for memory, or with `Ambiguous` or
/// `TooDeep`. Left open: memory.
///
/// ```
/// json_gives_back(alloc, "u8", &definitions, &[7], Style::COMPACT)?;
/// ```
pub fn json_gives_back<'a>(
    alloc: Global,
    root: &'a str,
    map: &'a BTreeMap<String, Definition>,
    bytes: &[u8],
    style: Style,
) -> Result<Vec<u8>, JsonError<'a>>
    ensures { MatchResult result (λ back. back.items ≡ bytes.now)
        (λ e. IsNoJsonReason (definitions_in map.now) root.now bytes.now e ⊎ IsGivenUp e) }
{
    let text = to_json(alloc, root, map, bytes, style)?;
    from_json(alloc, root, map, text.as_str())
}
