// The bytes of a value that JSON says.
ghost use Rattle.borsh_json.specs.Words.{HaveBytes, InOrder, IsGivenUp, IsTextReason, Json, SaysBy, ShowsNoValue, TextRepresents, TextSays, definitions_in, definitions_of, document, forms_in, map_of, root_of};
ghost use Rattle.std.specs.Prelude.{◌≡◌, ◌∷◌, [], ℕ, IfErr, IfOk, List, MatchResult, OnOk, Some};

use crate::error::JsonError;
use crate::not_json::why_not_json;
use crate::parts::read_value;
use crate::table::Table;
use borsh_values::{Membership, Plan};
use borsh_walks::Definition;
use json::{Scratch, Tape};
use std::alloc::Global;
use std::collections::BTreeMap;

/// The bytes of the value of `root` that a JSON text says, by the definitions of `map` alone.
///
/// The text is as [`crate::to_json`] writes it, in any layout; the fields of a struct and the entries of an object may come in
/// any order, a list of `u8` may be an array of numbers, and numbers of 64 bits may be strings. What doesn't fit the
/// definitions is refused with its path and what was expected; so are keys that come twice, the bits of a NaN, and arrays whose
/// elements or keys don't ascend where they have to. The bytes are a member of the root.
///
/// Determined: after `Ok` the text says the bytes, and no others, and the keys of its sets and maps ascend as far as their order
/// is told. A text that says bytes, with its keys in order, is refused with `OutOfMemory`, `Ambiguous` or `TooDeep` alone; after any
/// other error but `Descends` the text says no bytes at all. A refusal's path leads from the root to the first place that fails: the
/// parts before it, in the order of the bytes, have bytes. The JSON of this part fails itself, whatever its parts say, for the reason
/// of the refusal (a map also for a key that is no number); or it is a field that the object hasn't (`MissingField`), a part inside of
/// 128 others (`TooDeep`), or an element of a set or map that isn't above the one before it (`Descends`). `UnknownName` has a key
/// that is no field, or the name of no variant. `NoValue` is of JSON that says bytes, which are no member. A text that isn't JSON
/// gives `NotJson`, or `TooDeep` at the root where its tokens open more than 128 arrays and objects; `Ambiguous` is as of
/// [`borsh_values::is_member`]; `NoMember` isn't returned. Left open: memory; what is expected, in words; which of several refusals
/// of one part; the byte of `NotJson`: tested.
///
/// ```
/// let bytes = from_json(alloc, "(u8, bool)", &definitions, "[7, true]")?;
/// assert_eq!(rt; bytes.as_slice(), b"\x07\x01".as_slice());
/// ```
pub fn from_json<'a>(
    alloc: Global,
    root: &'a str,
    map: &'a BTreeMap<String, Definition>,
    text: &str,
) -> Result<Vec<u8>, JsonError<'a>>
    ensures says { let F = forms_in map.now in
        IfOk result (λ bytes. TextSays F root.now text.now bytes.items) }
    ensures determined { let F = forms_in map.now in (bytes : List ℕ) →
        TextSays F root.now text.now bytes → IfOk result (λ found. found.items ≡ bytes) }
    ensures in_order { (j : Json) → document text.now ≡ Some j → OnOk result (InOrder (forms_in map.now) root.now j) }
    ensures answers { (bytes : List ℕ) → TextRepresents (forms_in map.now) root.now text.now bytes →
        MatchResult result (λ found. found.items ≡ bytes) IsGivenUp }
    ensures denies { IfErr result (ShowsNoValue (forms_in map.now) root.now text.now) }
    ensures reason { IfErr result (λ e. IsTextReason (definitions_in map.now) root.now text.now e) }
{
    let plan = Plan::new(alloc, root, map)?;
    let json = Table::new(alloc, &plan)?;
    json.from_json(text)
}

impl<'a, 'l> Table<'a, 'l> {
    /// As the function [`from_json`]. Left open: as there.
    pub fn from_json(&self, text: &str) -> Result<Vec<u8>, JsonError<'a>>
        ensures says { IfOk result (λ bytes. SaysBy self.now text.now bytes.items) }
        ensures determined { (bytes : List ℕ) → SaysBy self.now text.now bytes →
            IfOk result (λ found. found.items ≡ bytes) }
        ensures in_order { let plan = self.now.plan.now in (j : Json) → document text.now ≡ Some j →
            OnOk result (InOrder (forms_in (map_of plan)) (root_of plan) j) }
        ensures answers { let plan = self.now.plan.now in (bytes : List ℕ) →
            TextRepresents (forms_in (map_of plan)) (root_of plan) text.now bytes →
            MatchResult result (λ found. found.items ≡ bytes) IsGivenUp }
        ensures denies { let plan = self.now.plan.now in
            IfErr result (ShowsNoValue (forms_in (map_of plan)) (root_of plan) text.now) }
        ensures reason { let plan = self.now.plan.now in
            IfErr result (λ e. IsTextReason (definitions_of plan) (root_of plan) text.now e) }
    {
        let bytes = self.read_text(text)?;
        match self.membership(bytes.as_slice())? {
            Membership::Member => match self.check_order(bytes.as_slice()) {
                Ok(()) => Ok(bytes),
                Err(error) => Err(error),
            },
            Membership::NoMember(_) => Err(JsonError::NoValue),
            Membership::Ambiguous(name) => Err(JsonError::Ambiguous(name)),
        }
    }

    /// The bytes that a text says, which needn't be a member of the root.
    pub(crate) fn read_text(&self, text: &str) -> Result<Vec<u8>, JsonError<'a>>
        ensures says { let plan = self.now.plan.now in let F = forms_in (map_of plan) in
            IfOk result (λ bytes. (j : Json) × (document text.now ≡ Some j) ×
            HaveBytes F ((root_of plan, j) ∷ []) bytes.items) }
        ensures denies { let plan = self.now.plan.now in
            IfErr result (ShowsNoValue (forms_in (map_of plan)) (root_of plan) text.now) }
        ensures reason { let plan = self.now.plan.now in
            IfErr result (λ e. IsTextReason (definitions_of plan) (root_of plan) text.now e) }
    {
        let mut scratch = Scratch::new(self.alloc());
        match Tape::parse(text, &mut scratch, Vec::new(self.alloc())) {
            Ok(tape) => Ok(read_value(self, tape.root())?),
            Err(json::Error::Invalid) => Err(why_not_json(self.alloc(), self.plan().root(), text)),
            // A text of 4 GiB has more places than a tape can number.
            Err(_) => Err(JsonError::OutOfMemory),
        }
    }
}
