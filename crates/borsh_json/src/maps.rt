// The members of an object, by their keys.
ghost use Rattle.borsh_json.specs.Words.{AreKeyed, AreKeysOf, AreSorted, BeginsWith, DeniesRead, Entry, FailsRead, Finds, Form, HasFields, HasKind, HasNoNumber, HaveOneEach, InMembers, IsDistinct, IsKeyReason, IsPermutation, IsRank, IsText, Json, JsonMembers, Keys, Lengths, NamedPlace, ShowsRead, TextKeys, bytes_eq, entries_of, field_bytes, get_member, map_entries, mark_of, object, texts};
ghost use Rattle.std.specs.Prelude.{◌≡◌, ◌⊎◌, ◌≤◌, [], ℕ, IfSome, List, MatchResult, Option, length, map, string_bytes};

use crate::error::{ReadError, Refusal};
use crate::kinds::{KeyKind, NamedFields};
use crate::numbers::Number;
use crate::opening::expected;
use crate::sources::Source;
use json::{Element, Members};
use std::alloc::Global;
use std::collections::BTreeMap;

/// The members of an object by their keys, each of which comes once.
pub fn members_of<'t, 's>(
    alloc: Global,
    element: &Element<'t, 's>,
) -> Result<BTreeMap<&'s str, Element<'t, 's>>, ReadError>
    ensures { (j : Json) → BeginsWith element.now j → MatchResult result
        (λ m. (ms : JsonMembers) × (es : List Entry) × (j ≡ object ms) × IsPermutation (entries_of ms) es ×
        AreKeyed IsText m.entries es × ((name : List ℕ) → Finds (mark_of m name) (get_member name ms)))
        (λ e. DeniesRead (IsKeyReason j) e ((ms : JsonMembers) × (j ≡ object ms) × HaveOneEach (entries_of ms))) }
{
    let Some(mut members) = element.members() else {
        return Err(expected(alloc, "an object"));
    };
    let mut found = BTreeMap::new(alloc);
    while let Some((key, member)) = members.next() {
        let old = found.insert(key, member)?;
        if old.is_some() {
            return Err(ReadError::Refused(Refusal::RepeatedKey(String::from_str(alloc, key)?)));
        }
    }
    Ok(found)
}

/// The members of an object whose keys are numbers, each of which comes once.
fn ranks_of<'t, 's>(
    alloc: Global,
    number: Number,
    element: &Element<'t, 's>,
) -> Result<BTreeMap<u128, Element<'t, 's>>, ReadError>
    ensures { number.size ≤ 16 → (j : Json) → BeginsWith element.now j → MatchResult result
        (λ m. (ms : JsonMembers) × (es : List Entry) × (j ≡ object ms) × IsPermutation (entries_of ms) es ×
        AreKeyed (IsRank number) m.entries es)
        (λ e. ShowsRead (IsKeyReason j) e
        ((((ms : JsonMembers) × (j ≡ object ms) × HaveOneEach (entries_of ms)) → ⊥) ⊎ HasNoNumber number j)) }
{
    let Some(mut members) = element.members() else {
        return Err(expected(alloc, "an object"));
    };
    let mut found = BTreeMap::new(alloc);
    while let Some((key, member)) = members.next() {
        let Some(rank) = number.rank_of(key) else {
            let wanted = number.wanted_key(alloc)?;
            return Err(ReadError::Refused(Refusal::Expected(wanted)));
        };
        let old = found.insert(rank, member)?;
        if old.is_some() {
            return Err(ReadError::Refused(Refusal::RepeatedKey(String::from_str(alloc, key)?)));
        }
    }
    Ok(found)
}

/// The entries of a map in the order of their keys, and how many they are.
pub fn sorted_entries<'t, 's>(
    alloc: Global,
    key_kind: KeyKind,
    element: &Element<'t, 's>,
) -> Result<(Source<'t, 's>, usize), ReadError>
    ensures { (F : List ℕ → Option Form) (ns : List NamedPlace) (x k v : List ℕ) (l : Lengths) (g : Form) (keys : Keys)
        (j : Json) → HasKind F x (map_entries l keys k v) → AreKeysOf F ns k g key_kind keys →
        BeginsWith element.now j →
        MatchResult result (AreSorted keys key_kind j) (FailsRead F x j) }
{
    match key_kind {
        KeyKind::Text => match in_place(element) {
            Some(found) => Ok(found),
            None => match members_of(alloc, element) {
                Ok(members) => {
                    let count = members.len();
                    Ok((Source::Texts(members), count))
                }
                Err(error) => Err(error),
            },
        },
        KeyKind::Number(number) => match ranks_of(alloc, number, element) {
            Ok(members) => {
                let count = members.len();
                Ok((Source::Ranks(members), count))
            }
            Err(error) => Err(error),
        },
    }
}

/// The entries of an object where they stand, if their keys ascend, as those of a map that was written do.
fn in_place<'t, 's>(element: &Element<'t, 's>) -> Option<(Source<'t, 's>, usize)>
    ensures { (j : Json) → BeginsWith element.now j → IfSome result (AreSorted texts TextKeys j) }
{
    let entries = element.members()?;
    let mut members = element.members()?;
    let mut earlier: Option<&[u8]> = None;
    for count in 0..usize::MAX {
        let Some((key, _)) = members.next() else {
            return Some((Source::Entries(entries), count));
        };
        let key = Some(key.as_bytes());
        if earlier.cmp(&key).is_ge() {
            return None;
        }
        earlier = key;
    }
    None
}

/// The members of an object that has these fields.
pub fn fields_of<'t, 's>(
    alloc: Global,
    fields: &NamedFields,
    element: &Element<'t, 's>,
) -> Result<Source<'t, 's>, ReadError>
    ensures { let all = fields.now.items in IsDistinct bytes_eq (map (λ f. string_bytes f.0) all) → (j : Json) →
        BeginsWith element.now j → MatchResult result
        (λ s. (ms : JsonMembers) × (n : ℕ) × (j ≡ object ms) × (n ≡ length (entries_of ms)) ×
        HasFields s [] (map field_bytes all) ms n)
        (λ e. DeniesRead (IsKeyReason j) e ((ms : JsonMembers) × (j ≡ object ms) × HaveOneEach (entries_of ms))) }
{
    match fields_in_place(fields, element) {
        Some(members) => Ok(Source::Entries(members)),
        None => match members_of(alloc, element) {
            Ok(members) => Ok(Source::Members(members)),
            Err(error) => Err(error),
        },
    }
}

/// The members of an object that are these fields, in their order, as those of a struct that was written are.
fn fields_in_place<'t, 's>(
    fields: &NamedFields,
    element: &Element<'t, 's>,
) -> Option<Members<'t, 's>>
    ensures { (j : Json) → BeginsWith element.now j → IfSome result (λ found. (ms : JsonMembers) ×
        (j ≡ object ms) × InMembers found ms ×
        (map (λ e. e.0) (entries_of ms) ≡ map (λ f. string_bytes f.0) fields.now.items)) }
{
    let found = element.members()?;
    let mut members = element.members()?;
    for (field, _) in fields {
        let Some((key, _)) = members.next() else {
            return None;
        };
        let is_next = key == field.as_str();
        if !is_next {
            return None;
        }
    }
    match members.next() {
        Some(_) => None,
        None => Some(found),
    }
}
