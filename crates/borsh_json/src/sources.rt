// The JSON of the parts of a value that are left.
ghost use Rattle.borsh_json.specs.Words.{BeginsWith, Entry, FoundKeyKind, HasEntries, HasFields, HasItems, IsEntryKey, IsLeft, Json, JsonItems, JsonMembers, NoneLeft, Wanted, get_member, item, no_items};
ghost use Rattle.std.specs.Prelude.{◌≡◌, ◌∷◌, ◌++◌, [], ℕ, List, MatchOption, None, Some, suc};

use json::{Element, Items, Members};
use std::collections::BTreeMap;

/// The JSON of the parts of a value that are left.
#[derive(Drop)]
pub enum Source<'t, 's> {
    One(Option<Element<'t, 's>>),
    Items(Items<'t, 's>),
    Members(BTreeMap<&'s str, Element<'t, 's>>),
    /// The values of entries, whose keys are texts and ascend; or of fields, which come in their order.
    Entries(Members<'t, 's>),
    /// The values of entries, by their keys.
    Texts(BTreeMap<&'s str, Element<'t, 's>>),
    /// The values of entries, by numbers that order their keys: see [`crate::numbers::Number::rank_of`].
    Ranks(BTreeMap<u128, Element<'t, 's>>),
}

/// The key of an entry, or the number that orders it.
#[derive(Clone, Copy)]
pub enum EntryKey<'s> {
    Text(&'s str),
    Rank(u128),
}

impl<'t, 's> Source<'t, 's> {
    /// The JSON of the next part; of an object that of this field.
    pub fn take(&mut self, field: &str) -> Option<Element<'t, 's>>
        ensures items { (js : JsonItems) → HasItems self.old js → MatchOption result (js ≡ no_items)
            (λ e. (j : Json) × (rest : JsonItems) × (js ≡ item j rest) × BeginsWith e j × HasItems self.new rest) }
        ensures fields { (gs : List Wanted) (f : Wanted) (fs : List Wanted) (ms : JsonMembers) (n : ℕ) →
            HasFields self.old gs (f ∷ fs) ms n → field.now ≡ f.0 → MatchOption result (get_member f.0 ms ≡ None)
            (λ e. (j : Json) × (m : ℕ) × (get_member f.0 ms ≡ Some j) × BeginsWith e j × (n ≡ suc m) ×
            HasFields self.new (gs ++ f ∷ []) fs ms m) }
    {
        match self {
            Source::One(element) => element.take(),
            Source::Items(items) => items.next(),
            Source::Members(members) => members.remove(field),
            Source::Entries(members) => match members.next() {
                Some((_, element)) => Some(element),
                None => None,
            },
            _ => None,
        }
    }

    /// The next entry of a map.
    pub fn take_entry(&mut self) -> Option<(EntryKey<'s>, Element<'t, 's>)>
        ensures { (kind : FoundKeyKind) (es : List Entry) → HasEntries kind self.old es →
            MatchOption result (es ≡ [])
            (λ r. (k : List ℕ) × (j : Json) × (rest : List Entry) × (es ≡ (k, j) ∷ rest) × IsEntryKey kind r.0 k ×
            BeginsWith r.1 j × HasEntries kind self.new rest) }
    {
        match self {
            Source::Entries(members) => match members.next() {
                Some((text, element)) => Some((EntryKey::Text(text), element)),
                None => None,
            },
            Source::Texts(members) => match members.pop_first() {
                Some((text, element)) => Some((EntryKey::Text(text), element)),
                None => None,
            },
            Source::Ranks(members) => match members.pop_first() {
                Some((rank, element)) => Some((EntryKey::Rank(rank), element)),
                None => None,
            },
            _ => None,
        }
    }

    /// A key of an object that is no field: one that is left.
    pub fn unknown_key(&self) -> Option<&'s str>
        ensures { MatchOption result (NoneLeft self.now) (λ key. IsLeft self.now key.now) }
    {
        match self {
            Source::Members(members) => match members.first_key_value() {
                Some((key, _)) => Some(*key),
                None => None,
            },
            _ => None,
        }
    }
}
