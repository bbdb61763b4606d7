// What is told of the names of a plan.
ghost use Rattle.borsh_json.specs.Names.{HasOtherKeys, HasToldKeys, IsFoundListWord, IsFoundWord, IsWord, TellsNames};
ghost use Rattle.borsh_json.specs.Words.{Form, HasKeyOrder, IsAt, NamedPlace, OtherOrder, TellsNoOrder, forms_of, names_of};
ghost use Rattle.std.specs.Prelude.{◌≡◌, ℕ, List, IfOk, MatchBool, Option, string_bytes};

use crate::kinds::{Elements, Kind};
use crate::order::Ordered;
use crate::table::Table;
use crate::writing::text_of;
use json::{Token, Writer};
use std::alloc::AllocError;

impl Table<'_, '_> {
    /// A JSON object that has each name the root leads to, the root first, and how its values are written as JSON: `empty` where they
    /// have no bytes, `bool`, `number`, `signed number`, `float`, `bytes` (other primitives), `text`, `byte list`, `list`, `map` (those that
    /// are objects), `row` (an array of so many), `newtype`, `object`, `option` (those that may be `null`), `enum`; or `refused`. A list
    /// that is a set or map is `sorted`, if an order of its keys is told, but for parts of these. Left open: memory; names whose fields or variants repeat a name.
    ///
    /// ```
    /// assert_eq!(rt; json.names()?, "{\"Vec<u8>\":\"byte list\",\"u8\":\"number\"}");
    /// ```
    pub fn names(&self) -> Result<String, AllocError>
        ensures { IfOk result (λ text. TellsNames (forms_of self.now) (names_of self.now) (string_bytes text)) }
    {
        let mut writer = Writer::new(Vec::new(self.alloc()));
        writer.begin_object()?;
        for at in 0..self.plan().len() {
            writer.key(self.name(at))?;
            writer.string(self.word(at))?;
        }
        writer.end_object()?;
        Ok(text_of(writer.into_inner()))
    }

    /// How the values of the name at a place are written.
    fn word(&self, at: usize) -> &'static str
        ensures { (x : List ℕ) → IsAt (names_of self.now) at x →
            IsWord (forms_of self.now) x result.now }
    {
        match self.kind(at) {
            _ if self.is_zero_size(at) => "empty",
            Some((_, kind)) => word_of(kind),
            None => "refused",
        }
    }
}

fn word_of(kind: Kind<'_>) -> &'static str
    ensures { IsFoundWord kind.entry result.now }
{
    match kind {
        Kind::Number(number) if number.is_signed => "signed number",
        Kind::Number(_) => "number",
        Kind::Bool => "bool",
        Kind::Text => "text",
        Kind::Bytes(_) => "bytes",
        Kind::Float(_) => "float",
        Kind::ByteList(elements) => {
            if is_sorted(elements.order) {
                "sorted byte list"
            } else {
                "byte list"
            }
        }
        Kind::Numbers(elements) => word_of_list(elements),
        Kind::List(elements) => word_of_list(elements),
        Kind::Map(_, _) => "map",
        Kind::Row(_) => "row",
        Kind::Newtype(_) => "newtype",
        Kind::Object(_) => "object",
        Kind::Optional(_) => "option",
        Kind::Choice(_, _) => "enum",
        Kind::Refused(_) => "refused",
    }
}

fn word_of_list(elements: Elements) -> &'static str
    ensures { IsFoundListWord elements result.now }
{
    if is_sorted(elements.order) {
        "sorted list"
    } else {
        "list"
    }
}

/// Whether a list is a set or map of whose keys the names or definitions tell an order.
fn is_sorted(order: Option<Ordered>) -> bool
    ensures { (F : List ℕ → Option Form) (ns : List NamedPlace) (x : List ℕ) →
        HasKeyOrder F ns x order → TellsNoOrder F x order → MatchBool result (HasToldKeys F x) (HasOtherKeys F x) }
{
    match order {
        Some(order) => !is_other(order),
        None => false,
    }
}

fn is_other(order: Ordered) -> bool
    ensures { MatchBool result ((at : ℕ) × (order ≡ OtherOrder at)) ((at : ℕ) → order ≡ OtherOrder at → ⊥) }
{
    match order {
        Ordered::Other(_) => true,
        _ => false,
    }
}
