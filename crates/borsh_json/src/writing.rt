// A value as JSON.
ghost use Rattle.borsh_json.specs.Words.{Adds, AreKeysOf, BeginsNext, EntryOf, Form, FoundBytes, FoundElements, FoundKeyKind, FoundList, FoundNumbers, FoundPart, HasNoBytes, HasNode, HaveBytes, Holds, InOrder, IsAbove, IsAt, IsAwaitingAt, IsBegunOf, IsEntryKey, IsGivenUp, IsKeyPut, IsKindOf, IsLast, IsNoJsonReason, IsPartWritten, IsRepresented, IsWritingAt, IsWrittenNext, Json, Keys, KindHasOrder, KindTellsOrder, Member, NamedPlace, NoneFallsIn, Place, RefusesElements, RisesAt, ShowsFall, ShowsNoJson, StopsBy, TellsAscent, TextRepresents, WritesJson, definitions_in, definitions_of, ends_of, form_of, forms_in, forms_of, map_of, names_of, root_of, shapes, steps_at, steps_through};
ghost use Rattle.borsh_json.specs.Ascii.{IsInLine, IsPlain, IsSameJson};
ghost use Rattle.borsh_json.specs.Printed.{HasQuotedNumbers, IsPrinted};
ghost use Rattle.borsh_json.specs.declared.output.Layout.TheVariants.{Compact};
ghost use Rattle.borsh_json.specs.declared.output.LongNumbers.TheVariants.{Quoted};
ghost use Rattle.borsh_json.specs.declared.output.Characters.TheVariants.{Any, Ascii};
ghost use Rattle.std.specs.Prelude.{◌≡◌, ◌<◌, ◌++◌, ◌∷◌, [], ℕ, All, Decides, IfErr, IfOk, IfSome, IsUtf8, List, MatchResult, OnOk, Option, Some, length, string_bytes, true};

use crate::ascii::{in_ascii, is_ascii};
use crate::error::{JsonError, PartResult, Refusal};
use crate::kinds::{Entries, Kind};
use crate::leaves::{is_above, write_key};
use crate::order::Ordered;
use crate::output::{Characters, Output, Style};
use crate::position::{Key, Part, Parts, Place, Position};
use crate::sources::EntryKey;
use crate::table::Table;
use crate::values::{begin_struct, begin_value};
use borsh_values::{Membership, Node, Plan, Walker, elements_of};
use borsh_walks::Definition;
use json::Token;
use std::alloc::{AllocError, Global};
use std::collections::BTreeMap;

/// The JSON text of the value of `root` that all of `bytes` is, by the definitions of `map` alone.
///
/// It is what `serde_json` prints for the same type, where that and the container determine the bytes:
///
/// - whole numbers are numbers, of 128 bits decimal strings, of 64 bits either, as `style` says; `bool` and `String` are themselves
/// - structs are objects with their fields in order; a struct with one field without a name is that field
/// - tuples, other structs without names for their fields, and lists are arrays
/// - an `Option` is `null` or its value, and where its value may itself be `null` it is written as an enum
/// - a variant without bytes is its name, another one `{"Name": value}`
/// - a `BTreeMap` or `HashMap` whose keys are texts or numbers is an object, another one an array of pairs
/// - lists of `u8` and other primitives are hexadecimal strings, `"0x0a1f"`; a value without bytes is `null`
///
/// Refused with their path are bytes that the type itself would refuse (a `bool` of 2, a `String` that isn't UTF-8, a non-zero
/// number of 0, a NaN, a set or map whose keys don't ascend), two fields or variants of one name, lists with a length whose
/// elements and maps whose keys have no bytes, and values that nest more than 128 deep. The order of keys is told of numbers,
/// `bool`, texts, and of tuples, arrays, lists, ordered sets and maps, and options of these; of structs, enums and others only
/// that two are the same.
///
/// Determined: after `Ok` the text is JSON that says these bytes, and in which keys ascend as far as their order is told, of the
/// characters of the style; a compact one is one line, without control characters; where any are allowed, it has no white space
/// but that of its layout; with quoted numbers each whole number of 64 bits is a string. So no other bytes have it, they are a
/// member of the root ([`crate::text_determines_bytes`]), and [`crate::from_json`] gives them back, but for `OutOfMemory`,
/// `Ambiguous` and `TooDeep`. Bytes that have such a text are refused with these errors alone. `NoMember` and `Ambiguous` are as of
/// [`borsh_values::is_member`], and `NoValue` and `NotJson` aren't returned. After `Refused` they are a member, and the path leads
/// from the root to a part of this kind: `TooDeep`, a value inside of 128 others; `Descends`, an element of a set or an entry of a
/// map that isn't above the one before it, as far as the order of its keys is told; others, a value of the kind that the refusal
/// names, which no JSON says. Left open: memory; which of such texts: tested.
///
/// ```
/// let text = to_json(alloc, "(u8, bool)", &definitions, &[7, 1], Style::COMPACT)?;
/// assert_eq!(rt; text, "[7,true]");
/// ```
pub fn to_json<'a>(
    alloc: Global,
    root: &'a str,
    map: &'a BTreeMap<String, Definition>,
    bytes: &[u8],
    style: Style,
) -> Result<String, JsonError<'a>>
    ensures says { let F = forms_in map.now in
        IfOk result (λ text. TextRepresents F root.now (string_bytes text) bytes.now) }
    ensures ascii { style.characters ≡ Ascii → IfOk result (λ text. All IsPlain (string_bytes text)) }
    ensures line { style.layout ≡ Compact → IfOk result (λ text. All IsInLine (string_bytes text)) }
    ensures printed { style.characters ≡ Any →
        IfOk result (λ text. IsPrinted style.layout (string_bytes text)) }
    ensures quoted { let F = forms_in map.now in style.long_numbers ≡ Quoted →
        IfOk result (λ text. HasQuotedNumbers F root.now (string_bytes text)) }
    ensures reason { IfErr result (λ e. IsNoJsonReason (definitions_in map.now) root.now bytes.now e) }
    ensures refused { IfErr result (λ e. ShowsNoJson (forms_in map.now) root.now bytes.now e) }
    ensures complete { IsRepresented (forms_in map.now) root.now bytes.now → IfErr result IsGivenUp }
{
    let plan = Plan::new(alloc, root, map)?;
    let json = Table::new(alloc, &plan)?;
    json.to_json(bytes, style)
}

impl<'a, 'l> Table<'a, 'l> {
    /// As the function [`to_json`]. Left open: as there.
    pub fn to_json(&self, bytes: &[u8], style: Style) -> Result<String, JsonError<'a>>
        ensures says { let l = self.now.plan.now in
            IfOk result (λ text. TextRepresents (forms_in (map_of l)) (root_of l) (string_bytes text) bytes.now) }
        ensures ascii { style.characters ≡ Ascii → IfOk result (λ text. All IsPlain (string_bytes text)) }
        ensures line { style.layout ≡ Compact → IfOk result (λ text. All IsInLine (string_bytes text)) }
        ensures printed { style.characters ≡ Any →
            IfOk result (λ text. IsPrinted style.layout (string_bytes text)) }
        ensures quoted { let l = self.now.plan.now in style.long_numbers ≡ Quoted →
            IfOk result (λ text. HasQuotedNumbers (forms_in (map_of l)) (root_of l) (string_bytes text)) }
        ensures reason { let l = self.now.plan.now in
            IfErr result (λ e. IsNoJsonReason (definitions_of l) (root_of l) bytes.now e) }
        ensures refused { let l = self.now.plan.now in
            IfErr result (λ e. ShowsNoJson (forms_in (map_of l)) (root_of l) bytes.now e) }
        ensures complete { let l = self.now.plan.now in
            IsRepresented (forms_in (map_of l)) (root_of l) bytes.now → IfErr result IsGivenUp }
    {
        let out = self.write(bytes, Output::new(self.alloc(), style))?;
        let Some(text) = out.into_bytes(style) else {
            return Err(JsonError::OutOfMemory);
        };
        Ok(in_characters(self.alloc(), text_of(text), style.characters)?)
    }

    /// Writes the value that the bytes are. Left open: memory.
    pub(crate) fn write(&self, bytes: &[u8], out: Output) -> Result<Output, JsonError<'a>>
        requires { Holds out [] }
        ensures member { let l = self.now.plan.now in
            OnOk result (Member (definitions_of l) (root_of l) bytes.now) }
        ensures written { let l = self.now.plan.now in
            IfOk result (WritesJson (forms_in (map_of l)) (root_of l) bytes.now) }
        ensures reason { let l = self.now.plan.now in
            IfErr result (λ e. IsNoJsonReason (definitions_of l) (root_of l) bytes.now e) }
        ensures refused { let l = self.now.plan.now in
            IfErr result (λ e. ShowsNoJson (forms_in (map_of l)) (root_of l) bytes.now e) }
        ensures complete { let l = self.now.plan.now in
            IsRepresented (forms_in (map_of l)) (root_of l) bytes.now → IfErr result IsGivenUp }
    {
        match self.membership(bytes)? {
            Membership::Member => write_value(self, bytes, out),
            Membership::NoMember(fault) => Err(JsonError::NoMember(fault)),
            Membership::Ambiguous(name) => Err(JsonError::Ambiguous(name)),
        }
    }
}

/// The text, with these characters alone: it is read as the same JSON. Left open: memory.
fn in_characters(alloc: Global, text: String, characters: Characters) -> Result<String, AllocError>
    ensures same { IfOk result (λ new. IsSameJson (string_bytes text) (string_bytes new)) }
    ensures kept { characters ≡ Any → IfOk result (λ kept. string_bytes kept ≡ string_bytes text) }
    ensures ascii { characters ≡ Ascii → IfOk result (λ text. All IsPlain (string_bytes text)) }
    ensures line { All IsInLine (string_bytes text) → IfOk result (λ text. All IsInLine (string_bytes text)) }
{
    if characters == Characters::Any || is_ascii(text.as_str()) {
        return Ok(text);
    }
    Ok(text_of(in_ascii(alloc, text.as_str())?))
}

/// The text of bytes, which are UTF-8.
pub fn text_of(bytes: Vec<u8>) -> String
    requires { IsUtf8 bytes.items }
    ensures { string_bytes result ≡ bytes.items }
{
    match String::from_utf8(bytes) {
        Ok(text) => text,
        Err(_) => unreachable!(),
    }
}

impl<'a, 'l> Table<'a, 'l> {
    /// Refuses a member that a text says where a list of it has to ascend and doesn't.
    pub(crate) fn check_order(&self, bytes: &[u8]) -> Result<(), JsonError<'a>>
        requires { Member (shapes (forms_of self.now)) (root_of self.now.plan.now) bytes.now }
        ensures in_order { let F = forms_of self.now in let root = root_of self.now.plan.now in (j : Json) →
            HaveBytes F ((root, j) ∷ []) bytes.now → OnOk result (InOrder F root j) }
        ensures falls { let F = forms_of self.now in let root = root_of self.now.plan.now in (j : Json) →
            HaveBytes F ((root, j) ∷ []) bytes.now → IfErr result (ShowsFall F root j) }
    {
        if !self.ascends() {
            return Ok(());
        }
        match write_value(self, bytes, Output::Nothing) {
            Ok(_) => Ok(()),
            Err(JsonError::Ambiguous(name)) => Err(JsonError::Ambiguous(name)),
            Err(JsonError::Refused(path, Refusal::Descends)) => {
                Err(JsonError::Refused(path, Refusal::Descends))
            }
            // No other part is refused of what was read, which doesn't nest too deep.
            Err(_) => Err(JsonError::OutOfMemory),
        }
    }
}

/// Writes a member.
fn write_value<'a>(json: &Table<'a, '_>, bytes: &[u8], out: Output) -> Result<Output, JsonError<'a>>
    requires member { Member (shapes (forms_of json.now)) (root_of json.now.plan.now) bytes.now }
    requires empty { Holds out [] }
    ensures written { IfOk result (WritesJson (forms_of json.now) (root_of json.now.plan.now) bytes.now) }
    ensures stops { IfErr result (StopsBy json.now bytes.now) }
{
    let alloc = json.alloc();
    let plan = json.plan();
    let walk = Walker::new(alloc, plan, bytes);
    let position = Position::new(alloc, plan.root());
    let mut writing = Writing {
        walk,
        position,
        out,
        bytes,
    };
    for _ in 0..u64::MAX {
        let more = writing.write_next(json)?;
        if !more {
            return Ok(writing.out);
        }
    }
    Err(JsonError::OutOfMemory)
}

/// What is left of the bytes, and where the writer is.
#[derive(Drop)]
struct Writing<'a, 'l, 'b> {
    walk: Walker<'a, 'l, 'b>,
    position: Position<'a, 'b>,
    out: Output,
    bytes: &'b [u8],
}

impl<'a, 'l, 'b> Writing<'a, 'l, 'b> {
    /// Writes the next part, or goes back to the parts around; says no at the end of the value.
    fn write_next(&mut self, json: &Table<'a, '_>) -> Result<bool, JsonError<'a>>
        requires { IsWritingAt json.now self.old self.old.position.place }
        ensures state { IsWrittenNext json.now self.old self.new result }
        ensures bytes { self.new.bytes ≡ self.old.bytes }
    {
        let Some(part) = self.position.place.next_part(json) else {
            write_end(self.position.place.parts, &mut self.out)?;
            return Ok(self.position.leave());
        };
        let place = &mut self.position.place;
        let is_above = ascends(json, place, self.walk.offset, self.bytes)?;
        if !is_above {
            return Err(self.position.refused_element(Refusal::Descends).into());
        }
        self.write_key(json, part)?;
        self.write_part(json, part.at)?;
        Ok(true)
    }

    /// Writes the key of a part that was begun, where it has one.
    fn write_key(&mut self, json: &Table<'a, '_>, part: Part<'a>) -> Result<(), JsonError<'a>>
        ensures key { (p : Place) → IsWritingAt json.now self.old p → RisesAt json.now self.old p →
            IsBegunOf json.now self.old.walk.offset p self.old.position.place part.entry →
            IsKeyPut json.now part.entry.at self.old self.new result }
        ensures bytes { self.new.bytes ≡ self.old.bytes }
    {
        match part.key {
            Key::None => Ok(()),
            Key::Name(name) => Ok(self.out.put(Token::Key(name))?),
            Key::Entry(entries) => self.write_entry_key(json, entries),
        }
    }

    /// Writes the key of an entry of a map, which has to be above the one before it.
    fn write_entry_key(
        &mut self,
        json: &Table<'a, '_>,
        entries: Entries<'a>,
    ) -> Result<(), JsonError<'a>>
        ensures key { (p : Place) (part : FoundPart) →
            IsWritingAt json.now self.old p → RisesAt json.now self.old p → part.key ≡ EntryOf entries.entry →
            IsBegunOf json.now self.old.walk.offset p self.old.position.place part →
            IsKeyPut json.now part.at self.old self.new result }
        ensures bytes { self.new.bytes ≡ self.old.bytes }
    {
        let Some(node) = self.walk.open(entries.key, 0)? else {
            return Err(JsonError::Ambiguous(json.name(entries.key)));
        };
        match write_key(entries.key_kind, &node, &mut self.out) {
            Ok(key) => {
                if !is_next(self.position.place.last, key) {
                    return Err(self.position.refused_element(Refusal::Descends).into());
                }
                self.position.place.last = Some(key);
                Ok(())
            }
            Err(error) => Err(self.position.refused_key(error).into()),
        }
    }

    /// Writes a part, or its beginning, and goes into its parts.
    fn write_part(&mut self, json: &Table<'a, '_>, at: usize) -> Result<(), JsonError<'a>>
        ensures part { (x : List ℕ) → IsAt (names_of json.now) at x →
            IsAwaitingAt json.now self.old x → IsPartWritten json.now self.old self.new result }
        ensures bytes { self.new.bytes ≡ self.old.bytes }
    {
        if json.is_zero_size(at) {
            return Ok(self.out.put(Token::Null)?);
        }
        let Some((_, kind)) = json.kind(at) else {
            return Err(JsonError::NoValue);
        };
        match begin_struct(json.alloc(), at, kind, &mut self.out) {
            Ok(Some(place)) => Ok(self.position.enter(place)?),
            Ok(None) => self.write_node(json, at, kind),
            Err(error) => Err(self.position.refused_value(error).into()),
        }
    }

    /// Writes a part of a kind that has own bytes, or its beginning.
    fn write_node(
        &mut self,
        json: &Table<'a, '_>,
        at: usize,
        kind: Kind<'a>,
    ) -> Result<(), JsonError<'a>>
        ensures part { let F = forms_of json.now in let ns = names_of json.now in
            (x : List ℕ) (f : Form) → IsAt ns at x → F x ≡ Some f →
            IsKindOf F ns x f kind.entry → KindHasOrder F ns x kind.entry →
            KindTellsOrder F x kind.entry → (HasNoBytes F x → ⊥) → HasNode kind.entry →
            IsAwaitingAt json.now self.old x → IsPartWritten json.now self.old self.new result }
        ensures bytes { self.new.bytes ≡ self.old.bytes }
    {
        let Some(node) = self.walk.open(at, 0)? else {
            return Err(JsonError::Ambiguous(json.name(at)));
        };
        check_elements(&self.position, kind, &node)?;
        match begin_value(json, at, kind, &node, &mut self.out) {
            Ok(Some(place)) => Ok(self.position.enter(place.in_order(order_of(kind)))?),
            Ok(None) => Ok(()),
            Err(error) => Err(self.position.refused_value(error).into()),
        }
    }
}

/// How a list's parts ascend that are written one by one, if they have to.
fn order_of(kind: Kind<'_>) -> Option<Ordered>
    ensures list { IfSome result (λ order. (es : FoundElements) × (kind.entry ≡ FoundList es) × (es.order ≡ Some order)) }
    ensures all { (es : FoundElements) → kind.entry ≡ FoundList es → result ≡ es.order }
{
    match kind {
        Kind::List(elements) => elements.order,
        _ => None,
    }
}

/// Refuses a list that is written whole where it has no room, or its elements have to ascend and don't.
fn check_elements<'a>(
    position: &Position<'a, '_>,
    kind: Kind<'a>,
    node: &Node<'_, '_>,
) -> PartResult<'a, ()>
    ensures room { OnOk result ((es : FoundElements) → kind.entry ≡ FoundNumbers es → length position.now.outer.items < 128) }
    ensures full { let p = position.now in IfErr result (RefusesElements p.root.now
        (steps_through p.outer.items ++ steps_at p.place) (length p.outer.items) kind.entry node.now) }
    ensures bytes { let f = form_of node.now.definition.now in
        OnOk result ((es : FoundElements) → kind.entry ≡ FoundBytes es → NoneFallsIn es f node.now.bytes.now) }
    ensures numbers { let f = form_of node.now.definition.now in
        OnOk result ((es : FoundElements) → kind.entry ≡ FoundNumbers es → NoneFallsIn es f node.now.bytes.now) }
{
    match kind {
        Kind::ByteList(elements) => position.check_ascent(elements, elements_of(node)),
        Kind::Numbers(elements) => {
            position.check_room()?;
            position.check_ascent(elements, elements_of(node))
        }
        _ => Ok(()),
    }
}

/// Whether a key of a map is above the last one, if there is one.
fn is_next(last: Option<EntryKey<'_>>, key: EntryKey<'_>) -> bool
    ensures { (F : List ℕ → Option Form) (ns : List NamedPlace) (k : List ℕ) (f : Form) (kind : FoundKeyKind)
        (keys : Keys) (o : Option (List ℕ)) (s : List ℕ) → AreKeysOf F ns k f kind keys →
        IsLast kind last.entry o → IsEntryKey kind key.entry s → Decides result (IsAbove keys o s) }
{
    match last {
        Some(last) => is_above(key, last),
        None => true,
    }
}

/// Ends the brackets of a place.
fn write_end(parts: Parts<'_>, out: &mut Output) -> Result<(), AllocError>
    ensures { OnOk result (Adds (ends_of parts.entry) out.old out.new) }
{
    match parts {
        Parts::Root | Parts::Newtype(_) | Parts::Some(_) => Ok(()),
        Parts::List(_, _) | Parts::Row(_, _) => out.put(Token::EndArray),
        Parts::Object(_, _) | Parts::Entries(_, _) | Parts::Variant(_, _) => {
            out.put(Token::EndObject)
        }
    }
}

/// Whether the next element is above the one before it, where elements have to ascend; it begins at an offset.
fn ascends(
    json: &Table<'_, '_>,
    place: &mut Place<'_, '_>,
    offset: usize,
    bytes: &[u8],
) -> Result<bool, AllocError>
    ensures same { (place.new.parts ≡ place.old.parts) × (place.new.begun ≡ place.old.begun) × (place.new.last ≡ place.old.last) }
    ensures begins { BeginsNext place.old.ascent offset place.new.ascent }
    ensures tells { IfOk result (TellsAscent json.now bytes.now place.old.ascent offset) }
{
    let Some(ascent) = &mut place.ascent else {
        return Ok(true);
    };
    ascent.begin(offset);
    ascent.ascends(json, bytes)
}
