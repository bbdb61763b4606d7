// What the JSON of a part says by its definition: its own bytes, and the parts that it has.
ghost use Rattle.borsh_json.specs.Words.{AddsList, BeginsWith, DeniesRead, Form, FoundMap, FoundObject, FoundOrder, FoundRow, HasKind, InItems, InMembers, IsArrayOf, IsAt, IsDistinct, IsExpected, IsHex, IsKindOf, IsNumber, IsOpened, IsUnexpected, IsVariantAt, Json, JsonItems, JsonMembers, NamedPlace, NamesVariant, OneSource, Opens, OutOfMemory, SaysArray, TableKind, array, byte_list, bytes_eq, float, float_size, form_of, forms_in, lengths_of, list_parts, map_of, no_bytes, object, optional, plan_names, raw, spec_variants, string, tag, truth, utf8, variant_bytes, whole};
ghost use Rattle.std.specs.Float.{Format};
ghost use Rattle.std.specs.Prelude.{◌≡◌, ◌++◌, ◌≤◌, [], ℕ, List, IfSome, Option, MatchOption, MatchResult, OnOk, Some, false, length, map, option_map, pos, string_bytes, take};

use crate::digits::hexadecimal;
use crate::error::{ReadError, Refusal};
use crate::floats::bits_of;
use crate::kinds::{Elements, Entries, KeyKind, Kind, NamedFields, Variants};
use crate::maps::{fields_of, sorted_entries};
use crate::numbers::Number;
use crate::position::{Parts, Place};
use crate::prefixes::{put_count, put_tag};
use crate::sources::Source;
use crate::table::Table;
use borsh_walks::Definition;
use json::{Element, Items, Members};
use std::alloc::{AllocError, Global};

/// The parts of a value, and the JSON of those that are left.
#[derive(Drop)]
pub struct Frame<'a, 't, 's> {
    pub place: Place<'a, 'static>,
    pub source: Source<'t, 's>,
}

/// What is opened: the parts of a value, if it has some.
pub type Opened<'a, 't, 's> = Result<Option<Frame<'a, 't, 's>>, ReadError>;

/// Adds the own bytes of the value of the name at a place that the JSON says.
pub fn open_part<'a, 't, 's>(
    json: &Table<'a, '_>,
    at: usize,
    element: Element<'t, 's>,
    out: &mut Vec<u8>,
) -> Opened<'a, 't, 's>
    ensures { let F = forms_in (map_of json.now.plan.now) in
        let ns = plan_names json.now.plan.now in
        (x : List ℕ) (j : Json) → IsAt ns at x →
        BeginsWith element.entry j →
        IsOpened F ns x j out.old.items out.new.items result }
{
    if json.is_zero_size(at) {
        return open_null(json.alloc(), &element);
    }
    let Some((definition, kind)) = json.kind(at) else {
        let name = String::from_str(json.alloc(), json.name(at))?;
        return Err(ReadError::Refused(Refusal::Undefined(name)));
    };
    open_kind(json, at, definition, kind, element, out)
}

fn open_kind<'a, 't, 's>(
    json: &Table<'a, '_>,
    at: usize,
    definition: &'a Definition,
    kind: Kind<'a>,
    element: Element<'t, 's>,
    out: &mut Vec<u8>,
) -> Opened<'a, 't, 's>
    ensures { let F = forms_in (map_of json.now.plan.now) in
        let ns = plan_names json.now.plan.now in let f = form_of definition.now in
        (x : List ℕ) (j : Json) → IsAt ns at x → F x ≡ Some f →
        IsKindOf F ns x f kind.entry →
        BeginsWith element.entry j → IsOpened F ns x j out.old.items out.new.items result }
{
    let alloc = json.alloc();
    match kind {
        Kind::Number(number) => open_number(alloc, number, &element, out),
        Kind::Bool => open_bool(alloc, &element, out),
        Kind::Bytes(size) => open_bytes(alloc, size, &element, out),
        Kind::Float(size) => open_float(alloc, size, &element, out),
        Kind::Text => open_text(alloc, definition, &element, out),
        Kind::ByteList(elements) => open_byte_list(alloc, definition, elements, &element, out),
        Kind::Numbers(elements) => open_items(alloc, definition, elements, &element, out),
        Kind::List(elements) => open_items(alloc, definition, elements, &element, out),
        Kind::Map(entries, _) => open_map(alloc, definition, entries, &element, out),
        Kind::Row(count) => open_row(alloc, at, count, &element),
        Kind::Newtype(part) => Ok(only(Parts::Newtype(part), element)),
        Kind::Object(fields) => open_object(alloc, at, fields, &element),
        Kind::Optional(part) => open_option(part, element, out),
        Kind::Choice(width, variants) => { open_variant(json, at, width, variants, &element, out) }
        Kind::Refused(flaw) => Err(ReadError::Refused(flaw.refusal(alloc)?)),
    }
}

/// The only part of a value.
fn only<'a, 't, 's>(parts: Parts<'a>, element: Element<'t, 's>) -> Option<Frame<'a, 't, 's>>
    ensures { MatchOption result ⊥ (λ f. (f.place.parts ≡ parts.entry) × (f.place.begun ≡ 0) ×
        (f.source ≡ OneSource (Some element.entry))) }
{
    Some(Frame {
        place: Place::new(parts),
        source: Source::One(Some(element)),
    })
}

fn open_null<'a, 't, 's>(alloc: Global, element: &Element<'t, 's>) -> Opened<'a, 't, 's>
    ensures { Opens (λ F ns x. HasKind F x no_bytes) element.now [] [] result }
{
    if element.is_null() {
        Ok(None)
    } else {
        Err(expected(alloc, "null"))
    }
}

fn open_bool<'a, 't, 's>(
    alloc: Global,
    element: &Element<'t, 's>,
    out: &mut Vec<u8>,
) -> Opened<'a, 't, 's>
    ensures { Opens (λ F ns x. HasKind F x truth) element.now out.old.items out.new.items result }
{
    match element.as_bool() {
        Some(true) => {
            out.push(1)?;
            Ok(None)
        }
        Some(false) => {
            out.push(0)?;
            Ok(None)
        }
        None => Err(expected(alloc, "true or false")),
    }
}

/// The text of a number of the type, as JSON has it.
fn number_text<'s>(number: Number, element: &Element<'_, 's>) -> Option<&'s str>
    ensures { (j : Json) → BeginsWith element.now j → MatchOption result
        ((s : List ℕ) → IsNumber number.size s j → ⊥) (λ s. IsNumber number.size s.now j) }
{
    if number.is_quoted() {
        return element.as_str();
    }
    match element.as_number() {
        Some(text) => Some(text),
        None => {
            if number.is_long() {
                element.as_str()
            } else {
                None
            }
        }
    }
}

fn open_number<'a, 't, 's>(
    alloc: Global,
    number: Number,
    element: &Element<'t, 's>,
    out: &mut Vec<u8>,
) -> Opened<'a, 't, 's>
    ensures { Opens (λ F ns x. HasKind F x (whole number.size number.is_signed number.is_non_zero))
        element.now out.old.items out.new.items result }
{
    let Some(text) = number_text(number, element) else {
        return Err(unless(number.wanted(alloc)));
    };
    match number.bytes(text) {
        Some(bytes) => {
            put_number(number, bytes, out)?;
            Ok(None)
        }
        None => Err(unless(number.wanted(alloc))),
    }
}

/// Adds the bytes of a number of the type.
pub fn put_number(number: Number, bytes: [u8; 16], out: &mut Vec<u8>) -> Result<(), AllocError>
    ensures { number.size ≤ 16 → OnOk result (out.new.items ≡ out.old.items ++ take number.size bytes) }
{
    let own = &bytes[..usize::from(number.size).min(16)];
    Ok(out.extend_from_slice(own)?)
}

fn open_bytes<'a, 't, 's>(
    alloc: Global,
    size: u8,
    element: &Element<'t, 's>,
    out: &mut Vec<u8>,
) -> Opened<'a, 't, 's>
    ensures { Opens (λ F ns x. HasKind F x (raw size))
        element.now out.old.items out.new.items result }
{
    match fixed_bytes(alloc, size, element) {
        Ok(bytes) => {
            out.extend_from_slice(bytes.as_slice())?;
            Ok(None)
        }
        Err(error) => Err(error),
    }
}

fn open_float<'a, 't, 's>(
    alloc: Global,
    size: u8,
    element: &Element<'t, 's>,
    out: &mut Vec<u8>,
) -> Opened<'a, 't, 's>
    ensures { Opens (λ F ns x. (f : Format) × (size ≡ float_size f) × HasKind F x (float f))
        element.now out.old.items out.new.items result }
{
    match bits_of(size, element) {
        Some(bits) => {
            put_count(out, size, bits)?;
            Ok(None)
        }
        None => Err(expected(alloc, "a number, \"inf\" or \"-inf\"")),
    }
}

/// The bytes that `0x` and digits say, which are so many.
fn fixed_bytes(alloc: Global, size: u8, element: &Element<'_, '_>) -> Result<Vec<u8>, ReadError>
    ensures { (j : Json) → BeginsWith element.now j → MatchResult result
        (λ v. IsHex j v.items × (length v.items ≡ size))
        (λ e. DeniesRead IsUnexpected e ((bs : List ℕ) × IsHex j bs × (length bs ≡ size))) }
{
    let Some(text) = element.as_str() else {
        return Err(wrong_size(alloc, size));
    };
    let wanted = usize::from(size);
    match digits_of(alloc, text) {
        Ok(bytes) => {
            if bytes.len() == wanted {
                Ok(bytes)
            } else {
                Err(wrong_size(alloc, size))
            }
        }
        Err(error) => Err(error),
    }
}

/// The refusal of other digits than for so many bytes.
fn wrong_size(alloc: Global, size: u8) -> ReadError
    ensures { IsExpected result }
{
    unless(format!(in alloc; "\"0x..\" of {size} bytes"))
}

/// The bytes that `0x` and digits say.
fn digits_of(alloc: Global, text: &str) -> Result<Vec<u8>, ReadError>
    ensures { MatchResult result (λ v. IsHex (string text.now) v.items)
        (λ e. DeniesRead IsUnexpected e ((bs : List ℕ) × IsHex (string text.now) bs)) }
{
    match hexadecimal(alloc, text) {
        Ok(found) => match found {
            Some(bytes) => Ok(bytes),
            None => Err(expected(alloc, "\"0x..\", hexadecimal digits")),
        },
        Err(_) => Err(ReadError::OutOfMemory),
    }
}

fn open_text<'a, 't, 's>(
    alloc: Global,
    definition: &Definition,
    element: &Element<'t, 's>,
    out: &mut Vec<u8>,
) -> Opened<'a, 't, 's>
    ensures { Opens (λ F ns x. HasKind F x (utf8 (lengths_of (form_of definition.now))))
        element.now out.old.items out.new.items result }
{
    match element.as_str() {
        Some(text) => match put_list(alloc, definition, text.as_bytes(), out) {
            Ok(()) => Ok(None),
            Err(error) => Err(error),
        },
        None => Err(expected(alloc, "a string")),
    }
}

fn open_byte_list<'a, 't, 's>(
    alloc: Global,
    definition: &Definition,
    elements: Elements,
    element: &Element<'t, 's>,
    out: &mut Vec<u8>,
) -> Opened<'a, 't, 's>
    ensures { (F : List ℕ → Option Form) (ns : List NamedPlace) (x : List ℕ) (j : Json) (e : List ℕ) →
        IsAt ns elements.at e → HasKind F x (byte_list (lengths_of (form_of definition.now)) e) →
        BeginsWith element.now j →
        IsOpened F ns x j out.old.items out.new.items result }
{
    let Some(text) = element.as_str() else {
        return open_items(alloc, definition, elements, element, out);
    };
    match digits_of(alloc, text) {
        Ok(bytes) => match put_list(alloc, definition, bytes.as_slice(), out) {
            Ok(()) => Ok(None),
            Err(error) => Err(error),
        },
        Err(error) => Err(error),
    }
}

/// Adds a list of bytes.
pub fn put_list(
    alloc: Global,
    definition: &Definition,
    bytes: &[u8],
    out: &mut Vec<u8>,
) -> Result<(), ReadError>
    ensures { AddsList (lengths_of (form_of definition.now)) bytes.now out.old.items out.new.items result }
{
    match put_length(alloc, definition, bytes.len(), out) {
        Ok(()) => {
            out.extend_from_slice(bytes)?;
            Ok(())
        }
        Err(error) => Err(error),
    }
}

/// Adds the number of elements, where it is in the range of the list.
fn put_length(
    alloc: Global,
    definition: &Definition,
    count: usize,
    out: &mut Vec<u8>,
) -> Result<(), ReadError>
    ensures { let l = lengths_of (form_of definition.now) in MatchResult result
        (λ _. (l.least ≤ count) × (count ≤ l.greatest) ×
        (out.new.items ≡ out.old.items ++ tag l.width (pos count)))
        (λ e. DeniesRead IsUnexpected e ((l.least ≤ count) × (count ≤ l.greatest))) }
{
    let Definition::Sequence {
        length_width,
        length_range,
        ..
    } = definition
    else {
        // Only sequences have lengths.
        return Err(expected(alloc, "a value of another kind"));
    };
    let count = count as u64;
    let (start, end) = (length_range.start, length_range.end);
    if count < start || end < count {
        let wanted = wanted_length(alloc, start, end)?;
        return Err(ReadError::Refused(Refusal::Expected(wanted)));
    }
    put_count(out, *length_width, count)?;
    Ok(())
}

/// How many elements a list has to have.
fn wanted_length(alloc: Global, start: u64, end: u64) -> Result<String, AllocError> {
    match (start, end) {
        (1, 1) => String::from_str(alloc, "1 element"),
        _ if start == end => format!(in alloc; "{start} elements"),
        _ => format!(in alloc; "{start} to {end} elements"),
    }
}

/// How many items are left; none if there are too many to count.
fn count_items(items: Items<'_, '_>) -> Option<usize>
    ensures { (js : JsonItems) → InItems items.entry js → IfSome result (λ n. n ≡ length (list_parts [] js)) }
{
    let mut items = items;
    let mut count: usize = 0;
    while let Some(_item) = items.next() {
        if count == usize::MAX {
            return None;
        }
        count += 1;
    }
    Some(count)
}

/// The items of an array.
#[derive(Drop)]
enum Array<'t, 's> {
    No,
    TooLong,
    Of(Items<'t, 's>, usize),
}

fn array_of<'t, 's>(element: &Element<'t, 's>) -> Array<'t, 's>
    ensures { (j : Json) → BeginsWith element.now j → IsArrayOf j result }
{
    let (Some(items), Some(left)) = (element.items(), element.items()) else {
        return Array::No;
    };
    match count_items(left) {
        Some(count) => Array::Of(items, count),
        None => Array::TooLong,
    }
}

fn open_items<'a, 't, 's>(
    alloc: Global,
    definition: &Definition,
    elements: Elements,
    element: &Element<'t, 's>,
    out: &mut Vec<u8>,
) -> Opened<'a, 't, 's>
    ensures { (F : List ℕ → Option Form) (ns : List NamedPlace) (x : List ℕ) (j : Json)
        (kind : TableKind) (e : List ℕ) →
        IsAt ns elements.at e → HasKind F x kind →
        SaysArray F j kind (lengths_of (form_of definition.now)) e → BeginsWith element.now j →
        IsOpened F ns x j out.old.items out.new.items result }
{
    match array_of(element) {
        Array::Of(items, count) => match put_length(alloc, definition, count, out) {
            Ok(()) => {
                let parts: Parts<'a> = Parts::List(elements.at, count as u64);
                let place: Place<'a, 'static> = Place::new(parts);
                let source = Source::Items(items);
                Ok(Some(Frame { place, source }))
            }
            Err(error) => Err(error),
        },
        Array::No => Err(expected(alloc, "an array")),
        Array::TooLong => Err(ReadError::OutOfMemory),
    }
}

fn open_row<'a, 't, 's>(
    alloc: Global,
    at: usize,
    count: usize,
    element: &Element<'t, 's>,
) -> Opened<'a, 't, 's>
    ensures { Opens (λ F ns x. (f : Form) × IsAt ns at x × (F x ≡ Some f) × IsKindOf F ns x f (FoundRow count))
        element.now [] [] result }
{
    match array_of(element) {
        Array::Of(items, found) => {
            if found == count {
                let parts: Parts<'a> = Parts::Row(at, count);
                let place: Place<'a, 'static> = Place::new(parts);
                let source = Source::Items(items);
                Ok(Some(Frame { place, source }))
            } else {
                Err(wrong_row(alloc, count))
            }
        }
        Array::No => Err(wrong_row(alloc, count)),
        Array::TooLong => Err(ReadError::OutOfMemory),
    }
}

/// The refusal of other JSON than so many items.
fn wrong_row(alloc: Global, count: usize) -> ReadError
    ensures { IsExpected result }
{
    unless(format!(in alloc; "an array of {count}"))
}

fn open_map<'a, 't, 's>(
    alloc: Global,
    definition: &Definition,
    entries: Entries<'a>,
    element: &Element<'t, 's>,
    out: &mut Vec<u8>,
) -> Opened<'a, 't, 's>
    ensures { Opens (λ F ns x. (o : FoundOrder) × IsKindOf F ns x (form_of definition.now) (FoundMap entries.entry o))
        element.now out.old.items out.new.items result }
{
    match sorted_entries(alloc, entries.key_kind, element) {
        Ok((source, count)) => match put_length(alloc, definition, count, out) {
            Ok(()) => Ok(Some(Frame {
                place: Place::new(Parts::Entries(entries, count as u64)),
                source,
            })),
            Err(error) => Err(error),
        },
        Err(error) => Err(error),
    }
}

fn open_object<'a, 't, 's>(
    alloc: Global,
    at: usize,
    fields: &'a NamedFields,
    element: &Element<'t, 's>,
) -> Opened<'a, 't, 's>
    ensures { Opens (λ F ns x. (f : Form) × IsAt ns at x × (F x ≡ Some f) × IsKindOf F ns x f (FoundObject fields.entry))
        element.now [] [] result }
{
    match fields_of(alloc, fields, element) {
        Ok(source) => Ok(Some(Frame {
            place: Place::new(Parts::Object(at, fields)),
            source,
        })),
        Err(error) => Err(error),
    }
}

fn open_option<'a, 't, 's>(
    part: usize,
    element: Element<'t, 's>,
    out: &mut Vec<u8>,
) -> Opened<'a, 't, 's>
    ensures { Opens (λ F ns x. (p : List ℕ) × IsAt ns part p × HasKind F x (optional p))
        element.entry out.old.items out.new.items result }
{
    if element.is_null() {
        out.push(0)?;
        return Ok(None);
    }
    out.push(1)?;
    Ok(only(Parts::Some(part), element))
}

fn open_variant<'a, 't, 's>(
    json: &Table<'a, '_>,
    at: usize,
    width: u8,
    variants: &'a Variants,
    element: &Element<'t, 's>,
    out: &mut Vec<u8>,
) -> Opened<'a, 't, 's>
    ensures { let F = forms_in (map_of json.now.plan.now) in let ns = plan_names json.now.plan.now in
        (x : List ℕ) (j : Json) → IsAt ns at x →
        IsDistinct bytes_eq (map (λ v. string_bytes v.1) variants.now.items) →
        HasKind F x (spec_variants width (map variant_bytes variants.now.items)) →
        BeginsWith element.now j →
        IsOpened F ns x j out.old.items out.new.items result }
{
    let alloc = json.alloc();
    let Some((name, value)) = variant_in(element) else {
        return Err(expected(alloc, "a variant: \"Name\" or {\"Name\": value}"));
    };
    let Some((index, discriminant, variant)) = variant_named(json, at, variants, name) else {
        let name = String::from_str(alloc, name)?;
        return Err(ReadError::Refused(Refusal::UnknownName(name)));
    };
    let part = json.part(at, index);
    let is_empty = json.is_zero_size(part);
    put_variant(out, width, discriminant)?;
    match value {
        None => {
            if is_empty {
                Ok(None)
            } else {
                Err(expected(alloc, "{\"Name\": value}, since the variant has a value"))
            }
        }
        Some(value) => {
            if is_empty {
                Err(expected(alloc, "the variant's name alone, since it has no value"))
            } else {
                Ok(only(Parts::Variant(variant, part), value))
            }
        }
    }
}

/// Adds the tag of a variant.
fn put_variant(out: &mut Vec<u8>, width: u8, discriminant: &i64) -> Result<(), AllocError>
    ensures { OnOk result (out.new.items ≡ out.old.items ++ tag width discriminant.now) }
{
    put_tag(out, width, *discriminant)
}

/// The name of a variant, and its value if it has one: `"Name"` or `{"Name": value}`.
fn variant_in<'t, 's>(element: &Element<'t, 's>) -> Option<(&'s str, Option<Element<'t, 's>>)>
    ensures { (j : Json) → BeginsWith element.now j →
        NamesVariant j (option_map (λ r. (r.0.now, r.1)) result) }
{
    match element.as_str() {
        Some(name) => Some((name, None)),
        None => match element.members() {
            Some(members) => only_member(members),
            None => None,
        },
    }
}

/// The member of an object that has one.
fn only_member<'t, 's>(members: Members<'t, 's>) -> Option<(&'s str, Option<Element<'t, 's>>)>
    ensures { (ms : JsonMembers) → InMembers members.entry ms →
        NamesVariant (object ms) (option_map (λ r. (r.0.now, r.1)) result) }
{
    let mut members = members;
    let Some((name, value)) = members.next() else {
        return None;
    };
    match members.next() {
        Some(_) => None,
        None => Some((name, Some(value))),
    }
}

/// The index, the tag and the name of the variant of this name, which is looked for where the table has it, and else in turn.
fn variant_named<'a>(
    json: &Table<'_, '_>,
    at: usize,
    variants: &'a Variants,
    name: &str,
) -> Option<(usize, &'a i64, &'a str)>
    ensures { IsVariantAt (map variant_bytes variants.now.items) name.now
        (option_map (λ r. (r.0, r.1.now, r.2.now)) result) }
{
    if let Some(index) = json.variant_index(at, name)
        && let Some((tag, variant, _)) = variants.get(index)
        && variant.as_str() == name
    {
        return Some((index, tag, variant.as_str()));
    }
    first_named(variants, name)
}

/// The same of the first variant of this name.
fn first_named<'a>(variants: &'a Variants, name: &str) -> Option<(usize, &'a i64, &'a str)>
    ensures { IsVariantAt (map variant_bytes variants.now.items) name.now
        (option_map (λ r. (r.0, r.1.now, r.2.now)) result) }
{
    let mut index: usize = 0;
    while let Some((tag, variant, _)) = variants.get(index) {
        if variant.as_str() == name {
            return Some((index, tag, variant.as_str()));
        }
        index += 1;
    }
    None
}

/// The refusal of JSON that isn't this.
pub fn expected(alloc: Global, wanted: &str) -> ReadError
    ensures { IsExpected result }
{
    unless(String::from_str(alloc, wanted))
}

fn unless(wanted: Result<String, AllocError>) -> ReadError
    ensures { IsExpected result }
{
    match wanted {
        Ok(wanted) => ReadError::Refused(Refusal::Expected(wanted)),
        Err(_) => ReadError::OutOfMemory,
    }
}
