//! The library for C: what a schema container says, and what bytes mean by it.
//!
//! A container is given by its encoding, as `to_vec` of a `BorshSchemaContainer` makes it. Each call returns a code (the
//! constants of [`codes`]) and gives a text or bytes in the caller's room: their length is written to `needed`, and they are
//! the beginning of the room if they fit; otherwise the call is made again with a larger room. `bindings/c/borsh.c` does that until they
//! fit, and is what a C program calls. A text that isn't stated here is cut after 2^30 bytes. After codes 1 and 6 the [`Place`] may
//! have an offset, and a path, which is within the text; after any other code it has neither.
#![tactic(auto)]

mod answers;
mod codes;
mod many;
mod pairs;
mod place;
mod refusal;
mod room;
#[cfg(test)]
mod tests;
mod types;

ghost use Rattle.std.specs.Prelude.{◌≡◌, ◌≢◌, ◌+◌, ◌≤◌};
ghost use Rattle.borsh_json.specs.Printed.{layout_if, numbers_if};
ghost use Rattle.borsh_c.specs.Answers.{AnswersBytes, AnswersJson, AnswersMember, AnswersNames, AnswersSize, AnswersValid, Gives};
ghost use Rattle.borsh_c.specs.Many.{AnswersLines, AnswersRecords};
ghost use Rattle.borsh_c.specs.Pairs.{AnswersCompared};
ghost use Rattle.borsh_c.specs.Places.{IsNowhere, offset_of};
ghost use Rattle.borsh_c.specs.Room.{IsKept};
ghost use Rattle.borsh_c.specs.Types.{AnswersContainer};
ghost use Rattle.borsh_json.specs.declared.output.Characters.TheVariants.{Any};

use answers::{greatest_size, json_of, kinds_of, membership, rules, value_of};
use borsh_json::{Layout, LongNumbers, Style};
use codes::{SHORT, YES};
use many::{Whole, lines_of, whole_values};
use pairs::comparison_of;
use place::NOWHERE;
pub use place::Place;
use room::give;
use std::alloc::Global;
use types::container_of;

/// Whether the container keeps the rules of schemas; after code 1 the text says `invalid`, a rule, and a name that breaks it. Left open:
/// code 3.
///
/// ```c
/// uint32_t code = borsh_c_valid(schema, schema_length, room, room_length, &needed);
/// ```
#[unsafe(no_mangle)]
pub extern "C" fn borsh_c_valid(
    alloc: Global,
    schema: &[u8],
    room: &mut [u8],
    needed: &mut usize,
) -> u32
    ensures answer { Gives (AnswersValid schema.now result) room.new needed.new }
    ensures kept { IsKept room.old room.new needed.new }
{
    match rules(alloc, schema) {
        Ok(()) => {
            give(b"", room, needed);
            YES
        }
        Err(refusal) => refusal.tell(&mut { NOWHERE }, room, needed),
    }
}

/// The greatest size of the container's root in bytes, which is written to `size`: no encoding is longer. After any other
/// code than [`YES`] `size` is unchanged, and after 1 the text says why there is none. Left open: code 3.
///
/// ```c
/// uint32_t code = borsh_c_size(schema, schema_length, &size, room, room_length, &needed);
/// ```
#[unsafe(no_mangle)]
pub extern "C" fn borsh_c_size(
    alloc: Global,
    schema: &[u8],
    size: &mut usize,
    room: &mut [u8],
    needed: &mut usize,
) -> u32
    ensures answer { Gives (AnswersSize schema.now size.new result) room.new needed.new }
    ensures unchanged { result ≢ 0 → size.new ≡ size.old }
    ensures kept { IsKept room.old room.new needed.new }
{
    match greatest_size(alloc, schema) {
        Ok(most) => {
            *size = most;
            give(b"", room, needed);
            YES
        }
        Err(refusal) => refusal.tell(&mut { NOWHERE }, room, needed),
    }
}

/// How the values of each name that the container's root leads to are written as JSON, as `borsh_json::Json::names` says it. Left
/// open: code 3; as there.
///
/// ```c
/// uint32_t code = borsh_c_names(schema, schema_length, room, room_length, &needed);
/// ```
#[unsafe(no_mangle)]
pub extern "C" fn borsh_c_names(
    alloc: Global,
    schema: &[u8],
    room: &mut [u8],
    needed: &mut usize,
) -> u32
    ensures answer { Gives (AnswersNames schema.now result) room.new needed.new }
    ensures kept { IsKept room.old room.new needed.new }
{
    match kinds_of(alloc, schema) {
        Ok(text) => {
            give(text.as_bytes(), room, needed);
            YES
        }
        Err(refusal) => refusal.tell(&mut { NOWHERE }, room, needed),
    }
}

/// Whether all of `value` is a value of the container's root; after code 1 the offset in `place` is that of a fault. Left open: code 3;
/// code 5 for a container that breaks a rule or is ambiguous; the text after 1; the path.
///
/// ```c
/// uint32_t code = borsh_c_member(schema, schema_length, value, value_length, &place, room, room_length, &needed);
/// ```
#[unsafe(no_mangle)]
pub extern "C" fn borsh_c_member(
    alloc: Global,
    schema: &[u8],
    value: &[u8],
    place: &mut Place,
    room: &mut [u8],
    needed: &mut usize,
) -> u32
    ensures answer { let offset = offset_of place.new in
        Gives (AnswersMember schema.now value.now offset result) room.new needed.new }
    ensures nowhere { result ≢ 1 → IsNowhere place.new }
    ensures within { place.new.path_start + place.new.path_length ≤ needed.new }
    ensures kept { IsKept room.old room.new needed.new }
{
    match membership(alloc, schema, value) {
        Ok(()) => {
            *place = NOWHERE;
            give(b"", room, needed);
            YES
        }
        Err(refusal) => refusal.tell(place, room, needed),
    }
}

/// Gives the JSON of the value that all of `value` is; on one line if `is_compact`, and with numbers of 64 bits as strings if
/// `has_quoted_numbers`. Determined: after code 0 the JSON says `value`, a member of the root, and no other bytes, and has no white space
/// but that of one line or of several, and with quoted numbers each whole number of 64 bits is a string; after 2 `schema` is no
/// container, and after 0, 1 and 5 it is one; after 5 it breaks a rule or is ambiguous; an offset after 1 is that of a fault of `value`,
/// which is no member; without one `value` is a member, and there is a reason why it has no JSON, of those that `borsh_json::to_json`
/// has. Left open: code 3; code 5 for such a container; which reason it is; the text after 1; the path.
///
/// ```c
/// uint32_t code = borsh_c_to_json(schema, schema_length, value, value_length, true, false, &place, room, room_length, &needed);
/// ```
#[unsafe(no_mangle)]
pub extern "C" fn borsh_c_to_json(
    alloc: Global,
    schema: &[u8],
    value: &[u8],
    is_compact: bool,
    has_quoted_numbers: bool,
    place: &mut Place,
    room: &mut [u8],
    needed: &mut usize,
) -> u32
    ensures answer { let offset = offset_of place.new in
        Gives (AnswersJson schema.now value.now is_compact has_quoted_numbers offset result) room.new needed.new }
    ensures nowhere { result ≢ 1 → IsNowhere place.new }
    ensures within { place.new.path_start + place.new.path_length ≤ needed.new }
    ensures kept { IsKept room.old room.new needed.new }
{
    match json_of(alloc, schema, value, style(is_compact, has_quoted_numbers)) {
        Ok(json) => {
            *place = NOWHERE;
            give(json.as_bytes(), room, needed);
            YES
        }
        Err(refusal) => refusal.tell(place, room, needed),
    }
}

/// Gives the bytes of the value that `json` says, which is UTF-8. Determined: after code 0 `json` says the bytes, a member of the root,
/// and no others, and the keys of its sets and maps ascend as far as their order is told; the other codes as of [`borsh_c_to_json`], but after 1 `json` isn't UTF-8, or there is a reason of those that
/// `borsh_json::from_json` has, and an offset only if it isn't JSON. Left open: as there; the offset.
///
/// ```c
/// uint32_t code = borsh_c_from_json(schema, schema_length, json, json_length, &place, room, room_length, &needed);
/// ```
#[unsafe(no_mangle)]
pub extern "C" fn borsh_c_from_json(
    alloc: Global,
    schema: &[u8],
    json: &[u8],
    place: &mut Place,
    room: &mut [u8],
    needed: &mut usize,
) -> u32
    ensures answer { let offset = offset_of place.new in
        Gives (AnswersBytes schema.now json.now offset result) room.new needed.new }
    ensures nowhere { result ≢ 1 → IsNowhere place.new }
    ensures within { place.new.path_start + place.new.path_length ≤ needed.new }
    ensures kept { IsKept room.old room.new needed.new }
{
    match value_of(alloc, schema, json) {
        Ok(bytes) => {
            *place = NOWHERE;
            give(bytes.as_slice(), room, needed);
            YES
        }
        Err(refusal) => refusal.tell(place, room, needed),
    }
}

fn style(is_compact: bool, has_quoted_numbers: bool) -> Style
    ensures { (result.layout ≡ layout_if is_compact) × (result.characters ≡ Any)
        × (result.long_numbers ≡ numbers_if has_quoted_numbers) }
{
    Style {
        layout: if is_compact {
            Layout::Compact
        } else {
            Layout::Pretty
        },
        long_numbers: if has_quoted_numbers {
            LongNumbers::Quoted
        } else {
            LongNumbers::Plain
        },
        ..Style::COMPACT
    }
}

/// Writes how long each of the values is that `bytes` begins with to `lengths`, as many as are whole and as there is room for, and how
/// many those are to `count`, which is 0 after any other code than [`YES`]. Determined: a value has at least one byte, and no others
/// begin there, whatever bytes follow; after code 0 there are some, unless there are no bytes or no room; after 6 no first bytes are a
/// value, and the offset is that of the fault; after 1 none are, whatever bytes follow, or without an offset the root has the empty value.
/// Left open: code 3; code 5, or fewer lengths, for a container that breaks a rule or is ambiguous; whether more bytes help after 6; what is behind the
/// first `count` lengths; the text after 1 with an offset, and after 6; the path.
///
/// ```c
/// uint32_t code = borsh_c_records(schema, schema_length, bytes, length, lengths, lengths_room, &count, &place, room, room_length, &needed);
/// ```
#[unsafe(no_mangle)]
pub extern "C" fn borsh_c_records(
    alloc: Global,
    schema: &[u8],
    bytes: &[u8],
    lengths: &mut [usize],
    count: &mut usize,
    place: &mut Place,
    room: &mut [u8],
    needed: &mut usize,
) -> u32
    ensures answer { let offset = offset_of place.new in
        let found = lengths.new in
        Gives (AnswersRecords schema.now bytes.now found count.new offset result)
        room.new needed.new }
    ensures none { result ≢ 0 → count.new ≡ 0 }
    ensures nowhere { result ≢ 1 → result ≢ 6 → IsNowhere place.new }
    ensures within { place.new.path_start + place.new.path_length ≤ needed.new }
    ensures kept { IsKept room.old room.new needed.new }
{
    *count = 0;
    match whole_values(alloc, schema, bytes, lengths) {
        Ok(Whole::Values(found)) => {
            *count = found;
            *place = NOWHERE;
            give(b"", room, needed);
            YES
        }
        Ok(Whole::Short(said)) => {
            said.tell(place, room, needed);
            SHORT
        }
        Err(refusal) => refusal.tell(place, room, needed),
    }
}

/// Gives the JSON of each of the values that lie one after another in `values` and have these lengths, and a line end behind it, up to one
/// that has none; how many have a line is written to `count`, and is 0 after any other code than [`YES`]. A length that reaches beyond the
/// bytes is cut. Determined: after code 0 the lines say the first `count` values, each a member of the root, in one line each, with
/// numbers as [`borsh_c_to_json`] has them; there is one, unless there are no lengths; if there is a value behind them, there is a
/// reason why it has no JSON; after 1 and 5 as of [`borsh_c_to_json`] for the first. Left open: as there.
///
/// ```c
/// uint32_t code = borsh_c_json_lines(schema, schema_length, values, length, lengths, lengths_count, false, &count, &place, room, room_length, &needed);
/// ```
#[unsafe(no_mangle)]
pub extern "C" fn borsh_c_json_lines(
    alloc: Global,
    schema: &[u8],
    values: &[u8],
    lengths: &[usize],
    has_quoted_numbers: bool,
    count: &mut usize,
    place: &mut Place,
    room: &mut [u8],
    needed: &mut usize,
) -> u32
    ensures answer { let offset = offset_of place.new in
        Gives (AnswersLines schema.now values.now lengths.now has_quoted_numbers count.new offset result)
        room.new needed.new }
    ensures none { result ≢ 0 → count.new ≡ 0 }
    ensures nowhere { result ≢ 1 → IsNowhere place.new }
    ensures within { place.new.path_start + place.new.path_length ≤ needed.new }
    ensures kept { IsKept room.old room.new needed.new }
{
    *count = 0;
    match lines_of(
        alloc,
        schema,
        values,
        lengths,
        style(true, has_quoted_numbers),
    ) {
        Ok(lines) => {
            *count = lines.count;
            *place = NOWHERE;
            give(lines.text.as_slice(), room, needed);
            YES
        }
        Err(refusal) => refusal.tell(place, room, needed),
    }
}

/// Gives the encoded container of the type that `type_text` is, which may name the items of `text`; both are UTF-8. Determined: after
/// code 0 the container keeps the rules, and has the definitions of a type of some tree of items, as `borsh_source::compile` says, and no
/// others. Left open: code 3; how the texts are read, so which tree and type these are, and which texts have none: tested; the text after
/// 1; the place.
///
/// ```c
/// uint32_t code = borsh_c_compile(text, text_length, type_text, type_text_length, &place, room, room_length, &needed);
/// ```
#[unsafe(no_mangle)]
pub extern "C" fn borsh_c_compile(
    alloc: Global,
    text: &[u8],
    type_text: &[u8],
    place: &mut Place,
    room: &mut [u8],
    needed: &mut usize,
) -> u32
    ensures answer { Gives (AnswersContainer result) room.new needed.new }
    ensures nowhere { result ≢ 1 → IsNowhere place.new }
    ensures within { place.new.path_start + place.new.path_length ≤ needed.new }
    ensures kept { IsKept room.old room.new needed.new }
{
    match container_of(alloc, text, type_text) {
        Ok(container) => {
            *place = NOWHERE;
            give(container.as_slice(), room, needed);
            YES
        }
        Err(refusal) => refusal.tell(place, room, needed),
    }
}

/// Whether each value of the old container's root is a value of the new one's, and what changed. Determined: after code 0 each is; after 1
/// some bytes are a value of the old alone; after 2 the first container that is none, by `old` or `new`. Left open: code 3; code 5 in
/// place of 0 and 1; the text after 0, 1 and 5: tested.
///
/// ```c
/// uint32_t code = borsh_c_compare(old_schema, old_length, new_schema, new_length, room, room_length, &needed);
/// ```
#[unsafe(no_mangle)]
pub extern "C" fn borsh_c_compare(
    alloc: Global,
    old_schema: &[u8],
    new_schema: &[u8],
    room: &mut [u8],
    needed: &mut usize,
) -> u32
    ensures answer { let old = old_schema.now in
        Gives (AnswersCompared old new_schema.now result) room.new needed.new }
    ensures kept { IsKept room.old room.new needed.new }
{
    match comparison_of(alloc, old_schema, new_schema) {
        Ok(text) => {
            give(text.as_bytes(), room, needed);
            YES
        }
        Err(refusal) => refusal.tell(&mut { NOWHERE }, room, needed),
    }
}
