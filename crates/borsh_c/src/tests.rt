//! Worked examples: each call with each code that it returns, and rooms that are too small.
use super::codes::{MALFORMED, NO, SHORT, UNDECIDED, YES};
use super::place::{NOWHERE, Place};
use super::{
    borsh_c_compare, borsh_c_compile, borsh_c_from_json, borsh_c_json_lines, borsh_c_member,
    borsh_c_names, borsh_c_records, borsh_c_size, borsh_c_to_json, borsh_c_valid,
};
use std::alloc::Global;
use std::process::Abort;
use std::str;
use std::test::Fail;

/// `A { x: u64, y: String }`.
const SCHEMA: &[u8] =
    b"\x01\0\0\0A\x04\0\0\0\x01\0\0\0A\x04\0\x02\0\0\0\x01\0\0\0x\x03\0\0\0u64\x01\0\0\0y\x06\0\0\0String\x06\0\0\0String\x01\x04\0\0\0\0\0\0\0\0\xff\xff\xff\xff\0\0\0\0\x02\0\0\0u8\x03\0\0\0u64\0\x08\x02\0\0\0u8\0\x01";

/// `A { x: 12, y: "hé" }`.
const VALUE: &[u8] = b"\x0c\0\0\0\0\0\0\0\x03\0\0\0h\xc3\xa9";

/// `u8`, a byte.
const BYTE: &[u8] = b"\x02\0\0\0u8\x01\0\0\0\x02\0\0\0u8\0\x01";

/// A name that leads back to itself.
const CYCLE: &[u8] = b"\x01\0\0\0A\x01\0\0\0\x01\0\0\0A\x02\x01\0\0\0\x01\0\0\0A";

/// A name without a definition.
const MISSING: &[u8] = b"\x01\0\0\0A\0\0\0\0";

/// An enum with the tag 0 twice.
const TWICE: &[u8] =
    b"\x01\0\0\0E\x02\0\0\0\x01\0\0\0E\x03\x01\x02\0\0\0\0\0\0\0\0\0\0\0\x01\0\0\0a\x02\0\0\0u8\0\0\0\0\0\0\0\0\x01\0\0\0b\x02\0\0\0u8\x02\0\0\0u8\0\x01";

/// The bytes that a call gave; none if the room is too small.
fn given_bytes<'a>(room: &'a [u8], needed: usize) -> &'a [u8] {
    if needed <= room.len() {
        &room[..needed]
    } else {
        b""
    }
}

/// The text that a call gave.
fn given<'a>(room: &'a [u8], needed: usize) -> &'a str {
    str::from_utf8(given_bytes(room, needed)).unwrap_or("no text")
}

/// A call about a schema, and a value where it takes one, or two of such inputs.
#[derive(Clone, Copy)]
enum Call {
    Valid,
    Names,
    Member,
    ToJson(bool, bool),
    FromJson,
    Compile,
    Compare,
}

/// What such a call answers.
#[derive(Clone, Copy)]
struct Answer {
    code: u32,
    place: Place,
    room: [u8; 256],
    needed: usize,
}

fn ask(alloc: Global, call: Call, schema: &[u8], value: &[u8]) -> Answer {
    let mut place = NOWHERE;
    let mut room = [0; 256];
    let mut needed = 1;
    let (at, to, length) = (&mut place, &mut room, &mut needed);
    let code = match call {
        Call::Valid => borsh_c_valid(alloc, schema, to, length),
        Call::Names => borsh_c_names(alloc, schema, to, length),
        Call::Member => borsh_c_member(alloc, schema, value, at, to, length),
        Call::ToJson(compact, quoted) => {
            borsh_c_to_json(alloc, schema, value, compact, quoted, at, to, length)
        }
        Call::FromJson => borsh_c_from_json(alloc, schema, value, at, to, length),
        Call::Compile => borsh_c_compile(alloc, schema, value, at, to, length),
        Call::Compare => borsh_c_compare(alloc, schema, value, to, length),
    };
    Answer {
        code,
        place,
        room,
        needed,
    }
}

impl Answer {
    fn is(&self, code: u32, bytes: &[u8]) -> bool {
        self.code == code && given_bytes(&self.room, self.needed) == bytes
    }

    /// Whether it is no, with this offset and this path, which has so many bytes of the text before it.
    fn is_at(&self, offset: Option<usize>, before: usize, path: &[u8]) -> bool {
        let place = self.place;
        let bytes = given_bytes(&self.room, self.needed);
        self.code == NO
            && (place.has_offset, place.offset) == (offset.is_some(), offset.unwrap_or(0))
            && (place.has_path, place.path_start, place.path_length) == (true, before, path.len())
            && before <= bytes.len()
            && bytes[before..].starts_with(path)
    }
}

fn answers_of_rules(alloc: Global) -> bool {
    let cut = b"not a schema container: Unexpected length of input";
    ask(alloc, Call::Valid, SCHEMA, b"").is(YES, b"")
        && ask(alloc, Call::Valid, MISSING, b"").is(NO, b"invalid MissingDefinition A")
        && ask(alloc, Call::Valid, b"", b"").is(MALFORMED, cut)
}

#[test]
fn answers_whether_a_container_keeps_the_rules(rt: HostRuntime) -> Result<(), Fail> {
    assert!(rt; answers_of_rules(rt.alloc()));
    Ok(())
}

fn answers_of_size(alloc: Global) -> bool {
    let mut room = [0u8; 64];
    let mut needed = 1;
    let mut most = 7;
    borsh_c_size(alloc, SCHEMA, &mut most, &mut room, &mut needed) == YES
        && (most, needed) == (4294967307, 0)
        && borsh_c_size(alloc, CYCLE, &mut most, &mut room, &mut needed) == NO
        && given(&room, needed) == "recursive"
        && most == 4294967307
        && borsh_c_size(alloc, MISSING, &mut most, &mut room, &mut needed) == NO
        && given(&room, needed) == "missing A"
}

#[test]
fn answers_the_greatest_size(rt: HostRuntime) -> Result<(), Fail> {
    assert!(rt; answers_of_size(rt.alloc()));
    Ok(())
}

fn answers_of_names(alloc: Global) -> bool {
    let kinds = b"{\"A\":\"object\",\"u64\":\"number\",\"String\":\"text\",\"u8\":\"number\"}";
    ask(alloc, Call::Names, SCHEMA, b"").is(YES, kinds)
        && ask(alloc, Call::Names, MISSING, b"").is(YES, b"{\"A\":\"refused\"}")
        && ask(alloc, Call::Names, b"", b"").code == MALFORMED
}

#[test]
fn answers_what_names_are(rt: HostRuntime) -> Result<(), Fail> {
    assert!(rt; answers_of_names(rt.alloc()));
    Ok(())
}

fn answers_of_membership(alloc: Global) -> bool {
    let few = b"no member: A.y (`String` at byte 8): too few bytes are left";
    let short = ask(alloc, Call::Member, SCHEMA, &VALUE[..14]);
    ask(alloc, Call::Member, SCHEMA, VALUE).is(YES, b"")
        && short.is(NO, few)
        && short.is_at(Some(8), 11, b"A.y")
        && ask(alloc, Call::Member, TWICE, b"\0\x07").is(UNDECIDED, b"`E` is ambiguous")
        && ask(alloc, Call::Member, b"\x01", b"").code == MALFORMED
}

#[test]
fn answers_whether_bytes_are_a_value(rt: HostRuntime) -> Result<(), Fail> {
    assert!(rt; answers_of_membership(rt.alloc()));
    Ok(())
}

fn json_of_bytes(alloc: Global) -> bool {
    let compact = ask(alloc, Call::ToJson(true, false), SCHEMA, VALUE);
    let pretty = ask(alloc, Call::ToJson(false, false), SCHEMA, VALUE);
    let quoted = ask(alloc, Call::ToJson(true, true), SCHEMA, VALUE);
    compact.is(YES, "{\"x\":12,\"y\":\"hé\"}".as_bytes())
        && pretty.is(YES, "{\n  \"x\": 12,\n  \"y\": \"hé\"\n}".as_bytes())
        && quoted.is(YES, "{\"x\":\"12\",\"y\":\"hé\"}".as_bytes())
        && ask(alloc, Call::ToJson(true, true), SCHEMA, &VALUE[..14]).is_at(Some(8), 0, b"A.y")
}

#[test]
fn gives_json(rt: HostRuntime) -> Result<(), Fail> {
    assert!(rt; json_of_bytes(rt.alloc()));
    Ok(())
}

fn bytes_of_json(alloc: Global) -> bool {
    let json = b"{\"y\": \"h\\u00e9\", \"x\": 12}";
    let broken = ask(alloc, Call::FromJson, BYTE, b"[").place;
    ask(alloc, Call::FromJson, SCHEMA, json).is(YES, VALUE)
        && ask(alloc, Call::FromJson, SCHEMA, b"\xff").is(NO, b"not UTF-8")
        && ask(alloc, Call::FromJson, BYTE, b"256").is_at(None, 0, b"u8")
        && (broken.has_offset, broken.has_path) == (true, false)
}

#[test]
fn gives_the_bytes_of_json(rt: HostRuntime) -> Result<(), Fail> {
    assert!(rt; bytes_of_json(rt.alloc()));
    Ok(())
}

fn only_what_fits_is_written(alloc: Global) -> bool {
    let mut place = NOWHERE;
    let mut room = [9u8; 2];
    let mut needed = 0;
    borsh_c_from_json(alloc, BYTE, b"256", &mut place, &mut room, &mut needed) == NO
        && room == [9, 9]
        && needed > 2
        && borsh_c_from_json(alloc, BYTE, b"12", &mut place, &mut room, &mut needed) == YES
        && (room, needed) == ([12, 9], 1)
}

#[test]
fn a_room_that_is_too_small_is_left_alone(rt: HostRuntime) -> Result<(), Fail> {
    assert!(rt; only_what_fits_is_written(rt.alloc()));
    Ok(())
}

/// What is said of the values that bytes begin with.
fn measured(alloc: Global, schema: &[u8], bytes: &[u8]) -> (u32, usize, [usize; 2], Option<usize>) {
    let mut lengths = [9; 2];
    let mut count = 7;
    let mut place = NOWHERE;
    let mut room = [0; 64];
    let (to, mut needed) = (&mut room, 1);
    let code = borsh_c_records(
        alloc,
        schema,
        bytes,
        &mut lengths,
        &mut count,
        &mut place,
        to,
        &mut needed,
    );
    let offset = place.has_offset.then_some(place.offset);
    (code, count, lengths, offset)
}

/// Two values of the first schema of 1 byte each, and the tag of no variant.
const LIST: &[u8] =
    b"\x01\0\0\0E\x02\0\0\0\x01\0\0\0E\x03\x01\x01\0\0\0\0\0\0\0\0\0\0\0\x01\0\0\0a\x02\0\0\0u8\x02\0\0\0u8\0\x01";

fn answers_of_records(alloc: Global) -> bool {
    measured(alloc, BYTE, b"\x07\x08\x09") == (YES, 2, [1, 1], None)
        && measured(alloc, LIST, b"\0\x07\x01") == (YES, 1, [2, 9], None)
        && measured(alloc, LIST, b"\x01") == (NO, 0, [9, 9], Some(0))
        && measured(alloc, LIST, b"\0") == (SHORT, 0, [9, 9], Some(1))
        && measured(alloc, LIST, b"") == (YES, 0, [9, 9], None)
        && measured(alloc, SCHEMA, &VALUE[..14]) == (SHORT, 0, [9, 9], Some(8))
        && measured(alloc, b"", VALUE).0 == MALFORMED
}

#[test]
fn answers_how_long_values_are(rt: HostRuntime) -> Result<(), Fail> {
    assert!(rt; answers_of_records(rt.alloc()));
    Ok(())
}

fn lines_of_values(alloc: Global) -> bool {
    let mut place = NOWHERE;
    let mut room = [0u8; 64];
    let (mut count, mut needed) = (7, 0);
    let code = borsh_c_json_lines(
        alloc,
        BYTE,
        b"\x07\x0c",
        &[1, 1, 1],
        false,
        &mut count,
        &mut place,
        &mut room,
        &mut needed,
    );
    code == YES && count == 2 && given(&room, needed) == "7\n12\n"
}

#[test]
fn gives_lines_of_json(rt: HostRuntime) -> Result<(), Fail> {
    assert!(rt; lines_of_values(rt.alloc()));
    Ok(())
}

fn containers_of_types(alloc: Global) -> bool {
    let text = b"struct A { x: u64, y: String }";
    let later = b"/* h\xc3\xa9 */ struct A {\n  x: Strin }";
    let unread = ask(alloc, Call::Compile, later, b"A");
    let unknown = ask(alloc, Call::Compile, text, b"Vec<B>");
    let ended = ask(alloc, Call::Compile, text, b"Vec<");
    ask(alloc, Call::Compile, text, b"A").is(YES, SCHEMA)
        && ask(alloc, Call::Compile, b"", b"u8").is(YES, BYTE)
        && unread.is(
            NO,
            b"text: line 2, column 6: `Strin` is no type that has a schema; `String` is",
        )
        && unread.is_at(Some(26), 0, b"text")
        && unknown.is(NO, b"type: column 5: `B` is no type that has a schema")
        && unknown.is_at(Some(4), 0, b"type")
        && ended.is(
            NO,
            b"type: line 1, column 5: the text ends, expected a type",
        )
        && ended.is_at(Some(4), 0, b"type")
        && ask(alloc, Call::Compile, b"\xff", b"A").is(NO, b"text: not UTF-8")
        && ask(alloc, Call::Compile, b"", b"A\xff").is_at(Some(1), 0, b"type")
}

#[test]
fn gives_the_container_of_a_type(rt: HostRuntime) -> Result<(), Fail> {
    assert!(rt; containers_of_types(rt.alloc()));
    Ok(())
}

fn comparisons(alloc: Global) -> bool {
    let wide = b"\x02\0\0\0u9\x01\0\0\0\x02\0\0\0u9\0\x02";
    ask(alloc, Call::Compare, BYTE, BYTE).is(
        YES,
        b"the same: the two schemas have the same values, with the same JSON\n",
    ) && ask(alloc, Call::Compare, BYTE, wide).is(
        NO,
        b"incompatible: u8 is u8 and becomes u9\n  00 is a value of the old schema and no value of the new one: u9 (`u9` at byte 0): too few bytes are left\n",
    ) && ask(alloc, Call::Compare, TWICE, BYTE).is(UNDECIDED, b"not known: E is E and becomes u8\n")
        && ask(alloc, Call::Compare, b"", BYTE).is(
            MALFORMED,
            b"old: not a schema container: Unexpected length of input",
        )
        && ask(alloc, Call::Compare, BYTE, b"").is(
            MALFORMED,
            b"new: not a schema container: Unexpected length of input",
        )
}

#[test]
fn answers_whether_old_values_are_new_ones(rt: HostRuntime) -> Result<(), Fail> {
    assert!(rt; comparisons(rt.alloc()));
    Ok(())
}
