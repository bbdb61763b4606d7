// Values of the types of `example_generated` that no bytes make: fields that aren't encoded, and which field is which in the
// bytes, of structs and an enum that are put together here.
use super::support::{check, check_written, owned_text as text};
use borsh::from_slice;
use example_generated::enums::Message;
use example_generated::keys::Place;
use example_generated::readme::{Pair, Request};
use example_generated::records::{Code, Panel, Session};
use example_generated::wrappers::Note;
use std::alloc::Global;
use std::test::Fail;

/// Whether the fields of a decoded variant that aren't encoded have their default.
fn are_defaults(message: &Message) -> bool {
    match message {
        Message::Run { attempts, .. } => *attempts == 0,
        Message::Wait(_, until) => until.is_none(),
        Message::Stop { reason } => *reason == 0,
        _ => false,
    }
}

fn check_message(alloc: Global, message: &Message, bytes: &[u8]) -> Result<(), Fail> {
    check_written(alloc, "message", message, bytes)?;
    let again: Message = from_slice(alloc, bytes)?;
    check(are_defaults(&again), "defaults", bytes.len())
}

#[test]
fn skipped_fields_are_their_defaults(rt: HostRuntime) -> Result<(), Fail> {
    let alloc = rt.alloc();
    let bytes = b"\x02\x01\0\0\x01\x02\x03\x04";
    let session = Session {
        user: 258,
        hits: 9,
        token: [1, 2, 3, 4],
    };
    check_written(alloc, "session", &session, bytes)?;
    let again: Session = from_slice(alloc, bytes)?;
    check(again.user == 258 && again.hits == 0, "hits", 0)?;
    check_message(alloc, &Message::Run { id: 3, attempts: 4 }, b"\x05\x03\0")?;
    check_message(alloc, &Message::Wait(5, Some(6)), b"\x06\x05")?;
    check_message(alloc, &Message::Stop { reason: 7 }, b"\x07")
}

const PANEL: &[u8] =
    b"\x01\x02\0\x03\0\0\0\x04\0\0\0\0\0\0\0\xfb\xfa\xff\xf9\xff\xff\xff\xf8\xff\xff\xff\xff\xff\xff\xff\x01\x09\
    \x01\0\0\0t\x0a\0\x01\x0b\x01\0\0\0\x0c\xec\xff\xff\xff\xff\xff\xff\xff\xed\xff\xff\xff\xee\xff\xef\
    \x10\0\0\0\0\0\0\0\x0f\0\0\0\x0e\0\x0d\0";

#[test]
fn fields_are_in_order(rt: HostRuntime) -> Result<(), Fail> {
    let alloc = rt.alloc();
    let (title, next, data) = (text(alloc, "t")?, Some(11), vec![in alloc; 12u8]?);
    let panel = Panel(
        1, 2, 3, 4, -5, -6, -7, -8, true, 9, title, 10, next, data, -20, -19, -18, -17, 16, 15, 14,
        13, false,
    );
    check_written(alloc, "panel", &panel, PANEL)?;
    let codes = [Code(0), Code(1), Code(2)];
    check_written(alloc, "codes", &codes, b"\0\x01\x02")?;
    let (first, second) = (5u8, 6u8);
    check_written(alloc, "pair", &Pair { first, second }, b"\x05\x06")?;
    let street = text(alloc, "b")?;
    let place = &Place { zone: 1, street };
    let note = Note { text: "hi", place };
    check_written(alloc, "note", &note, b"\x02\0\0\0hi\x01\x01\0\0\0b")
}

#[test]
fn variants_are_a_tag_and_their_fields_in_order(rt: HostRuntime) -> Result<(), Fail> {
    let alloc = rt.alloc();
    check_written(alloc, "ping", &Message::Ping, b"\0")?;
    let moved = Message::Move { x: 132, y: -17 };
    check_written(alloc, "move", &moved, b"\x02\x84\0\0\0\xef\xff\xff\xff")?;
    let tagged = Message::Tagged([1, 2, 3, 4]);
    check_written(alloc, "tagged", &tagged, b"\x04\x01\x02\x03\x04")?;
    let buy = Request::Buy {
        name: text(alloc, "n")?,
        pieces: 1,
        price: 2,
    };
    check_written(alloc, "buy", &buy, b"\x01\x01\0\0\0n\x01\0\0\0\x02\0\0\0")
}
