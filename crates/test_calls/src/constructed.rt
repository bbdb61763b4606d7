// Values that a program makes: which of them the bytes mean, and values that no bytes make.
use super::shapes::named_fields;
use super::support::{check, check_value, check_written, is_written, owned_text};
use super::tagged::Tagged;
use borsh::schema::LengthRange;
use borsh::{BorshDeserialize, BorshSerialize, from_slice, schema_container_of, to_vec};
use borsh_samples::{A, MyEnum, ShortA};
use std::alloc::Global;
use std::borrow::{Cow, CowSlice, CowStr};
use std::collections::{BTreeMap, VecDeque};
use std::net::{IpAddr, Ipv4Addr, Ipv6Addr, SocketAddrV4, SocketAddrV6};
use std::num::{NonZeroI16, NonZeroI64, NonZeroU8, NonZeroU32, NonZeroUsize};
use std::rc::{Rc, RcSlice};
use std::sync::{Arc, ArcSlice, ArcStr};
use std::test::Fail;
use uuid::Uuid;

#[test]
fn numbers_of_the_machine_s_width_have_eight_bytes(rt: HostRuntime) -> Result<(), Fail> {
    let signed = (-100isize, 100isize, isize::MIN, isize::MAX);
    let bytes =
        b"\x9c\xff\xff\xff\xff\xff\xff\xff\x64\0\0\0\0\0\0\0\0\0\0\0\0\0\0\x80\xff\xff\xff\xff\xff\xff\xff\x7f";
    check_value(rt.alloc(), "isize", signed, bytes)?;
    let unsigned = (100usize, usize::MIN, usize::MAX);
    let bytes = b"\x64\0\0\0\0\0\0\0\0\0\0\0\0\0\0\0\xff\xff\xff\xff\xff\xff\xff\xff";
    check_value(rt.alloc(), "usize", unsigned, bytes)
}

type NonZero = (NonZeroU8, NonZeroU32, NonZeroUsize, NonZeroI64, NonZeroI16);

#[test]
fn non_zero_numbers_are_their_number(rt: HostRuntime) -> Result<(), Fail> {
    let bytes = b"\x01\xff\0\0\0\x01\x01\0\0\0\0\0\0\xff\xff\xff\xff\xff\xff\xff\xff\0\x80";
    let (a, b, c, d, e) = from_slice::<NonZero>(rt.alloc(), bytes)?;
    let numbers = (a.get(), b.get(), c.get(), d.get(), e.get());
    check(numbers == (1, 255, 257, -1, i16::MIN), "numbers", 0)
}

// Fields of one type that hold different values: were two of them exchanged both ways, no row would show it.
#[test]
fn each_field_is_where_its_bytes_are(rt: HostRuntime) -> Result<(), Fail> {
    let alloc = rt.alloc();
    let y = owned_text(alloc, "liber primus")?;
    let bytes = b"\xe5\x0c\0\0\0\0\0\0\x0c\0\0\0liber primus";
    check_written(alloc, "struct", &A { x: 3301, y }, bytes)?;
    let tag = owned_text(alloc, "hello")?;
    let bytes = b"\x05\0\0\0hello\x2a\0\0\0\0\0\0\0";
    check_written(alloc, "tagged", &Tagged { tag, value: 42 }, bytes)?;
    let many = MyEnum::Many(Vec::from_slice(alloc, &[8u8, 9])?);
    check_written(alloc, "enum", &many, b"\x02\x02\0\0\0\x08\x09")?;
    check_value(alloc, "range", 3u8..4, b"\x03\x04")?;
    check_value(alloc, "closed range", 3u8..=4, b"\x03\x04")?;
    // An entry whose key and value differ.
    let mut map = BTreeMap::new(alloc);
    map.insert(1u8, 10u8)?;
    check_value(alloc, "map", map, b"\x01\0\0\0\x01\x0a")?;
    check_value(alloc, "tuple", (1u8, 2u8, 3u8, 4u8), b"\x01\x02\x03\x04")?;
    check_value(alloc, "Ok", Ok::<u8, u8>(7), b"\x01\x07")?;
    check_value(alloc, "Err", Err::<u8, u8>(7), b"\0\x07")?;
    let range = LengthRange { start: 1, end: 2 };
    let bytes = b"\x01\0\0\0\0\0\0\0\x02\0\0\0\0\0\0\0";
    check_value(alloc, "range of lengths", range, bytes)?;
    let bytes = b"\0\x02\0\0\0\x01\0\0\0a\x02\0\0\0u8\x01\0\0\0b\x03\0\0\0u16";
    check_value(alloc, "fields", named_fields(alloc)?, bytes)
}

#[test]
fn arrays_are_their_elements(rt: HostRuntime) -> Result<(), Fail> {
    let alloc = rt.alloc();
    let bytes = b"\x01\0\0\x000\x01\0\0\x001\x01\0\0\x002";
    let [zero, one, two]: [String; 3] = from_slice(alloc, bytes)?;
    let are_texts = zero.as_str() == "0" && one.as_str() == "1" && two.as_str() == "2";
    check(are_texts, "texts", 3)?;
    check_written(alloc, "texts", &[zero, one, two], bytes)?;
    check_written(alloc, "array", &[ShortA(7), ShortA(8)], b"\x07\x08")
}

fn example() -> Ipv6Addr {
    Ipv6Addr::new(0x2001, 0xdb8, 0, 0, 0, 0, 0, 1)
}

#[test]
fn addresses_and_identifiers_are_written_in_order(rt: HostRuntime) -> Result<(), Fail> {
    let alloc = rt.alloc();
    let home = Ipv4Addr::new(192, 168, 0, 1);
    let mut all = Vec::new(alloc);
    all.push(IpAddr::V4(home))?;
    all.push(IpAddr::V6(example()))?;
    let bytes =
        b"\xc0\xa8\0\x01\xc0\xa8\0\x01\x50\0\x02\0\0\0\0\xc0\xa8\0\x01\x01\x20\x01\x0d\xb8\0\0\0\0\0\0\0\0\0\0\0\x01";
    let addresses = (home, SocketAddrV4::new(home, 80), all);
    check_value(alloc, "addresses", addresses, bytes)?;
    check_value(alloc, "version 6", example(), &bytes[20..])?;
    let bytes = b"\xa1\xa2\xa3\xa4\xb1\xb2\xc1\xc2\xd1\xd2\xd3\xd4\xd5\xd6\xd7\xd8";
    check_value(alloc, "identifier", Uuid::from_bytes(*bytes), bytes)?;
    // A flow label and a scope aren't written, and are 0 when they are read.
    let bytes = b"\x20\x01\x0d\xb8\0\0\0\0\0\0\0\0\0\0\0\x01\x50\0";
    let read = SocketAddrV6::new(example(), 80, 0, 0);
    check_value(alloc, "address and port", read, bytes)?;
    let written = SocketAddrV6::new(example(), 80, 7, 9);
    check_written(alloc, "flow and scope", &written, bytes)
}

/// Whether a borrowed text, and a borrowed list of its bytes, are written like the text.
fn are_borrowed_written(alloc: Global, borrowed: &str) -> Result<bool, Fail> {
    let mut bytes = Vec::from_slice(alloc, &u32::try_from(borrowed.len())?.to_le_bytes())?;
    bytes.extend_from_slice(borrowed.as_bytes())?;
    let bytes = bytes.as_slice();
    Ok(is_written(alloc, &borrowed, bytes)? && is_written(alloc, &borrowed.as_bytes(), bytes)?)
}

#[test]
fn borrowed_values_are_written(rt: HostRuntime) -> Result<(), Fail> {
    let alloc = rt.alloc();
    check_written(alloc, "number", &&7u16, b"\x07\0")?;
    // A plain slice of elements without bytes isn't refused.
    check_written(alloc, "units", &[(), (), ()].as_slice(), b"\x03\0\0\0")?;
    for text in ["", "a", "hello world", "\u{1F4A9}"] {
        check(are_borrowed_written(alloc, text)?, text, text.len())?;
    }
    Ok(())
}

#[test]
fn shared_values_are_what_they_hold(rt: HostRuntime) -> Result<(), Fail> {
    let alloc = rt.alloc();
    let bytes = b"\x02\0\0\0\x01\0\0\0\x02\0\0\0";
    let numbers = RcSlice::from_slice(alloc, &[1i32, 2])?;
    check_value(alloc, "RcSlice", numbers, bytes)?;
    let numbers = ArcSlice::from_slice(alloc, &[1i32, 2])?;
    check_value(alloc, "ArcSlice", numbers, bytes)?;
    check_value(alloc, "Rc", Rc::new(alloc, 8u8)?, b"\x08")?;
    check_value(alloc, "Arc", Arc::new(alloc, 8u8)?, b"\x08")?;
    let text = ArcStr::from_str(alloc, "hi")?;
    check_value(alloc, "ArcStr", text, b"\x02\0\0\0hi")
}

#[test]
fn a_cow_is_read_as_owned(rt: HostRuntime) -> Result<(), Fail> {
    let alloc = rt.alloc();
    let text = b"\x0c\0\0\0static input";
    check_value(alloc, "text", CowStr::Borrowed("static input"), text)?;
    let slice = b"\x03\0\0\0\x01\x02\x03";
    check_value(alloc, "slice", CowSlice::Borrowed(&[1u8, 2, 3]), slice)?;
    let number = b"\x07\0\0\0\0\0\0\0";
    check_written(alloc, "number", &Cow::Borrowed(&7u64), number)?;
    let is_text = matches!(from_slice(alloc, text)?, CowStr::Owned(_));
    let is_slice = matches!(
        from_slice::<CowSlice<u8>>(alloc, slice)?,
        CowSlice::Owned(_)
    );
    let is_number = matches!(from_slice::<Cow<u64>>(alloc, number)?, Cow::Owned(7));
    check(is_text && is_slice && is_number, "owned", 3)
}

/// Whether the value is encoded as these bytes. No error is in the result, so it may be a `Cow` of what borrows.
fn is_encoded<T: BorshSerialize>(alloc: Global, value: &T, bytes: &[u8]) -> bool {
    to_vec(alloc, value).is_ok_and(|written| written.as_slice() == bytes)
}

/// The value that the bytes decode to. It too may be a `Cow` of what borrows.
fn decoded<T: BorshDeserialize>(alloc: Global, bytes: &[u8]) -> Option<T> {
    from_slice(alloc, bytes).ok()
}

/// Whether the list and its texts are owned.
fn are_owned(list: &CowSlice<'_, CowStr<'_>>) -> bool {
    let are_owned = list.iter().all(|text| matches!(text, CowStr::Owned(_)));
    are_owned && matches!(list, CowSlice::Owned(_))
}

#[test]
fn a_cow_of_cows_is_read_as_owned(rt: HostRuntime) -> Result<(), Fail> {
    let alloc = rt.alloc();
    let bytes = b"\x02\0\0\0\x12\0\0\0first static input\x13\0\0\0second static input";
    let texts = [
        CowStr::Borrowed("first static input"),
        CowStr::Owned(owned_text(alloc, "second static input")?),
    ];
    let is_written = is_encoded(alloc, &CowSlice::Borrowed(texts.as_slice()), bytes);
    let is_read = match decoded(alloc, bytes) {
        Some(list) => are_owned(&list) && is_encoded(alloc, &list, bytes),
        None => false,
    };
    check(is_written && is_read, "texts", 2)?;
    let own = schema_container_of::<CowSlice<CowStr>>(alloc)?;
    let is_listed = own == schema_container_of::<Vec<String>>(alloc)?;
    check(is_listed, "schema of a list of texts", 2)
}

/// A queue whose last two numbers lie before its first two in memory.
fn wrapped(alloc: Global) -> Result<VecDeque<u8>, Fail> {
    let mut ring = VecDeque::with_capacity(alloc, 4)?;
    for n in 1u8..7 {
        if n > 4 {
            ring.pop_front();
        }
        ring.push_back(n)?;
    }
    Ok(ring)
}

#[test]
fn a_queue_that_wraps_is_written_as_its_list(rt: HostRuntime) -> Result<(), Fail> {
    let alloc = rt.alloc();
    let bytes = b"\x04\0\0\0\x03\x04\x05\x06";
    check_written(alloc, "queue", &wrapped(alloc)?, bytes)
}
