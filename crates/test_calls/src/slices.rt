// Slices as readers; as writers they are in `without_memory`.
use super::support::{SHORT, check, is_invalid};
use borsh::BorshDeserialize;
use borsh::error::ERROR_ZST_FORBIDDEN;
use std::alloc::Global;
use std::collections::BTreeMap;
use std::ops::Range;
use std::test::Fail;

/// Whether reading is refused with this text, and takes none of the bytes.
fn is_untouched<T: BorshDeserialize>(alloc: Global, bytes: &[u8], text: &str) -> bool {
    let mut rest = bytes;
    let outcome = T::deserialize(alloc, &mut rest);
    is_invalid(&outcome, text) && rest == bytes
}

#[test]
fn a_slice_keeps_what_is_not_taken(rt: HostRuntime) -> Result<(), Fail> {
    let alloc = rt.alloc();
    let none = b"\0\0\0\0";
    let are_untouched = is_untouched::<Vec<()>>(alloc, none, ERROR_ZST_FORBIDDEN)
        && is_untouched::<Vec<Box<()>>>(alloc, none, ERROR_ZST_FORBIDDEN)
        && is_untouched::<Vec<Range<()>>>(alloc, none, ERROR_ZST_FORBIDDEN)
        && is_untouched::<BTreeMap<(), u8>>(alloc, none, ERROR_ZST_FORBIDDEN)
        && is_untouched::<u32>(alloc, b"\x01\x02\x03", SHORT);
    check(are_untouched, "refused", 0)?;
    let mut rest = b"\x01\0\0\0Az".as_slice();
    let is_a = String::deserialize(alloc, &mut rest)?.as_str() == "A";
    check(is_a && rest == b"z".as_slice(), "text", 0)
}
