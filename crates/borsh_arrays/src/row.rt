//! A row of places on the stack, which are empty at first and are filled from the front.
//!
//! A place is as large as a value and holds one or none. Where Rust has `MaybeUninit<[T; N]>`, this crate takes an
//! `Option<ManuallyDrop<[T; N]>>` that is `None`: it is aligned for the array, and only its tag is written, so the bytes
//! behind the tag are free for `N` places.
//!
//! Who owns a value: the maker, until `make` returns it; then `put_all`, which at once puts it into the first empty
//! place; then the row, whose places below `count` hold a value and whose other places hold none. From there it goes
//! one of two ways, and the row knows of no value afterwards.
//!
//! - The maker gives up: `drop_first` takes each value out of its place, which is empty from then on, and drops it. So
//!   no value is dropped twice, and since it goes over all places that are full, none is leaked.
//! - The row is full: `fill` takes the row apart, which drops nothing, and reads the array from the same bytes. The
//!   `Option` around them is still `None`, so its end drops nothing either.
//!
//! There is no third way out: nothing unwinds.

ghost use Rattle.std.specs.Prelude.{◌≡◌, ◌-◌, ◌<◌, ◌≤◌, MatchResult};
ghost use Rattle.core.specs.Bool.{MatchBool};
ghost use Rattle.core.specs.Mem.Slots.{slots_len, slots_items, slots_filled, SamePlaces, IsFull};
ghost use Rattle.core.specs.Mem.Slots.Ownership.{Filled};
ghost use Rattle.borsh_arrays.specs.Made.{IsMadeBehind, IsGivenUp};

use crate::{GaveUp, Maker};
use core::slots::Slots;
use std::mem::{ManuallyDrop, align_of};

/// The array of `first` and of the `N - 1` values that the maker makes next.
///
/// A row has to know a value of its type even while it is empty, to say what its places held last. So the first value
/// is made before there is a row, and there is no row of no places.
pub(crate) fn fill<T: Drop, M: Maker<T>, const N: usize>(
    first: T,
    maker: &mut M,
) -> Result<[T; N], GaveUp>
    requires { 0 < N }
    ensures { MatchResult result
        (λ xs. IsMadeBehind M.makes (N - 1) first maker.old xs maker.new)
        (λ _. IsGivenUp M.makes M.gives_up (N - 1) maker.old maker.new) }
{
    let mut room: Option<ManuallyDrop<[T; N]>> = None;

    // The tag is a byte, and the array lies at the first offset behind it that is aligned for `T`.
    let start = unsafe { (&raw mut room as *mut u8).add(align_of::<T>()) } as *mut T;
    let is_full = unsafe {
        let row = Slots::from_raw_parts(start, N);
        let (row, is_full) = put_all(row, first, maker);
        row.into_raw_parts();
        is_full
    };
    if is_full {
        Ok(unsafe { (start as *mut [T; N]).read() })
    } else {
        Err(GaveUp)
    }
}

/// Puts `first` and then what the maker makes into the places, from the front.
///
/// The row comes back with a value in each place, and `true`; or, at `false`, the maker gave up and the row has no
/// value left to drop.
#[inline]
fn put_all<T: Drop, M: Maker<T>>(mut row: Slots<T>, first: T, maker: &mut M) -> (Slots<T>, bool)
    requires { 0 < slots_len row }
    ensures places { SamePlaces row result.0 }
    ensures items { let others = slots_len row - 1 in
        MatchBool result.1
        (IsFull result.0 × IsMadeBehind M.makes others first maker.old (slots_items result.0) maker.new)
        (IsGivenUp M.makes M.gives_up others maker.old maker.new) }
{
    row.put(0, first);
    let mut count = 1;
    while count < row.len() {
        match maker.make() {
            Some(value) => row.put(count, value),
            None => {
                drop_first(&mut row, count);
                return (row, false);
            }
        }
        count += 1;
    }
    (row, true)
}

/// Takes the first `count` values out of their places and drops them, the first one first.
#[cold]
fn drop_first<T: Drop>(row: &mut Slots<T>, count: usize)
    requires { (count ≤ slots_len row.old) × Filled (slots_filled row.old) 0 count }
    ensures { SamePlaces row.old row.new }
{
    let mut next = 0;
    while next < count {
        drop(row.take(next));
        next += 1;
    }
}
