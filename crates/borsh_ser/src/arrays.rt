// Arrays: their elements in order, with no count.
ghost use Rattle.std.specs.List.{flat_map};
ghost use Rattle.std.specs.Prelude.{◌≡◌, All, IfSome, length};

use super::lengths::elements_length;
use super::lists::write_elements;
use super::puts::put_elements;
use super::serialize::BorshSerialize;
use borsh_io::{Result, Write};
use std::alloc::Global;

impl<T: BorshSerialize, const N: usize> BorshSerialize for [T; N] {
    ghost lies_encoded = { T.lies_encoded };

    // Called for a field, its `Result` would be copied through memory.
    #[inline(always)]
    fn serialize<W: Write>(&self, alloc: Global, writer: &mut W) -> Result<()> {
        write_elements(self, alloc, writer)
    }

    #[inline(always)]
    fn put(&self, room: &mut [u8]) -> Option<usize> {
        put_elements(self, room)
    }

    #[inline]
    fn encoded_length(&self) -> Option<u32> {
        elements_length(self)
    }

    #[inline]
    fn u8_slice(slice: &[[T; N]]) -> Option<&[u8]> {
        T::u8_slice(elements_of(slice)?)
    }
}

/// The elements of the arrays, one after another, if a `usize` counts them.
#[inline]
fn elements_of<T, const N: usize>(arrays: &[[T; N]]) -> Option<&[T]>
    ensures elements { IfSome result (λ items. items.now ≡ flat_map (λ x. x) arrays.now) }
    ensures lengths { IfSome result (λ items. All (λ x. length x ≡ N) arrays.now) }
{
    arrays.len().checked_mul(N)?;
    // For the prover: LLVM knows that each array has N elements, and takes the loop away.
    for array in arrays {
        if count(array) != N {
            return None;
        }
    }
    Some(arrays.as_flattened())
}

/// How many elements an array has.
#[inline]
fn count<T, const N: usize>(array: &[T; N]) -> usize
    ensures { result ≡ length array.now }
{
    array.len()
}
