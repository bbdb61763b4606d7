//! Arrays whose values are made one after another, by a maker that may give up.
//!
//! [`array_from`] makes a `[T; N]` of every `T` and every `N`. It doesn't allocate: the values are put side by side on
//! the stack, and the error has no fields. A value is moved into its place, and out again with the array; nothing is
//! cloned, and `T` needs no default.
#![tactic(auto)]

ghost use Rattle.std.specs.Prelude.{Some, codes, IfErr, IfOk, MatchOption};
ghost use Rattle.borsh_arrays.specs.Made.{IsMade, IsGivenUp};

use core::array;
use std::error::Error;
use std::fmt;

mod row;
mod tried;

pub use tried::{Held, TryMaker, release, try_array_from};

/// Makes values one after another, and may give up.
///
/// The two ghost members say what a call may do to the maker, so that whoever uses the array learns what was made.
pub trait Maker<T> {
    /// In the first state the maker may make the value, and be left in the second.
    ghost makes: { Self → T → Self → Type 0 };

    /// In the first state the maker may give up, and be left in the second.
    ghost gives_up: { Self → Self → Type 0 };

    /// The next value, or `None` if the maker gives up.
    fn make(&mut self) -> Option<T>
        ensures { MatchOption result (gives_up self.old self.new)
            (λ value. makes self.old value self.new) };
}

/// The maker gave up before the array was full.
///
/// The values that it had made are dropped. Why it gave up is for the maker to keep.
#[derive(Clone, Copy, Debug, PartialEq, Eq)]
pub struct GaveUp;

impl fmt::Display for GaveUp {
    ghost output = { λ _. Some (codes "the maker gave up") };

    fn fmt<W: fmt::Write>(&self, f: &mut fmt::Formatter<W>) -> fmt::Result {
        write!(f, "the maker gave up")
    }
}

impl Error for GaveUp {}

/// The array of the next `N` values of the maker, in the order in which it makes them.
///
/// The maker is asked `N` times, or until it gives up. Then the values so far are dropped, the first one first, and
/// the maker is left as it was when it gave up. At `N` of 0 it is not asked at all.
///
/// # Errors
///
/// [`GaveUp`], and only if the maker gave up before it had made `N` values.
#[inline]
pub fn array_from<T: Drop, M: Maker<T>, const N: usize>(maker: &mut M) -> Result<[T; N], GaveUp>
    ensures ok { IfOk result (λ xs. IsMade M.makes N maker.old xs maker.new) }
    ensures err { IfErr result (λ _. IsGivenUp M.makes M.gives_up N maker.old maker.new) }
{
    if N == 0 {
        return Ok(array::empty());
    }
    match maker.make() {
        Some(first) => row::fill(first, maker),
        None => Err(GaveUp),
    }
}

#[cfg(test)]
mod tests;
