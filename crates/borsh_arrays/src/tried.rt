//! Arrays of a maker that says why it gives up.
ghost use Rattle.std.specs.Prelude.{◌≡◌, Some, Ok, Err, IfErr, IfOk, MatchResult};
ghost use Rattle.borsh_arrays.specs.Made.{IsMade, IsGivenUp};

use crate::{Maker, array_from};

/// Makes values one after another, or says why it gives up.
///
/// The two ghost members say what a call may do to the maker, so that whoever uses the array learns what was made.
pub trait TryMaker<T> {
    type Error: Drop;

    /// In the first state the maker may make the value, and be left in the second.
    ghost makes: { Self → T → Self → Type 0 };

    /// In the first state the maker may give up for this reason, and be left in the second.
    ghost fails: { Self → Self.Error → Self → Type 0 };

    /// The next value, or why there is none.
    fn try_make(&mut self) -> Result<T, Self::Error>
        ensures { MatchResult result (λ value. makes self.old value self.new)
            (λ error. fails self.old error self.new) };
}

/// A value in a struct of its own: it holds an array that is returned beside an error that names a lifetime, until
/// [`release`] takes it out.
#[derive(Drop)]
pub struct Held<A>(pub A);

/// The value out of its struct, or the error as it is.
#[inline]
pub fn release<A, E>(held: Result<Held<A>, E>) -> Result<A, E>
    ensures { MatchResult held (λ kept. result ≡ Ok kept.0) (λ error. result ≡ Err error) }
{
    match held {
        Ok(kept) => {
            let Held(value) = kept;
            Ok(value)
        }
        Err(error) => Err(error),
    }
}

// A maker, and where the reason is kept.
#[derive(Drop)]
struct Reasoned<'a, 'b, M, E> {
    maker: &'a mut M,
    reason: &'b mut Option<E>,
}

impl<'a, 'b, T, M: TryMaker<T>> Maker<T> for Reasoned<'a, 'b, M, M::Error> {
    ghost makes = { λ s value t. (t.maker.ghost_name ≡ s.maker.ghost_name)
        × (t.reason.ghost_name ≡ s.reason.ghost_name)
        × M.makes s.maker.now value t.maker.now };

    ghost gives_up = { λ s t. (t.maker.ghost_name ≡ s.maker.ghost_name)
        × (t.reason.ghost_name ≡ s.reason.ghost_name)
        × (reason : M.Error)
        × (t.reason.now ≡ Some reason)
        × M.fails s.maker.now reason t.maker.now };

    #[inline]
    fn make(&mut self) -> Option<T> {
        match self.maker.try_make() {
            Ok(value) => Some(value),
            Err(reason) => {
                *self.reason = Some(reason);
                None
            }
        }
    }
}

// The array, or the reason that was kept.
#[inline]
fn array_or_reason<T: Drop, M: TryMaker<T>, const N: usize>(
    reasoned: &mut Reasoned<M, M::Error>,
) -> Result<Held<[T; N]>, M::Error>
    ensures same_maker { reasoned.new.maker.ghost_name ≡ reasoned.old.maker.ghost_name }
    ensures same_reason { reasoned.new.reason.ghost_name ≡ reasoned.old.reason.ghost_name }
    ensures ok { IfOk result
        (λ held. IsMade M.makes N reasoned.old.maker.now held.0 reasoned.new.maker.now) }
    ensures err { IfErr result (λ reason. IsGivenUp M.makes (λ s t. M.fails s reason t) N
        reasoned.old.maker.now reasoned.new.maker.now) }
{
    match array_from(reasoned) {
        Ok(items) => Ok(Held(items)),
        Err(_) => match reasoned.reason.take() {
            Some(reason) => Err(reason),
            None => unreachable!(),
        },
    }
}

/// The array of the next `N` values of the maker, in the order in which it makes them, as
/// [`array_from`](crate::array_from) makes it.
///
/// # Errors
///
/// Why the maker gave up, and only if it gave up before it had made `N` values.
#[inline]
pub fn try_array_from<T: Drop, M: TryMaker<T>, const N: usize>(
    maker: &mut M,
) -> Result<Held<[T; N]>, M::Error>
    ensures ok { IfOk result (λ held. IsMade M.makes N maker.old held.0 maker.new) }
    ensures err { IfErr result
        (λ reason. IsGivenUp M.makes (λ s t. M.fails s reason t) N maker.old maker.new) }
{
    let mut reason = None;
    array_or_reason(&mut Reasoned {
        maker,
        reason: &mut reason,
    })
}
