// A call is made again and again, and each time another one of its requests for memory is refused.
//
// `rt ci` runs these tests over an ordinary heap, which refuses none, so that each call is made with ample memory.
// `tools/refused` runs them over the heap of `tools/heap.c`, which does as it is told.
use super::support::is_kind_alone;
use borsh::io::{ErrorKind, Result as IoResult};
use borsh::{BorshSerialize, to_vec};
use std::alloc::Global;
use std::test::Fail;
use test_devices::heap::Refusal;

/// More requests than any call here makes.
const MOST: u32 = 100000;

/// What came of one round.
#[derive(Clone, Copy, Drop)]
pub(crate) struct Round {
    /// Whether a request was refused in it.
    pub(crate) refused: bool,
    /// Whether the answer, and what the call left behind, were as they should be.
    pub(crate) right: bool,
}

/// Makes rounds until no request is refused in one: first with the first request refused, then with the second, and so on; then
/// the same with all later requests refused too. Fails at the first round that isn't right, and prints how many refused a
/// request.
pub(crate) fn sweep<F: FnMut(Refusal) -> Result<Round, Fail>>(
    rt: HostRuntime,
    call: &str,
    name: &str,
    mut round: F,
) -> Result<(), Fail>
    requires { F.IsAlwaysCallable round }
{
    let mut refused = 0u32;
    for n in 1..MOST {
        let came = round(Refusal::One(n))?;
        if !came.right {
            return Err(Fail::new(format_args!("{call}, {name}: request {n} refused")));
        }
        if !came.refused {
            break;
        }
        refused = refused.saturating_add(1);
    }
    for n in 1..MOST {
        let came = round(Refusal::Rest(n))?;
        if !came.right {
            return Err(Fail::new(format_args!(
                "{call}, {name}: request {n} and all later ones refused"
            )));
        }
        if !came.refused {
            break;
        }
        refused = refused.saturating_add(1);
    }
    if refused > 0 {
        println!(rt; "refused {refused} {call}")?;
    }
    Ok(())
}

/// A call made with every request refused: fails unless it is right and makes none.
pub(crate) fn asks_for_none<F: FnOnce() -> bool>(
    alloc: Global,
    name: &str,
    call: F,
) -> Result<(), Fail>
    requires { F.IsAlwaysCallable call }
{
    Refusal::Rest(1).begin(alloc);
    let right = call();
    let asked = Refusal::Rest(1).end(alloc);
    if asked || !right {
        return Err(Fail::new(format_args!("{name}: without memory")));
    }
    Ok(())
}

/// Whether the outcome is an allocation failure, without a text of its own.
pub(crate) fn is_out_of_memory<T>(outcome: &IoResult<T>) -> bool {
    is_kind_alone(outcome, ErrorKind::OutOfMemory)
}

/// The round of a call that encodes a value: these bytes, or an allocation failure.
pub(crate) fn judge_written(made: IoResult<Vec<u8>>, refused: bool, bytes: &[u8]) -> Round {
    let right = match &made {
        Ok(out) => out.as_slice() == bytes,
        Err(_) => refused && is_out_of_memory(&made),
    };
    Round { refused, right }
}

/// The round of a call that decodes a value: one with these bytes, or an allocation failure.
pub(crate) fn judge_read<T: BorshSerialize>(
    alloc: Global,
    made: &IoResult<T>,
    refused: bool,
    bytes: &[u8],
) -> Result<Round, Fail> {
    let right = match made {
        Ok(value) => to_vec(alloc, value)?.as_slice() == bytes,
        Err(_) => refused && is_out_of_memory(made),
    };
    Ok(Round { refused, right })
}
