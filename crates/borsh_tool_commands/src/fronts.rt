// The bytes of one value, read as far as they may be one.
ghost use Rattle.borsh_tool_commands.specs.Fronts.{IsRead};
ghost use Rattle.borsh_plan.specs.Plan.{definitions_of, root_of};
ghost use Rattle.borsh_io.specs.Buffered.{held, reader_of};
ghost use Rattle.borsh_walks.specs.Container.{Member};
ghost use Rattle.std.specs.Prelude.{[], ◌≡◌, ◌++◌, IfSome, List, OnOk, ℕ, true};

use borsh::io::{Buffered, Error, ErrorKind, Read, Result};
use borsh_values::{Front, Plan, front_of};
use std::alloc::Global;

/// How many bytes there are when they are looked at first.
const FIRST_LOOK: usize = 65536;

/// How many times as many there are when they are looked at again.
const GROWTH: usize = 8;

/// Holds the bytes of a value of the plan's root: all of the reader's, or as many as show that they are none. Left open: which of
/// both; memory.
///
/// ```
/// let mut input = Buffered::new(alloc, StdReader::new(rt.stdin(), 1000));
/// read_value(alloc, &plan, &mut input)?;
/// let bytes = input.held();
/// ```
pub fn read_value<R: Read + Drop>(
    alloc: Global,
    plan: &Plan<'_>,
    input: &mut Buffered<R>,
) -> Result<()>
    requires none { held input.old ≡ [] }
    ensures { OnOk result (IfSome (R.stream (reader_of input.old)).bytes
        (λ all. IsRead (definitions_of plan.now) (root_of plan.now) all (held input.new))) }
{
    let mut next_look = FIRST_LOOK;
    for _ in 0..u64::MAX {
        let length = input.held().len();
        if next_look <= length {
            if is_no_value(alloc, plan, input.held()) {
                return Ok(());
            }
            next_look = length.saturating_mul(GROWTH);
        }
        if input.read_more()? == 0 {
            return Ok(());
        }
    }
    Err(Error::from(ErrorKind::OutOfMemory))
}

/// Whether the bytes are no value, and no beginning of one. A failed allocation leaves that open.
fn is_no_value(alloc: Global, plan: &Plan<'_>, bytes: &[u8]) -> bool
    ensures { let C = definitions_of plan.now in
        result ≡ true → (more : List ℕ) → Member C (root_of plan.now) (bytes.now ++ more) → ⊥ }
{
    match front_of(alloc, plan, bytes) {
        Ok(Front::Value(length)) => length < bytes.len(),
        Ok(Front::NoMember(_)) => true,
        Ok(Front::TooShort(_)) | Ok(Front::Ambiguous(_)) | Err(_) => false,
    }
}
