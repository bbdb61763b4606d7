// The first value of some bytes, whatever follows it.
ghost use Rattle.borsh_plan.specs.Plan.{definitions_of, root_of};
ghost use Rattle.borsh_values.specs.Cursor.{IsAnswerOf};
ghost use Rattle.borsh_values.specs.Membership.{AnswersFront};
ghost use Rattle.std.specs.Prelude.{IfOk, ◌≤◌, length};

use crate::cursor::{Cursor, Event};
use crate::faults::{Fault, Reason};
use borsh_plan::Plan;
use std::alloc::{AllocError, Global};

/// How bytes begin.
#[derive(Drop)]
pub enum Front<'a> {
    /// The first bytes, so many of them, are a value.
    Value(usize),
    /// No first bytes are a value, and the definition of the fault's name takes more bytes than are left: more may help.
    TooShort(Fault<'a>),
    /// No first bytes are a value, whatever bytes follow.
    NoMember(Fault<'a>),
    /// As [`crate::Membership::Ambiguous`].
    Ambiguous(&'a str),
}

/// How many of the first bytes are a value of the root, where bytes of other values follow: no others of the first
/// bytes are one, whatever follows.
///
/// The answer is [`Front::TooShort`] only where no first bytes are a value and the definition of the fault's name takes more
/// bytes than are left, and [`Front::NoMember`] only where none are a value, whatever bytes follow. The fault's reason is never
/// `BytesLeft`. A root that has the empty value gets `Value(0)` for any bytes. Otherwise as [`crate::is_member`]. Left open:
/// as there; whether more bytes help where it is `TooShort`.
///
/// ```
/// let plan = Plan::new(alloc, "Vec<u8>", &definitions)?;
/// let front = front_of(alloc, &plan, b"\x01\x00\x00\x00\x07\x02\x00")?; // Front::Value(5)
/// ```
pub fn front_of<'a>(alloc: Global, plan: &Plan<'a>, bytes: &[u8]) -> Result<Front<'a>, AllocError>
    ensures { AnswersFront (definitions_of plan.now) (root_of plan.now) bytes.now result }
{
    let mut cursor = Cursor::new(alloc, plan, bytes)?;
    loop {
        if cursor.pass() {
            continue;
        }
        let event = cursor.step()?;
        if let Some(front) = answer_of(&cursor, event)? {
            return Ok(front);
        }
    }
}

// What an event says of the front of the bytes, if it is the last one.
fn answer_of<'a>(
    cursor: &Cursor<'a, '_, '_>,
    event: Event<'_, '_>,
) -> Result<Option<Front<'a>>, AllocError>
    requires { length cursor.now.left.now ≤ length cursor.now.bytes.now }
    ensures { IfOk result (λ a. IsAnswerOf cursor.now event.entry a) }
{
    match event {
        Event::Open(_, _, _) | Event::Pass(_) | Event::Close => Ok(None),
        Event::End => Ok(Some(Front::Value(cursor.offset()))),
        Event::Fault(at, reason) => {
            let fault = Fault {
                offset: cursor.offset(),
                name: cursor.plan.name(at),
                reason,
                path: cursor.path()?,
            };
            match reason {
                Reason::TooShort => Ok(Some(Front::TooShort(fault))),
                _ => Ok(Some(Front::NoMember(fault))),
            }
        }
        Event::Undecided(at) => Ok(Some(Front::Ambiguous(cursor.plan.name(at)))),
    }
}
