// Whether bytes are a member of a name.
ghost use Rattle.borsh_plan.specs.Plan.{definitions_of, root_of};
ghost use Rattle.borsh_walks.specs.Definitions.{definitions_in};
ghost use Rattle.borsh_values.specs.Membership.{AnswersMembership, IsAnswer, IsFrontAnswer};

use crate::faults::{Fault, Path, Reason};
use crate::fronts::{Front, front_of};
use borsh_plan::Plan;
use borsh_walks::Definition;
use std::alloc::{AllocError, Global};
use std::collections::BTreeMap;

/// Whether bytes are a member of a name.
#[derive(Drop)]
pub enum Membership<'a> {
    /// They are a member.
    Member,
    /// They aren't: where they stop being one, and why.
    NoMember(Fault<'a>),
    /// The definition of this name encodes two counts or two variants alike, or has counts of a width that no
    /// valid container has.
    Ambiguous(&'a str),
}

// Whether all of the bytes are the value that they begin with.
fn whole<'a>(alloc: Global, plan: &Plan<'a>, bytes: &[u8], front: Front<'a>) -> Membership<'a>
    requires { let C = definitions_of plan.now in
        IsFrontAnswer C (root_of plan.now) bytes.now front }
    ensures { let C = definitions_of plan.now in
        IsAnswer C (root_of plan.now) bytes.now result }
{
    let root = plan.root();
    match front {
        Front::Value(taken) => {
            if taken == bytes.len() {
                return Membership::Member;
            }
            Membership::NoMember(Fault {
                offset: taken,
                name: root,
                reason: Reason::BytesLeft,
                path: Path {
                    root,
                    steps: Vec::new(alloc),
                },
            })
        }
        Front::TooShort(fault) => Membership::NoMember(fault),
        Front::NoMember(fault) => Membership::NoMember(fault),
        Front::Ambiguous(name) => Membership::Ambiguous(name),
    }
}

/// Whether all of `bytes` is a member of `root`, by the definitions of `map` alone.
///
/// The definitions may be any: a name without a definition has no member, and neither has one that leads back to itself before
/// any byte. If they are no member, the answer says where: no member of [`Fault::name`] begins at [`Fault::offset`], or bytes are
/// left behind a whole value. The answer is never [`Membership::Ambiguous`] where the definitions that are reached are valid, as
/// [`borsh_walks::check_rules`] says, and unambiguous. The only error is that an allocation failed. Left open: memory; for other
/// definitions `Ambiguous` in place of yes or no; which of several faults is answered, and its path: tested.
///
/// ```
/// match is_member(alloc, "Vec<u8>", &definitions, b"\x01\x00\x00\x00\x07")? {
///     Membership::Member => println!(rt; "a value")?,
///     Membership::NoMember(fault) => println!(rt; "{fault}")?,
///     Membership::Ambiguous(name) => println!(rt; "`{name}` is ambiguous")?,
/// }
/// ```
pub fn is_member<'a>(
    alloc: Global,
    root: &'a str,
    map: &'a BTreeMap<String, Definition>,
    bytes: &[u8],
) -> Result<Membership<'a>, AllocError>
    ensures { AnswersMembership (definitions_in map.now) root.now bytes.now result }
{
    let plan = Plan::new(alloc, root, map)?;
    is_member_of(alloc, &plan, bytes)
}

/// As [`is_member`], for a plan. Left open: as there.
///
/// ```
/// let plan = Plan::new(alloc, "Vec<u8>", &definitions)?;
/// let answer = is_member_of(alloc, &plan, b"\x01\x00\x00\x00\x07")?;
/// ```
pub fn is_member_of<'a>(
    alloc: Global,
    plan: &Plan<'a>,
    bytes: &[u8],
) -> Result<Membership<'a>, AllocError>
    ensures { AnswersMembership (definitions_of plan.now) (root_of plan.now) bytes.now result }
{
    let front = front_of(alloc, plan, bytes)?;
    Ok(whole(alloc, plan, bytes, front))
}
