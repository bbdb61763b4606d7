// The nodes of a value, one after another, from its bytes.
ghost use Rattle.borsh_plan.specs.Plan.{definitions_of, root_of};
ghost use Rattle.borsh_walks.specs.Container.{Member};
ghost use Rattle.borsh_values.specs.Cursor.{IsInValue};
ghost use Rattle.std.specs.Prelude.{IfErr, IfOk, None, OnOk, [], option_to_list, take, ◌++◌, ◌-◌, ◌∷◌, ◌≡◌};

use crate::cursor::{Cursor, Event};
use crate::faults::{Path, PathStep, next_step};
use crate::nodes::Node;
use borsh_plan::Plan;
use std::alloc::{AllocError, Global};

/// Why a node isn't given.
#[derive(Debug, Drop)]
pub enum PreorderError<'a> {
    /// An allocation failed.
    OutOfMemory,
    /// As [`crate::Membership::Ambiguous`].
    Ambiguous(&'a str),
}

impl<'a> From<AllocError> for PreorderError<'a> {
    ghost use Rattle.borsh_values.specs.declared.preorder.PreorderError.TheVariants.{OutOfMemory};

    ghost from_gives = { λ _ e. e ≡ OutOfMemory };

    fn from(_: AllocError) -> PreorderError<'a> {
        PreorderError::OutOfMemory
    }
}

/// The nodes of a value in preorder, one after another, as they are read from its bytes: the value itself, its first part, the
/// parts of that, and so on. Values of names of zero size have none.
///
/// As much memory is taken as values are in one another, and a few bytes for each name of the plan.
///
/// ```
/// let plan = Plan::new(alloc, "(u8, bool)", &definitions)?;
/// let mut nodes = Preorder::new(alloc, &plan, b"\x07\x01".as_slice())?;
/// while let Some(node) = nodes.next()? {
///     println!(rt; "{}: {} at byte {}", nodes.path(), node.name, node.offset)?;
/// }
/// ```
#[derive(Drop)]
pub struct Preorder<'a, 'p, 'b> {
    cursor: Cursor<'a, 'p, 'b>,
    path: Path<'a>,
    // The bytes are a member of the root, some of which are read; also after an error.
    ghost inside: { ∥ IsInValue cursor ∥₁ },
    ghost rooted: { path.root.now ≡ root_of cursor.plan.now },
}

impl<'a, 'p, 'b> Preorder<'a, 'p, 'b> {
    ghost use Rattle.borsh_values.specs.Preorder.{GivesNext, IsNotGiven, bytes_left, levels_left, next_offset, plan_of};

    /// In front of the first node of a value of the plan's root. The only error is that an allocation failed. Left open: memory.
    pub fn new(
        alloc: Global,
        plan: &'p Plan<'a>,
        bytes: &'b [u8],
    ) -> Result<Preorder<'a, 'p, 'b>, AllocError>
        requires member { Member (definitions_of plan.now) (root_of plan.now) bytes.now }
        ensures plan { IfOk result (λ p. plan_of p ≡ plan.entry) }
        ensures levels { IfOk result
            (λ p. levels_left p ≡ (None, bytes.now, root_of plan.now ∷ []) ∷ []) }
        ensures path { IfOk result (λ p. p.path.steps.items ≡ []) }
        ensures bytes { IfOk result (λ p. bytes_left p ≡ bytes.now) }
        ensures offset { IfOk result (λ p. next_offset p ≡ 0) }
    {
        let cursor = Cursor::new(alloc, plan, bytes)?;
        Ok(Preorder {
            cursor,
            path: Path {
                root: plan.root(),
                steps: Vec::new(alloc),
            },
        })
    }

    /// The next node, whose depth is the number of values around it; none where all bytes have been given. After an error the nodes
    /// are to be dropped. `Ambiguous` is never returned where the definitions that are reached are valid and unambiguous.
    /// Left open: memory.
    pub fn next(&mut self) -> Result<Option<Node<'a, 'b>>, PreorderError<'a>>
        ensures gives { IfOk result (λ found. GivesNext self.old self.new found) }
        ensures plan { plan_of self.new ≡ plan_of self.old }
        ensures reason { let plan = (plan_of self.old).now in
            IfErr result (IsNotGiven (definitions_of plan) (root_of plan)) }
    {
        loop {
            let plan = self.cursor.plan;
            let depth = self.cursor.depth();
            let offset = self.cursor.offset();
            let around = self.cursor.around();
            match self.cursor.step_inside()? {
                Event::Open(at, definition, bytes) => {
                    let step = next_step(plan, self.cursor.bytes, around);
                    lead_on(&mut self.path, depth, step)?;
                    return Ok(Some(Node {
                        at,
                        name: plan.name(at),
                        definition,
                        bytes,
                        offset,
                        depth,
                    }));
                }
                Event::Pass(_) | Event::Close => (),
                Event::End => return Ok(None),
                Event::Fault(at, _) | Event::Undecided(at) => {
                    return Err(PreorderError::Ambiguous(plan.name(at)));
                }
            }
        }
    }

    /// The path of the node that was given last, or of the root. Left open: none.
    pub fn path(&self) -> &Path<'a>
        ensures root { result.now.root.now ≡ root_of (plan_of self.now).now }
        ensures path { result.now ≡ self.now.path }
    {
        &self.path
    }
}

// Makes the path that of a part which so many values are around: the step leads to it from the last of these.
fn lead_on<'a>(
    path: &mut Path<'a>,
    depth: usize,
    step: Option<PathStep<'a>>,
) -> Result<(), AllocError>
    ensures root { path.new.root ≡ path.old.root }
    ensures steps { OnOk result (path.new.steps.items ≡
        take (depth - 1) path.old.steps.items ++ option_to_list step.entry) }
{
    path.steps.truncate(depth.saturating_sub(1));
    if let Some(step) = step {
        path.steps.push(step)?;
    }
    Ok(())
}
