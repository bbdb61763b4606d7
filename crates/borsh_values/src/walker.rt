// A value that is walked part by part.
ghost use Rattle.borsh_plan.specs.Plan.{definitions_of};
ghost use Rattle.borsh_values.specs.Tags.{AreTagTables};
ghost use Rattle.std.specs.Prelude.{IfOk, IfSome, ◌+◌, ◌<◌, ◌^◌, ◌≡◌, length};

use crate::cursor::{after, front};
use crate::frames::Opened;
use crate::nodes::Node;
use crate::opening::open_definition;
use crate::tags::Found;
use borsh_plan::Plan;
use std::alloc::{AllocError, Global};
use std::collections::BTreeMap;

/// The bytes of a value that are left, for a caller that knows which of its parts comes next, and wants no list of nodes.
///
/// The caller keeps the places of the parts that are open. A struct or a tuple has no bytes of its own, and needs no call.
///
/// ```
/// // the parts of `(u8, u16)`, whose plan has `u8` at 1 and `u16` at 2
/// let mut walk = Walker::new(alloc, &plan, b"\x07\x01\x00");
/// let first = walk.open(1, 1)?; // the node of `u8`, of the byte 07
/// let second = walk.open(2, 1)?; // that of `u16`, of 01 00
/// ```
#[derive(Drop)]
pub struct Walker<'a, 'l, 'b> {
    alloc: Global,
    pub plan: &'l Plan<'a>,
    tables: BTreeMap<&'a str, BTreeMap<u64, Found>>,
    /// The bytes that are left.
    pub left: &'b [u8],
    /// How many bytes of the value come before these.
    pub offset: usize,
    pub ghost tabled: { ∥ AreTagTables (definitions_of plan.now) tables ∥₁ },
    pub ghost small: { offset + length left.now < 2 ^ 64 },
}

impl<'a, 'l, 'b> Walker<'a, 'l, 'b> {
    ghost use Rattle.borsh_values.specs.Walks.{FindsAt};

    /// At the beginning of the bytes of a value. Nothing is allocated. Left open: none.
    pub fn new(alloc: Global, plan: &'l Plan<'a>, bytes: &'b [u8]) -> Walker<'a, 'l, 'b>
        ensures plan { result.plan ≡ plan.entry }
        ensures left { result.left.now ≡ bytes.now }
        ensures offset { result.offset ≡ 0 }
    {
        Walker {
            alloc,
            plan,
            tables: BTreeMap::new(alloc),
            left: bytes,
            offset: 0,
        }
    }

    /// Takes the own bytes of the value of the name at a place, with which the bytes begin that are left: a primitive its
    /// bytes, a sequence its count and its elements if these are primitives of some bytes, an enum its tag, a struct and a
    /// tuple none. The node has the depth that is passed.
    ///
    /// There is none where no value of the name begins there, or its definition is one of [`crate::Membership::Ambiguous`].
    /// The only error is that an allocation failed: only the table of an enum of many variants needs one. After an error the
    /// walk isn't to be used. Left open: memory; which bytes are left where there is none.
    ///
    /// ```
    /// let node = walk.open(0, 0)?;
    /// ```
    pub fn open(&mut self, at: usize, depth: usize) -> Result<Option<Node<'a, 'b>>, AllocError>
        ensures finds { IfOk result (λ found. FindsAt at self.old self.new found) }
        ensures plan { self.new.plan ≡ self.old.plan }
        ensures depth { IfOk result (λ found. IfSome found (λ n. n.depth ≡ depth)) }
    {
        let plan = self.plan;
        let Some(definition) = plan.definition(at) else {
            return Ok(None);
        };
        let name = plan.name(at);
        match open_definition(
            self.alloc,
            plan,
            &mut self.tables,
            name,
            at,
            definition,
            self.left,
        )? {
            Opened::Taken(taken, _parts) => {
                let node = Node {
                    at,
                    name,
                    definition,
                    bytes: front(self.left, taken),
                    offset: self.offset,
                    depth,
                };
                self.left = after(self.left, taken);
                self.offset += taken;
                Ok(Some(node))
            }
            Opened::Undecided | Opened::Refused(_) => Ok(None),
        }
    }
}
