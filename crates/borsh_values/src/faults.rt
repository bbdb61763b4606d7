// Where bytes stop being a member, and why.
ghost use Rattle.borsh_plan.specs.Plan.{names_of};
ghost use Rattle.borsh_values.specs.{Cursor.remaining, Nodes.IsStep, Preorder.level_of};
ghost use Rattle.std.specs.Prelude.{length, ◌≡◌};

use crate::cursor::after;
use crate::frames::{Frame, Rest};
use crate::names::Name;
use crate::nodes::{count_in, variant_in};
use borsh_plan::Plan;
use borsh_walks::{Definition, Fields};
use std::alloc::{AllocError, Global};
use std::fmt;

/// Why no member begins at a place.
#[derive(Clone, Copy, Debug, PartialEq, Eq)]
pub enum Reason {
    /// The value ends there, and bytes are left.
    BytesLeft,
    /// The definition takes more bytes than are left.
    TooShort,
    /// The count isn't in the range of the sequence.
    Count,
    /// The tag is that of no variant.
    Tag,
    /// The name has no definition.
    MissingDefinition,
    /// The name leads back to itself, and no byte was taken since.
    Recursive,
}

impl fmt::Display for Reason {
    fn fmt<W: fmt::Write>(&self, f: &mut fmt::Formatter<W>) -> fmt::Result {
        match self {
            Reason::BytesLeft => write!(f, "the value ends, and bytes are left"),
            Reason::TooShort => write!(f, "too few bytes are left"),
            Reason::Count => write!(f, "the number of elements isn't allowed"),
            Reason::Tag => write!(f, "no variant has this tag"),
            Reason::MissingDefinition => write!(f, "it has no definition"),
            Reason::Recursive => write!(f, "it leads back to itself before any byte"),
        }
    }
}

/// A step from a value to one of its parts.
#[derive(Clone, Copy, Debug, PartialEq, Eq)]
pub enum PathStep<'a> {
    /// To the field of that name.
    Field(&'a str),
    /// To the field of a tuple, or the field without a name, of that index.
    Place(usize),
    /// To the element of that index.
    Element(u64),
    /// To what the variant of that name has.
    Variant(&'a str),
}

/// The path from the root to a part of its value. It is written as `A.y[3]`, or `A.y[3]::V.0` for the first field of
/// a variant, each name as a [`Name`]: `"Vec<A>"[3]."x.y"`.
#[derive(Drop)]
pub struct Path<'a> {
    pub root: &'a str,
    pub steps: Vec<PathStep<'a>>,
}

impl<'a> fmt::Display for Path<'a> {
    fn fmt<W: fmt::Write>(&self, f: &mut fmt::Formatter<W>) -> fmt::Result {
        write!(f, "{}", Name(self.root))?;
        for step in self.steps.as_slice() {
            match step {
                PathStep::Field(name) => write!(f, ".{}", Name(name))?,
                PathStep::Place(index) => write!(f, ".{index}")?,
                PathStep::Element(index) => write!(f, "[{index}]")?,
                PathStep::Variant(name) => write!(f, "::{}", Name(name))?,
            }
        }
        Ok(())
    }
}

/// Where bytes stop being a member: behind the first `offset` bytes a part of type `name` comes next, which `path` leads to, and no
/// member of it begins there, for `reason`.
///
/// Where the first `offset` bytes are a whole value and others follow (`Reason::BytesLeft`), `name` is the root.
#[derive(Drop)]
pub struct Fault<'a> {
    pub offset: usize,
    pub name: &'a str,
    pub reason: Reason,
    pub path: Path<'a>,
}

impl<'a> fmt::Display for Fault<'a> {
    fn fmt<W: fmt::Write>(&self, f: &mut fmt::Formatter<W>) -> fmt::Result {
        write!(
            f,
            "{} (`{}` at byte {}): {}",
            self.path, self.name, self.offset, self.reason
        )
    }
}

// How many names are still to be read.
fn count_left(plan: &Plan<'_>, rest: Rest) -> u64
    ensures { result ≡ length (remaining (names_of plan.now) rest) }
{
    match rest {
        Rest::Copies(_, count) => count,
        Rest::Parts(at, next) => plan.parts(at).len().saturating_sub(next) as u64,
    }
}

/// The step from the value of a frame to the part that comes next.
pub fn next_step<'a>(plan: &Plan<'a>, bytes: &[u8], frame: Frame) -> Option<PathStep<'a>>
    ensures { let l = level_of plan.now bytes.now frame in IsStep l.0 l.1 (length l.2) result }
{
    let own = after(bytes, bytes.len().checked_sub(frame.start)?);
    let definition = plan.definition(frame.at)?;
    let left = count_left(plan, frame.rest);
    let index = (plan.parts(frame.at).len() as u64).saturating_sub(left) as usize;
    match definition {
        Definition::Sequence { .. } => {
            let count = count_in(definition, own)?;
            Some(PathStep::Element(count.saturating_sub(left)))
        }
        Definition::Enum { variants, .. } => {
            let (_, name, _) = variants.get(variant_in(definition, own)?)?;
            Some(PathStep::Variant(name.as_str()))
        }
        Definition::Struct {
            fields: Fields::NamedFields(fields),
        } => {
            let (name, _) = fields.get(index)?;
            Some(PathStep::Field(name.as_str()))
        }
        _ => Some(PathStep::Place(index)),
    }
}

// The same to the part that was last taken.
fn last_step<'a>(plan: &Plan<'a>, bytes: &[u8], frame: Frame) -> Option<PathStep<'a>> {
    let rest = match frame.rest {
        Rest::Copies(at, others) => Rest::Copies(at, others.checked_add(1)?),
        Rest::Parts(at, next) => Rest::Parts(at, next.checked_sub(1)?),
    };
    next_step(plan, bytes, Frame { rest, ..frame })
}

/// The path of the part that comes next in the value of `frame`, which is in those of the open frames.
pub fn path_to<'a>(
    alloc: Global,
    plan: &Plan<'a>,
    bytes: &[u8],
    open: &Vec<Frame>,
    frame: Frame,
) -> Result<Path<'a>, AllocError> {
    let mut steps: Vec<PathStep<'a>> = Vec::new(alloc);
    for frame in open.as_slice() {
        if let Some(step) = last_step(plan, bytes, *frame) {
            steps.push(step)?;
        }
    }
    if let Some(step) = next_step(plan, bytes, frame) {
        steps.push(step)?;
    }
    let root = plan.root();
    Ok(Path { root, steps })
}
