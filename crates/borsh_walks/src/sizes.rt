// The greatest size of a name.
ghost use Rattle.borsh_walks.specs.Counts.{counts_of, definition_count, definitions_of, LooksOn, SizeWork};
ghost use Rattle.borsh_walks.specs.Definitions.{shape_of};
ghost use Rattle.borsh_walks.specs.SizeAnswer.{CountsNeeded, IsMissing, IsSizeAnswer};
ghost use Rattle.borsh_walks.specs.SizeOutcome.{AnswersSize};
ghost use Rattle.borsh_walks.specs.SizeParts.{IsIfFits, add_part, size_of_parts};
ghost use Rattle.std.specs.Prelude.{◌^◌, ◌<◌, IfOk};

use crate::counted::{Counted, Question};
use crate::definition::Definition;
use crate::error::SchemaMaxSerializedSizeError;
use crate::parts::needed_part;
use crate::places::{Places, mark_at, no_marks, set_mark};
use crate::stack::Spot;
use std::alloc::Global;

// How far a name's size has come.
#[derive(Clone, Copy)]
pub enum Mark {
    Open,
    Finished(usize),
}

// A spot, with what the sizes of its settled parts make, and the place of its name.
#[derive(Clone, Copy)]
pub struct Frame<'a> {
    spot: Spot<'a>,
    gathered: usize,
    place: usize,
}

// What the sizes of the parts so far make, and the next part's.
fn gather(definition: &Definition, gathered: usize, size: usize) -> Option<usize>
    ensures { IsIfFits result (add_part (shape_of definition.now) gathered size) }
{
    match definition {
        Definition::Enum { .. } => Some(gathered.max(size)),
        _ => gathered.checked_add(size),
    }
}

// The size of a definition.
fn finish(definition: &Definition, gathered: usize) -> Option<usize>
    ensures { IsIfFits result (size_of_parts (shape_of definition.now) gathered) }
{
    match definition {
        Definition::Primitive(size) => Some(usize::from(*size)),
        Definition::Sequence {
            length_width,
            length_range,
            ..
        } => {
            let repeated = usize::try_from(length_range.end)
                .ok()?
                .checked_mul(gathered)?;
            repeated.checked_add(usize::from(*length_width))
        }
        Definition::Enum { tag_width, .. } => gathered.checked_add(usize::from(*tag_width)),
        Definition::Tuple { .. } | Definition::Struct { .. } => Some(gathered),
    }
}

/// The greatest size of the root, in bytes, as the definitions give it; no encoding is longer. A primitive has its own size, a
/// sequence its length width and its greatest length times its element, an enum its tag width and its greatest variant, a tuple
/// or struct the sum of its parts. The element of a sequence whose greatest length is 0 isn't needed and isn't visited.
///
/// ```
/// let most = root_size(alloc, "Vec<u8>", &mut Counted::new(&definitions, &mut counts))?;
/// ```
///
/// # Errors
///
/// `Overflow` for a size that doesn't fit in a `usize`, `Recursive` for a needed definition that contains itself,
/// `MissingDefinition` for a needed name without a definition, `OutOfMemory` if an allocation fails. Only definitions that the
/// size needs are counted, each at most once, and after `Ok` all of them. Left open: memory; which of several causes is reported;
/// after an error, how many are counted; definitions that are read without [`Counted::look`].
pub fn root_size(
    alloc: Global,
    root: &str,
    counted: &mut Counted<'_, '_>,
) -> Result<usize, SchemaMaxSerializedSizeError>
    ensures same { LooksOn counted.old counted.new }
    ensures size { AnswersSize (definitions_of counted.old) root.now result }
    ensures counts { CountsNeeded (definitions_of counted.old) root.now
        (counts_of counted.old) (counts_of counted.new) result }
    ensures bounded_work { SizeWork (definition_count counted.old)
        (counts_of counted.old) (counts_of counted.new) }
{
    walk_sizes(alloc, root, counted)
}

// The walk for the size of the root. A name on the stack is `Open`, and one with a size is `Finished`.
fn walk_sizes<'a, 'm: 'a>(
    alloc: Global,
    root: &'a str,
    counted: &mut Counted<'m, '_>,
) -> Result<usize, SchemaMaxSerializedSizeError>
    ensures same { LooksOn counted.old counted.new }
    ensures answer { IsSizeAnswer (definitions_of counted.old) root.now result }
    ensures fits { IfOk result (λ n. n < 2 ^ 64) }
    ensures counts { CountsNeeded (definitions_of counted.old) root.now
        (counts_of counted.old) (counts_of counted.new) result }
{
    let places = Places::new(alloc, counted.map)?;
    let Some((place, definition)) = places.find(root) else {
        return Err(missing(alloc, root));
    };
    let mut marks = no_marks(alloc, counted.map.len())?;
    let mut stack: Vec<Frame<'a>> = Vec::new(alloc);
    counted.visit(Question::Size);
    set_mark(&mut marks, place, Mark::Open);
    let mut frame = Frame {
        spot: Spot::at(root, definition),
        gathered: 0,
        place,
    };
    loop {
        match needed_part(frame.spot.definition, frame.spot.next) {
            Some(part) => {
                let Some((place, definition)) = places.find(part) else {
                    return Err(missing(alloc, part));
                };
                match mark_at(&marks, place) {
                    Some(Mark::Finished(size)) => {
                        let Some(gathered) = gather(frame.spot.definition, frame.gathered, size)
                        else {
                            return Err(SchemaMaxSerializedSizeError::Overflow);
                        };
                        frame.gathered = gathered;
                        frame.spot.next += 1;
                    }
                    Some(Mark::Open) => return Err(SchemaMaxSerializedSizeError::Recursive),
                    None => {
                        counted.visit(Question::Size);
                        set_mark(&mut marks, place, Mark::Open);
                        stack.push(frame)?;
                        frame = Frame {
                            spot: Spot::at(part, definition),
                            gathered: 0,
                            place,
                        };
                    }
                }
            }
            None => {
                let Some(size) = finish(frame.spot.definition, frame.gathered) else {
                    return Err(SchemaMaxSerializedSizeError::Overflow);
                };
                set_mark(&mut marks, frame.place, Mark::Finished(size));
                match stack.pop() {
                    Some(above) => {
                        frame = above;
                        let Some(gathered) = gather(frame.spot.definition, frame.gathered, size)
                        else {
                            return Err(SchemaMaxSerializedSizeError::Overflow);
                        };
                        frame.gathered = gathered;
                        frame.spot.next += 1;
                    }
                    None => return Ok(size),
                }
            }
        }
    }
}

fn missing(alloc: Global, name: &str) -> SchemaMaxSerializedSizeError
    ensures { IsMissing name.now result }
{
    match String::from_str(alloc, name) {
        Ok(name) => SchemaMaxSerializedSizeError::MissingDefinition(name),
        Err(_) => SchemaMaxSerializedSizeError::OutOfMemory,
    }
}
