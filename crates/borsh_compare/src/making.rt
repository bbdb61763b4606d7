// A member of the old root that has a value of a certain name in it.

use crate::least::{NONE, least_at, least_part};
use borsh_plan::Plan;
use borsh_walks::Definition;
use std::alloc::{AllocError, Global};

/// At most so many bytes are made.
const MOST_BYTES: usize = 1048576;

// At most so many steps are made.
const MOST_TASKS: usize = 65536;

/// What the value at the end of the path is: the shortest, a sequence of so many elements, or the variant at an index.
#[derive(Clone, Copy)]
pub enum Last {
    Least,
    Count(u64),
    Variant(usize),
}

// What is still to be made, each behind those that come after it on the stack.
#[derive(Clone, Copy)]
enum Task {
    // A value of the name at a place; the number of steps of the path behind which it comes, if it is on the path.
    Value(usize, Option<usize>),
    // So many of the least values.
    Copies(usize, u64),
    // The least values of the parts from an index to another.
    Parts(usize, usize, usize),
}

/// How a member is made: the lengths of least members, the index of a part at each step from the root, and the bytes of primitives.
#[derive(Clone, Copy)]
pub struct Recipe<'p, 'a, 's> {
    pub plan: &'p Plan<'a>,
    pub lengths: &'s [u64],
    pub path: &'s [usize],
    pub last: Last,
    pub fill: u8,
}

// Writes a number of so many bytes. `None` if a width has more than eight.
fn write(bytes: &mut Vec<u8>, number: [u8; 8], width: u8) -> Result<Option<()>, AllocError> {
    let width = usize::from(width);
    if width > 8 {
        return Ok(None);
    }
    bytes.extend_from_slice(&number[..width])?;
    Ok(Some(()))
}

// Makes the front of a value, and puts its parts on the stack. `None` if there is no such value.
fn begin(
    recipe: Recipe<'_, '_, '_>,
    at: usize,
    depth: Option<usize>,
    bytes: &mut Vec<u8>,
    tasks: &mut Vec<Task>,
) -> Result<Option<()>, AllocError> {
    let Some(definition) = recipe.plan.definition(at) else {
        return Ok(None);
    };
    if least_at(recipe.lengths, at) == NONE {
        return Ok(None);
    }
    let step = depth.and_then(|depth| recipe.path.get(depth).copied());
    let is_last = depth == Some(recipe.path.len());
    let deeper = match (depth, step) {
        (Some(depth), Some(_)) => Some(depth + 1),
        _ => None,
    };
    match definition {
        Definition::Primitive(size) => {
            for _ in 0..*size {
                bytes.push(recipe.fill)?;
            }
        }
        Definition::Sequence {
            length_width,
            length_range,
            ..
        } => {
            let count = match recipe.last {
                Last::Count(count) if is_last => count,
                _ => length_range.start.max(u64::from(step.is_some())),
            };
            let (Some(_), Some(part)) = (
                write(bytes, count.to_le_bytes(), *length_width)?,
                recipe.plan.part(at, 0),
            ) else {
                return Ok(None);
            };
            tasks.push(Task::Copies(part, count.saturating_sub(u64::from(step.is_some()))))?;
            if step.is_some() {
                tasks.push(Task::Value(part, deeper))?;
            }
        }
        Definition::Enum {
            tag_width,
            variants,
        } => {
            let index = match (step, recipe.last) {
                (Some(index), _) => index,
                (None, Last::Variant(index)) if is_last => index,
                _ => least_part(recipe.plan, recipe.lengths, at).0,
            };
            let (Some((discriminant, _, _)), Some(part)) = (
                variants.get(index),
                recipe.plan.part(at, index),
            ) else {
                return Ok(None);
            };
            tasks.push(Task::Value(part, deeper))?;
            return write(bytes, discriminant.to_le_bytes(), *tag_width);
        }
        _ => {
            let count = recipe.plan.parts(at).len();
            let first = step.unwrap_or(count);
            if let Some(part) = recipe.plan.part(at, first) {
                tasks.push(Task::Parts(at, first + 1, count))?;
                tasks.push(Task::Value(part, deeper))?;
            }
            tasks.push(Task::Parts(at, 0, first))?;
        }
    }
    Ok(Some(()))
}

// Does the next of what is still to be made.
fn perform(
    recipe: Recipe<'_, '_, '_>,
    task: Task,
    bytes: &mut Vec<u8>,
    tasks: &mut Vec<Task>,
) -> Result<Option<()>, AllocError> {
    match task {
        Task::Value(at, depth) => return begin(recipe, at, depth, bytes, tasks),
        Task::Copies(at, count) => {
            let each = least_at(recipe.lengths, at);
            if count > 0 && each > (MOST_BYTES as u64) / count {
                return Ok(None);
            }
            if let Some(Definition::Primitive(_)) = recipe.plan.definition(at) {
                for _ in 0..count.saturating_mul(each) {
                    bytes.push(recipe.fill)?;
                }
            } else if count > 0 && each > 0 {
                tasks.push(Task::Copies(at, count - 1))?;
                tasks.push(Task::Value(at, None))?;
            }
        }
        Task::Parts(at, next, end) => {
            if next < end
                && let Some(part) = recipe.plan.part(at, next)
            {
                tasks.push(Task::Parts(at, next + 1, end))?;
                tasks.push(Task::Value(part, None))?;
            }
        }
    }
    Ok(Some(()))
}

/// The bytes of a member, or none where it would have too many, or there is none.
pub fn make(alloc: Global, recipe: Recipe<'_, '_, '_>) -> Result<Option<Vec<u8>>, AllocError> {
    let mut bytes: Vec<u8> = Vec::new(alloc);
    let mut tasks: Vec<Task> = Vec::new(alloc);
    tasks.push(Task::Value(0, Some(0)))?;
    for _ in 0..MOST_TASKS {
        let Some(task) = tasks.pop() else {
            return Ok(Some(bytes));
        };
        let is_made = perform(recipe, task, &mut bytes, &mut tasks)?.is_some();
        if !is_made || bytes.len() > MOST_BYTES {
            return Ok(None);
        }
    }
    Ok(None)
}
