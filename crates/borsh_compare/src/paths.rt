// The way from the root to a pair of names.

use crate::pairs::{Pair, Pairs};
use crate::through::is_open;
use borsh_plan::Plan;
use borsh_values::{Path, PathStep};
use borsh_walks::{Definition, Fields};
use std::alloc::{AllocError, Global};

// A way through structs and tuples is looked for in at most so many steps, and at most so many in one another.
const MOST_STEPS: usize = 65536;

const MOST_DEPTH: usize = 64;

// The pairs that lead to the one at an index, that one first and the root's left out.
fn chain(alloc: Global, pairs: &Pairs, index: usize) -> Result<Vec<Pair>, AllocError> {
    let mut found: Vec<Pair> = Vec::new(alloc);
    let mut at = index;
    for _ in 0..pairs.len() {
        if at == 0 {
            break;
        }
        let Some(pair) = pairs.get(at) else {
            break;
        };
        found.push(pair)?;
        at = pair.from;
    }
    Ok(found)
}

// Adds the indexes of the parts of structs and tuples that lead from one place to another.
fn push_route(
    alloc: Global,
    plan: &Plan<'_>,
    from: usize,
    to: usize,
    path: &mut Vec<usize>,
) -> Result<bool, AllocError> {
    if from == to {
        return Ok(true);
    }
    let mut open: Vec<(usize, usize)> = Vec::new(alloc);
    open.push((from, 0))?;
    for _ in 0..MOST_STEPS {
        let Some((at, index)) = open.pop() else {
            return Ok(false);
        };
        let Some(part) = plan.part(at, index) else {
            continue;
        };
        if part == to {
            for (_, next) in open.as_slice() {
                path.push(next.saturating_sub(1))?;
            }
            path.push(index)?;
            return Ok(true);
        }
        open.push((at, index + 1))?;
        if open.len() < MOST_DEPTH && is_open(plan, part) {
            open.push((part, 0))?;
        }
    }
    Ok(false)
}

/// The index of a part at each step from the old root to the name of a pair, if it was found.
pub fn path_to(
    alloc: Global,
    plan: &Plan<'_>,
    pairs: &Pairs,
    index: usize,
) -> Result<Option<Vec<usize>>, AllocError> {
    let mut path: Vec<usize> = Vec::new(alloc);
    let mut led = chain(alloc, pairs, index)?;
    for _ in 0..pairs.len() {
        let Some(pair) = led.pop() else {
            break;
        };
        let Some(owner) = pairs.get(pair.from) else {
            return Ok(None);
        };
        if !push_route(alloc, plan, owner.old, pair.owner, &mut path)? {
            return Ok(None);
        }
        path.push(pair.index)?;
    }
    Ok(Some(path))
}

// The step to the part at an index.
fn step_to<'a>(definition: &'a Definition, index: usize) -> PathStep<'a> {
    match definition {
        Definition::Sequence { .. } => PathStep::Element(0),
        Definition::Enum { variants, .. } => match variants.get(index) {
            Some((_, name, _)) => PathStep::Variant(name.as_str()),
            None => PathStep::Place(index),
        },
        Definition::Struct {
            fields: Fields::NamedFields(fields),
        } => match fields.get(index) {
            Some((name, _)) => PathStep::Field(name.as_str()),
            None => PathStep::Place(index),
        },
        _ => PathStep::Place(index),
    }
}

/// The path that such indexes say.
pub fn written<'a>(alloc: Global, plan: &Plan<'a>, path: &[usize]) -> Result<Path<'a>, AllocError> {
    let mut steps: Vec<PathStep<'a>> = Vec::new(alloc);
    let mut at: usize = 0;
    for index in path {
        let Some(definition) = plan.definition(at) else {
            break;
        };
        steps.push(step_to(definition, *index))?;
        let Some(part) = plan.part(at, *index) else {
            break;
        };
        at = part;
    }
    Ok(Path {
        root: plan.root(),
        steps,
    })
}
