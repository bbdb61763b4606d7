// The lengths of the least members.

use borsh_plan::Plan;
use borsh_walks::Definition;
use std::alloc::{AllocError, Global};

/// The length of a name that has no member, as far as it is known.
pub const NONE: u64 = u64::MAX;

// So often the lengths of all names are computed from those of their parts.
const MOST_ROUNDS: usize = 64;

/// The length at a place.
pub fn least_at(lengths: &[u64], at: usize) -> u64 {
    lengths.get(at).copied().unwrap_or(NONE)
}

// A length, and behind it so many values of another.
fn and(length: u64, count: u64, each: u64) -> u64 {
    if count == 0 {
        return length;
    }
    if each == NONE {
        return NONE;
    }
    count.saturating_mul(each).saturating_add(length)
}

/// The index of the shortest part of the name at a place, and its length.
pub fn least_part(plan: &Plan<'_>, lengths: &[u64], at: usize) -> (usize, u64) {
    let mut found = (0, NONE);
    for (index, part) in plan.parts(at).iter().enumerate() {
        let length = least_at(lengths, *part);
        if length < found.1 {
            found = (index, length);
        }
    }
    found
}

// The length of the name at a place, by those of its parts.
fn length_of(plan: &Plan<'_>, lengths: &[u64], at: usize) -> u64 {
    let Some(definition) = plan.definition(at) else {
        return NONE;
    };
    let (_, least) = least_part(plan, lengths, at);
    match definition {
        Definition::Primitive(size) => u64::from(*size),
        Definition::Sequence {
            length_width,
            length_range,
            ..
        } if length_range.start <= length_range.end => {
            and(u64::from(*length_width), length_range.start, least)
        }
        Definition::Sequence { .. } => NONE,
        Definition::Enum { tag_width, .. } => and(u64::from(*tag_width), 1, least),
        _ => {
            let mut length: u64 = 0;
            for part in plan.parts(at) {
                length = and(length, 1, least_at(lengths, *part));
            }
            length
        }
    }
}

/// The length of the least member of each name, or [`NONE`].
pub fn least_lengths(alloc: Global, plan: &Plan<'_>) -> Result<Vec<u64>, AllocError> {
    let mut lengths: Vec<u64> = vec![in alloc; NONE; plan.len()]?;
    for _ in 0..MOST_ROUNDS {
        let mut is_changed = false;
        for at in (0..plan.len()).rev() {
            let length = length_of(plan, lengths.as_slice(), at);
            if let Some(place) = lengths.get_mut(at)
                && length < *place
            {
                *place = length;
                is_changed = true;
            }
        }
        if !is_changed {
            break;
        }
    }
    Ok(lengths)
}
