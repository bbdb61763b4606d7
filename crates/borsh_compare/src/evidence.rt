// Bytes that are a value of the old schema and none of the new one.
ghost use Rattle.borsh_compare.specs.Answers.{IsEvidence};
ghost use Rattle.std.specs.Prelude.{IfOk, IfSome};

use crate::definitions::{Both, indexes_of};
use crate::least::least_lengths;
use crate::making::{Last, Recipe, make};
use crate::pairs::Pair;
use crate::paths::path_to;
use crate::walk::Walked;
use borsh_plan::Plan;
use borsh_values::{Fault, Membership, is_member_of};
use borsh_walks::Definition;
use std::alloc::{AllocError, Global};
use std::collections::BTreeMap;

// So many pairs are tried, so many variants of each, and so many bytes in all.
const MOST_TRIED: usize = 16;

const MOST_VARIANTS: usize = 4;

const MOST_ALL: usize = 8388608;

// The bytes of primitives that are tried.
const FILLS: [u8; 3] = [0, 255, 1];

/// Such bytes, and where they stop being a value of the new schema.
#[derive(Drop)]
pub struct Evidence<'a> {
    pub bytes: Vec<u8>,
    pub fault: Fault<'a>,
}

// Where bytes of the old schema stop being a value of the new one.
fn refusal<'a>(
    alloc: Global,
    old: &Plan<'_>,
    new: &Plan<'a>,
    bytes: &[u8],
) -> Result<Option<Fault<'a>>, AllocError>
    ensures { IfOk result (λ o. IfSome o (IsEvidence old.now new.now bytes.now)) }
{
    match is_member_of(alloc, old, bytes)? {
        Membership::Member => {}
        _ => return Ok(None),
    }
    match is_member_of(alloc, new, bytes)? {
        Membership::NoMember(fault) => Ok(Some(fault)),
        _ => Ok(None),
    }
}

// What the values of the old name of a pair may be that the new one hasn't.
fn lasts_of(alloc: Global, both: Both<'_, '_>, pair: Pair) -> Result<Vec<Last>, AllocError> {
    let mut lasts: Vec<Last> = Vec::new(alloc);
    let new = both.new.definition(pair.new);
    match both.old.definition(pair.old) {
        Some(Definition::Enum { variants, .. }) => {
            let others = match new {
                Some(Definition::Enum { variants, .. }) => indexes_of(alloc, variants)?,
                _ => BTreeMap::new(alloc),
            };
            for (index, (discriminant, _, _)) in variants.as_slice().iter().enumerate() {
                if others.get(discriminant).is_none() && lasts.len() < MOST_VARIANTS {
                    lasts.push(Last::Variant(index))?;
                }
            }
        }
        Some(Definition::Sequence { length_range, .. }) => {
            if let Some(
                Definition::Sequence {
                    length_range: other,
                    ..
                },
            ) = new
                && other.end < length_range.end
            {
                lasts.push(Last::Count(length_range.start.max(other.end + 1)))?;
            }
        }
        _ => {}
    }
    lasts.push(Last::Least)?;
    Ok(lasts)
}

/// Such bytes, if they are found, and the index of the pair that they were made for.
pub fn find_evidence<'a>(
    alloc: Global,
    old: &Plan<'_>,
    new: &Plan<'a>,
    walked: &Walked,
) -> Result<Option<(usize, Evidence<'a>)>, AllocError>
    ensures { IfOk result (λ o. IfSome o
        (λ e. IsEvidence old.now new.now e.1.bytes.items e.1.fault)) }
{
    let both = Both { old, new };
    let lengths = least_lengths(alloc, old)?;
    let mut left = MOST_ALL;
    for index in walked.apart.as_slice().iter().take(MOST_TRIED) {
        let Some(pair) = walked.pairs.get(*index) else {
            continue;
        };
        let Some(path) = path_to(alloc, old, &walked.pairs, *index)? else {
            continue;
        };
        for last in lasts_of(alloc, both, pair)?.as_slice() {
            for fill in FILLS {
                let recipe = Recipe {
                    plan: old,
                    lengths: lengths.as_slice(),
                    path: path.as_slice(),
                    last: *last,
                    fill,
                };
                let Some(bytes) = make(alloc, recipe)? else {
                    continue;
                };
                let Some(less) = left.checked_sub(bytes.len()) else {
                    return Ok(None);
                };
                left = less;
                if let Some(fault) = refusal(alloc, old, new, bytes.as_slice())? {
                    return Ok(Some((*index, Evidence { bytes, fault })));
                }
            }
        }
    }
    Ok(None)
}
