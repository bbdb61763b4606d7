// Two schemas compared.
ghost use Rattle.borsh_compare.specs.Answers.{IsRight, IsEvidence, KeepsJson};
ghost use Rattle.borsh_compare.specs.Walks.{Includes};
ghost use Rattle.std.specs.Prelude.{IfOk, IfSome, true, ◌≡◌};

use crate::alike::compare_json;
use crate::changes::{Change, all_changes, push_changes};
use crate::definitions::Both;
use crate::evidence::{Evidence, find_evidence};
use crate::walk::{Walked, walk_pairs};
use borsh_json::Json;
use borsh_plan::Plan;
use std::alloc::{AllocError, Global};

/// Whether values of the old schema are values of the new one.
#[derive(Drop)]
pub enum Answer<'a> {
    /// Each is, and the other way round.
    Same,
    /// Each is.
    Compatible,
    /// These bytes are one of the old, and none of the new.
    Incompatible(Evidence<'a>),
    /// Neither was found: the definitions don't correspond part by part.
    NotKnown,
}

/// The answer, and what changed: of compatible schemas all, of others what the answer was found by.
#[derive(Drop)]
pub struct Comparison<'a> {
    pub answer: Answer<'a>,
    /// Whether what JSON says of a value by the old schema it says by the new one; of `Same`, also the other way round.
    pub has_same_json: bool,
    pub changes: Vec<Change<'a>>,
}

// The answer where all values of the old schema are values of the new one.
fn included<'a>(
    alloc: Global,
    old: &Plan<'a>,
    new: &Plan<'a>,
    walked: &Walked,
) -> Result<Comparison<'a>, AllocError>
    requires { Includes old.now new.now }
    ensures answer { IfOk result (λ c. IsRight old.now new.now c.answer) }
    ensures json { IfOk result (λ c. c.has_same_json ≡ true → KeepsJson old.now new.now c.answer) }
{
    let old_json = Json::new(alloc, old)?;
    let new_json = Json::new(alloc, new)?;
    let written = compare_json(alloc, &old_json, &new_json)?;
    let changes = all_changes(alloc, Both { old, new }, &walked.pairs, &written)?;
    let back = walk_pairs(alloc, new, old)?;
    if !back.is_included {
        return Ok(Comparison {
            answer: Answer::Compatible,
            has_same_json: written.is_alike,
            changes,
        });
    }
    let mut has_same_json = written.is_alike;
    if has_same_json {
        has_same_json = compare_json(alloc, &new_json, &old_json)?.is_alike;
    }
    Ok(Comparison {
        answer: Answer::Same,
        has_same_json,
        changes,
    })
}

/// Whether the values of the old root are values of the new one, by the definitions alone: what a type refuses beyond its schema,
/// and what values mean, is not compared.
///
/// The definitions may be any. Names that lead back to themselves are no obstacle. The only error is that an allocation failed.
/// Left open: memory; `NotKnown` where parts don't correspond; that `has_same_json` isn't false where it could be true; the changes:
/// tested.
///
/// ```
/// let old = Plan::new(alloc, "A", &old_definitions)?;
/// let new = Plan::new(alloc, "A", &new_definitions)?;
/// match compare_plans(alloc, &old, &new)?.answer {
///     Answer::Same | Answer::Compatible => println!(rt; "old data is still read")?,
///     Answer::Incompatible(evidence) => println!(rt; "{}", evidence.fault)?,
///     Answer::NotKnown => println!(rt; "not known")?,
/// }
/// ```
pub fn compare_plans<'a>(
    alloc: Global,
    old: &Plan<'a>,
    new: &Plan<'a>,
) -> Result<Comparison<'a>, AllocError>
    ensures answer { IfOk result (λ c. IsRight old.now new.now c.answer) }
    ensures json { IfOk result (λ c. c.has_same_json ≡ true → KeepsJson old.now new.now c.answer) }
{
    let walked = walk_pairs(alloc, old, new)?;
    if walked.is_included {
        return included(alloc, old, new, &walked);
    }
    let both = Both { old, new };
    let mut changes: Vec<Change<'a>> = Vec::new(alloc);
    match find_evidence(alloc, old, new, &walked)? {
        Some((index, evidence)) => {
            push_changes(alloc, both, &walked.pairs, index, true, &mut changes)?;
            Ok(Comparison {
                answer: Answer::Incompatible(evidence),
                has_same_json: false,
                changes,
            })
        }
        None => {
            let index = walked.apart.as_slice().first().copied().unwrap_or(0);
            push_changes(alloc, both, &walked.pairs, index, true, &mut changes)?;
            Ok(Comparison {
                answer: Answer::NotKnown,
                has_same_json: false,
                changes,
            })
        }
    }
}
