// Two containers compared.
ghost use Rattle.borsh_c.specs.Answers.{IsShort};
ghost use Rattle.borsh_compare.specs.Walks.{IsStillRead};
ghost use Rattle.borsh_c.specs.Pairs.{AboutTwo, AreAny, IsLost, IsMalformedAs, IsOneMalformed, NoText, OfPlans, RefusesTwo};
ghost use Rattle.borsh_definitions.specs.Codecs.{root_and_map};
ghost use Rattle.std.specs.Prelude.{◌≡◌, ⊤, IfErr, IfOk, Some, string_bytes};

use super::answers::{Container, container_from, cut, no};
use super::refusal::NoAnswer;
use borsh_compare::{Answer, Comparison, compare_plans, comparison_lines};
use borsh_values::Plan;
use std::alloc::{AllocError, Global};

/// What the comparison of two containers says, where each value of the old one is one of the new.
pub fn comparison_of(
    alloc: Global,
    old_schema: &[u8],
    new_schema: &[u8],
) -> Result<String, NoAnswer>
    ensures ok { let read = AboutTwo old_schema.now new_schema.now IsStillRead in
        IfOk result (λ text. IsShort (string_bytes text) × read) }
    ensures err { let malformed = IsOneMalformed old_schema.now new_schema.now in
        let two = AboutTwo old_schema.now new_schema.now in
        IfErr result (λ e. RefusesTwo malformed (two IsLost) (two AreAny) e) }
{
    let old = container_named(alloc, "old", old_schema)?;
    let new = container_named(alloc, "new", new_schema)?;
    let before = Plan::new(alloc, old.0.as_str(), &old.1)?;
    let after = Plan::new(alloc, new.0.as_str(), &new.1)?;
    compared_text(alloc, &before, &after)
}

/// The same of two plans.
fn compared_text<'a>(alloc: Global, old: &Plan<'a>, new: &Plan<'a>) -> Result<String, NoAnswer>
    ensures ok { let read = OfPlans IsStillRead old.now new.now in
        IfOk result (λ text. IsShort (string_bytes text) × read) }
    ensures err { let lost = OfPlans IsLost old.now new.now in
        IfErr result (λ e. RefusesTwo NoText lost ⊤ e) }
{
    let compared = compare_plans(alloc, old, new)?;
    let text = text_of(alloc, &compared)?;
    match &compared.answer {
        Answer::Same | Answer::Compatible => Ok(text),
        Answer::Incompatible(_) => Err(no(text, None)),
        Answer::NotKnown => Err(NoAnswer::Undecided(text)),
    }
}

/// The container whose encoding the bytes are; an error's text begins with the word.
fn container_named(alloc: Global, word: &str, schema: &[u8]) -> Result<Container, NoAnswer>
    ensures ok { IfOk result (λ c. root_and_map.encoding c ≡ Some schema.now) }
    ensures err { let malformed = IsMalformedAs word.now schema.now in
        IfErr result (λ e. RefusesTwo malformed ⊥ ⊥ e) }
{
    match container_from(alloc, schema) {
        Err(NoAnswer::Malformed(why)) => {
            Err(NoAnswer::Malformed(format!(in alloc; "{word}: {why}")?))
        }
        Ok(container) => Ok(container),
        // It has no other refusal.
        Err(_) => Err(NoAnswer::OutOfMemory),
    }
}

/// The lines of a comparison. A line end in a name is written as the tool does, so that it ends none.
fn text_of(alloc: Global, compared: &Comparison<'_>) -> Result<String, AllocError>
    ensures { IfOk result (λ text. IsShort (string_bytes text)) }
{
    let mut text = String::new(alloc);
    for line in comparison_lines(alloc, compared)?.as_slice() {
        push_line(&mut text, line.as_str())?;
    }
    Ok(cut(text))
}

fn push_line(text: &mut String, line: &str) -> Result<(), AllocError> {
    for (index, piece) in line.split('\n').enumerate() {
        if index > 0 {
            text.push_str("\\x0a")?;
        }
        text.push_str(piece)?;
    }
    text.push_str("\n")
}
