// Two containers compared.
ghost use Rattle.borsh_compare.specs.Answers.{IsRight};
ghost use Rattle.borsh_compare.specs.Walks.{Includes, IsStillRead};
ghost use Rattle.borsh_plan.specs.declared.plan.Plan.{Plan as PlanOf};
ghost use Rattle.std.specs.Prelude.{IfOk, string_bytes, true, ◌≡◌};

use super::failure::Failure;
use super::output::write_made;
use super::plain_text::PlainText;
use super::values::Schema;
use borsh::io::Write;
use borsh_compare::{Answer, Comparison, compare_plans, comparison_lines};
use borsh_values::Plan;
use std::alloc::{AllocError, Global};

// Whether all values of the old schema are values of the new one.
fn is_yes(answer: &Answer<'_>) -> bool
    ensures { (old new : PlanOf) → IsRight old new answer.now → result ≡ true → Includes old new }
{
    match answer {
        Answer::Same | Answer::Compatible => true,
        Answer::Incompatible(_) | Answer::NotKnown => false,
    }
}

// The lines of a comparison.
fn comparison_text(alloc: Global, compared: &Comparison<'_>) -> Result<PlainText, AllocError> {
    let mut out = PlainText::new(alloc);
    for line in comparison_lines(alloc, compared)?.as_slice() {
        out.push(line.as_str())?;
        out.end_line()?;
    }
    Ok(out)
}

/// Writes whether the values of the old schema are values of the new one, and what changed, and returns whether they are.
///
/// Determined: yes only if each is. Left open: memory; no in place of yes; what is written: tested.
///
/// ```
/// assert!(rt; write_comparison(alloc, &old, &new, &mut out)?);
/// ```
pub fn write_comparison<'a, W: Write>(
    alloc: Global,
    old: &Schema,
    new: &Schema,
    out: &mut W,
) -> Result<bool, Failure<'a>>
    ensures { IfOk result (λ yes. yes ≡ true →
        IsStillRead old.now.definitions (string_bytes old.now.root) new.now.definitions (string_bytes new.now.root)) }
{
    let before = Plan::new(alloc, old.root.as_str(), &old.definitions)?;
    let after = Plan::new(alloc, new.root.as_str(), &new.definitions)?;
    let compared = compare_plans(alloc, &before, &after)?;
    let yes = is_yes(&compared.answer);
    let text = comparison_text(alloc, &compared)?;
    let mut bytes = text.into_bytes();
    write_made(&mut bytes, out)?;
    Ok(yes)
}
