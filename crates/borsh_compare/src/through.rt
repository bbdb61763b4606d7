// Structs and tuples seen through: their parts one after another, beside those of another name.
ghost use Rattle.borsh_compare.specs.Walks.{Finds, GoAt, Keeps, names_from};
ghost use Rattle.borsh_plan.specs.Names.{parts_in, shape_at};
ghost use Rattle.borsh_plan.specs.Plan.{names_of};
ghost use Rattle.borsh_walks.specs.Container.{product};
ghost use Rattle.std.specs.Prelude.{IfOk, IfSome, List, OnOk, Some, true, ℕ, ◌++◌, ◌≡◌};

use crate::definitions::{Both, Owners, definitions_go, free_size, is_product};
use crate::pairs::Pairs;
use borsh_plan::Plan;
use std::alloc::{AllocError, Global};

/// At most so many names are passed between two that are compared, and at most so many are compared for one pair.
const MOST_STEPS: usize = 4096;

/// So many bytes, whatever they are, and the place of the name behind them; none at the end.
#[derive(Clone, Copy)]
pub struct Next {
    pub bytes: u64,
    pub at: Option<usize>,
}

// Puts the parts of the name at a place on the stack, the first last.
fn open(plan: &Plan<'_>, at: usize, names: &mut Vec<usize>) -> Result<(), AllocError>
    ensures { OnOk result (names_from plan.now names.new.items
        ≡ parts_in (shape_at (names_of plan.now) at) ++ names_from plan.now names.old.items) }
{
    let parts = plan.parts(at);
    let mut left = parts.len();
    while left > 0 {
        left -= 1;
        names.push(parts[left])?;
    }
    Ok(())
}

/// Whether the name at a place is a struct or a tuple.
pub fn is_open(plan: &Plan<'_>, at: usize) -> bool
    ensures { let shape = shape_at (names_of plan.now) at in
        result ≡ true → (ps : List (List ℕ)) × (shape ≡ Some (product ps)) }
{
    match plan.definition(at) {
        Some(definition) => is_product(definition),
        None => false,
    }
}

/// What the names on the stack begin with. `None` if it takes too many steps.
fn next_of(plan: &Plan<'_>, names: &mut Vec<usize>) -> Result<Option<Next>, AllocError>
    ensures { IfOk result (λ o. IfSome o (Finds plan.now names.old.items names.new.items)) }
{
    let mut bytes: u64 = 0;
    for _ in 0..MOST_STEPS {
        let Some(at) = names.pop() else {
            return Ok(Some(Next { bytes, at: None }));
        };
        if let Some(size) = free_size(plan, at) {
            match bytes.checked_add(size) {
                Some(sum) => bytes = sum,
                None => return Ok(None),
            }
        } else if is_open(plan, at) {
            open(plan, at, names)?;
        } else {
            return Ok(Some(Next {
                bytes,
                at: Some(at),
            }));
        }
    }
    Ok(None)
}

/// Whether the names at two places go together, where structs and tuples are seen through.
pub fn go_through(
    alloc: Global,
    both: Both<'_, '_>,
    pairs: &mut Pairs,
    owners: Owners,
) -> Result<bool, AllocError>
    ensures kept { OnOk result (Keeps pairs.old.list.items pairs.new.list.items) }
    ensures go { IfOk result (λ b. b ≡ true → GoAt both.entry.old.now both.entry.new.now
        pairs.new.list.items owners.old owners.new) }
{
    let mut old_names: Vec<usize> = Vec::new(alloc);
    old_names.push(owners.old)?;
    let mut new_names: Vec<usize> = Vec::new(alloc);
    new_names.push(owners.new)?;
    for _ in 0..MOST_STEPS {
        let Some(old) = next_of(both.old, &mut old_names)? else {
            return Ok(false);
        };
        let Some(new) = next_of(both.new, &mut new_names)? else {
            return Ok(false);
        };
        if old.bytes != new.bytes {
            return Ok(false);
        }
        let (old, new) = match (old.at, new.at) {
            (Some(old), Some(new)) => (old, new),
            (None, None) => return Ok(true),
            _ => return Ok(false),
        };
        let from = owners.from;
        if !definitions_go(alloc, both, pairs, Owners { from, old, new })? {
            return Ok(false);
        }
    }
    Ok(false)
}
