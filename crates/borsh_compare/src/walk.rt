// The walk over pairs of names: whether all members of the old root are members of the new one.
ghost use Rattle.borsh_compare.specs.Corresponding.{CorrespondAt, DefinitionsIn, Listing, RootsCorrespond, StaysInside};
ghost use Rattle.borsh_compare.specs.Walks.{GoAt, HaveOneSize, Includes, Keeps};
ghost use Rattle.borsh_plan.specs.Names.{shape_at};
ghost use Rattle.borsh_plan.specs.Plan.{names_of};
ghost use Rattle.borsh_walks.specs.Definitions.{shape_of};
ghost use Rattle.std.specs.Prelude.{IfOk, OnOk, Some, false, true, ◌≡◌};

use crate::definitions::{Both, Owners, definitions_go, free_size, has_none, is_product};
use crate::pairs::{MOST_PAIRS, Pairs, ROOTS};
use crate::through::go_through;
use borsh_plan::Plan;
use borsh_walks::Definition;
use std::alloc::{AllocError, Global};

/// The pairs that were compared, and the indexes of those that don't go together, as far as that was found.
#[derive(Drop)]
pub struct Walked {
    pub pairs: Pairs,
    pub apart: Vec<usize>,
    /// Whether all members of the old root are members of the new one.
    pub is_included: bool,
}

// Whether values of the name at a place are bytes of one length, and those of the other name are as long.
fn have_one_size(both: Both<'_, '_>, old: usize, new: usize) -> bool
    ensures { result ≡ true → HaveOneSize both.entry.old.now both.entry.new.now old new }
{
    match (free_size(both.old, old), free_size(both.new, new)) {
        (Some(old), Some(new)) => old == new,
        _ => false,
    }
}

// Whether one is a struct or tuple and the other none, or one with more parts or fewer.
fn has_other_parts(both: Both<'_, '_>, owners: Owners, old: &Definition, new: &Definition) -> bool
    requires old { shape_at (names_of both.old.now) owners.old ≡ Some (shape_of old.now) }
    requires new { shape_at (names_of both.new.now) owners.new ≡ Some (shape_of new.now) }
    ensures { let p = both.entry.old.now in let q = both.entry.new.now in
        result ≡ true → (S : Listing) → DefinitionsIn p q S owners.old owners.new → ⊥ }
{
    let is_old = is_product(old);
    let is_new = is_product(new);
    if !is_old {
        return is_new;
    }
    if !is_new {
        return true;
    }
    let count = both.old.parts(owners.old).len();
    if both.new.parts(owners.new).len() != count {
        return true;
    }
    false
}

/// Whether the names at two places go together, if the pairs of their parts do, which are added.
fn names_go(
    alloc: Global,
    both: Both<'_, '_>,
    pairs: &mut Pairs,
    owners: Owners,
) -> Result<bool, AllocError>
    ensures kept { OnOk result (Keeps pairs.old.list.items pairs.new.list.items) }
    ensures go { IfOk result (λ b. b ≡ true → GoAt both.entry.old.now both.entry.new.now
        pairs.new.list.items owners.old owners.new) }
    ensures stays { let old = both.entry.old.now in let new = both.entry.new.now in
        IfOk result (λ b. (S : Listing) → CorrespondAt old new S owners.old owners.new
        → StaysInside old new S pairs.old.list.items pairs.new.list.items b) }
{
    let Some(old) = both.old.definition(owners.old) else {
        return Ok(true);
    };
    if has_none(old) {
        return Ok(true);
    }
    if have_one_size(both, owners.old, owners.new) {
        return Ok(true);
    }
    let Some(new) = both.new.definition(owners.new) else {
        return Ok(false);
    };
    if has_other_parts(both, owners, old, new) {
        return go_through(alloc, both, pairs, owners);
    }
    definitions_go(alloc, both, pairs, owners)
}

/// Compares the pairs of names that lead from the two roots.
pub fn walk_pairs(alloc: Global, old: &Plan<'_>, new: &Plan<'_>) -> Result<Walked, AllocError>
    ensures included { IfOk result (λ w. w.is_included ≡ true → Includes old.now new.now) }
    ensures apart { IfOk result (λ w. w.is_included ≡ false → RootsCorrespond old.now new.now → ⊥) }
{
    let both = Both { old, new };
    let mut pairs = Pairs::new(alloc);
    let mut apart: Vec<usize> = Vec::new(alloc);
    let mut is_whole = pairs.add(ROOTS)?;
    let mut next: usize = 0;
    while next < MOST_PAIRS {
        let Some(pair) = pairs.get(next) else {
            return Ok(Walked {
                pairs,
                apart,
                is_included: is_whole,
            });
        };
        let owners = Owners {
            from: next,
            old: pair.old,
            new: pair.new,
        };
        if !names_go(alloc, both, &mut pairs, owners)? {
            is_whole = false;
            apart.push(next)?;
        }
        next += 1;
    }
    Ok(Walked {
        pairs,
        apart,
        is_included: false,
    })
}
