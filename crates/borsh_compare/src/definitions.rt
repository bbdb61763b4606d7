// Whether two definitions go together, if their parts do.
ghost use Rattle.borsh_compare.specs.Together.{HasNone, NamesGo, VariantsGo, unnamed};
ghost use Rattle.borsh_compare.specs.Corresponding.{DefinitionsIn, IsIndexFor, Listing, Lists, PartIn, StaysInside, VariantsCorrespond};
ghost use Rattle.borsh_compare.specs.Walks.{DefinitionsGoAt, Keeps, Paired, PartGoes};
ghost use Rattle.borsh_plan.specs.Names.{name_at, parts_in, shape_at};
ghost use Rattle.borsh_plan.specs.Plan.{definitions_of, names_of};
ghost use Rattle.borsh_plan.specs.Zeros.{IsProduct};
ghost use Rattle.borsh_values.specs.Free.{FreeSize};
ghost use Rattle.borsh_walks.specs.Container.{variant_names};
ghost use Rattle.borsh_walks.specs.Definitions.{shape_of};
ghost use Rattle.std.specs.Prelude.{IfOk, IfSome, List, None, OnOk, Some, false, length, slice_get, true, ℕ, ◌≤◌, ◌≡◌};

use crate::pairs::{Pair, Pairs};
use borsh_plan::Plan;
use borsh_walks::{Declaration, Definition, DiscriminantValue, LengthRange, VariantName};
use std::alloc::{AllocError, Global};
use std::collections::BTreeMap;

/// The two plans.
#[derive(Clone, Copy)]
pub struct Both<'p, 'a> {
    pub old: &'p Plan<'a>,
    pub new: &'p Plan<'a>,
}

/// Whether no bytes are a value of the definition, as it says itself.
pub fn has_none(definition: &Definition) -> bool
    ensures { result ≡ true → HasNone (shape_of definition.now) }
{
    match definition {
        Definition::Sequence { length_range, .. } => length_range.end < length_range.start,
        Definition::Enum { variants, .. } => variants.is_empty(),
        _ => false,
    }
}

/// Whether the parts of the definition come one after another.
pub fn is_product(definition: &Definition) -> bool
    ensures is { result ≡ true → IsProduct (shape_of definition.now) }
    ensures isnt { result ≡ false → IsProduct (shape_of definition.now) → ⊥ }
{
    match definition {
        Definition::Tuple { .. } | Definition::Struct { .. } => true,
        _ => false,
    }
}

/// How many bytes the values of the name at a place have, where any so many are one, as far as it is known.
pub fn free_size(plan: &Plan<'_>, at: usize) -> Option<u64>
    ensures { IfSome result
        (λ n. FreeSize (definitions_of plan.now) (name_at (names_of plan.now) at) n) }
{
    if at >= plan.len() {
        return None;
    }
    let size = plan.size(at);
    if size != 0 {
        return Some(size);
    }
    match plan.definition(at)? {
        Definition::Primitive(size) => Some(u64::from(*size)),
        _ => None,
    }
}

/// The parts of two names, and the pair that they are of.
#[derive(Clone, Copy)]
pub struct Owners {
    pub from: usize,
    pub old: usize,
    pub new: usize,
}

impl Owners {
    // The pair of these parts of the names.
    fn pair(self, old: usize, new: usize, index: usize) -> Pair
        ensures old { result.old ≡ old }
        ensures new { result.new ≡ new }
    {
        Pair {
            old,
            new,
            from: self.from,
            owner: self.old,
            index,
        }
    }
}

/// Pairs a part of the old name with one of the new.
fn part_goes(
    both: Both<'_, '_>,
    pairs: &mut Pairs,
    owners: Owners,
    old_index: usize,
    new_index: usize,
) -> Result<bool, AllocError>
    ensures kept { OnOk result (Keeps pairs.old.list.items pairs.new.list.items) }
    ensures go { IfOk result (λ b. b ≡ true → PartGoes both.entry.old.now both.entry.new.now
        pairs.new.list.items owners.old owners.new old_index new_index) }
    ensures stays { let old = both.entry.old.now in let new = both.entry.new.now in
        IfOk result (λ b. (S : Listing) → PartIn old new S owners.old owners.new old_index new_index
        → StaysInside old new S pairs.old.list.items pairs.new.list.items b) }
{
    let Some(old) = both.old.part(owners.old, old_index) else {
        return Ok(false);
    };
    let Some(new) = both.new.part(owners.new, new_index) else {
        return Ok(false);
    };
    pairs.add(owners.pair(old, new, old_index))
}

/// Whether the names have as many parts; then each is paired with the one in its place.
fn parts_go(both: Both<'_, '_>, pairs: &mut Pairs, owners: Owners) -> Result<bool, AllocError>
    ensures kept { OnOk result (Keeps pairs.old.list.items pairs.new.list.items) }
    ensures go { let old = both.entry.old.now in let new = both.entry.new.now in
        IfOk result (λ b. b ≡ true → NamesGo (Paired old new pairs.new.list.items)
        (parts_in (shape_at (names_of old) owners.old))
        (parts_in (shape_at (names_of new) owners.new))) }
    ensures stays { let old = both.entry.old.now in let new = both.entry.new.now in
        IfOk result (λ b. (S : Listing) → NamesGo (Lists S)
        (parts_in (shape_at (names_of old) owners.old))
        (parts_in (shape_at (names_of new) owners.new))
        → StaysInside old new S pairs.old.list.items pairs.new.list.items b) }
{
    let count = both.old.parts(owners.old).len();
    if both.new.parts(owners.new).len() != count {
        return Ok(false);
    }
    for index in 0..count {
        if !part_goes(both, pairs, owners, index, index)? {
            return Ok(false);
        }
    }
    Ok(true)
}

/// The variants of an enum.
pub type Variants = Vec<(DiscriminantValue, VariantName, Declaration)>;

/// The index that each discriminant has.
pub fn indexes_of(
    alloc: Global,
    variants: &Variants,
) -> Result<BTreeMap<DiscriminantValue, usize>, AllocError> {
    let mut indexes: BTreeMap<DiscriminantValue, usize> = BTreeMap::new(alloc);
    let count = variants.len();
    for index in 0..count {
        if let Some((discriminant, _, _)) = variants.get(index) {
            indexes.insert(*discriminant, index)?;
        }
    }
    Ok(indexes)
}

fn is_with(
    variant: &(DiscriminantValue, VariantName, Declaration),
    discriminant: &DiscriminantValue,
) -> bool
    ensures is { result ≡ true → variant.now.0 ≡ discriminant.now }
    ensures isnt { result ≡ false → variant.now.0 ≡ discriminant.now → ⊥ }
{
    variant.0 == *discriminant
}

// Whether the variant at an index has the discriminant.
fn has_discriminant(variants: &Variants, index: usize, discriminant: &DiscriminantValue) -> bool
    ensures has { let us = unnamed variants.now.items in
        result ≡ true → (q : List ℕ) × (slice_get us index ≡ Some (discriminant.now, q)) }
    ensures hasnt { let us = unnamed variants.now.items in result ≡ false → (q : List ℕ)
        → slice_get us index ≡ Some (discriminant.now, q) → ⊥ }
{
    match variants.get(index) {
        Some(variant) => is_with(variant, discriminant),
        None => false,
    }
}

/// Whether each variant goes with one of the other enum that has its discriminant; then their parts are paired.
fn variants_go(
    alloc: Global,
    both: Both<'_, '_>,
    pairs: &mut Pairs,
    owners: Owners,
    variants: &Variants,
    others: &Variants,
) -> Result<bool, AllocError>
    requires old { let vs = unnamed variants.now.items in
        parts_in (shape_at (names_of both.old.now) owners.old) ≡ variant_names vs }
    requires new { let us = unnamed others.now.items in
        parts_in (shape_at (names_of both.new.now) owners.new) ≡ variant_names us }
    ensures kept { OnOk result (Keeps pairs.old.list.items pairs.new.list.items) }
    ensures go { let vs = unnamed variants.now.items in
        let us = unnamed others.now.items in
        let R = Paired both.entry.old.now both.entry.new.now pairs.new.list.items in
        IfOk result (λ b. b ≡ true → VariantsGo R (length vs) vs us) }
    ensures stays { let old = both.entry.old.now in let new = both.entry.new.now in
        let vs = unnamed variants.now.items in let us = unnamed others.now.items in
        IfOk result (λ b. (S : Listing) → VariantsCorrespond (Lists S) vs us
        → StaysInside old new S pairs.old.list.items pairs.new.list.items b) }
{
    let indexes = indexes_of(alloc, others)?;
    let mut index: usize = 0;
    while let Some((discriminant, _, _)) = variants.get(index) {
        let Some(at) = index_for(others, &indexes, index, discriminant) else {
            return Ok(false);
        };
        if !part_goes(both, pairs, owners, index, at)? {
            return Ok(false);
        }
        index += 1;
    }
    Ok(true)
}

fn index_in(
    indexes: &BTreeMap<DiscriminantValue, usize>,
    discriminant: &DiscriminantValue,
) -> Option<usize> {
    indexes.get(discriminant).copied()
}

/// The index of a variant that has the discriminant: the one given, if its variant has it.
pub fn index_for(
    variants: &Variants,
    indexes: &BTreeMap<DiscriminantValue, usize>,
    index: usize,
    discriminant: &DiscriminantValue,
) -> Option<usize>
    ensures some { IfSome result (IsIndexFor (unnamed variants.now.items) index discriminant.now) }
    ensures none { result ≡ None → (j : ℕ) (q : List ℕ)
        → slice_get (unnamed variants.now.items) j ≡ Some (discriminant.now, q) → ⊥ }
{
    if has_discriminant(variants, index, discriminant) {
        return Some(index);
    }
    if let Some(at) = index_in(indexes, discriminant)
        && has_discriminant(variants, at, discriminant)
    {
        return Some(at);
    }
    // The table has each discriminant, so this finds none.
    let mut at = variants.len();
    while at > 0 {
        at -= 1;
        if has_discriminant(variants, at, discriminant) {
            return Some(at);
        }
    }
    None
}

/// Whether the definitions of two names go together, if their parts do, which are paired then.
pub fn definitions_go(
    alloc: Global,
    both: Both<'_, '_>,
    pairs: &mut Pairs,
    owners: Owners,
) -> Result<bool, AllocError>
    ensures kept { OnOk result (Keeps pairs.old.list.items pairs.new.list.items) }
    ensures go { IfOk result (λ b. b ≡ true → DefinitionsGoAt both.entry.old.now both.entry.new.now
        pairs.new.list.items owners.old owners.new) }
    ensures stays { let old = both.entry.old.now in let new = both.entry.new.now in
        IfOk result (λ b. (S : Listing) → DefinitionsIn old new S owners.old owners.new
        → StaysInside old new S pairs.old.list.items pairs.new.list.items b) }
{
    let Some(old) = both.old.definition(owners.old) else {
        return Ok(false);
    };
    let Some(new) = both.new.definition(owners.new) else {
        return Ok(false);
    };
    match (old, new) {
        (Definition::Primitive(old), Definition::Primitive(new)) => Ok(*old == *new),
        (
            Definition::Sequence {
                length_width: old_width,
                length_range: old_range,
                ..
            },
            Definition::Sequence {
                length_width: new_width,
                length_range: new_range,
                ..
            },
        ) => {
            if *old_width != *new_width || !lies_in(old_range, new_range) {
                return Ok(false);
            }
            if old_range.end == 0 {
                return Ok(true);
            }
            part_goes(both, pairs, owners, 0, 0)
        }
        (
            Definition::Enum {
                tag_width: old_width,
                variants: old_variants,
            },
            Definition::Enum {
                tag_width: new_width,
                variants: new_variants,
            },
        ) => {
            if *old_width != *new_width {
                return Ok(false);
            }
            variants_go(alloc, both, pairs, owners, old_variants, new_variants)
        }
        _ => {
            if !is_product(old) || !is_product(new) {
                return Ok(false);
            }
            parts_go(both, pairs, owners)
        }
    }
}

/// Whether each length of the one range is in the other, which isn't said of a range without lengths.
pub fn lies_in(range: &LengthRange, other: &LengthRange) -> bool
    ensures start { result ≡ true → other.now.start ≤ range.now.start }
    ensures end { result ≡ true → range.now.end ≤ other.now.end }
    ensures isnt { result ≡ false → other.now.start ≤ range.now.start
        → range.now.end ≤ other.now.end → ⊥ }
{
    other.start <= range.start && range.end <= other.end
}
