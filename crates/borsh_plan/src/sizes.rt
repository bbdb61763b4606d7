// The sizes of names whose members are all bytes of one length, as far as definitions tell them.
ghost use Rattle.borsh_plan.specs.Names.{parts_in, shape_at};
ghost use Rattle.borsh_plan.specs.Sizes.{AreSizes, AreSizesBy, fitting, known_by, known_size, together};
ghost use Rattle.borsh_walks.specs.Definitions.{definitions_in};
ghost use Rattle.std.specs.Prelude.{IfOk, List, Some, cond, drop, eqb, map, ℕ, ◌*◌, ◌≡◌, ◌<◌, get_or, length, replicate, slice_get};

use crate::names::Names;
use borsh_walks::Definition;
use std::alloc::{AllocError, Global};

/// The size at a place; 0 where none is known.
pub fn size_at(sizes: &Vec<u64>, at: usize) -> u64
    ensures { result ≡ get_or sizes.now.items at 0 }
{
    sizes.as_slice().get(at).copied().unwrap_or(0)
}

// The product, or 0 where it has more than 64 bits.
fn product(count: u64, size: u64) -> u64
    ensures some { 0 < result → result ≡ count * size }
    ensures fitting { result ≡ fitting (count * size) }
{
    match count.checked_mul(size) {
        Some(all) => all,
        None => 0,
    }
}

// The size of the parts of the definition at a place together, from an index on, by the sizes of names.
fn size_of_parts(names: &Names<'_>, sizes: &Vec<u64>, at: usize, next: usize) -> u64
    ensures { let parts = drop next (parts_in (shape_at names.now.names.items at)) in
        (P : List ℕ → ℕ) → AreSizes P names.now.names.items sizes.now.items →
        result ≡ together (map P parts) }
{
    let mut total: u64 = 0;
    let mut index = next;
    while let Some(part) = names.part(at, index) {
        let size = size_at(sizes, part);
        if size == 0 {
            return 0;
        }
        match total.checked_add(size) {
            Some(sum) => total = sum,
            None => return 0,
        }
        index += 1;
    }
    total
}

// The size of the sequence at a place, of `start` to `end` elements that no count precedes, by the sizes of names.
fn size_of_array(names: &Names<'_>, sizes: &Vec<u64>, at: usize, start: u64, end: u64) -> u64
    ensures { let parts = parts_in (shape_at names.now.names.items at) in
        (P : List ℕ → ℕ) (e : List ℕ) → AreSizes P names.now.names.items sizes.now.items →
        slice_get parts 0 ≡ Some e → result ≡ cond (eqb start end) (fitting (start * P e)) 0 }
{
    if start != end {
        return 0;
    }
    match names.part(at, 0) {
        Some(part) => product(start, size_at(sizes, part)),
        None => 0,
    }
}

// The size of the name at a place, by the sizes of names; 0 where it isn't known.
fn size_of_name(names: &Names<'_>, sizes: &Vec<u64>, at: usize) -> u64
    ensures { (P : List ℕ → ℕ) → AreSizes P names.now.names.items sizes.now.items →
        result ≡ known_by P (shape_at names.now.names.items at) }
{
    let Some(definition) = names.definition(at) else {
        return 0;
    };
    match definition {
        Definition::Primitive(size) => u64::from(*size),
        Definition::Tuple { .. } => size_of_parts(names, sizes, at, 0),
        Definition::Struct { .. } => size_of_parts(names, sizes, at, 0),
        Definition::Sequence {
            length_width,
            length_range,
            ..
        } => {
            if *length_width != 0 {
                return 0;
            }
            size_of_array(names, sizes, at, length_range.start, length_range.end)
        }
        Definition::Enum { .. } => 0,
    }
}

// No size is known of so many names.
fn no_sizes(alloc: Global, count: usize) -> Result<Vec<u64>, AllocError>
    ensures { IfOk result (λ v. v.items ≡ replicate count 0) }
{
    vec![in alloc; 0; count]
}

// The sizes of all names, by those that are known.
fn next_sizes(alloc: Global, names: &Names<'_>, sizes: &Vec<u64>) -> Result<Vec<u64>, AllocError>
    ensures { let ns = names.now.names.items in
        IfOk result (λ v. (P : List ℕ → ℕ) → AreSizes P ns sizes.now.items → AreSizesBy P ns v.items) }
{
    let count = names.len();
    let mut found: Vec<u64> = Vec::with_capacity(alloc, count)?;
    let mut at: usize = 0;
    while at < count {
        let size = size_of_name(names, sizes, at);
        found.push(size)?;
        at += 1;
    }
    Ok(found)
}

/// The sizes that are known of the names of a table. They pay in bench row `Vec<(u64, u64, u64)>`, `is_member`.
pub fn free_sizes(alloc: Global, names: &Names<'_>) -> Result<Vec<u64>, AllocError>
    ensures { let C = definitions_in names.now.map.now in
        IfOk result (λ v. AreSizes (λ x. known_size C x) names.now.names.items v.items) }
{
    let mut sizes = no_sizes(alloc, names.len())?;
    let mut depth: usize = 0;
    while depth < 8 {
        sizes = next_sizes(alloc, names, &sizes)?;
        depth += 1;
    }
    Ok(sizes)
}
