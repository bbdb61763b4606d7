// Names whose values have no bytes.
ghost use Rattle.borsh_plan.specs.Names.{shape_at};
ghost use Rattle.borsh_plan.specs.Zeros.{AreZeros, HasNeverZeroPart, IsNeverZero, IsProduct, ZeroAt};
ghost use Rattle.borsh_walks.specs.Container.{zero_size_references};
ghost use Rattle.borsh_walks.specs.Definitions.{definitions_in, shape_of};
ghost use Rattle.borsh_walks.specs.ZeroAnswer.{ZeroTable};
ghost use Rattle.std.specs.Prelude.{IfOk, OnOk, Some, [], is_none, length, true, ◌<◌, ◌≡◌};

use crate::names::Names;
use borsh_walks::zero::{is_zero, never_zero};
use borsh_walks::{Counted, Definition, Expansions};
use std::alloc::{AllocError, Global};
use std::collections::BTreeMap;

// Whether the definition is a primitive without bytes.
fn is_unit(definition: &Definition) -> bool
    ensures { result ≡ true → zero_size_references (shape_of definition.now) ≡ Some [] }
{
    match definition {
        Definition::Primitive(size) => *size == 0,
        _ => false,
    }
}

// Whether the parts of values come one after another.
fn is_product(definition: &Definition) -> bool
    ensures { result ≡ true → IsProduct (shape_of definition.now) }
{
    match definition {
        Definition::Tuple { .. } | Definition::Struct { .. } => true,
        _ => false,
    }
}

// Whether the definition of the name at a place says without its parts that values have bytes.
fn is_never_zero_at(names: &Names<'_>, at: usize) -> bool
    ensures { result ≡ true → IsNeverZero (shape_at names.now.names.items at) }
{
    match names.definition(at) {
        Some(definition) => never_zero(definition),
        None => false,
    }
}

// Whether a part of the definition at a place says so.
fn has_never_zero_part(names: &Names<'_>, at: usize) -> bool
    ensures { result ≡ true → HasNeverZeroPart names.now.names.items at }
{
    let mut index: usize = 0;
    while let Some(part) = names.part(at, index) {
        if is_never_zero_at(names, part) {
            return true;
        }
        index += 1;
    }
    false
}

// Whether the values of the name at a place have no bytes. Most definitions say it themselves, or one of their parts does.
fn find_zero<'a>(
    alloc: Global,
    names: &Names<'a>,
    table: &mut BTreeMap<&'a str, bool>,
    at: usize,
) -> Result<bool, AllocError>
    requires within { at < length names.now.names.items }
    requires table { ZeroTable (definitions_in names.now.map.now) table.old }
    ensures zero { IfOk result (ZeroAt (definitions_in names.now.map.now) names.now.names.items at) }
    ensures table { OnOk result (ZeroTable (definitions_in names.now.map.now) table.new) }
{
    let Some(definition) = names.definition(at) else {
        return Ok(false);
    };
    if never_zero(definition) {
        return Ok(false);
    }
    if is_unit(definition) {
        return Ok(true);
    }
    if is_product(definition) && has_never_zero_part(names, at) {
        return Ok(false);
    }
    let mut counts = Expansions::NONE;
    let mut counted = Counted::new(names.map, &mut counts);
    is_zero(alloc, names.name(at), table, &mut counted)
}

/// Of each name whether its values have no bytes.
pub fn zero_sizes<'a>(alloc: Global, names: &Names<'a>) -> Result<Vec<bool>, AllocError>
    ensures { let C = definitions_in names.now.map.now in
        IfOk result (λ v. AreZeros C names.now.names.items v.items) }
{
    let mut table: BTreeMap<&'a str, bool> = BTreeMap::new(alloc);
    let count = names.len();
    let mut zeros: Vec<bool> = Vec::with_capacity(alloc, count)?;
    let mut at: usize = 0;
    while at < count {
        let zero = find_zero(alloc, names, &mut table, at)?;
        zeros.push(zero)?;
        at += 1;
    }
    Ok(zeros)
}
