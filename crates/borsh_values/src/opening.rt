// What the definition of a name takes from the bytes.
ghost use Rattle.borsh_plan.specs.{Names.name_at, Names.shape_at, Plan.definitions_of, Plan.names_of};
ghost use Rattle.borsh_walks.specs.{Container.choice, Container.sequence, Definitions.shape_of, Tables.mark_of};
ghost use Rattle.borsh_values.specs.Nodes.{packed_size};
ghost use Rattle.borsh_values.specs.Cursor.{FitsWidth, OpensAs, TakesElements};
ghost use Rattle.borsh_values.specs.Tags.{AreTagTables, KeepsTables, TableFits};
ghost use Rattle.borsh_values.specs.Walks.{CountsIfTaken};
ghost use Rattle.std.specs.Prelude.{◌≡◌, ◌≤◌, ◌<◌, IfOk, Some, length, map, option_map, slice_get, string_bytes};

use crate::faults::Reason;
use crate::frames::{Opened, Rest};
use crate::tags::{Found, find_variant_of, number};
use borsh_plan::Plan;
use borsh_walks::{Declaration, Definition, DiscriminantValue, VariantName};
use std::alloc::{AllocError, Global};
use std::collections::BTreeMap;

// Whether all counts up to `end` can be written in `width` bytes, a width that a valid container has.
fn fits_width(width: u8, end: u64) -> bool
    ensures { FitsWidth width end result }
{
    match width {
        1 => end < 256,
        2 => end < 65536,
        4 => end < 4294967296,
        8 => true,
        _ => false,
    }
}

// How many bytes each element has, if they are listed with their sequence: primitives of some bytes; 0 for others.
fn size_of_element(plan: &Plan<'_>, element: usize) -> u64
    ensures { result ≡ packed_size (shape_at (names_of plan.now) element) }
{
    match plan.definition(element) {
        Some(Definition::Primitive(size)) => u64::from(*size),
        _ => 0,
    }
}

// What a sequence of so many elements takes, of which `taken` bytes are the count.
fn open_elements(plan: &Plan<'_>, element: usize, count: u64, taken: usize, bytes: &[u8]) -> Opened
    requires within { element < length (names_of plan.now) }
    requires taken { taken ≤ length bytes.now }
    ensures { let size = packed_size (shape_at (names_of plan.now) element) in
        TakesElements (names_of plan.now) size element count taken (length bytes.now) result }
{
    let size = size_of_element(plan, element);
    if size == 0 {
        return Opened::Taken(taken, Rest::Copies(element, count));
    }
    match count.checked_mul(size) {
        Some(all) => {
            if ((bytes.len() - taken) as u64) < all {
                Opened::Refused(Reason::TooShort)
            } else {
                Opened::Taken(taken + all as usize, Rest::Copies(element, 0))
            }
        }
        None => Opened::Refused(Reason::TooShort),
    }
}

pub fn open_sequence(
    plan: &Plan<'_>,
    width: u8,
    start: u64,
    end: u64,
    element: usize,
    bytes: &[u8],
) -> Opened
    requires within { element < length (names_of plan.now) }
    ensures opened { let names = names_of plan.now in
        let d = sequence width start end (name_at names element) in
        OpensAs (definitions_of plan.now) names d bytes.now result }
    ensures counted { let e = name_at (names_of plan.now) element in
        CountsIfTaken (sequence width start end e) result }
{
    if width == 0 {
        if end < start {
            return Opened::Refused(Reason::Count);
        }
        if start < end {
            return Opened::Undecided;
        }
        return open_elements(plan, element, start, 0, bytes);
    }
    if !fits_width(width, end) {
        return Opened::Undecided;
    }
    let size = usize::from(width);
    if bytes.len() < size {
        return Opened::Refused(Reason::TooShort);
    }
    let count = number(&bytes[..size]);
    if count < start || end < count {
        return Opened::Refused(Reason::Count);
    }
    open_elements(plan, element, count, size, bytes)
}

fn open_enum<'a>(
    alloc: Global,
    plan: &Plan<'a>,
    tables: &mut BTreeMap<&'a str, BTreeMap<u64, Found>>,
    name: &'a str,
    at: usize,
    width: u8,
    variants: &Vec<(DiscriminantValue, VariantName, Declaration)>,
    bytes: &[u8],
) -> Result<Opened, AllocError>
    requires within { at < length (names_of plan.now) }
    requires shape { let vs = map (λ v. (v.0, string_bytes v.2)) variants.now.items in
        shape_at (names_of plan.now) at ≡ Some (choice width vs) }
    requires table { let vs = map (λ v. (v.0, string_bytes v.2)) variants.now.items in
        TableFits width vs (mark_of tables.old name.now) }
    ensures opened { let vs = map (λ v. (v.0, string_bytes v.2)) variants.now.items in
        let C = definitions_of plan.now in
        IfOk result (λ o. OpensAs C (names_of plan.now) (choice width vs) bytes.now o) }
    ensures kept { let vs = map (λ v. (v.0, string_bytes v.2)) variants.now.items in
        KeepsTables name.now width vs tables.old tables.new }
{
    let size = usize::from(width);
    if bytes.len() < size {
        return Ok(Opened::Refused(Reason::TooShort));
    }
    match find_variant_of(alloc, tables, name, width, variants, &bytes[..size])? {
        Found::Nothing => Ok(Opened::Refused(Reason::Tag)),
        Found::One(index) => match plan.part(at, index) {
            Some(part) => Ok(Opened::Taken(size, Rest::Copies(part, 1))),
            None => Ok(Opened::Undecided),
        },
        Found::Several => Ok(Opened::Undecided),
    }
}

/// What the definition of the name at a place takes from the front of the bytes: a primitive its bytes, a sequence its count
/// and its elements if these are primitives of some bytes, an enum its tag, a struct and a tuple none.
pub fn open_definition<'a>(
    alloc: Global,
    plan: &Plan<'a>,
    tables: &mut BTreeMap<&'a str, BTreeMap<u64, Found>>,
    name: &'a str,
    at: usize,
    definition: &Definition,
    bytes: &[u8],
) -> Result<Opened, AllocError>
    requires within { at < length (names_of plan.now) }
    requires shape { shape_at (names_of plan.now) at ≡ Some (shape_of definition.now) }
    requires name { name_at (names_of plan.now) at ≡ name.now }
    requires tables { AreTagTables (definitions_of plan.now) tables.old }
    ensures opened { let C = definitions_of plan.now in
        let d = shape_of definition.now in
        IfOk result (λ o. OpensAs C (names_of plan.now) d bytes.now o) }
    ensures counted { IfOk result (λ o. CountsIfTaken (shape_of definition.now) o) }
    ensures tables { AreTagTables (definitions_of plan.now) tables.new }
{
    match definition {
        Definition::Primitive(size) => {
            let size = usize::from(*size);
            if bytes.len() < size {
                Ok(Opened::Refused(Reason::TooShort))
            } else {
                Ok(Opened::Taken(size, Rest::Copies(at, 0)))
            }
        }
        Definition::Tuple { .. } | Definition::Struct { .. } => {
            Ok(Opened::Taken(0, Rest::Parts(at, 0)))
        }
        Definition::Sequence {
            length_width,
            length_range,
            ..
        } => match plan.part(at, 0) {
            Some(element) => Ok(open_sequence(
                plan,
                *length_width,
                length_range.start,
                length_range.end,
                element,
                bytes,
            )),
            None => Ok(Opened::Undecided),
        },
        Definition::Enum {
            tag_width,
            variants,
        } => open_enum(alloc, plan, tables, name, at, *tag_width, variants, bytes),
    }
}
