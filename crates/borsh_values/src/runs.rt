// Values that are passed without a frame for each: those of names of free size, and runs of values of one name.
ghost use Rattle.borsh_plan.specs.Names.{name_at, parts_in, shape_at};
ghost use Rattle.borsh_plan.specs.Plan.{definitions_of, names_of};
ghost use Rattle.borsh_values.specs.declared.frames.Rest.TheVariants.{Copies};
ghost use Rattle.borsh_walks.specs.Container.{choice, product};
ghost use Rattle.borsh_values.specs.Cursor.{Fits};
ghost use Rattle.borsh_values.specs.Free.{AreFirst, FreeSize, IsFreeFront, IsRightLength, IsRun, IsTagLength, Passes};
ghost use Rattle.std.specs.Prelude.{IfSome, MatchOption, Some, [], ◌∷◌, ◌≡◌, ◌<◌, ◌≤◌, ◌⊎◌, length, map, string_bytes};

use crate::cursor::after;
use crate::frames::{Opened, Rest};
use crate::opening::open_sequence;
use crate::tags::{Found, find_variant};
use borsh_plan::Plan;
use borsh_walks::{Declaration, Definition, DiscriminantValue, VariantName};

type Variants = Vec<(DiscriminantValue, VariantName, Declaration)>;

/// So many bytes that are passed, and the names that follow.
#[derive(Clone, Copy)]
pub struct Passed {
    pub taken: usize,
    pub rest: Rest,
}

/// How long each value of an enum is whose tag is this byte, where that is known.
#[derive(Clone, Copy)]
pub struct TagLength {
    pub tag: u8,
    pub length: Option<u64>,
}

/// So many values, which are so many bytes.
#[derive(Clone, Copy)]
pub struct Run {
    pub taken: usize,
    pub values: u64,
}

// The free size of what a variant has, which may be 0.
fn payload_size(plan: &Plan<'_>, part: usize) -> Option<u64>
    requires within { part < length (names_of plan.now) }
    ensures { let name = name_at (names_of plan.now) part in
        IfSome result (λ n. FreeSize (definitions_of plan.now) name n) }
{
    let size = plan.size(part);
    if size > 0 {
        return Some(size);
    }
    match plan.definition(part) {
        Some(Definition::Primitive(0)) => Some(0),
        Some(Definition::Struct { .. }) => match plan.part(part, 0) {
            Some(_) => None,
            None => Some(0),
        },
        _ => None,
    }
}

// How long each value of the enum at a place is that begins with this byte.
fn length_by_tag(plan: &Plan<'_>, at: usize, variants: &Variants, tag: u8) -> Option<u64>
    requires within { at < length (names_of plan.now) }
    requires shape { let vs = map (λ v. (v.0, string_bytes v.2)) variants.now.items in
        shape_at (names_of plan.now) at ≡ Some (choice 1 vs) }
    ensures { let name = name_at (names_of plan.now) at in
        IfSome result (λ n. IsTagLength (definitions_of plan.now) name tag n) }
{
    let bytes = [tag];
    let Found::One(index) = find_variant(variants, bytes.as_slice()) else {
        return None;
    };
    let part = plan.part(at, index)?;
    let size = payload_size(plan, part)?;
    let length = size.checked_add(1)?;
    Some(length)
}

// The same, by what was found before where the byte is the same.
fn length_of(
    plan: &Plan<'_>,
    at: usize,
    variants: &Variants,
    tag: u8,
    last: TagLength,
    other: TagLength,
) -> TagLength
    requires within { at < length (names_of plan.now) }
    requires shape { let vs = map (λ v. (v.0, string_bytes v.2)) variants.now.items in
        shape_at (names_of plan.now) at ≡ Some (choice 1 vs) }
    requires last { let name = name_at (names_of plan.now) at in
        IsRightLength (definitions_of plan.now) name last }
    requires other { let name = name_at (names_of plan.now) at in
        IsRightLength (definitions_of plan.now) name other }
    ensures right { let name = name_at (names_of plan.now) at in
        IsRightLength (definitions_of plan.now) name result }
    ensures same { result.tag ≡ tag }
{
    if last.tag == tag {
        return last;
    }
    if other.tag == tag {
        return other;
    }
    let length = length_by_tag(plan, at, variants, tag);
    TagLength { tag, length }
}

// What is kept of the two, where a third is the last one now.
fn kept(known: TagLength, last: TagLength, other: TagLength) -> TagLength
    ensures { (result ≡ last) ⊎ (result ≡ other) }
{
    if known.tag == last.tag { other } else { last }
}

// Passes values of the enum at a place, at most so many.
fn run_of_enums(plan: &Plan<'_>, at: usize, variants: &Variants, count: u64, left: &[u8]) -> Run
    requires within { at < length (names_of plan.now) }
    requires shape { let vs = map (λ v. (v.0, string_bytes v.2)) variants.now.items in
        shape_at (names_of plan.now) at ≡ Some (choice 1 vs) }
    ensures { let name = name_at (names_of plan.now) at in
        IsRun (definitions_of plan.now) name left.now count result }
{
    let length = length_by_tag(plan, at, variants, 0);
    let mut last = TagLength { tag: 0, length };
    let mut other = last;
    let mut taken: usize = 0;
    let mut values: u64 = 0;
    while values < count {
        let next = after(left, taken);
        let Some(tag) = next.first() else {
            return Run { taken, values };
        };
        let known = length_of(plan, at, variants, *tag, last, other);
        other = kept(known, last, other);
        last = known;
        let Some(length) = known.length else {
            return Run { taken, values };
        };
        if length > next.len() as u64 {
            return Run { taken, values };
        }
        taken += length as usize;
        values += 1;
    }
    Run { taken, values }
}

// How many of the first bytes are a value of the name at a place, where its size tells that, or a count of primitives or of nothing.
fn value_length(plan: &Plan<'_>, at: usize, left: &[u8]) -> Option<usize>
    requires within { at < length (names_of plan.now) }
    ensures { let name = name_at (names_of plan.now) at in
        IfSome result (λ n. AreFirst (definitions_of plan.now) (name ∷ []) left.now n) }
{
    let size = plan.size(at);
    if size > 0 {
        if size <= left.len() as u64 {
            return Some(size as usize);
        }
        return None;
    }
    let definition = plan.definition(at)?;
    match definition {
        Definition::Sequence {
            length_width,
            length_range,
            ..
        } => {
            let element = plan.part(at, 0)?;
            let start = length_range.start;
            let end = length_range.end;
            match open_sequence(plan, *length_width, start, end, element, left) {
                Opened::Taken(taken, Rest::Copies(_, 0)) => Some(taken),
                _ => None,
            }
        }
        _ => None,
    }
}

// How many of the first bytes are the parts of a value of the struct or tuple at a place, where those of each are told.
fn parts_length(plan: &Plan<'_>, at: usize, left: &[u8]) -> Option<usize>
    requires within { at < length (names_of plan.now) }
    ensures { let parts = parts_in (shape_at (names_of plan.now) at) in
        IfSome result (λ n. AreFirst (definitions_of plan.now) parts left.now n) }
{
    let mut taken: usize = 0;
    let mut index: usize = 0;
    while let Some(part) = plan.part(at, index) {
        let length = value_length(plan, part, after(left, taken))?;
        taken += length;
        index += 1;
    }
    Some(taken)
}

// Passes values of the struct or tuple at a place, at most so many.
fn run_of_products(plan: &Plan<'_>, at: usize, count: u64, left: &[u8]) -> Run
    requires within { at < length (names_of plan.now) }
    requires shape { let s = shape_at (names_of plan.now) at in s ≡ Some (product (parts_in s)) }
    ensures { let name = name_at (names_of plan.now) at in
        IsRun (definitions_of plan.now) name left.now count result }
{
    let mut taken: usize = 0;
    let mut values: u64 = 0;
    while values < count {
        let Some(length) = parts_length(plan, at, after(left, taken)) else {
            return Run { taken, values };
        };
        if length == 0 {
            return Run { taken, values };
        }
        taken += length;
        values += 1;
    }
    Run { taken, values }
}

// Whether each part of the definition at a place is of a free size, or may be a list of primitives or, in an enum, has no bytes.
fn has_short_parts(plan: &Plan<'_>, at: usize, in_enum: bool) -> bool {
    plan.parts(at).iter().all(|part| {
        let definition = plan.definition(*part);
        plan.size(*part) > 0
            || in_enum && plan.is_zero(*part)
            || !in_enum && matches!(definition, Some(Definition::Sequence { .. }))
    })
}

// The next of so many values of the name at a place, as many as are passed. Runs of enums pay in bench row `Vec<Option<u64>>`, those
// of structs and tuples in the row of records.
fn pass_run(plan: &Plan<'_>, at: usize, count: u64, left: &[u8]) -> Option<Passed>
    requires within { at < length (names_of plan.now) }
    ensures { let C = definitions_of plan.now in
        IfSome result (λ p. IsFreeFront C (names_of plan.now) (Copies at count) left.now p) }
{
    match plan.definition(at)? {
        Definition::Enum {
            tag_width,
            variants,
        } => {
            if *tag_width == 1 && has_short_parts(plan, at, true) {
                pass_some(at, count, run_of_enums(plan, at, variants, count, left))
            } else {
                None
            }
        }
        Definition::Struct { .. } | Definition::Tuple { .. } => {
            if has_short_parts(plan, at, false) {
                pass_some(at, count, run_of_products(plan, at, count, left))
            } else {
                None
            }
        }
        _ => None,
    }
}

// What is passed of so many values, if there are any.
fn pass_some(at: usize, count: u64, run: Run) -> Option<Passed>
    requires { run.values ≤ count }
    ensures { MatchOption result (run.taken ≡ 0) (λ p. Passes at count run p) }
{
    if run.taken == 0 {
        return None;
    }
    Some(Passed {
        taken: run.taken,
        rest: Rest::Copies(at, count - run.values),
    })
}

/// The next names, as many as are passed at once: those of a free size, which pays in bench row `Vec<(u64, u64, u64)>`, or a run of
/// values.
pub fn free_front(plan: &Plan<'_>, rest: Rest, left: &[u8]) -> Option<Passed>
    requires fits { Fits (names_of plan.now) rest }
    ensures { let C = definitions_of plan.now in
        IfSome result (λ p. IsFreeFront C (names_of plan.now) rest left.now p) }
{
    match rest {
        Rest::Copies(at, count) => {
            let all = count.checked_mul(plan.size(at)).unwrap_or(0);
            if all > 0 && all <= left.len() as u64 {
                Some(Passed {
                    taken: all as usize,
                    rest: Rest::Copies(at, 0),
                })
            } else {
                pass_run(plan, at, count, left)
            }
        }
        Rest::Parts(at, next) => {
            let part = plan.part(at, next)?;
            let size = plan.size(part);
            if size > 0 && size <= left.len() as u64 {
                Some(Passed {
                    taken: size as usize,
                    rest: Rest::Parts(at, next + 1),
                })
            } else {
                None
            }
        }
    }
}
