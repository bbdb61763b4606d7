// Whether bytes say which value was encoded, by the definitions alone.
ghost use Rattle.borsh_values.specs.Unambiguous.{DistinctTags, IsUnambiguous, UnambiguousShape};
ghost use Rattle.borsh_values.specs.Membership.{IsAmbiguousName};
ghost use Rattle.borsh_walks.specs.Definitions.{definitions_in, shape_of};
ghost use Rattle.std.specs.Prelude.{Decides, IfOk, MatchOption, ◌+◌, ◌^◌, ◌<◌, map, string_bytes};

use crate::tags::{Found, numbers_in, tag_key};
use borsh_plan::Plan;
use borsh_walks::{Declaration, Definition, DiscriminantValue, VariantName};
use std::alloc::{AllocError, Global};
use std::collections::BTreeMap;

// Whether no two counts of the range are encoded alike.
fn has_distinct_counts(width: u8, start: u64, end: u64) -> bool
    ensures { Decides result (end < start + 256 ^ width) }
{
    match numbers_in(width) {
        Some(numbers) => end < start || end - start < numbers,
        None => true,
    }
}

// Whether no two variants have the same tag.
fn has_distinct_tags(
    alloc: Global,
    width: u8,
    variants: &Vec<(DiscriminantValue, VariantName, Declaration)>,
) -> Result<bool, AllocError>
    ensures { IfOk result
        (λ b. Decides b (DistinctTags width (map (λ v. (v.0, string_bytes v.2)) variants.now.items))) }
{
    let mut keys: BTreeMap<u64, Found> = BTreeMap::new(alloc);
    let mut index: usize = 0;
    while let Some((discriminant, _, _)) = variants.get(index) {
        let key = tag_key(width, discriminant);
        if keys.insert(key, Found::One(index))?.is_some() {
            return Ok(false);
        }
        index += 1;
    }
    Ok(true)
}

// Whether the bytes of a value by this definition say which count or variant was encoded.
fn is_unambiguous_definition(alloc: Global, definition: &Definition) -> Result<bool, AllocError>
    ensures { IfOk result (λ b. Decides b (UnambiguousShape (shape_of definition.now))) }
{
    match definition {
        Definition::Sequence {
            length_width,
            length_range,
            ..
        } => Ok(has_distinct_counts(*length_width, length_range.start, length_range.end)),
        Definition::Enum {
            tag_width,
            variants,
        } => has_distinct_tags(alloc, *tag_width, variants),
        _ => Ok(true),
    }
}

/// A name that `root` leads to whose definition encodes two counts or two variants alike; none if there is no such name,
/// so that bytes are a value in at most one way.
///
/// A sequence is at fault where its range has more counts than its width can encode, an enum where two variants
/// have the same tag in its width. The only error is that an allocation failed. Left open: memory; which of several.
///
/// ```
/// if let Some(name) = find_ambiguous(alloc, "Event", &definitions)? {
///     println!(rt; "`{name}` has two variants of one tag")?;
/// }
/// ```
pub fn find_ambiguous<'a>(
    alloc: Global,
    root: &'a str,
    map: &'a BTreeMap<String, Definition>,
) -> Result<Option<&'a str>, AllocError>
    ensures { IfOk result (λ found. MatchOption found (IsUnambiguous (definitions_in map.now) root.now)
        (λ name. IsAmbiguousName (definitions_in map.now) root.now name.now)) }
{
    let plan = Plan::new(alloc, root, map)?;
    let mut at: usize = 0;
    while at < plan.len() {
        if let Some(definition) = plan.definition(at)
            && !is_unambiguous_definition(alloc, definition)?
        {
            return Ok(Some(plan.name(at)));
        }
        at += 1;
    }
    Ok(None)
}
