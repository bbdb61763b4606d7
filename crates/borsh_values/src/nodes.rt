// The nodes of a value.
ghost use Rattle.borsh_values.specs.Nodes.{AreElementsOf, IsCountOf, IsVariantOf};
ghost use Rattle.borsh_walks.specs.Definitions.{shape_of};
ghost use Rattle.std.specs.Prelude.{◌≡◌, take};

use crate::tags::{number, variant_at};
use borsh_walks::Definition;

/// A part of a value, or the value itself, with the bytes that it encodes before its own parts: a primitive all its bytes,
/// a sequence its count and its elements if these are primitives of some bytes, an enum its tag, a struct and a tuple none.
///
/// [`variant_of`] gives the variant of an enum, [`count_of`] the number of elements of a sequence, and [`elements_of`] their
/// bytes where these are in its node.
#[derive(Clone, Copy)]
pub struct Node<'a, 'b> {
    /// The place of its name in the plan.
    pub at: usize,
    pub name: &'a str,
    pub definition: &'a Definition,
    pub bytes: &'b [u8],
    /// How many bytes of the value come before these.
    pub offset: usize,
    /// How many values the part is in: 0 for the whole value, 1 for its parts.
    pub depth: usize,
}

/// The index of the variant that a node of an enum encodes; none for a node of another kind. Left open: which of several
/// variants with one tag.
///
/// ```
/// let name = match (node.definition, variant_of(&node)) {
///     (Definition::Enum { variants, .. }, Some(index)) => variants[index].1.as_str(),
///     _ => "",
/// };
/// ```
pub fn variant_of(node: &Node<'_, '_>) -> Option<usize>
    ensures { IsVariantOf (shape_of node.now.definition.now) node.now.bytes.now result }
{
    variant_in(node.definition, node.bytes)
}

/// The same of a value that begins with these bytes.
pub fn variant_in(definition: &Definition, bytes: &[u8]) -> Option<usize>
    ensures { IsVariantOf (shape_of definition.now) bytes.now result }
{
    match definition {
        Definition::Enum {
            tag_width,
            variants,
        } => variant_at(variants, tag_in(bytes, usize::from(*tag_width))),
        _ => None,
    }
}

// The first bytes, so many if there are as many.
fn tag_in(bytes: &[u8], width: usize) -> &[u8]
    ensures { result.now ≡ take width bytes.now }
{
    &bytes[..width.min(bytes.len())]
}

/// How many elements the sequence has whose node this is; none for a node of another kind, and where the count has more
/// than eight bytes, which no valid container allows, or more than the node. Left open: none.
///
/// ```
/// // the node of `Vec<u8>` in 01 00 00 00 07
/// assert_eq!(rt; count_of(&node), Some(1));
/// ```
pub fn count_of(node: &Node<'_, '_>) -> Option<u64>
    ensures { IsCountOf (shape_of node.now.definition.now) node.now.bytes.now result }
{
    count_in(node.definition, node.bytes)
}

/// The same of a value that begins with these bytes.
pub fn count_in(definition: &Definition, bytes: &[u8]) -> Option<u64>
    ensures { IsCountOf (shape_of definition.now) bytes.now result }
{
    match definition {
        Definition::Sequence {
            length_width: 0,
            length_range,
            ..
        } => Some(length_range.start),
        Definition::Sequence { length_width, .. } => {
            let width = usize::from(*length_width);
            if width <= 8 && width <= bytes.len() {
                Some(number(&bytes[..width]))
            } else {
                None
            }
        }
        _ => None,
    }
}

/// The bytes of the elements that are in the node of their sequence, those behind its count; all own bytes of a node
/// of another kind. Left open: none.
///
/// ```
/// // the node of `Vec<u8>` in 01 00 00 00 07
/// assert_eq!(rt; elements_of(&node), b"\x07".as_slice());
/// ```
pub fn elements_of<'b>(node: &Node<'_, 'b>) -> &'b [u8]
    ensures { AreElementsOf (shape_of node.now.definition.now) node.now.bytes.now result.now }
{
    match node.definition {
        Definition::Sequence { length_width, .. } => {
            let width = usize::from(*length_width);
            &node.bytes[width.min(node.bytes.len())..]
        }
        _ => node.bytes,
    }
}
