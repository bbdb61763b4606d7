// The table of names, and what is computed of it once.
ghost use Rattle.borsh_plan.specs.Sizes.{AreSizes, AreSizes-prop, known_size};
ghost use Rattle.borsh_plan.specs.Zeros.{AreZeros, AreZeros-prop};
ghost use Rattle.borsh_walks.specs.Definitions.{definitions_in};

use crate::names::Names;

/// The names that a root leads to, that of the root first, each with a place: its index here. Whoever has many values of one type
/// makes the plan once.
///
/// A name that a definition refers to has a place of its own also where it has no definition. The plan borrows the definitions:
/// what is said of a place is said of the map that the caller has.
///
/// ```
/// let plan = Plan::new(alloc, "Vec<u8>", &definitions)?;
/// assert_eq!(rt; plan.name(0), "Vec<u8>");
/// assert_eq!(rt; plan.part(0, 0), Some(1));
/// assert_eq!(rt; plan.name(1), "u8");
/// ```
#[derive(Drop)]
pub struct Plan<'a> {
    pub(crate) names: Names<'a>,
    pub(crate) sizes: Vec<u64>,
    pub(crate) zeros: Vec<bool>,
    pub ghost sized: { AreSizes (λ x. known_size (definitions_in names.map.now) x) names.names.items sizes.items } by { AreSizes-prop (λ x. known_size (definitions_in names.map.now) x) names.names.items sizes.items },
    pub ghost emptied: { AreZeros (definitions_in names.map.now) names.names.items zeros.items } by { AreZeros-prop (definitions_in names.map.now) names.names.items zeros.items },
}
