//! Values by their container alone: whether bytes are a value of a type, and which, where only the definitions
//! of the type are known.
//!
//! [`is_member`] says whether bytes are a value, and where they aren't. [`Preorder`] gives the nodes of a value one after
//! another, [`Walker`] those that a caller asks for. [`Records`] gives values that a reader has one after another.
//! [`find_ambiguous`] says whether the definitions allow at most one value for any bytes. Each takes any definitions: names
//! that lead back to themselves, names without a definition, and 18446744073709551615 elements without bytes. None recurses.
#![tactic(auto)]

mod cursor;
mod faults;
mod frames;
mod fronts;
mod members;
mod names;
mod nodes;
mod opening;
mod preorder;
mod records;
mod runs;
mod tags;
mod unambiguous;
mod walker;

pub use borsh_plan::{Named, Plan};
pub use faults::{Fault, Path, PathStep, Reason};
pub use fronts::{Front, front_of};
pub use members::{Membership, is_member, is_member_of};
pub use names::Name;
pub use nodes::{Node, count_of, elements_of, variant_of};
pub use preorder::{Preorder, PreorderError};
pub use records::{MOST_BYTES, RecordError, Records};
pub use unambiguous::find_ambiguous;
pub use walker::Walker;
