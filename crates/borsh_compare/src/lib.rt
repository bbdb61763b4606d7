//! Whether old data is still read: two schemas compared, with a proof either way.
//!
//! [`compare_plans`] says of two plans whether each value of the old schema is one of the new, or gives bytes that show that it isn't so.
//! The definitions alone are compared. It takes any: names that lead back to themselves, names without a definition, and definitions
//! that are ambiguous. Nothing recurses.
#![tactic(auto)]

mod alike;
mod changes;
mod compare;
mod definitions;
mod evidence;
mod least;
mod lines;
mod making;
mod pairs;
mod paths;
mod through;
mod walk;

pub use changes::{Change, What};
pub use compare::{Answer, Comparison, compare_plans};
pub use evidence::Evidence;
pub use lines::comparison_lines;
