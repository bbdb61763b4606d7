//! The names that a type leads to, each looked up once: a table that is made once for a schema, and that all walks over values
//! of it read.
//!
//! What a table is known to be is part of its type: whoever takes a [`Plan`] has to prove nothing about it.
#![tactic(auto)]

mod lookup;
mod named;
mod names;
mod plan;
mod sizes;
mod zeros;

pub use named::Named;
pub use plan::Plan;
