//! Types as people write them, as the tree of `borsh_source`: Rust source text, Anchor IDLs, schema objects of borsh-js.
//!
//! [`parse_items`] reads a source file, [`parse_type`] a type that stands alone; [`print_items`] goes back.
#![tactic(auto)]

mod cursor;
mod endings;
pub mod error;
mod expressions;
mod fields;
mod items;
mod numbers;
mod objects;
mod parse;
mod printing;
mod scanner;
mod skipping;
#[cfg(test)]
mod tests;
mod token;
mod types;
mod values;

pub use error::{Expected, TextError};
pub use parse::{parse_items, parse_type};
pub use printing::{Items, NoItems, print_items};
