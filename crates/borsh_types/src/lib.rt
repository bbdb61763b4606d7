//! The codecs of types: which bytes encode a value, and which bytes decode to it.
#![tactic(auto)]

pub mod addresses;
pub mod arrays;
pub mod floats;
pub mod keys;
pub mod kit_types;
pub mod lists;
pub mod maps;
pub mod non_zeros;
pub mod numbers;
pub mod pointers;
pub mod ranges;
pub mod sums;
pub mod texts;
pub mod tuples;
pub mod types;
pub mod units;
pub mod wrapped;

pub use keys::BorshKey;
pub use types::{BorshType, refuse_empty};
