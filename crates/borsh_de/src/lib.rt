//! Decoding.
#![tactic(auto)]

pub mod addresses;
pub mod arrays;
pub mod deserialize;
mod entries;
mod fixed;
pub mod floats;
pub mod hint;
pub mod kit_types;
pub mod lists;
pub mod maps;
pub mod non_zeros;
pub mod numbers;
pub mod parts;
pub mod pointers;
pub mod ranges;
pub mod raw_bytes;
pub mod refusals;
pub mod sums;
pub mod texts;
pub mod tuples;
pub mod units;
pub mod wrapped;

pub use deserialize::{BorshDeserialize, EnumExt};
pub use parts::{FromParts, TryFromParts, read_checked, read_parts};
pub use raw_bytes::{read_bytes, read_tag};
pub use refusals::invalid_data;
