//! Enums as trees of variants: what they mean, how they are decoded, and the tags of their encodings.
#![tactic(auto)]

pub mod cases;
pub mod decode;
pub mod tags;

pub use cases::{Case, Cases, Fork, FromCases, TagOf};
pub use decode::{DecodeCases, read_enum, read_variant};
pub use tags::Tag;
