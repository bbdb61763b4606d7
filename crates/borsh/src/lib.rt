//! Borsh: values as canonical bytes.
//!
//! [`to_vec`] encodes a value, [`from_slice`] decodes it again. Each value has at most one encoding, and bytes decode to at most
//! one value, apart from what isn't encoded (the flow and scope of a v6 socket address, and whether a `RangeInclusive` is
//! exhausted): what is hashed or signed means the same to everyone. The items have the paths of the original crate.
//!
//! ```
//! let bytes = to_vec(alloc, &(5u8, 7u16))?;
//! let value: (u8, u16) = from_slice(alloc, bytes.as_slice())?;
//! ```
#![tactic(auto)]

pub mod de;
pub mod derived;
pub mod error;
pub mod io;
pub mod laws;
mod length;
pub mod schema;
pub mod schema_helpers;
pub mod ser;

pub use borsh_de::{BorshDeserialize, EnumExt};
pub use borsh_schema::BorshSchema;
pub use borsh_ser::BorshSerialize;
pub use borsh_types::{BorshKey, BorshType};
pub use de::{from_reader, from_slice, from_slice_unordered};
pub use schema_helpers::{
    max_serialized_size, schema_container_of, try_from_slice_with_schema, try_to_vec_with_schema,
};
pub use ser::{object_length, to_vec, to_writer};
