//! Encoding.
#![tactic(auto)]

pub mod addresses;
pub mod arrays;
pub mod each;
pub mod floats;
pub mod hashed;
pub mod kit_types;
pub mod lengths;
pub mod linked;
pub mod lists;
pub mod maps;
pub mod non_zeros;
pub mod numbers;
pub mod parts;
pub mod pointers;
pub mod puts;
pub mod ranges;
pub mod raw_bytes;
pub mod rooms;
pub mod serialize;
pub mod sums;
pub mod texts;
pub mod tuples;
pub mod units;
pub mod wrapped;

pub use lengths::{bytes_length, joined_length, tagged_length};
pub use parts::{
    write_eight, write_eleven, write_five, write_four, write_nine, write_seven, write_six,
    write_tagged, write_ten, write_three, write_twelve, write_two,
};
pub use puts::{
    put_bytes, put_eight, put_eleven, put_five, put_four, put_nine, put_seven, put_six, put_tagged,
    put_ten, put_three, put_twelve, put_two,
};
pub use raw_bytes::write_bytes;
pub use serialize::BorshSerialize;
