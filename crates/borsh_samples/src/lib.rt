//! Types as a user of the library writes them: their codecs, laws, encoding and decoding, proved from the
//! library's public contracts alone; and the schemas of two of them.
#![tactic(auto)]

pub mod generic;
pub mod my_enum;
pub mod my_struct;
pub mod namesakes;
pub mod one;
pub mod one_or_zero;
pub mod readme;
mod schemas;

pub use generic::B;
pub use my_enum::MyEnum;
pub use my_struct::MyStruct;
pub use namesakes::{LongA, ShortA};
pub use one::One;
pub use one_or_zero::OneOrZero;
pub use readme::A;
