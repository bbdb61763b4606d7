//! Schemas as Rust types: the syntax tree of items and types, and the container that a type of it has.
#![tactic(auto)]

mod adding;
mod compiling;
mod context;
pub mod error;
mod error_texts;
mod formats;
mod forms;
mod items;
mod nearest;
mod numbers;
mod reading;
pub mod tree;
mod types;
mod uses;

pub use compiling::{Compiled, compile};
pub use error::{Cause, CompileError};
pub use nearest::nearest_name;
pub use tree::{
    Expression, ExpressionKind, Field, Fields, Item, ItemKind, Operator, Parameter, Place, Source,
    Type, TypeKind, Variant,
};
