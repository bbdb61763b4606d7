//! Definitions of types by names, and what can be said of all their encodings.
//!
//! [`check_rules`] says whether the names that a root refers to keep the rules, and [`root_size`] how long
//! the encodings of the root may be. Both take any definitions, also ones that contain themselves, visit
//! each definition at most once for each kind of question, and don't recurse.
#![tactic(auto)]

pub mod answers;
mod codec;
pub mod counted;
pub mod definition;
pub mod error;
pub mod parts;
mod places;
pub mod rules;
pub mod sizes;
mod stack;
pub mod zero;

pub use answers::{Words, rules_in_words, size_in_words};
pub use counted::{Counted, Expansions, Question};
pub use definition::{
    Declaration, Definition, DiscriminantValue, FieldName, Fields, LengthRange, VariantName,
};
pub use error::{SchemaContainerValidateError, SchemaMaxSerializedSizeError};
pub use rules::check_rules;
pub use sizes::root_size;
