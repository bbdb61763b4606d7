//! Values as JSON, both ways, by their container alone.
//!
//! [`to_json`] writes the JSON text of the value that bytes are, and [`from_json`] gives the bytes of the value that a
//! text says; [`Rows`] say what each of the bytes is. Each takes any definitions, any bytes and any text, and none recurses.
#![tactic(auto)]

mod ascii;
mod definitions;
mod digits;
mod error;
mod floats;
mod formats;
mod integers;
mod kinds;
mod laws;
mod leaves;
mod maps;
mod names;
mod not_json;
mod numbers;
mod opening;
mod order;
mod output;
mod parts;
mod position;
mod prefixes;
mod reading;
mod rows;
mod sources;
mod strict;
mod table;
mod values;
mod variants;
mod writing;

pub use ascii::in_ascii;
pub use error::{JsonError, Refusal};
pub use kinds::{Elements, Entries, Flaw, KeyKind, Kind};
pub use laws::{json_gives_back, text_determines_bytes};
pub use output::{Characters, Layout, LongNumbers, Style};
pub use reading::from_json;
pub use rows::{Rows, value_of};
pub use strict::check_strict;
pub use table::Table as Json;
pub use writing::to_json;
