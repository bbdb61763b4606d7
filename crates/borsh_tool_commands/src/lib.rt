//! The commands of the tool `borsh`: what a schema container says, and what bytes mean by it.
//!
//! [`run`] is a run of the tool over the words of its command line. The modules have what it is made of: the command line
//! ([`command`]), the answers about a container ([`answers`], [`definitions`]), about two ([`comparisons`]), about a value ([`values`]) and about many
//! ([`many`]), what is printed ([`replies`], [`plain_text`], [`colors`]), and why there is no answer ([`failure`]).
#![tactic(auto)]

pub mod answers;
pub mod colors;
mod columns;
pub mod command;
pub mod comparisons;
pub mod definitions;
pub mod failure;
mod fronts;
mod lines;
pub mod many;
mod not_json;
mod output;
pub mod plain_text;
pub mod progress;
pub mod replies;
pub mod runner;
pub mod types;
pub mod values;

pub use runner::run;
