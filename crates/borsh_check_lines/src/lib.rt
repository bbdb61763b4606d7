//! The lines of the program: the answer to one, and lines in, answers out.
#![tactic(auto)]

pub mod answerer;
pub mod answers;
mod containers;
pub mod digits;
pub mod ending;
mod lines;
pub mod replies;
pub mod requests;
pub mod runner;
mod schemas;
pub mod values;
pub mod words;

pub use answerer::Answerer;
pub use answers::answer;
pub use ending::finish;
pub use runner::{run, run_counted};
