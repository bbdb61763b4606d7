// A name with its definition.
use borsh_walks::Definition;

/// A name that a root leads to, and its definition, if it has one.
#[derive(Clone, Copy)]
pub struct Named<'a> {
    pub name: &'a str,
    pub definition: Option<&'a Definition>,
    /// The place of the name whose definition first led here, and which of its parts this is; 0 and 0 for the root.
    pub from: usize,
    pub index: usize,
}
