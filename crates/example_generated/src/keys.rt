// A key of maps, and a type of another crate.
use borsh_samples::A;
use std::collections::{BTreeMap, BTreeSet};

/// A key of maps.
// derive: borsh, schema, key
#[derive(Drop, PartialEq, Eq, PartialOrd, Ord)]
pub struct Place {
    pub zone: u8,
    pub street: String,
}

/// A map whose keys are marked as well, a set of them, and a field of a type of another crate.
// derive: borsh, schema
#[derive(Drop)]
pub struct Visits {
    pub counts: BTreeMap<Place, u32>,
    pub closed: BTreeSet<Place>,
    pub book: A,
}
