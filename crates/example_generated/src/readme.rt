// The types of the README.
use std::collections::BTreeMap;

/// What there is, and how many of each.
// derive: borsh, schema
#[derive(Drop)]
pub struct Stock {
    pub pieces: BTreeMap<String, u32>,
    pub note: Option<String>,
}

/// What is asked for.
// derive: borsh, schema
#[derive(Drop)]
pub enum Request {
    List,
    Buy {
        name: String,
        pieces: u32,
        price: u32,
    },
    Cancel {
        number: u64,
    },
}

/// Two values.
// derive: borsh, schema
#[derive(Drop)]
pub struct Pair<A, B> {
    pub first: A,
    pub second: B,
}
