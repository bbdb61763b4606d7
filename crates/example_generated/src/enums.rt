// Enums.
use super::records::Session;
use std::marker::PhantomData;

/// Eight variants, of each kind, also with fields that aren't encoded. Their tags count from 0.
// derive: borsh, schema
#[derive(Drop)]
pub enum Message {
    /// Nothing but its tag.
    Ping,
    Text(String),
    Move {
        x: i32,
        y: i32,
    },
    Open(u8, Session),
    Tagged([u8; 4]),
    Run {
        id: u16,
        // skip
        attempts: u32,
    },
    Wait(
        u8,
        // skip
        Option<u64>,
    ),
    Stop {
        // skip
        reason: u8,
    },
}

/// Discriminants are tags. An enum without fields can be a key.
// derive: borsh, schema, key
#[derive(Drop, PartialEq, Eq, PartialOrd, Ord)]
pub enum Level {
    Low = 20,
    High = 9,
    Top,
}

/// Tags by comments, with fields beside them.
// derive: borsh, schema
#[derive(Drop)]
pub enum XY {
    A,
    // tag: 20
    B,
    C,
    D(u32, u32),
    // tag: 10
    E,
    F(u64),
}

/// One variant, and parameters of markers alone.
// derive: borsh, schema
#[derive(Drop)]
pub enum Markers<T, U> {
    Both(PhantomData<T>, PhantomData<U>),
}

/// Two parameters, each by itself. In the schema a variant's name has the parameters that its fields name.
// derive: borsh, schema
#[derive(Drop)]
pub enum Either<A, B> {
    Neither,
    Left(A),
    Right { of: B, with: Option<A> },
}
