// Why a row isn't as it says.
use std::alloc::{AllocError, AllocFailed, Global};
use std::num::ParseIntError;

/// Why a row isn't as it says.
#[derive(Debug, Drop)]
pub enum Wrong {
    OutOfMemory,
    /// It is no row.
    NoRow,
    /// What was found, of what, in place of what the row says.
    Found(&'static str, String),
}

/// Fails with what was found, unless it is what the row says.
pub fn expect(alloc: Global, name: &'static str, found: &str, wanted: &str) -> Result<(), Wrong> {
    check(alloc, found == wanted, name, found)
}

/// Fails with what was found, unless the condition holds.
pub fn check(alloc: Global, holds: bool, name: &'static str, found: &str) -> Result<(), Wrong> {
    if holds {
        Ok(())
    } else {
        Err(Wrong::Found(name, String::from_str(alloc, found)?))
    }
}

impl From<AllocError> for Wrong {
    fn from(_error: AllocError) -> Wrong {
        Wrong::OutOfMemory
    }
}

impl<T: Drop> From<AllocFailed<T>> for Wrong {
    fn from(_failed: AllocFailed<T>) -> Wrong {
        Wrong::OutOfMemory
    }
}

impl From<ParseIntError> for Wrong {
    fn from(_error: ParseIntError) -> Wrong {
        Wrong::NoRow
    }
}
