// Why a row isn't as it says.
use borsh::io::{Error, ErrorKind};
use std::alloc::{AllocError, AllocFailed};
use std::num::TryFromIntError;

/// Why a check isn't passed.
#[derive(Clone, Copy, Debug, PartialEq, Eq)]
pub enum Fault {
    /// The check of this name, and a number that says which one it is, or what was found.
    Check(&'static str, usize),
    /// A call that has to succeed returned an error of this kind.
    Error(ErrorKind),
    /// It is no row.
    NoRow,
    /// There is no such type here.
    UnknownType,
    OutOfMemory,
    TooLong,
}

pub type Result<T> = std::result::Result<T, Fault>;

/// Fails unless the condition holds, with the name of the check and a number that says which one it is.
pub fn check(holds: bool, name: &'static str, number: usize) -> Result<()> {
    if holds {
        Ok(())
    } else {
        Err(Fault::Check(name, number))
    }
}

impl From<Error> for Fault {
    fn from(error: Error) -> Fault {
        Fault::Error(error.kind())
    }
}

impl From<AllocError> for Fault {
    fn from(_error: AllocError) -> Fault {
        Fault::OutOfMemory
    }
}

impl From<TryFromIntError> for Fault {
    fn from(_error: TryFromIntError) -> Fault {
        Fault::TooLong
    }
}

impl<T: Drop> From<AllocFailed<T>> for Fault {
    fn from(failed: AllocFailed<T>) -> Fault {
        Fault::from(AllocError::from(failed))
    }
}
