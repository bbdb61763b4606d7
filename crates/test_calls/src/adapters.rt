// The adapters for the readers and writers of std.
use super::support::{FULL, LONG, SHORT, TWELVE, check, is_error, is_invalid, is_kind_alone};
use borsh::io::{Error, ErrorKind, Read, StdReader, StdWriter, Write, flush_all};
use borsh::{BorshDeserialize, from_reader, to_writer};
use std::alloc::Global;
use std::io::ErrorKind as Kind;
use std::test::Fail;

/// The kinds of std's errors, each with the kind that it has here: that of the same name, or else `Other`.
macro_rules! kinds {
    ($($named:ident),*; $($other:ident),*) => {
        [$((Kind::$named, ErrorKind::$named),)* $((Kind::$other, ErrorKind::Other),)*]
    };
}

/// All but `Interrupted`, which is no error.
const KINDS: [(Kind, ErrorKind); 41] = kinds!(
    NotFound, PermissionDenied, ConnectionRefused, ConnectionReset, ConnectionAborted, NotConnected, AddrInUse,
    AddrNotAvailable, BrokenPipe, AlreadyExists, WouldBlock, InvalidInput, InvalidData, TimedOut, WriteZero, UnexpectedEof,
    OutOfMemory, Other;
    HostUnreachable, NetworkUnreachable, NetworkDown, NotADirectory, IsADirectory, DirectoryNotEmpty, ReadOnlyFilesystem,
    FilesystemLoop, StaleNetworkFileHandle, StorageFull, NotSeekable, QuotaExceeded, FileTooLarge, ResourceBusy,
    ExecutableFileBusy, Deadlock, CrossesDevices, TooManyLinks, InvalidFilename, ArgumentListTooLong, Unsupported, InProgress,
    Uncategorized
);

/// A device of std's that takes and gives single bytes. Some calls are interrupted before each call that succeeds, and one call
/// fails.
#[derive(Drop)]
struct Device {
    /// The bytes that were given or taken.
    bytes: Vec<u8>,
    /// How many calls are still interrupted.
    interruptions: u32,
    /// The error of a call, and how many calls succeed before.
    failure: Option<(u32, Kind)>,
    takes_nothing: bool,
    flushes: u32,
}

impl Device {
    fn new(alloc: Global, interruptions: u32, failure: Option<(u32, Kind)>) -> Device {
        Device {
            bytes: Vec::new(alloc),
            interruptions,
            failure,
            takes_nothing: false,
            flushes: 0,
        }
    }

    /// Begins a call, which may be interrupted or fail.
    fn begin(&mut self) -> std::io::Result<()> {
        if self.interruptions > 0 {
            self.interruptions -= 1;
            return Err(std::io::Error::from(Kind::Interrupted));
        }
        match self.failure {
            Some((0, kind)) => {
                self.failure = None;
                Err(std::io::Error::from(kind))
            }
            Some((after, kind)) => {
                self.failure = Some((after - 1, kind));
                Ok(())
            }
            None => Ok(()),
        }
    }
}

impl std::io::Read for Device {
    fn read(&mut self, buf: &mut [u8]) -> std::io::Result<usize> {
        self.begin()?;
        let n = buf.len().min(1);
        buf[..n].fill(7);
        self.bytes.extend_from_slice(&buf[..n])?;
        Ok(n)
    }
}

impl std::io::Write for Device {
    fn write(&mut self, buf: &[u8]) -> std::io::Result<usize> {
        self.begin()?;
        if self.takes_nothing {
            return Ok(0);
        }
        let n = buf.len().min(1);
        self.bytes.extend_from_slice(&buf[..n])?;
        Ok(n)
    }

    fn flush(&mut self) -> std::io::Result<()> {
        self.begin()?;
        self.flushes = self.flushes.saturating_add(1);
        Ok(())
    }
}

/// Reads from a device that fails so at the call after so many bytes, which is counted, and reads on; and makes a first call
/// that fails so.
fn check_reader(alloc: Global, after: u32, kind: Kind, expected: ErrorKind) -> Result<(), Fail> {
    let number = after as usize;
    let mut reader = StdReader::new(Device::new(alloc, 0, Some((after, kind))), 0);
    let outcome = u64::deserialize_reader(alloc, &mut reader);
    // A false end of the input is taken for the end.
    let is_end = expected == ErrorKind::UnexpectedEof && is_invalid(&outcome, SHORT);
    let is_failed = is_end || is_kind_alone(&outcome, expected);
    check(is_failed && reader.faults() == 1, "failed read", number)?;
    let is_right = u8::deserialize_reader(alloc, &mut reader)? == 7;
    check(is_right, "next read", number)?;
    let mut reader = StdReader::new(Device::new(alloc, 0, Some((0, kind))), 0);
    let first = reader.read(&mut [0u8; 2]);
    let is_right = is_kind_alone(&first, expected) && reader.faults() == 1;
    check(is_right, "first read", number)
}

/// Reads a byte and looks for the end, where the device fails so: a false end of the input is the end, and behind any other error
/// there may be more bytes.
fn check_last_look(alloc: Global, kind: Kind) -> Result<(), Fail> {
    let mut reader = StdReader::new(Device::new(alloc, 0, Some((1, kind))), 0);
    let outcome = from_reader::<_, u8>(alloc, &mut reader);
    let is_right = match outcome {
        Ok(value) => kind == Kind::UnexpectedEof && value == 7,
        Err(_) => kind != Kind::UnexpectedEof && is_invalid(&outcome, LONG),
    };
    check(is_right && reader.faults() == 1, "last look", 0)
}

/// Writes into a device that fails so at the call after so many bytes, which is counted, and flushes it; and makes a first flush
/// that fails so.
fn check_writer(alloc: Global, after: u32, kind: Kind, expected: ErrorKind) -> Result<(), Fail> {
    let number = after as usize;
    let mut device = Device::new(alloc, 0, Some((after, kind)));
    let mut writer = StdWriter::new(&mut device, 0);
    let outcome = to_writer(alloc, &mut writer, &12u64);
    let is_failed = is_kind_alone(&outcome, expected) && writer.faults() == 1;
    check(is_failed, "failed write", number)?;
    writer.flush()?;
    let taken = device.bytes.as_slice();
    let is_beginning = taken.len() == number && TWELVE.starts_with(taken);
    let is_right = is_beginning && device.flushes == 1;
    check(is_right, "bytes of a failed write", number)?;
    let mut device = Device::new(alloc, 0, Some((0, kind)));
    let mut writer = StdWriter::new(&mut device, 0);
    let is_failed = is_kind_alone(&writer.flush(), expected) && writer.faults() == 1;
    check(is_failed && device.flushes == 0, "first flush", number)
}

fn check_kind(alloc: Global, kind: Kind, expected: ErrorKind) -> Result<(), Fail> {
    check_last_look(alloc, kind)?;
    for after in 0..8 {
        check_reader(alloc, after, kind, expected)?;
        check_writer(alloc, after, kind, expected)?;
    }
    Ok(())
}

#[test]
fn errors_of_readers_and_writers_keep_their_kind(rt: HostRuntime) -> Result<(), Fail> {
    for &(kind, expected) in &KINDS {
        check_kind(rt.alloc(), kind, expected)?;
    }
    Ok(())
}

/// How often a call is repeated at most.
const MOST: u32 = 3;

fn is_given_up<T>(outcome: &Result<T, Error>) -> bool {
    is_error(outcome, ErrorKind::Other, "interrupted too often")
}

/// Reads from a device that interrupts so many calls: a fourth interruption is an error, which is counted, and the next read
/// goes on.
fn is_read_at_last(alloc: Global, interruptions: u32) -> Result<bool, Fail> {
    let mut reader = StdReader::new(Device::new(alloc, interruptions, None), MOST);
    let is_refused = interruptions > MOST
        && is_given_up(&u64::deserialize_reader(alloc, &mut reader));
    let is_counted = reader.faults() == u64::from(is_refused);
    let is_read = u64::deserialize_reader(alloc, &mut reader)? == 0x0707070707070707;
    Ok(is_read && is_counted && is_refused == (interruptions > MOST))
}

/// The same of writing, or of flushing alone.
fn is_written_at_last(alloc: Global, interruptions: u32, is_flush: bool) -> bool {
    let mut device = Device::new(alloc, interruptions, None);
    let mut writer = StdWriter::new(&mut device, MOST);
    let outcome = if is_flush {
        flush_all(&mut writer)
    } else {
        to_writer(alloc, &mut writer, &12u64)
    };
    let faults = writer.faults();
    let (taken, flushes) = (device.bytes.as_slice(), device.flushes);
    if interruptions > MOST {
        return is_given_up(&outcome) && faults == 1 && taken.is_empty() && flushes == 0;
    }
    let is_done = if is_flush {
        flushes == 1
    } else {
        taken == TWELVE.as_slice()
    };
    outcome.is_ok() && faults == 0 && is_done
}

#[test]
fn interruptions_are_bounded(rt: HostRuntime) -> Result<(), Fail> {
    let alloc = rt.alloc();
    for interruptions in 0..5u32 {
        let number = interruptions as usize;
        let is_right = is_read_at_last(alloc, interruptions)?;
        check(is_right, "interrupted reads", number)?;
        let is_right = is_written_at_last(alloc, interruptions, false);
        check(is_right, "interrupted writes", number)?;
        let is_right = is_written_at_last(alloc, interruptions, true);
        check(is_right, "interrupted flushes", number)?;
    }
    Ok(())
}

#[test]
fn a_writer_that_takes_nothing_is_full(rt: HostRuntime) -> Result<(), Fail> {
    let alloc = rt.alloc();
    let mut device = Device {
        takes_nothing: true,
        ..Device::new(alloc, 0, None)
    };
    let mut writer = StdWriter::new(&mut device, MOST);
    let outcome = to_writer(alloc, &mut writer, &12u64);
    let is_full = is_error(&outcome, ErrorKind::WriteZero, FULL) && writer.faults() == 1;
    check(is_full && device.bytes.is_empty(), "full writer", 0)
}
