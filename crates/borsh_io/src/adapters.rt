// The adapters for std's readers and writers. Left open of each call: none.
ghost use Rattle.std.specs.Prelude.{◌≡◌, ◌≢◌, None, IfErr};
ghost use Rattle.borsh_io.specs.Errors.{error_kind};
ghost use Rattle.borsh_io.specs.Stream.{ReadsSome};
ghost use Rattle.borsh_io.specs.Sink.{WritesSome, Flushes};
ghost use Rattle.borsh_io.specs.Adapters.{inner_of_reader, inner_of_writer, kind_of_std, reader_stream, device_writing, device-laws, CountsInterrupted, CountsFailed, first_reader_state, first_writer_state, OnlyOtherHasText, OnlyOtherOrFullHasText};

use super::error::{Error, ErrorKind, Result};
use super::read::Read;
use super::write::{Write, short_write};

/// The kind of the same name, or `Other`.
fn kind_by_name(kind: std::io::ErrorKind) -> ErrorKind
    ensures { result ≡ kind_of_std kind }
{
    match kind {
        std::io::ErrorKind::NotFound => ErrorKind::NotFound,
        std::io::ErrorKind::PermissionDenied => ErrorKind::PermissionDenied,
        std::io::ErrorKind::ConnectionRefused => ErrorKind::ConnectionRefused,
        std::io::ErrorKind::ConnectionReset => ErrorKind::ConnectionReset,
        std::io::ErrorKind::ConnectionAborted => ErrorKind::ConnectionAborted,
        std::io::ErrorKind::NotConnected => ErrorKind::NotConnected,
        std::io::ErrorKind::AddrInUse => ErrorKind::AddrInUse,
        std::io::ErrorKind::AddrNotAvailable => ErrorKind::AddrNotAvailable,
        std::io::ErrorKind::BrokenPipe => ErrorKind::BrokenPipe,
        std::io::ErrorKind::AlreadyExists => ErrorKind::AlreadyExists,
        std::io::ErrorKind::WouldBlock => ErrorKind::WouldBlock,
        std::io::ErrorKind::InvalidInput => ErrorKind::InvalidInput,
        std::io::ErrorKind::InvalidData => ErrorKind::InvalidData,
        std::io::ErrorKind::TimedOut => ErrorKind::TimedOut,
        std::io::ErrorKind::WriteZero => ErrorKind::WriteZero,
        std::io::ErrorKind::Interrupted => ErrorKind::Interrupted,
        std::io::ErrorKind::UnexpectedEof => ErrorKind::UnexpectedEof,
        std::io::ErrorKind::OutOfMemory => ErrorKind::OutOfMemory,
        _ => ErrorKind::Other,
    }
}

/// How many interruptions may still be passed on, how many faults there were, and the kind of the last.
#[derive(Drop)]
pub struct Counts {
    interruptions: u32,
    faults: u64,
    last_failure: Option<ErrorKind>,
}

impl Counts {
    fn new(interruptions: u32) -> Counts
        ensures interruptions { result.interruptions ≡ interruptions }
        ensures faults { result.faults ≡ 0 }
        ensures last_failure { result.last_failure ≡ None }
    {
        Counts {
            interruptions,
            faults: 0,
            last_failure: None,
        }
    }

    /// Counts a fault of this kind.
    fn fault(&mut self, kind: ErrorKind)
        ensures { CountsFailed self.old self.new kind }
    {
        self.faults = self.faults.saturating_add(1);
        self.last_failure = Some(kind);
    }

    /// The error of this kind that is returned for an I/O error of the device. It is counted.
    #[cold]
    fn error(&mut self, kind: std::io::ErrorKind) -> Error
        ensures interrupted { error_kind result ≡ ErrorKind.Interrupted
            → CountsInterrupted self.old self.new }
        ensures failed { error_kind result ≢ ErrorKind.Interrupted
            → CountsFailed self.old self.new (error_kind result) }
        ensures text { OnlyOtherHasText result }
    {
        let kind = kind_by_name(kind);
        if matches!(kind, ErrorKind::Interrupted) {
            if self.interruptions > 0 {
                self.interruptions -= 1;
                return Error::from(kind);
            }
            self.fault(ErrorKind::Other);
            return Error::other("interrupted too often");
        }
        self.fault(kind);
        Error::from(kind)
    }
}

/// One of std's readers, with a bound on the interruptions that it passes on.
///
/// An error keeps its kind if [`ErrorKind`] has one of that name, and is `Other` otherwise; it has no text
/// of its own. An interruption past the bound is `Other`, "interrupted too often", and a read after
/// 2^64 - 1 successful ones is `Other`, "read too often": both count as faults.
///
/// ```
/// let mut input = StdReader::new(rt.stdin(), 1000);
/// let value: u64 = from_reader(alloc, &mut input)?;
/// ```
#[derive(Drop)]
pub struct StdReader<R> {
    inner: R,
    // How many reads may still take bytes.
    reads_left: u64,
    counts: Counts,
}

impl<R: std::io::Read> StdReader<R> {
    /// A reader over `inner`, which passes on at most `interruptions` interruptions.
    ///
    /// ```
    /// let mut input = StdReader::new(rt.stdin(), 1000);
    /// ```
    pub fn new(inner: R, interruptions: u32) -> StdReader<R>
        ensures inner { inner_of_reader result ≡ inner }
        ensures state { reader_stream R.remaining result
            ≡ first_reader_state (R.remaining inner) interruptions }
    {
        StdReader {
            inner,
            reads_left: u64::MAX,
            counts: Counts::new(interruptions),
        }
    }

    /// How often it failed; at most 2^64 - 1.
    ///
    /// ```
    /// assert_eq!(rt; StdReader::new(rt.stdin(), 1000).faults(), 0);
    /// ```
    pub fn faults(&self) -> u64
        ensures { result ≡ (reader_stream R.remaining self.now).faults }
    {
        self.counts.faults
    }
}

/// As [`Read`] says; an error has no text unless its kind is `Other`. Left open: a failure at every call,
/// which is counted; which kind an error of std becomes: both tested.
impl<R: std::io::Read> Read for StdReader<R> {
    ghost stream = { reader_stream R.remaining };

    fn read(&mut self, buf: &mut [u8]) -> Result<usize>
        ensures outcome { ReadsSome (reader_stream R.remaining) self.old self.new buf.new result }
        ensures text { IfErr result OnlyOtherHasText }
    {
        if self.reads_left == 0 {
            self.counts.fault(ErrorKind::Other);
            return Err(Error::other("read too often"));
        }
        match std::io::Read::read(&mut self.inner, buf) {
            Ok(n) => {
                self.reads_left -= 1;
                Ok(n)
            }
            Err(e) => Err(self.counts.error(e.kind())),
        }
    }

    fn strict_order(&self) -> bool {
        true
    }
}

/// One of std's writers, with a bound on the interruptions that it passes on.
///
/// Errors are as those of [`StdReader`]. If the inner writer takes nothing of a buffer that isn't
/// empty, the error is `WriteZero`, "failed to write whole buffer", which counts as a fault. A flush is
/// passed on to the inner writer.
///
/// ```
/// let mut output = StdWriter::new(rt.stdout(), 1000);
/// to_writer(alloc, &mut output, &7u64)?;
/// ```
#[derive(Drop)]
pub struct StdWriter<W> {
    inner: W,
    counts: Counts,
}

impl<W: std::io::Write> StdWriter<W> {
    /// A writer over `inner`, which passes on at most `interruptions` interruptions.
    ///
    /// ```
    /// let mut output = StdWriter::new(rt.stdout(), 1000);
    /// ```
    pub fn new(inner: W, interruptions: u32) -> StdWriter<W>
        ensures inner { inner_of_writer result ≡ inner }
        ensures state { (device_writing W.contents).sink result ≡ first_writer_state interruptions }
    {
        StdWriter {
            inner,
            counts: Counts::new(interruptions),
        }
    }

    /// How often it failed; at most 2^64 - 1.
    ///
    /// ```
    /// assert_eq!(rt; StdWriter::new(rt.stdout(), 1000).faults(), 0);
    /// ```
    pub fn faults(&self) -> u64
        ensures { result ≡ ((device_writing W.contents).sink self.now).faults }
    {
        self.counts.faults
    }
}

/// As [`Write`] says; an error has no text unless its kind is `Other` or, of a write, `WriteZero`.
/// Left open: as of [`StdReader`]; a flush that isn't passed on: tested.
impl<W: std::io::Write> Write for StdWriter<W> {
    ghost writing = { device_writing W.contents };

    fn write(&mut self, buf: &[u8]) -> Result<usize>
        ensures outcome { WritesSome (device_writing W.contents) self.old self.new buf.now result }
        ensures text { IfErr result OnlyOtherOrFullHasText }
    {
        match std::io::Write::write(&mut self.inner, buf) {
            Ok(n) => {
                if n == 0 && !buf.is_empty() {
                    self.counts.fault(ErrorKind::WriteZero);
                    return Err(short_write());
                }
                Ok(n)
            }
            Err(e) => Err(self.counts.error(e.kind())),
        }
    }

    fn flush(&mut self) -> Result<()>
        ensures outcome { Flushes (device_writing W.contents) self.old self.new result }
        ensures text { IfErr result OnlyOtherHasText }
    {
        match std::io::Write::flush(&mut self.inner) {
            Ok(()) => Ok(()),
            Err(e) => Err(self.counts.error(e.kind())),
        }
    }

    ghost lawful = { device-laws W.contents };
}
