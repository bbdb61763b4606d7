// Where an answer is written, and devices that keep their errors.
ghost use Rattle.borsh_tool_commands.specs.Many.{WritesMade, IsUnwritten};
ghost use Rattle.std.specs.Prelude.{◌≡◌, [], OnErr};

use super::failure::Failure;
use borsh::io::Write;
use std::io;

/// Writes what was made.
pub(crate) fn write_made<'a, W: Write>(made: &mut Vec<u8>, out: &mut W) -> Result<(), Failure<'a>>
    ensures none { made.new.items ≡ [] }
    ensures unwritten { OnErr result (IsUnwritten result) }
    ensures flushes { WritesMade W.writing out.old out.new made.old.items made.new.items result }
{
    let outcome = out.write_all(made.as_slice());
    made.clear();
    match outcome {
        Ok(()) => Ok(()),
        Err(error) => Err(Failure::Unwritten(error)),
    }
}

/// A reader or writer that keeps its last error: one of `borsh::io` has no text of the system's.
#[derive(Drop)]
pub struct Remembering<D> {
    pub inner: D,
    pub error: Option<io::Error>,
}

impl<D: Drop> Remembering<D> {
    pub fn new(inner: D) -> Remembering<D> {
        Remembering { inner, error: None }
    }

    /// Keeps an error, and returns one of its kind.
    fn keep(&mut self, error: io::Error) -> io::Error {
        let kind = error.kind();
        self.error = Some(error);
        io::Error::from(kind)
    }
}

impl<R: io::Read + Drop> io::Read for Remembering<R> {
    fn read(&mut self, buf: &mut [u8]) -> io::Result<usize> {
        match self.inner.read(buf) {
            Ok(length) => Ok(length),
            Err(error) => Err(self.keep(error)),
        }
    }
}

impl<W: io::Write + Drop> io::Write for Remembering<W> {
    fn write(&mut self, buf: &[u8]) -> io::Result<usize> {
        match self.inner.write(buf) {
            Ok(length) => Ok(length),
            Err(error) => Err(self.keep(error)),
        }
    }

    fn flush(&mut self) -> io::Result<()> {
        self.inner.flush()
    }
}
