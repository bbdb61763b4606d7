// What writes. Left open of each call: none.
ghost use Rattle.std.specs.Prelude.{◌≡◌};
ghost use Rattle.borsh_io.specs.Errors.{error_kind};
ghost use Rattle.borsh_io.specs.Sink.{WriterModel, WriterLaws, WritesSome, WritesAll, Flushes, FlushesRetrying};

use super::error::{Error, ErrorKind, Result, pass_over};

/// A destination of bytes.
///
/// An implementation says by the ghost member `writing` which bytes were written between two of its
/// states, how often it has failed, how often it may still be interrupted, when it is full, and whether
/// it may allocate. It proves that no bytes were written between a state and itself, and that of two
/// writes one after the other the bytes are joined.
pub trait Write {
    ghost writing: { WriterModel Self };

    /// Writes the beginning of the buffer, and returns how many bytes: of a buffer that isn't empty, none
    /// only if the writer is full.
    ///
    /// After an error of kind `Interrupted` nothing was written, and the call may be made again. After any
    /// other error nothing was written, and an allocation failed or the count of faults has risen.
    /// Left open: how many bytes are written, and when the writer fails.
    ///
    /// ```
    /// let mut room = [0u8; 2];
    /// let mut output = room.as_mut_slice();
    /// assert_eq!(rt; output.write(b"\x07\x00\xff")?, 2);
    /// ```
    fn write(&mut self, buf: &[u8]) -> Result<usize>
        ensures { WritesSome writing self.old self.new buf.now result };

    /// Passes on what the writer has buffered. Adds no bytes; the errors are those of
    /// [`write`](Write::write). Left open: that anything is passed on, and when the writer fails.
    ///
    /// ```
    /// output.flush()?;
    /// ```
    fn flush(&mut self) -> Result<()>
        ensures { Flushes writing self.old self.new result };

    /// Writes the whole buffer, trying again after interruptions.
    ///
    /// Returns `WriteZero`, "failed to write whole buffer", if the writer is full, and the writer's error if
    /// it fails. After an error a beginning of the buffer was written, and not all of it. Left open: how
    /// long it is.
    ///
    /// ```
    /// let mut out = Vec::new(alloc);
    /// out.write_all(b"\x07\x00")?;
    /// ```
    fn write_all(&mut self, buf: &[u8]) -> Result<()>
        ensures { WritesAll writing self.old self.new buf.now result }
    {
        let mut rest = buf;
        while !rest.is_empty() {
            match self.write(rest) {
                Ok(0) => return Err(short_write()),
                Ok(n) => rest = &rest[n..],
                Err(e) => pass_over(e)?,
            }
        }
        Ok(())
    }

    /// A mutable reference to the writer, so that it can be used again after a call that takes a writer
    /// by value.
    ///
    /// ```
    /// 7u16.serialize(alloc, &mut output.by_ref())?;
    /// ```
    final fn by_ref(&mut self) -> &mut Self
    where
        Self: Sized,
        ensures value { result.now ≡ self.old }
        ensures same_reference { result.ghost_name ≡ self.entry.ghost_name }
    {
        self
    }

    ghost lawful: { WriterLaws Self writing };
}

#[cold]
pub(crate) fn short_write() -> Error
    ensures { error_kind result ≡ ErrorKind.WriteZero }
{
    Error::new(ErrorKind::WriteZero, "failed to write whole buffer")
}

/// A flush, trying again after interruptions. Returns the writer's error if it fails. Left open: `Ok`
/// without a flush, which is tested.
///
/// ```
/// to_writer(alloc, &mut output, &value)?;
/// flush_all(&mut output)?;
/// ```
pub fn flush_all<W: Write>(writer: &mut W) -> Result<()>
    ensures { FlushesRetrying W.writing writer.old writer.new result }
{
    loop {
        match writer.flush() {
            Ok(()) => return Ok(()),
            Err(e) => pass_over(e)?,
        }
    }
}
