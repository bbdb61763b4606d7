// The writers over vectors, slices and references.
ghost use Rattle.std.specs.Prelude.{◌≡◌, ◌+◌, ◌++◌, ◌<◌, if◌then◌else◌, length, is_ok, IsOk, IfOk, OnErr, vec_len, vec_capacity};
ghost use Rattle.borsh_io.specs.Sink.{WritesSome, Flushes, WritesAll, contramap_writer, appending, overwriting};
ghost use Rattle.borsh_io.specs.SinkLaws.{contramap_writer-laws, appending-laws, overwriting-laws};

use super::error::{Error, ErrorKind, Result};
use super::write::Write;
use std::alloc::AllocError;

/// The writer itself. Left open: what it leaves open.
impl<W: Write> Write for &mut W {
    ghost writing = { contramap_writer (λ r. r.now) W.writing };

    #[inline]
    fn write(&mut self, buf: &[u8]) -> Result<usize> {
        Write::write(&mut **self, buf)
    }

    #[inline]
    fn flush(&mut self) -> Result<()> {
        Write::flush(&mut **self)
    }

    #[inline]
    fn write_all(&mut self, buf: &[u8]) -> Result<()> {
        Write::write_all(&mut **self, buf)
    }

    ghost lawful = { contramap_writer-laws (λ r. r.now) W.lawful };
}

/// The bytes are appended to the vector. If an allocation fails (`OutOfMemory`), which happens only if the
/// vector has to grow, it is unchanged. Left open: memory.
impl Write for Vec<u8> {
    ghost writing = { appending (λ v. v.items) };

    #[inline]
    fn write(&mut self, buf: &[u8]) -> Result<usize>
        ensures outcome { WritesSome (appending (λ v. v.items)) self.old self.new buf.now result }
        ensures all { IfOk result (λ n. n ≡ length buf.now) }
        ensures full { OnErr result (vec_capacity self.old < vec_len self.old + length buf.now) }
    {
        self.extend_from_slice(buf)?;
        Ok(buf.len())
    }

    #[inline]
    fn flush(&mut self) -> Result<()>
        ensures outcome { Flushes (appending (λ v. v.items)) self.old self.new result }
        ensures succeeds { IsOk result }
        ensures unchanged { self.new ≡ self.old }
    {
        Ok(())
    }

    #[inline]
    fn write_all(&mut self, buf: &[u8]) -> Result<()>
        ensures outcome { WritesAll (appending (λ v. v.items)) self.old self.new buf.now result }
        ensures unchanged { OnErr result (self.new.items ≡ self.old.items) }
        ensures full { OnErr result (vec_capacity self.old < vec_len self.old + length buf.now) }
    {
        if buf.len() <= self.capacity() - self.len() {
            self.extend_from_slice(buf)?;
        } else {
            append_and_grow(self, buf)?;
        }
        Ok(())
    }

    ghost lawful = { appending-laws (λ v. v.items) };
}

/// Appends the bytes, which makes the vector grow. If an allocation fails, it is unchanged.
#[cold]
#[inline(never)]
fn append_and_grow(vec: &mut Vec<u8>, bytes: &[u8]) -> std::result::Result<(), AllocError>
    ensures items { vec.new.items ≡ (if is_ok result then vec.old.items ++ bytes.now else vec.old.items) }
    ensures full { OnErr result (vec_capacity vec.old < vec_len vec.old + length bytes.now) }
{
    vec.extend_from_slice(bytes)
}

/// The bytes overwrite the beginning of the slice, which then begins behind them. It is full when it is
/// empty; if not all of them fit, those that fit are written. Left open: which bytes are put into the
/// slice, and how many by one `write`, at least one if there is room: tested.
impl Write for &mut [u8] {
    ghost writing = { overwriting (λ s. s.now) };

    #[inline]
    fn write(&mut self, buf: &[u8]) -> Result<usize> {
        let all = std::mem::take(self);
        let n = buf.len().min(all.len());
        all[..n].copy_from_slice(&buf[..n]);
        *self = &mut all[n..];
        Ok(n)
    }

    #[inline]
    fn flush(&mut self) -> Result<()>
        ensures outcome { Flushes (overwriting (λ s. s.now)) self.old self.new result }
        ensures succeeds { IsOk result }
        ensures unchanged { self.new ≡ self.old }
    {
        Ok(())
    }

    ghost lawful = { overwriting-laws (λ s. s.now) };
}
