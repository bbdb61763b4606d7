// The readers over slices and references.
ghost use Rattle.std.specs.Prelude.{◌≡◌, Some, Ok, IfSome, min, length, OnErr};
ghost use Rattle.borsh_io.specs.Stream.{HasAtMost, ReadsSome, ReadsExactly, slice_state};

use super::error::{ErrorKind, Result};
use super::read::{Read, short_read};

/// The reader itself. Left open: what it leaves open.
impl<R: Read> Read for &mut R {
    ghost stream = { λ r. R.stream r.now };

    #[inline]
    fn read(&mut self, buf: &mut [u8]) -> Result<usize> {
        Read::read(&mut **self, buf)
    }

    #[inline]
    fn strict_order(&self) -> bool {
        Read::strict_order(&**self)
    }

    #[inline]
    fn bytes_left(&self) -> Option<usize> {
        Read::bytes_left(&**self)
    }

    #[inline]
    fn read_exact(&mut self, buf: &mut [u8]) -> Result<()> {
        Read::read_exact(&mut **self, buf)
    }
}

/// The slice becomes what is left. It never fails and is never interrupted; if it is too short for a
/// `read_exact`, it is left unchanged. Left open: what the buffer holds behind the bytes that are read.
impl Read for &[u8] {
    ghost stream = { λ s. slice_state s.now };

    #[inline]
    fn read(&mut self, buf: &mut [u8]) -> Result<usize>
        ensures outcome { ReadsSome (λ s. slice_state s.now) self.old self.new buf.new result }
        ensures count { result ≡ Ok (min (length self.old.now) (length buf.old)) }
    {
        let all: &[u8] = *self;
        let n = all.len().min(buf.len());
        buf[..n].copy_from_slice(&all[..n]);
        *self = &all[n..];
        Ok(n)
    }

    #[inline]
    fn strict_order(&self) -> bool {
        true
    }

    /// The slice's length.
    #[inline]
    fn bytes_left(&self) -> Option<usize>
        ensures bound { IfSome result (HasAtMost (slice_state self.now.now)) }
        ensures exact { result ≡ Some (length self.now.now) }
    {
        Some(self.len())
    }

    #[inline]
    fn read_exact(&mut self, buf: &mut [u8]) -> Result<()>
        ensures outcome { ReadsExactly (λ s. slice_state s.now)
            self.old self.new buf.old buf.new result }
        ensures unchanged { OnErr result (self.new.now ≡ self.old.now) }
    {
        let all: &[u8] = *self;
        let n = buf.len();
        if all.len() < n {
            return Err(short_read());
        }
        buf.copy_from_slice(&all[..n]);
        *self = &all[n..];
        Ok(())
    }
}
