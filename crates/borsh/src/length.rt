// A writer that counts the bytes, and keeps none.
ghost use Rattle.std.specs.Prelude.{◌≡◌, ◌<◌, ◌^◌, ◌-◌, SomeIff};
ghost use Rattle.borsh.specs.Counting.{counted_bytes, counting, counting-laws};

use borsh_io::{Result, Write};

/// Counts the bytes that are written; at its greatest value the count stays.
#[derive(Drop)]
pub struct LengthWriter {
    len: u128,
}

impl LengthWriter {
    pub(crate) fn new() -> LengthWriter
        ensures { counted_bytes result ≡ 0 }
    {
        LengthWriter { len: 0 }
    }

    /// The count, where it is a `usize`.
    pub(crate) fn len(&self) -> Option<usize>
        ensures { SomeIff result (counted_bytes self.now < 2 ^ 64) (counted_bytes self.now) }
    {
        usize::try_from(self.len).ok()
    }
}

impl Write for LengthWriter {
    ghost writing = { counting };

    #[inline]
    fn write(&mut self, buf: &[u8]) -> Result<usize> {
        self.len = self.len.saturating_add(buf.len() as u128);
        Ok(buf.len())
    }

    #[inline]
    fn flush(&mut self) -> Result<()> {
        Ok(())
    }

    #[inline]
    fn write_all(&mut self, buf: &[u8]) -> Result<()> {
        self.len = self.len.saturating_add(buf.len() as u128);
        Ok(())
    }

    ghost lawful = { counting-laws };
}
