// Bytes that are an encoding.
ghost use Rattle.std.specs.Prelude.{Some, false};
ghost use Rattle.borsh_codec.specs.Writing.{WritesEncoding};

use borsh_io::{Result, Write};

/// Writes bytes that are an encoding, as the tag of a variant.
///
/// Returns the writer's error if it fails. Then a beginning of the bytes was written. Left open: memory, of
/// a writer that allocates; how long the beginning is.
///
/// ```
/// write_bytes(&[0], writer)?;
/// ```
#[inline(always)]
pub fn write_bytes<W: Write>(bytes: &[u8], writer: &mut W) -> Result<()>
    ensures { WritesEncoding W.writing writer.old writer.new false false (Some bytes.now) result }
{
    // Not the call alone: LLVM would copy its `Result`, error and all.
    writer.write_all(bytes)?;
    Ok(())
}
