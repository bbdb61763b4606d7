// The next bytes, as they are.
ghost use Rattle.std.specs.Prelude.{◌<◌, ◌≤◌};
ghost use Rattle.borsh_codec.specs.Shapes.{unsigned, allocated_array};
ghost use Rattle.borsh_codec.specs.Types.Addresses.{octets};
ghost use Rattle.borsh_codec.specs.RawBytes.{FillsBuffer, TakesBytes};
ghost use Rattle.borsh_codec.specs.Reading.{Decodes, DecodesVec, any_byte};

use super::refusals::unexpected_length;
use borsh_io::{ErrorKind, Read, Result};
use std::alloc::Global;

/// Fills the buffer with the next bytes. If there are fewer, the error is `InvalidData`, "Unexpected
/// length of input"; any other error is the reader's. After an error some of the bytes may have been read.
///
/// ```
/// let mut tag = [0u8; 4];
/// fill(reader, &mut tag)?;
/// ```
#[inline]
pub fn fill<R: Read>(reader: &mut R, buf: &mut [u8]) -> Result<()>
    ensures { FillsBuffer R.stream reader.old reader.new buf.old buf.new result }
{
    match reader.read_exact(buf) {
        Ok(()) => Ok(()),
        Err(e) => match e.kind() {
            ErrorKind::UnexpectedEof => Err(unexpected_length()),
            _ => Err(e),
        },
    }
}

/// The next bytes, as many as the array has. If there are fewer, the error is `InvalidData`, "Unexpected
/// length of input"; any other error is the reader's. Left open: how many bytes are left after an error.
///
/// ```
/// let magic: [u8; 4] = read_bytes(reader)?;
/// ```
#[inline(always)]
pub fn read_bytes<R: Read, const N: usize>(reader: &mut R) -> Result<[u8; N]>
    ensures { TakesBytes N R.stream reader.old reader.new result }
{
    let mut bytes = [0u8; N];
    fill(reader, &mut bytes)?;
    Ok(bytes)
}

/// As [`read_bytes`], as numbers of one byte.
#[inline(always)]
pub(crate) fn read_octets<R: Read, const N: usize>(reader: &mut R) -> Result<[u8; N]>
    ensures { Decodes (octets N) R.stream reader.old reader.new result }
{
    let bytes: [u8; N] = read_bytes(reader)?;
    Ok(bytes)
}

/// The next byte, which says which variant follows. The errors are those of [`read_bytes`]. Left open: as there.
///
/// ```
/// let tag = read_tag(reader)?;
/// ```
#[inline(always)]
pub fn read_tag<R: Read>(reader: &mut R) -> Result<u8>
    ensures { Decodes any_byte R.stream reader.old reader.new result }
{
    let bytes: [u8; 1] = read_bytes(reader)?;
    Ok(bytes[0])
}

/// For how many announced bytes room is made before any of them came, if the reader doesn't know how many are left.
const FIRST_ROOM: usize = 1048576;

/// How many bytes room is made for at first.
#[inline]
fn first_room(len: usize, left: Option<usize>) -> usize
    ensures few { result ≤ len }
    ensures some { 0 < len → 0 < result }
{
    match left {
        Some(_) => len,
        None => len.min(FIRST_ROOM),
    }
}

/// The next `len` bytes. If the reader has fewer left, nothing is read. If it has enough, room is made for `len` bytes at
/// once. If it doesn't know, room is made for 1 MiB at first and then for as many again as came, so bytes that are
/// announced and don't come cost little memory. The errors are those of [`fill`], and `OutOfMemory` if an allocation fails.
#[inline(always)]
pub(crate) fn read_vec<R: Read>(alloc: Global, len: usize, reader: &mut R) -> Result<Vec<u8>>
    ensures { DecodesVec (allocated_array len (unsigned 1)) R.stream reader.old reader.new result }
{
    if let Some(left) = reader.bytes_left() {
        if left < len {
            return Err(unexpected_length());
        }
    }
    let mut bytes = vec![in alloc; 0u8; first_room(len, reader.bytes_left())]?;
    fill(reader, &mut bytes)?;
    'bytes: while bytes.len() < len {
        let filled = bytes.len();
        bytes.resize(filled.saturating_mul(2).min(len), 0)?;
        fill(reader, &mut bytes[filled..])?;
    }
    Ok(bytes)
}
