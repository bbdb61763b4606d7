// Parts in order.
ghost use Rattle.std.specs.Prelude.{false};
ghost use Rattle.borsh_codec.specs.Shapes.{pair, tagged};
ghost use Rattle.borsh_codec.specs.Writing.{Writes, WritesEncoding};

use super::raw_bytes::write_bytes;
use super::serialize::BorshSerialize;
use borsh_io::{Result, Write};
use std::alloc::Global;

/// Writes two parts, one after the other.
///
/// Returns the error of the part that could not be written. Then a beginning of the encoding was written.
/// Left open: as of [`BorshSerialize::serialize`].
///
/// ```
/// write_two(&self.a, &self.b, alloc, writer)?;
/// ```
#[inline]
pub fn write_two<A: BorshSerialize, B: BorshSerialize, W: Write>(
    a: &A,
    b: &B,
    alloc: Global,
    writer: &mut W,
) -> Result<()>
    ensures { Writes (pair A.codec B.codec) (a.now, b.now) W.writing writer.old writer.new result }
{
    a.serialize(alloc, writer)?;
    b.serialize(alloc, writer)
}

/// [`write_two`] for three parts.
#[inline]
pub fn write_three<A: BorshSerialize, B: BorshSerialize, C: BorshSerialize, W: Write>(
    a: &A,
    b: &B,
    c: &C,
    alloc: Global,
    writer: &mut W,
) -> Result<()>
    ensures { Writes
        (pair A.codec (pair B.codec C.codec))
        (a.now, (b.now, c.now))
        W.writing writer.old writer.new result }
{
    a.serialize(alloc, writer)?;
    write_two(b, c, alloc, writer)
}

/// [`write_two`] for four parts.
#[inline]
pub fn write_four<
    A: BorshSerialize,
    B: BorshSerialize,
    C: BorshSerialize,
    D: BorshSerialize,
    W: Write,
>(a: &A, b: &B, c: &C, d: &D, alloc: Global, writer: &mut W) -> Result<()>
    ensures { Writes
        (pair A.codec (pair B.codec (pair C.codec D.codec)))
        (a.now, (b.now, (c.now, d.now)))
        W.writing writer.old writer.new result }
{
    a.serialize(alloc, writer)?;
    write_three(b, c, d, alloc, writer)
}

/// [`write_two`] for five parts.
#[inline]
pub fn write_five<
    A: BorshSerialize,
    B: BorshSerialize,
    C: BorshSerialize,
    D: BorshSerialize,
    E: BorshSerialize,
    W: Write,
>(a: &A, b: &B, c: &C, d: &D, e: &E, alloc: Global, writer: &mut W) -> Result<()>
    ensures { Writes
        (pair A.codec (pair B.codec (pair C.codec (pair D.codec E.codec))))
        (a.now, (b.now, (c.now, (d.now, e.now))))
        W.writing writer.old writer.new result }
{
    a.serialize(alloc, writer)?;
    write_four(b, c, d, e, alloc, writer)
}

/// [`write_two`] for six parts.
#[inline]
pub fn write_six<
    A: BorshSerialize,
    B: BorshSerialize,
    C: BorshSerialize,
    D: BorshSerialize,
    E: BorshSerialize,
    F: BorshSerialize,
    W: Write,
>(a: &A, b: &B, c: &C, d: &D, e: &E, f: &F, alloc: Global, writer: &mut W) -> Result<()>
    ensures { Writes
        (pair A.codec (pair B.codec (pair C.codec (pair D.codec (pair E.codec F.codec)))))
        (a.now, (b.now, (c.now, (d.now, (e.now, f.now)))))
        W.writing writer.old writer.new result }
{
    a.serialize(alloc, writer)?;
    write_five(b, c, d, e, f, alloc, writer)
}

/// [`write_two`] for seven parts.
#[inline]
pub fn write_seven<
    A: BorshSerialize,
    B: BorshSerialize,
    C: BorshSerialize,
    D: BorshSerialize,
    E: BorshSerialize,
    F: BorshSerialize,
    G: BorshSerialize,
    W: Write,
>(a: &A, b: &B, c: &C, d: &D, e: &E, f: &F, g: &G, alloc: Global, writer: &mut W) -> Result<()>
    ensures { Writes
        (pair A.codec (pair B.codec (pair C.codec (pair D.codec (pair E.codec (pair F.codec
        G.codec))))))
        (a.now, (b.now, (c.now, (d.now, (e.now, (f.now, g.now))))))
        W.writing writer.old writer.new result }
{
    a.serialize(alloc, writer)?;
    write_six(b, c, d, e, f, g, alloc, writer)
}

/// [`write_two`] for eight parts.
#[inline]
pub fn write_eight<
    A: BorshSerialize,
    B: BorshSerialize,
    C: BorshSerialize,
    D: BorshSerialize,
    E: BorshSerialize,
    F: BorshSerialize,
    G: BorshSerialize,
    H: BorshSerialize,
    W: Write,
>(
    a: &A,
    b: &B,
    c: &C,
    d: &D,
    e: &E,
    f: &F,
    g: &G,
    h: &H,
    alloc: Global,
    writer: &mut W,
) -> Result<()>
    ensures { Writes
        (pair A.codec (pair B.codec (pair C.codec (pair D.codec (pair E.codec (pair F.codec
        (pair G.codec H.codec)))))))
        (a.now, (b.now, (c.now, (d.now, (e.now, (f.now, (g.now, h.now)))))))
        W.writing writer.old writer.new result }
{
    a.serialize(alloc, writer)?;
    write_seven(b, c, d, e, f, g, h, alloc, writer)
}

/// [`write_two`] for nine parts.
#[inline]
pub fn write_nine<
    A: BorshSerialize,
    B: BorshSerialize,
    C: BorshSerialize,
    D: BorshSerialize,
    E: BorshSerialize,
    F: BorshSerialize,
    G: BorshSerialize,
    H: BorshSerialize,
    I: BorshSerialize,
    W: Write,
>(
    a: &A,
    b: &B,
    c: &C,
    d: &D,
    e: &E,
    f: &F,
    g: &G,
    h: &H,
    i: &I,
    alloc: Global,
    writer: &mut W,
) -> Result<()>
    ensures { Writes
        (pair A.codec (pair B.codec (pair C.codec (pair D.codec (pair E.codec (pair F.codec
        (pair G.codec (pair H.codec I.codec))))))))
        (a.now, (b.now, (c.now, (d.now, (e.now, (f.now, (g.now, (h.now, i.now))))))))
        W.writing writer.old writer.new result }
{
    a.serialize(alloc, writer)?;
    write_eight(b, c, d, e, f, g, h, i, alloc, writer)
}

/// [`write_two`] for ten parts.
#[inline]
pub fn write_ten<
    A: BorshSerialize,
    B: BorshSerialize,
    C: BorshSerialize,
    D: BorshSerialize,
    E: BorshSerialize,
    F: BorshSerialize,
    G: BorshSerialize,
    H: BorshSerialize,
    I: BorshSerialize,
    J: BorshSerialize,
    W: Write,
>(
    a: &A,
    b: &B,
    c: &C,
    d: &D,
    e: &E,
    f: &F,
    g: &G,
    h: &H,
    i: &I,
    j: &J,
    alloc: Global,
    writer: &mut W,
) -> Result<()>
    ensures { Writes
        (pair A.codec (pair B.codec (pair C.codec (pair D.codec (pair E.codec (pair F.codec
        (pair G.codec (pair H.codec (pair I.codec J.codec)))))))))
        (a.now, (b.now, (c.now, (d.now, (e.now, (f.now, (g.now, (h.now, (i.now, j.now)))))))))
        W.writing writer.old writer.new result }
{
    a.serialize(alloc, writer)?;
    write_nine(b, c, d, e, f, g, h, i, j, alloc, writer)
}

/// [`write_two`] for eleven parts.
#[inline]
pub fn write_eleven<
    A: BorshSerialize,
    B: BorshSerialize,
    C: BorshSerialize,
    D: BorshSerialize,
    E: BorshSerialize,
    F: BorshSerialize,
    G: BorshSerialize,
    H: BorshSerialize,
    I: BorshSerialize,
    J: BorshSerialize,
    K: BorshSerialize,
    W: Write,
>(
    a: &A,
    b: &B,
    c: &C,
    d: &D,
    e: &E,
    f: &F,
    g: &G,
    h: &H,
    i: &I,
    j: &J,
    k: &K,
    alloc: Global,
    writer: &mut W,
) -> Result<()>
    ensures { let rest : G × (H × (I × (J × K))) = (g.now, (h.now, (i.now, (j.now, k.now)))) in
        Writes
        (pair A.codec (pair B.codec (pair C.codec (pair D.codec (pair E.codec (pair F.codec
        (pair G.codec (pair H.codec (pair I.codec (pair J.codec K.codec))))))))))
        (a.now, (b.now, (c.now, (d.now, (e.now, (f.now, rest))))))
        W.writing writer.old writer.new result }
{
    a.serialize(alloc, writer)?;
    write_ten(b, c, d, e, f, g, h, i, j, k, alloc, writer)
}

/// [`write_two`] for twelve parts.
#[inline]
pub fn write_twelve<
    A: BorshSerialize,
    B: BorshSerialize,
    C: BorshSerialize,
    D: BorshSerialize,
    E: BorshSerialize,
    F: BorshSerialize,
    G: BorshSerialize,
    H: BorshSerialize,
    I: BorshSerialize,
    J: BorshSerialize,
    K: BorshSerialize,
    L: BorshSerialize,
    W: Write,
>(
    a: &A,
    b: &B,
    c: &C,
    d: &D,
    e: &E,
    f: &F,
    g: &G,
    h: &H,
    i: &I,
    j: &J,
    k: &K,
    l: &L,
    alloc: Global,
    writer: &mut W,
) -> Result<()>
    ensures { let rest : G × (H × (I × (J × (K × L)))) =
        (g.now, (h.now, (i.now, (j.now, (k.now, l.now))))) in
        Writes
        (pair A.codec (pair B.codec (pair C.codec (pair D.codec (pair E.codec (pair F.codec
        (pair G.codec (pair H.codec (pair I.codec (pair J.codec (pair K.codec L.codec)))))))))))
        (a.now, (b.now, (c.now, (d.now, (e.now, (f.now, rest))))))
        W.writing writer.old writer.new result }
{
    a.serialize(alloc, writer)?;
    write_eleven(b, c, d, e, f, g, h, i, j, k, l, alloc, writer)
}

/// Writes a tag, one byte, and a part: a variant with one field.
///
/// Returns the writer's error if it fails, or the error of the part. Then a beginning of the encoding was
/// written. Left open: as of [`BorshSerialize::serialize`].
///
/// ```
/// write_tagged(2, reason, alloc, writer)?;
/// ```
#[inline]
pub fn write_tagged<T: BorshSerialize, W: Write>(
    tag: u8,
    part: &T,
    alloc: Global,
    writer: &mut W,
) -> Result<()>
    ensures { WritesEncoding W.writing writer.old writer.new T.codec.encoding_allocates false
        (tagged tag (T.codec.encoding part.now)) result }
{
    write_bytes(&[tag], writer)?;
    part.serialize(alloc, writer)
}
