// Encodings that are written over the front of a buffer, the room: each of these calls returns how
// many bytes it put, or `None` if they don't fit or a part doesn't support it. Lists fill one room,
// and write it at once. Left open of each call: as of [`BorshSerialize::put`].
ghost use Rattle.borsh_codec.specs.Shapes.{
  concat_encodings,
  length_prefixed,
  pair,
  tagged,
  unsigned_encoding,
};
ghost use Rattle.borsh_codec.specs.Writing.{Puts};
ghost use Rattle.std.specs.Prelude.{◌≤◌, Some, length, take};

use super::numbers::bytes_of_u32;
use super::serialize::BorshSerialize;

/// Puts bytes that are an encoding.
#[inline]
pub fn put_bytes(bytes: &[u8], room: &mut [u8]) -> Option<usize>
    ensures { Puts (Some bytes.now) room.old room.new result }
{
    let n = bytes.len();
    if room.len() < n {
        return None;
    }
    room[..n].copy_from_slice(bytes);
    Some(n)
}

/// Puts a tag, one byte, and a part.
#[inline]
pub fn put_tagged<T: BorshSerialize>(tag: u8, part: &T, room: &mut [u8]) -> Option<usize>
    ensures { Puts (tagged tag (T.codec.encoding part.now)) room.old room.new result }
{
    let first = put_bytes(&[tag], room)?;
    let second = part.put(&mut room[first..])?;
    Some(first + second)
}

/// Puts the elements one after another.
#[inline]
pub(crate) fn put_elements<T: BorshSerialize>(items: &[T], room: &mut [u8]) -> Option<usize>
    ensures { Puts (concat_encodings T.codec.encoding items.now) room.old room.new result }
{
    if let Some(bytes) = T::u8_slice(items) {
        return put_bytes(bytes, room);
    }
    let (count, filled) = put_front(items, room);
    if count < items.len() {
        return None;
    }
    Some(filled)
}

/// Puts the count of the elements, four bytes, and the elements.
#[inline]
#[tactic(auto, using(borsh_codec::proofs::PutSteps::puts_then))]
pub(crate) fn put_counted<T: BorshSerialize>(items: &[T], room: &mut [u8]) -> Option<usize>
    ensures { Puts ((length_prefixed T.codec).encoding items.now) room.old room.new result }
{
    let first = put_count(items.len(), room)?;
    let second = put_elements(items, &mut room[first..])?;
    Some(first + second)
}

/// Puts a count of elements, four bytes.
#[inline]
fn put_count(count: usize, room: &mut [u8]) -> Option<usize>
    ensures { Puts (unsigned_encoding 4 count) room.old room.new result }
{
    let number = u32::try_from(count).ok()?;
    put_bytes(&bytes_of_u32(number), room)
}

/// Puts elements one after another, as many as fit: how many these are, and how many bytes.
#[inline]
pub(crate) fn put_front<T: BorshSerialize>(items: &[T], room: &mut [u8]) -> (usize, usize)
    ensures some { result.0 ≤ length items.now }
    ensures put { Puts (concat_encodings T.codec.encoding (take result.0 items.now))
        room.old room.new (Some result.1) }
{
    let mut count = 0;
    let mut filled = 0;
    while count < items.len() {
        match items[count].put(&mut room[filled..]) {
            Some(n) => filled += n,
            None => return (count, filled),
        }
        count += 1;
    }
    (count, filled)
}

/// Puts two parts in order.
#[inline]
#[tactic(auto, using(borsh_codec::proofs::PutSteps::puts_then))]
pub fn put_two<A: BorshSerialize, B: BorshSerialize>(a: &A, b: &B, room: &mut [u8]) -> Option<usize>
    ensures { Puts ((pair A.codec B.codec).encoding (a.now, b.now)) room.old room.new result }
{
    let first = a.put(room)?;
    let second = b.put(&mut room[first..])?;
    Some(first + second)
}

/// [`put_two`] for three parts.
#[inline]
pub fn put_three<A: BorshSerialize, B: BorshSerialize, C: BorshSerialize>(
    a: &A,
    b: &B,
    c: &C,
    room: &mut [u8],
) -> Option<usize>
    ensures { Puts ((pair A.codec (pair B.codec C.codec)).encoding (a.now, (b.now, c.now))) room.old
        room.new result }
{
    let first = a.put(room)?;
    let second = put_two(b, c, &mut room[first..])?;
    Some(first + second)
}

/// [`put_two`] for four parts.
#[inline]
pub fn put_four<A: BorshSerialize, B: BorshSerialize, C: BorshSerialize, D: BorshSerialize>(
    a: &A,
    b: &B,
    c: &C,
    d: &D,
    room: &mut [u8],
) -> Option<usize>
    ensures { Puts ((pair A.codec (pair B.codec (pair C.codec D.codec))).encoding
        (a.now, (b.now, (c.now, d.now)))) room.old room.new result }
{
    let first = a.put(room)?;
    let second = put_three(b, c, d, &mut room[first..])?;
    Some(first + second)
}

/// [`put_two`] for five parts.
#[inline]
pub fn put_five<
    A: BorshSerialize,
    B: BorshSerialize,
    C: BorshSerialize,
    D: BorshSerialize,
    E: BorshSerialize,
>(a: &A, b: &B, c: &C, d: &D, e: &E, room: &mut [u8]) -> Option<usize>
    ensures { Puts ((pair A.codec (pair B.codec (pair C.codec (pair D.codec E.codec)))).encoding
        (a.now, (b.now, (c.now, (d.now, e.now))))) room.old room.new result }
{
    let first = a.put(room)?;
    let second = put_four(b, c, d, e, &mut room[first..])?;
    Some(first + second)
}

/// [`put_two`] for six parts.
#[inline]
pub fn put_six<
    A: BorshSerialize,
    B: BorshSerialize,
    C: BorshSerialize,
    D: BorshSerialize,
    E: BorshSerialize,
    F: BorshSerialize,
>(a: &A, b: &B, c: &C, d: &D, e: &E, f: &F, room: &mut [u8]) -> Option<usize>
    ensures { Puts ((pair A.codec (pair B.codec (pair C.codec (pair D.codec (pair E.codec
        F.codec))))).encoding (a.now, (b.now, (c.now, (d.now, (e.now, f.now)))))) room.old room.new
        result }
{
    let first = a.put(room)?;
    let second = put_five(b, c, d, e, f, &mut room[first..])?;
    Some(first + second)
}

/// [`put_two`] for seven parts.
#[inline]
pub fn put_seven<
    A: BorshSerialize,
    B: BorshSerialize,
    C: BorshSerialize,
    D: BorshSerialize,
    E: BorshSerialize,
    F: BorshSerialize,
    G: BorshSerialize,
>(a: &A, b: &B, c: &C, d: &D, e: &E, f: &F, g: &G, room: &mut [u8]) -> Option<usize>
    ensures { Puts ((pair A.codec (pair B.codec (pair C.codec (pair D.codec (pair E.codec (pair
        F.codec G.codec)))))).encoding (a.now, (b.now, (c.now, (d.now, (e.now, (f.now, g.now)))))))
        room.old room.new result }
{
    let first = a.put(room)?;
    let second = put_six(b, c, d, e, f, g, &mut room[first..])?;
    Some(first + second)
}

/// [`put_two`] for eight parts.
#[inline]
pub fn put_eight<
    A: BorshSerialize,
    B: BorshSerialize,
    C: BorshSerialize,
    D: BorshSerialize,
    E: BorshSerialize,
    F: BorshSerialize,
    G: BorshSerialize,
    H: BorshSerialize,
>(a: &A, b: &B, c: &C, d: &D, e: &E, f: &F, g: &G, h: &H, room: &mut [u8]) -> Option<usize>
    ensures { Puts ((pair A.codec (pair B.codec (pair C.codec (pair D.codec (pair E.codec (pair
        F.codec (pair G.codec H.codec))))))).encoding
        (a.now, (b.now, (c.now, (d.now, (e.now, (f.now, (g.now, h.now)))))))) room.old room.new
        result }
{
    let first = a.put(room)?;
    let second = put_seven(b, c, d, e, f, g, h, &mut room[first..])?;
    Some(first + second)
}

/// [`put_two`] for nine parts.
#[inline]
pub fn put_nine<
    A: BorshSerialize,
    B: BorshSerialize,
    C: BorshSerialize,
    D: BorshSerialize,
    E: BorshSerialize,
    F: BorshSerialize,
    G: BorshSerialize,
    H: BorshSerialize,
    I: BorshSerialize,
>(a: &A, b: &B, c: &C, d: &D, e: &E, f: &F, g: &G, h: &H, i: &I, room: &mut [u8]) -> Option<usize>
    ensures { Puts ((pair A.codec (pair B.codec (pair C.codec (pair D.codec (pair E.codec (pair
        F.codec (pair G.codec (pair H.codec I.codec)))))))).encoding
        (a.now, (b.now, (c.now, (d.now, (e.now, (f.now, (g.now, (h.now, i.now))))))))) room.old
        room.new result }
{
    let first = a.put(room)?;
    let second = put_eight(b, c, d, e, f, g, h, i, &mut room[first..])?;
    Some(first + second)
}

/// [`put_two`] for ten parts.
#[inline]
pub fn put_ten<
    A: BorshSerialize,
    B: BorshSerialize,
    C: BorshSerialize,
    D: BorshSerialize,
    E: BorshSerialize,
    F: BorshSerialize,
    G: BorshSerialize,
    H: BorshSerialize,
    I: BorshSerialize,
    J: BorshSerialize,
>(
    a: &A,
    b: &B,
    c: &C,
    d: &D,
    e: &E,
    f: &F,
    g: &G,
    h: &H,
    i: &I,
    j: &J,
    room: &mut [u8],
) -> Option<usize>
    ensures { Puts ((pair A.codec (pair B.codec (pair C.codec (pair D.codec (pair E.codec (pair
        F.codec (pair G.codec (pair H.codec (pair I.codec J.codec))))))))).encoding
        (a.now, (b.now, (c.now, (d.now, (e.now, (f.now, (g.now, (h.now, (i.now, j.now))))))))))
        room.old room.new result }
{
    let first = a.put(room)?;
    let second = put_nine(b, c, d, e, f, g, h, i, j, &mut room[first..])?;
    Some(first + second)
}

/// [`put_two`] for eleven parts.
#[inline]
pub fn put_eleven<
    A: BorshSerialize,
    B: BorshSerialize,
    C: BorshSerialize,
    D: BorshSerialize,
    E: BorshSerialize,
    F: BorshSerialize,
    G: BorshSerialize,
    H: BorshSerialize,
    I: BorshSerialize,
    J: BorshSerialize,
    K: BorshSerialize,
>(
    a: &A,
    b: &B,
    c: &C,
    d: &D,
    e: &E,
    f: &F,
    g: &G,
    h: &H,
    i: &I,
    j: &J,
    k: &K,
    room: &mut [u8],
) -> Option<usize>
    ensures { Puts ((pair A.codec (pair B.codec (pair C.codec (pair D.codec (pair E.codec (pair
        F.codec (pair G.codec (pair H.codec (pair I.codec (pair J.codec K.codec)))))))))).encoding
        (a.now, (b.now, (c.now, (d.now, (e.now, (f.now, (g.now, (h.now, (i.now, (j.now, k.now)))))))))))
        room.old room.new result }
{
    let first = a.put(room)?;
    let second = put_ten(b, c, d, e, f, g, h, i, j, k, &mut room[first..])?;
    Some(first + second)
}

/// [`put_two`] for twelve parts.
#[inline]
pub fn put_twelve<
    A: BorshSerialize,
    B: BorshSerialize,
    C: BorshSerialize,
    D: BorshSerialize,
    E: BorshSerialize,
    F: BorshSerialize,
    G: BorshSerialize,
    H: BorshSerialize,
    I: BorshSerialize,
    J: BorshSerialize,
    K: BorshSerialize,
    L: BorshSerialize,
>(
    a: &A,
    b: &B,
    c: &C,
    d: &D,
    e: &E,
    f: &F,
    g: &G,
    h: &H,
    i: &I,
    j: &J,
    k: &K,
    l: &L,
    room: &mut [u8],
) -> Option<usize>
    ensures { Puts ((pair A.codec (pair B.codec (pair C.codec (pair D.codec (pair E.codec (pair
        F.codec (pair G.codec (pair H.codec (pair I.codec (pair J.codec (pair K.codec
        L.codec))))))))))).encoding
        (a.now, (b.now, (c.now, (d.now, (e.now, (f.now, (g.now, (h.now, (i.now, (j.now, (k.now, l.now))))))))))))
        room.old room.new result }
{
    let first = a.put(room)?;
    let second = put_eleven(b, c, d, e, f, g, h, i, j, k, l, &mut room[first..])?;
    Some(first + second)
}
