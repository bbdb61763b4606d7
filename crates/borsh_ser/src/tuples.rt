// Tuples of one to twenty places: their parts in order.
use super::lengths::joined_length;
use super::parts::{
    write_eight, write_eleven, write_five, write_four, write_nine, write_seven, write_six,
    write_ten, write_three, write_twelve, write_two,
};
use super::puts::{
    put_eight, put_eleven, put_five, put_four, put_nine, put_seven, put_six, put_ten, put_three,
    put_twelve, put_two,
};
use super::serialize::BorshSerialize;
use borsh_io::{Result, Write};
use std::alloc::Global;

impl<A: BorshSerialize> BorshSerialize for (A,) {
    #[inline]
    fn serialize<W: Write>(&self, alloc: Global, writer: &mut W) -> Result<()> {
        self.0.serialize(alloc, writer)
    }

    #[inline]
    fn put(&self, room: &mut [u8]) -> Option<usize> {
        self.0.put(room)
    }

    #[inline]
    fn encoded_length(&self) -> Option<u32> {
        self.0.encoded_length()
    }
}

impl<A: BorshSerialize, B: BorshSerialize> BorshSerialize for (A, B) {
    #[inline]
    fn serialize<W: Write>(&self, alloc: Global, writer: &mut W) -> Result<()> {
        write_two(&self.0, &self.1, alloc, writer)
    }

    #[inline]
    fn put(&self, room: &mut [u8]) -> Option<usize> {
        put_two(&self.0, &self.1, room)
    }

    #[inline]
    fn encoded_length(&self) -> Option<u32> {
        joined_length(self.0.encoded_length(), self.1.encoded_length())
    }
}

impl<A: BorshSerialize, B: BorshSerialize, C: BorshSerialize> BorshSerialize for (A, B, C) {
    #[inline]
    fn serialize<W: Write>(&self, alloc: Global, writer: &mut W) -> Result<()> {
        write_three(&self.0, &self.1, &self.2, alloc, writer)
    }

    #[inline]
    fn put(&self, room: &mut [u8]) -> Option<usize> {
        put_three(&self.0, &self.1, &self.2, room)
    }

    #[inline]
    fn encoded_length(&self) -> Option<u32> {
        let rest = joined_length(self.1.encoded_length(), self.2.encoded_length());
        joined_length(self.0.encoded_length(), rest)
    }
}

impl<A: BorshSerialize, B: BorshSerialize, C: BorshSerialize, D: BorshSerialize> BorshSerialize
    for (A, B, C, D) {
    #[inline]
    fn serialize<W: Write>(&self, alloc: Global, writer: &mut W) -> Result<()> {
        write_four(&self.0, &self.1, &self.2, &self.3, alloc, writer)
    }

    #[inline]
    fn put(&self, room: &mut [u8]) -> Option<usize> {
        put_four(&self.0, &self.1, &self.2, &self.3, room)
    }

    #[inline]
    fn encoded_length(&self) -> Option<u32> {
        let rest = joined_length(self.2.encoded_length(), self.3.encoded_length());
        let rest = joined_length(self.1.encoded_length(), rest);
        joined_length(self.0.encoded_length(), rest)
    }
}

impl<
    A: BorshSerialize,
    B: BorshSerialize,
    C: BorshSerialize,
    D: BorshSerialize,
    E: BorshSerialize,
> BorshSerialize for (A, B, C, D, E) {
    #[inline]
    fn serialize<W: Write>(&self, alloc: Global, writer: &mut W) -> Result<()> {
        write_five(&self.0, &self.1, &self.2, &self.3, &self.4, alloc, writer)
    }

    #[inline]
    fn put(&self, room: &mut [u8]) -> Option<usize> {
        put_five(&self.0, &self.1, &self.2, &self.3, &self.4, room)
    }

    #[inline]
    fn encoded_length(&self) -> Option<u32> {
        let rest = joined_length(self.3.encoded_length(), self.4.encoded_length());
        let rest = joined_length(self.2.encoded_length(), rest);
        let rest = joined_length(self.1.encoded_length(), rest);
        joined_length(self.0.encoded_length(), rest)
    }
}

impl<
    A: BorshSerialize,
    B: BorshSerialize,
    C: BorshSerialize,
    D: BorshSerialize,
    E: BorshSerialize,
    F: BorshSerialize,
> BorshSerialize for (A, B, C, D, E, F) {
    #[inline]
    fn serialize<W: Write>(&self, alloc: Global, writer: &mut W) -> Result<()> {
        write_six(
            &self.0, &self.1, &self.2, &self.3, &self.4, &self.5, alloc, writer,
        )
    }

    #[inline]
    fn put(&self, room: &mut [u8]) -> Option<usize> {
        put_six(&self.0, &self.1, &self.2, &self.3, &self.4, &self.5, room)
    }

    #[inline]
    fn encoded_length(&self) -> Option<u32> {
        let rest = joined_length(self.4.encoded_length(), self.5.encoded_length());
        let rest = joined_length(self.3.encoded_length(), rest);
        let rest = joined_length(self.2.encoded_length(), rest);
        let rest = joined_length(self.1.encoded_length(), rest);
        joined_length(self.0.encoded_length(), rest)
    }
}

impl<
    A: BorshSerialize,
    B: BorshSerialize,
    C: BorshSerialize,
    D: BorshSerialize,
    E: BorshSerialize,
    F: BorshSerialize,
    G: BorshSerialize,
> BorshSerialize for (A, B, C, D, E, F, G) {
    #[inline]
    fn serialize<W: Write>(&self, alloc: Global, writer: &mut W) -> Result<()> {
        write_seven(
            &self.0, &self.1, &self.2, &self.3, &self.4, &self.5, &self.6, alloc, writer,
        )
    }

    #[inline]
    fn put(&self, room: &mut [u8]) -> Option<usize> {
        put_seven(
            &self.0, &self.1, &self.2, &self.3, &self.4, &self.5, &self.6, room,
        )
    }

    #[inline]
    fn encoded_length(&self) -> Option<u32> {
        let rest = joined_length(self.5.encoded_length(), self.6.encoded_length());
        let rest = joined_length(self.4.encoded_length(), rest);
        let rest = joined_length(self.3.encoded_length(), rest);
        let rest = joined_length(self.2.encoded_length(), rest);
        let rest = joined_length(self.1.encoded_length(), rest);
        joined_length(self.0.encoded_length(), rest)
    }
}

impl<
    A: BorshSerialize,
    B: BorshSerialize,
    C: BorshSerialize,
    D: BorshSerialize,
    E: BorshSerialize,
    F: BorshSerialize,
    G: BorshSerialize,
    H: BorshSerialize,
> BorshSerialize for (A, B, C, D, E, F, G, H) {
    #[inline]
    fn serialize<W: Write>(&self, alloc: Global, writer: &mut W) -> Result<()> {
        write_eight(
            &self.0, &self.1, &self.2, &self.3, &self.4, &self.5, &self.6, &self.7, alloc, writer,
        )
    }

    #[inline]
    fn put(&self, room: &mut [u8]) -> Option<usize> {
        put_eight(
            &self.0, &self.1, &self.2, &self.3, &self.4, &self.5, &self.6, &self.7, room,
        )
    }

    #[inline]
    fn encoded_length(&self) -> Option<u32> {
        let rest = joined_length(self.6.encoded_length(), self.7.encoded_length());
        let rest = joined_length(self.5.encoded_length(), rest);
        let rest = joined_length(self.4.encoded_length(), rest);
        let rest = joined_length(self.3.encoded_length(), rest);
        let rest = joined_length(self.2.encoded_length(), rest);
        let rest = joined_length(self.1.encoded_length(), rest);
        joined_length(self.0.encoded_length(), rest)
    }
}

impl<
    A: BorshSerialize,
    B: BorshSerialize,
    C: BorshSerialize,
    D: BorshSerialize,
    E: BorshSerialize,
    F: BorshSerialize,
    G: BorshSerialize,
    H: BorshSerialize,
    I: BorshSerialize,
> BorshSerialize for (A, B, C, D, E, F, G, H, I) {
    #[inline]
    fn serialize<W: Write>(&self, alloc: Global, writer: &mut W) -> Result<()> {
        write_nine(
            &self.0, &self.1, &self.2, &self.3, &self.4, &self.5, &self.6, &self.7, &self.8, alloc,
            writer,
        )
    }

    #[inline]
    fn put(&self, room: &mut [u8]) -> Option<usize> {
        put_nine(
            &self.0, &self.1, &self.2, &self.3, &self.4, &self.5, &self.6, &self.7, &self.8, room,
        )
    }

    #[inline]
    fn encoded_length(&self) -> Option<u32> {
        let rest = joined_length(self.7.encoded_length(), self.8.encoded_length());
        let rest = joined_length(self.6.encoded_length(), rest);
        let rest = joined_length(self.5.encoded_length(), rest);
        let rest = joined_length(self.4.encoded_length(), rest);
        let rest = joined_length(self.3.encoded_length(), rest);
        let rest = joined_length(self.2.encoded_length(), rest);
        let rest = joined_length(self.1.encoded_length(), rest);
        joined_length(self.0.encoded_length(), rest)
    }
}

impl<
    A: BorshSerialize,
    B: BorshSerialize,
    C: BorshSerialize,
    D: BorshSerialize,
    E: BorshSerialize,
    F: BorshSerialize,
    G: BorshSerialize,
    H: BorshSerialize,
    I: BorshSerialize,
    J: BorshSerialize,
> BorshSerialize for (A, B, C, D, E, F, G, H, I, J) {
    #[inline]
    fn serialize<W: Write>(&self, alloc: Global, writer: &mut W) -> Result<()> {
        write_ten(
            &self.0, &self.1, &self.2, &self.3, &self.4, &self.5, &self.6, &self.7, &self.8,
            &self.9, alloc, writer,
        )
    }

    #[inline]
    fn put(&self, room: &mut [u8]) -> Option<usize> {
        put_ten(
            &self.0, &self.1, &self.2, &self.3, &self.4, &self.5, &self.6, &self.7, &self.8,
            &self.9, room,
        )
    }

    #[inline]
    fn encoded_length(&self) -> Option<u32> {
        let rest = joined_length(self.8.encoded_length(), self.9.encoded_length());
        let rest = joined_length(self.7.encoded_length(), rest);
        let rest = joined_length(self.6.encoded_length(), rest);
        let rest = joined_length(self.5.encoded_length(), rest);
        let rest = joined_length(self.4.encoded_length(), rest);
        let rest = joined_length(self.3.encoded_length(), rest);
        let rest = joined_length(self.2.encoded_length(), rest);
        let rest = joined_length(self.1.encoded_length(), rest);
        joined_length(self.0.encoded_length(), rest)
    }
}

impl<
    A: BorshSerialize,
    B: BorshSerialize,
    C: BorshSerialize,
    D: BorshSerialize,
    E: BorshSerialize,
    F: BorshSerialize,
    G: BorshSerialize,
    H: BorshSerialize,
    I: BorshSerialize,
    J: BorshSerialize,
    K: BorshSerialize,
> BorshSerialize for (A, B, C, D, E, F, G, H, I, J, K) {
    #[inline]
    fn serialize<W: Write>(&self, alloc: Global, writer: &mut W) -> Result<()> {
        write_eleven(
            &self.0, &self.1, &self.2, &self.3, &self.4, &self.5, &self.6, &self.7, &self.8,
            &self.9, &self.10, alloc, writer,
        )
    }

    #[inline]
    fn put(&self, room: &mut [u8]) -> Option<usize> {
        put_eleven(
            &self.0, &self.1, &self.2, &self.3, &self.4, &self.5, &self.6, &self.7, &self.8,
            &self.9, &self.10, room,
        )
    }

    #[inline]
    fn encoded_length(&self) -> Option<u32> {
        let rest = joined_length(self.9.encoded_length(), self.10.encoded_length());
        let rest = joined_length(self.8.encoded_length(), rest);
        let rest = joined_length(self.7.encoded_length(), rest);
        let rest = joined_length(self.6.encoded_length(), rest);
        let rest = joined_length(self.5.encoded_length(), rest);
        let rest = joined_length(self.4.encoded_length(), rest);
        let rest = joined_length(self.3.encoded_length(), rest);
        let rest = joined_length(self.2.encoded_length(), rest);
        let rest = joined_length(self.1.encoded_length(), rest);
        joined_length(self.0.encoded_length(), rest)
    }
}

impl<
    A: BorshSerialize,
    B: BorshSerialize,
    C: BorshSerialize,
    D: BorshSerialize,
    E: BorshSerialize,
    F: BorshSerialize,
    G: BorshSerialize,
    H: BorshSerialize,
    I: BorshSerialize,
    J: BorshSerialize,
    K: BorshSerialize,
    L: BorshSerialize,
> BorshSerialize for (A, B, C, D, E, F, G, H, I, J, K, L) {
    #[inline]
    fn serialize<W: Write>(&self, alloc: Global, writer: &mut W) -> Result<()> {
        write_twelve(
            &self.0, &self.1, &self.2, &self.3, &self.4, &self.5, &self.6, &self.7, &self.8,
            &self.9, &self.10, &self.11, alloc, writer,
        )
    }

    #[inline]
    fn put(&self, room: &mut [u8]) -> Option<usize> {
        put_twelve(
            &self.0, &self.1, &self.2, &self.3, &self.4, &self.5, &self.6, &self.7, &self.8,
            &self.9, &self.10, &self.11, room,
        )
    }

    #[inline]
    fn encoded_length(&self) -> Option<u32> {
        let rest = joined_length(self.10.encoded_length(), self.11.encoded_length());
        let rest = joined_length(self.9.encoded_length(), rest);
        let rest = joined_length(self.8.encoded_length(), rest);
        let rest = joined_length(self.7.encoded_length(), rest);
        let rest = joined_length(self.6.encoded_length(), rest);
        let rest = joined_length(self.5.encoded_length(), rest);
        let rest = joined_length(self.4.encoded_length(), rest);
        let rest = joined_length(self.3.encoded_length(), rest);
        let rest = joined_length(self.2.encoded_length(), rest);
        let rest = joined_length(self.1.encoded_length(), rest);
        joined_length(self.0.encoded_length(), rest)
    }
}

impl<
    A: BorshSerialize,
    B: BorshSerialize,
    C: BorshSerialize,
    D: BorshSerialize,
    E: BorshSerialize,
    F: BorshSerialize,
    G: BorshSerialize,
    H: BorshSerialize,
    I: BorshSerialize,
    J: BorshSerialize,
    K: BorshSerialize,
    L: BorshSerialize,
    M: BorshSerialize,
> BorshSerialize for (A, B, C, D, E, F, G, H, I, J, K, L, M) {
    #[inline]
    fn serialize<W: Write>(&self, alloc: Global, writer: &mut W) -> Result<()> {
        self.0.serialize(alloc, writer)?;
        write_twelve(
            &self.1, &self.2, &self.3, &self.4, &self.5, &self.6, &self.7, &self.8, &self.9,
            &self.10, &self.11, &self.12, alloc, writer,
        )
    }
}

impl<
    A: BorshSerialize,
    B: BorshSerialize,
    C: BorshSerialize,
    D: BorshSerialize,
    E: BorshSerialize,
    F: BorshSerialize,
    G: BorshSerialize,
    H: BorshSerialize,
    I: BorshSerialize,
    J: BorshSerialize,
    K: BorshSerialize,
    L: BorshSerialize,
    M: BorshSerialize,
    N: BorshSerialize,
> BorshSerialize for (A, B, C, D, E, F, G, H, I, J, K, L, M, N) {
    #[inline]
    fn serialize<W: Write>(&self, alloc: Global, writer: &mut W) -> Result<()> {
        self.0.serialize(alloc, writer)?;
        self.1.serialize(alloc, writer)?;
        write_twelve(
            &self.2, &self.3, &self.4, &self.5, &self.6, &self.7, &self.8, &self.9, &self.10,
            &self.11, &self.12, &self.13, alloc, writer,
        )
    }
}

impl<
    A: BorshSerialize,
    B: BorshSerialize,
    C: BorshSerialize,
    D: BorshSerialize,
    E: BorshSerialize,
    F: BorshSerialize,
    G: BorshSerialize,
    H: BorshSerialize,
    I: BorshSerialize,
    J: BorshSerialize,
    K: BorshSerialize,
    L: BorshSerialize,
    M: BorshSerialize,
    N: BorshSerialize,
    O: BorshSerialize,
> BorshSerialize for (A, B, C, D, E, F, G, H, I, J, K, L, M, N, O) {
    #[inline]
    fn serialize<W: Write>(&self, alloc: Global, writer: &mut W) -> Result<()> {
        self.0.serialize(alloc, writer)?;
        self.1.serialize(alloc, writer)?;
        self.2.serialize(alloc, writer)?;
        write_twelve(
            &self.3, &self.4, &self.5, &self.6, &self.7, &self.8, &self.9, &self.10, &self.11,
            &self.12, &self.13, &self.14, alloc, writer,
        )
    }
}

impl<
    A: BorshSerialize,
    B: BorshSerialize,
    C: BorshSerialize,
    D: BorshSerialize,
    E: BorshSerialize,
    F: BorshSerialize,
    G: BorshSerialize,
    H: BorshSerialize,
    I: BorshSerialize,
    J: BorshSerialize,
    K: BorshSerialize,
    L: BorshSerialize,
    M: BorshSerialize,
    N: BorshSerialize,
    O: BorshSerialize,
    P: BorshSerialize,
> BorshSerialize for (A, B, C, D, E, F, G, H, I, J, K, L, M, N, O, P) {
    #[inline]
    fn serialize<W: Write>(&self, alloc: Global, writer: &mut W) -> Result<()> {
        self.0.serialize(alloc, writer)?;
        self.1.serialize(alloc, writer)?;
        self.2.serialize(alloc, writer)?;
        self.3.serialize(alloc, writer)?;
        write_twelve(
            &self.4, &self.5, &self.6, &self.7, &self.8, &self.9, &self.10, &self.11, &self.12,
            &self.13, &self.14, &self.15, alloc, writer,
        )
    }
}

impl<
    A: BorshSerialize,
    B: BorshSerialize,
    C: BorshSerialize,
    D: BorshSerialize,
    E: BorshSerialize,
    F: BorshSerialize,
    G: BorshSerialize,
    H: BorshSerialize,
    I: BorshSerialize,
    J: BorshSerialize,
    K: BorshSerialize,
    L: BorshSerialize,
    M: BorshSerialize,
    N: BorshSerialize,
    O: BorshSerialize,
    P: BorshSerialize,
    Q: BorshSerialize,
> BorshSerialize for (A, B, C, D, E, F, G, H, I, J, K, L, M, N, O, P, Q) {
    #[inline]
    fn serialize<W: Write>(&self, alloc: Global, writer: &mut W) -> Result<()> {
        self.0.serialize(alloc, writer)?;
        self.1.serialize(alloc, writer)?;
        self.2.serialize(alloc, writer)?;
        self.3.serialize(alloc, writer)?;
        self.4.serialize(alloc, writer)?;
        write_twelve(
            &self.5, &self.6, &self.7, &self.8, &self.9, &self.10, &self.11, &self.12, &self.13,
            &self.14, &self.15, &self.16, alloc, writer,
        )
    }
}

impl<
    A: BorshSerialize,
    B: BorshSerialize,
    C: BorshSerialize,
    D: BorshSerialize,
    E: BorshSerialize,
    F: BorshSerialize,
    G: BorshSerialize,
    H: BorshSerialize,
    I: BorshSerialize,
    J: BorshSerialize,
    K: BorshSerialize,
    L: BorshSerialize,
    M: BorshSerialize,
    N: BorshSerialize,
    O: BorshSerialize,
    P: BorshSerialize,
    Q: BorshSerialize,
    S: BorshSerialize,
> BorshSerialize for (A, B, C, D, E, F, G, H, I, J, K, L, M, N, O, P, Q, S) {
    #[inline]
    fn serialize<W: Write>(&self, alloc: Global, writer: &mut W) -> Result<()> {
        self.0.serialize(alloc, writer)?;
        self.1.serialize(alloc, writer)?;
        self.2.serialize(alloc, writer)?;
        self.3.serialize(alloc, writer)?;
        self.4.serialize(alloc, writer)?;
        self.5.serialize(alloc, writer)?;
        write_twelve(
            &self.6, &self.7, &self.8, &self.9, &self.10, &self.11, &self.12, &self.13, &self.14,
            &self.15, &self.16, &self.17, alloc, writer,
        )
    }
}

impl<
    A: BorshSerialize,
    B: BorshSerialize,
    C: BorshSerialize,
    D: BorshSerialize,
    E: BorshSerialize,
    F: BorshSerialize,
    G: BorshSerialize,
    H: BorshSerialize,
    I: BorshSerialize,
    J: BorshSerialize,
    K: BorshSerialize,
    L: BorshSerialize,
    M: BorshSerialize,
    N: BorshSerialize,
    O: BorshSerialize,
    P: BorshSerialize,
    Q: BorshSerialize,
    S: BorshSerialize,
    T: BorshSerialize,
> BorshSerialize for (A, B, C, D, E, F, G, H, I, J, K, L, M, N, O, P, Q, S, T) {
    #[inline]
    fn serialize<W: Write>(&self, alloc: Global, writer: &mut W) -> Result<()> {
        self.0.serialize(alloc, writer)?;
        self.1.serialize(alloc, writer)?;
        self.2.serialize(alloc, writer)?;
        self.3.serialize(alloc, writer)?;
        self.4.serialize(alloc, writer)?;
        self.5.serialize(alloc, writer)?;
        self.6.serialize(alloc, writer)?;
        write_twelve(
            &self.7, &self.8, &self.9, &self.10, &self.11, &self.12, &self.13, &self.14, &self.15,
            &self.16, &self.17, &self.18, alloc, writer,
        )
    }
}

impl<
    A: BorshSerialize,
    B: BorshSerialize,
    C: BorshSerialize,
    D: BorshSerialize,
    E: BorshSerialize,
    F: BorshSerialize,
    G: BorshSerialize,
    H: BorshSerialize,
    I: BorshSerialize,
    J: BorshSerialize,
    K: BorshSerialize,
    L: BorshSerialize,
    M: BorshSerialize,
    N: BorshSerialize,
    O: BorshSerialize,
    P: BorshSerialize,
    Q: BorshSerialize,
    S: BorshSerialize,
    T: BorshSerialize,
    U: BorshSerialize,
> BorshSerialize for (A, B, C, D, E, F, G, H, I, J, K, L, M, N, O, P, Q, S, T, U) {
    #[inline]
    fn serialize<W: Write>(&self, alloc: Global, writer: &mut W) -> Result<()> {
        self.0.serialize(alloc, writer)?;
        self.1.serialize(alloc, writer)?;
        self.2.serialize(alloc, writer)?;
        self.3.serialize(alloc, writer)?;
        self.4.serialize(alloc, writer)?;
        self.5.serialize(alloc, writer)?;
        self.6.serialize(alloc, writer)?;
        self.7.serialize(alloc, writer)?;
        write_twelve(
            &self.8, &self.9, &self.10, &self.11, &self.12, &self.13, &self.14, &self.15, &self.16,
            &self.17, &self.18, &self.19, alloc, writer,
        )
    }
}
