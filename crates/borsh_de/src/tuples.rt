// Tuples of one to twenty places: their parts in order.
use super::deserialize::BorshDeserialize;
use super::fixed::both_widths;
use borsh_io::{Read, Result};
use std::alloc::Global;

impl<A: BorshDeserialize> BorshDeserialize for (A,) {
    #[inline]
    fn deserialize_reader<R: Read>(alloc: Global, reader: &mut R) -> Result<(A,)> {
        let a = A::deserialize_reader(alloc, reader)?;
        Ok((a,))
    }

    #[inline]
    fn width() -> usize {
        A::width()
    }
}

impl<A: BorshDeserialize, B: BorshDeserialize> BorshDeserialize for (A, B) {
    #[inline]
    fn deserialize_reader<R: Read>(alloc: Global, reader: &mut R) -> Result<(A, B)> {
        let a = A::deserialize_reader(alloc, reader)?;
        let b = B::deserialize_reader(alloc, reader)?;
        Ok((a, b))
    }

    #[inline]
    fn width() -> usize {
        both_widths(A::width(), B::width())
    }
}

impl<A: BorshDeserialize, B: BorshDeserialize, C: BorshDeserialize> BorshDeserialize for (A, B, C) {
    #[inline]
    fn deserialize_reader<R: Read>(alloc: Global, reader: &mut R) -> Result<(A, B, C)> {
        let a = A::deserialize_reader(alloc, reader)?;
        let b = B::deserialize_reader(alloc, reader)?;
        let c = C::deserialize_reader(alloc, reader)?;
        Ok((a, b, c))
    }

    #[inline]
    fn width() -> usize {
        <(A, (B, C))>::width()
    }
}

impl<
    A: BorshDeserialize,
    B: BorshDeserialize,
    C: BorshDeserialize,
    D: BorshDeserialize,
> BorshDeserialize for (A, B, C, D) {
    #[inline]
    fn deserialize_reader<R: Read>(alloc: Global, reader: &mut R) -> Result<(A, B, C, D)> {
        let a = A::deserialize_reader(alloc, reader)?;
        let b = B::deserialize_reader(alloc, reader)?;
        let c = C::deserialize_reader(alloc, reader)?;
        let d = D::deserialize_reader(alloc, reader)?;
        Ok((a, b, c, d))
    }

    #[inline]
    fn width() -> usize {
        <(A, (B, C, D))>::width()
    }
}

impl<
    A: BorshDeserialize,
    B: BorshDeserialize,
    C: BorshDeserialize,
    D: BorshDeserialize,
    E: BorshDeserialize,
> BorshDeserialize for (A, B, C, D, E) {
    #[inline]
    fn deserialize_reader<R: Read>(alloc: Global, reader: &mut R) -> Result<(A, B, C, D, E)> {
        let (a, b, c, (d, e)) = <(A, B, C, (D, E))>::deserialize_reader(alloc, reader)?;
        Ok((a, b, c, d, e))
    }

    #[inline]
    fn width() -> usize {
        <(A, (B, C, D, E))>::width()
    }
}

impl<
    A: BorshDeserialize,
    B: BorshDeserialize,
    C: BorshDeserialize,
    D: BorshDeserialize,
    E: BorshDeserialize,
    F: BorshDeserialize,
> BorshDeserialize for (A, B, C, D, E, F) {
    #[inline]
    fn deserialize_reader<R: Read>(alloc: Global, reader: &mut R) -> Result<(A, B, C, D, E, F)> {
        let (a, b, c, (d, e, f)) = <(A, B, C, (D, E, F))>::deserialize_reader(alloc, reader)?;
        Ok((a, b, c, d, e, f))
    }

    #[inline]
    fn width() -> usize {
        <(A, (B, C, D, E, F))>::width()
    }
}

impl<
    A: BorshDeserialize,
    B: BorshDeserialize,
    C: BorshDeserialize,
    D: BorshDeserialize,
    E: BorshDeserialize,
    F: BorshDeserialize,
    G: BorshDeserialize,
> BorshDeserialize for (A, B, C, D, E, F, G) {
    #[inline]
    fn deserialize_reader<R: Read>(alloc: Global, reader: &mut R) -> Result<(A, B, C, D, E, F, G)> {
        let (a, b, c, (d, e, f, g)) = <(A, B, C, (D, E, F, G))>::deserialize_reader(alloc, reader)?;
        Ok((a, b, c, d, e, f, g))
    }

    #[inline]
    fn width() -> usize {
        <(A, (B, C, D, E, F, G))>::width()
    }
}

impl<
    A: BorshDeserialize,
    B: BorshDeserialize,
    C: BorshDeserialize,
    D: BorshDeserialize,
    E: BorshDeserialize,
    F: BorshDeserialize,
    G: BorshDeserialize,
    H: BorshDeserialize,
> BorshDeserialize for (A, B, C, D, E, F, G, H) {
    #[inline]
    fn deserialize_reader<R: Read>(
        alloc: Global,
        reader: &mut R,
    ) -> Result<(A, B, C, D, E, F, G, H)> {
        let (a, b, c, (d, e, f, g, h)) = <(A, B, C, (D, E, F, G, H))>::deserialize_reader(
            alloc, reader,
        )?;
        Ok((a, b, c, d, e, f, g, h))
    }

    #[inline]
    fn width() -> usize {
        <(A, (B, C, D, E, F, G, H))>::width()
    }
}

impl<
    A: BorshDeserialize,
    B: BorshDeserialize,
    C: BorshDeserialize,
    D: BorshDeserialize,
    E: BorshDeserialize,
    F: BorshDeserialize,
    G: BorshDeserialize,
    H: BorshDeserialize,
    I: BorshDeserialize,
> BorshDeserialize for (A, B, C, D, E, F, G, H, I) {
    #[inline]
    fn deserialize_reader<R: Read>(
        alloc: Global,
        reader: &mut R,
    ) -> Result<(A, B, C, D, E, F, G, H, I)> {
        let (a, b, c, (d, e, f, g, h, i)) = <(A, B, C, (D, E, F, G, H, I))>::deserialize_reader(
            alloc, reader,
        )?;
        Ok((a, b, c, d, e, f, g, h, i))
    }

    #[inline]
    fn width() -> usize {
        <(A, (B, C, D, E, F, G, H, I))>::width()
    }
}

impl<
    A: BorshDeserialize,
    B: BorshDeserialize,
    C: BorshDeserialize,
    D: BorshDeserialize,
    E: BorshDeserialize,
    F: BorshDeserialize,
    G: BorshDeserialize,
    H: BorshDeserialize,
    I: BorshDeserialize,
    J: BorshDeserialize,
> BorshDeserialize for (A, B, C, D, E, F, G, H, I, J) {
    #[inline]
    fn deserialize_reader<R: Read>(
        alloc: Global,
        reader: &mut R,
    ) -> Result<(A, B, C, D, E, F, G, H, I, J)> {
        let (a, b, c, (d, e, f, g, h, i, j)) = <(
            A,
            B,
            C,
            (D, E, F, G, H, I, J),
        )>::deserialize_reader(alloc, reader)?;
        Ok((a, b, c, d, e, f, g, h, i, j))
    }

    #[inline]
    fn width() -> usize {
        <(A, (B, C, D, E, F, G, H, I, J))>::width()
    }
}

impl<
    A: BorshDeserialize,
    B: BorshDeserialize,
    C: BorshDeserialize,
    D: BorshDeserialize,
    E: BorshDeserialize,
    F: BorshDeserialize,
    G: BorshDeserialize,
    H: BorshDeserialize,
    I: BorshDeserialize,
    J: BorshDeserialize,
    K: BorshDeserialize,
> BorshDeserialize for (A, B, C, D, E, F, G, H, I, J, K) {
    #[inline]
    fn deserialize_reader<R: Read>(
        alloc: Global,
        reader: &mut R,
    ) -> Result<(A, B, C, D, E, F, G, H, I, J, K)> {
        let (a, b, c, (d, e, f, g, h, i, j, k)) = <(
            A,
            B,
            C,
            (D, E, F, G, H, I, J, K),
        )>::deserialize_reader(alloc, reader)?;
        Ok((a, b, c, d, e, f, g, h, i, j, k))
    }

    #[inline]
    fn width() -> usize {
        <(A, (B, C, D, E, F, G, H, I, J, K))>::width()
    }
}

impl<
    A: BorshDeserialize,
    B: BorshDeserialize,
    C: BorshDeserialize,
    D: BorshDeserialize,
    E: BorshDeserialize,
    F: BorshDeserialize,
    G: BorshDeserialize,
    H: BorshDeserialize,
    I: BorshDeserialize,
    J: BorshDeserialize,
    K: BorshDeserialize,
    L: BorshDeserialize,
> BorshDeserialize for (A, B, C, D, E, F, G, H, I, J, K, L) {
    #[inline]
    fn deserialize_reader<R: Read>(
        alloc: Global,
        reader: &mut R,
    ) -> Result<(A, B, C, D, E, F, G, H, I, J, K, L)> {
        let (a, b, c, (d, e, f, g, h, i, j, k, l)) = <(
            A,
            B,
            C,
            (D, E, F, G, H, I, J, K, L),
        )>::deserialize_reader(alloc, reader)?;
        Ok((a, b, c, d, e, f, g, h, i, j, k, l))
    }

    #[inline]
    fn width() -> usize {
        <(A, (B, C, D, E, F, G, H, I, J, K, L))>::width()
    }
}

impl<
    A: BorshDeserialize,
    B: BorshDeserialize,
    C: BorshDeserialize,
    D: BorshDeserialize,
    E: BorshDeserialize,
    F: BorshDeserialize,
    G: BorshDeserialize,
    H: BorshDeserialize,
    I: BorshDeserialize,
    J: BorshDeserialize,
    K: BorshDeserialize,
    L: BorshDeserialize,
    M: BorshDeserialize,
> BorshDeserialize for (A, B, C, D, E, F, G, H, I, J, K, L, M) {
    #[inline]
    fn deserialize_reader<R: Read>(
        alloc: Global,
        reader: &mut R,
    ) -> Result<(A, B, C, D, E, F, G, H, I, J, K, L, M)> {
        let (a, b, c, (d, e, f, g, h, i, j, k, l, m)) = <(
            A,
            B,
            C,
            (D, E, F, G, H, I, J, K, L, M),
        )>::deserialize_reader(alloc, reader)?;
        Ok((a, b, c, d, e, f, g, h, i, j, k, l, m))
    }
}

impl<
    A: BorshDeserialize,
    B: BorshDeserialize,
    C: BorshDeserialize,
    D: BorshDeserialize,
    E: BorshDeserialize,
    F: BorshDeserialize,
    G: BorshDeserialize,
    H: BorshDeserialize,
    I: BorshDeserialize,
    J: BorshDeserialize,
    K: BorshDeserialize,
    L: BorshDeserialize,
    M: BorshDeserialize,
    N: BorshDeserialize,
> BorshDeserialize for (A, B, C, D, E, F, G, H, I, J, K, L, M, N) {
    #[inline]
    fn deserialize_reader<R: Read>(
        alloc: Global,
        reader: &mut R,
    ) -> Result<(A, B, C, D, E, F, G, H, I, J, K, L, M, N)> {
        let (a, b, c, (d, e, f, g, h, i, j, k, l, m, n)) = <(
            A,
            B,
            C,
            (D, E, F, G, H, I, J, K, L, M, N),
        )>::deserialize_reader(alloc, reader)?;
        Ok((a, b, c, d, e, f, g, h, i, j, k, l, m, n))
    }
}

impl<
    A: BorshDeserialize,
    B: BorshDeserialize,
    C: BorshDeserialize,
    D: BorshDeserialize,
    E: BorshDeserialize,
    F: BorshDeserialize,
    G: BorshDeserialize,
    H: BorshDeserialize,
    I: BorshDeserialize,
    J: BorshDeserialize,
    K: BorshDeserialize,
    L: BorshDeserialize,
    M: BorshDeserialize,
    N: BorshDeserialize,
    O: BorshDeserialize,
> BorshDeserialize for (A, B, C, D, E, F, G, H, I, J, K, L, M, N, O) {
    #[inline]
    fn deserialize_reader<R: Read>(
        alloc: Global,
        reader: &mut R,
    ) -> Result<(A, B, C, D, E, F, G, H, I, J, K, L, M, N, O)> {
        let (a, b, c, (d, e, f, g, h, i, j, k, l, m, n, o)) = <(
            A,
            B,
            C,
            (D, E, F, G, H, I, J, K, L, M, N, O),
        )>::deserialize_reader(alloc, reader)?;
        Ok((a, b, c, d, e, f, g, h, i, j, k, l, m, n, o))
    }
}

impl<
    A: BorshDeserialize,
    B: BorshDeserialize,
    C: BorshDeserialize,
    D: BorshDeserialize,
    E: BorshDeserialize,
    F: BorshDeserialize,
    G: BorshDeserialize,
    H: BorshDeserialize,
    I: BorshDeserialize,
    J: BorshDeserialize,
    K: BorshDeserialize,
    L: BorshDeserialize,
    M: BorshDeserialize,
    N: BorshDeserialize,
    O: BorshDeserialize,
    P: BorshDeserialize,
> BorshDeserialize for (A, B, C, D, E, F, G, H, I, J, K, L, M, N, O, P) {
    #[inline]
    fn deserialize_reader<R: Read>(
        alloc: Global,
        reader: &mut R,
    ) -> Result<(A, B, C, D, E, F, G, H, I, J, K, L, M, N, O, P)> {
        let (a, b, c, (d, e, f, g, h, i, j, k, l, m, n, o, p)) = <(
            A,
            B,
            C,
            (D, E, F, G, H, I, J, K, L, M, N, O, P),
        )>::deserialize_reader(alloc, reader)?;
        Ok((a, b, c, d, e, f, g, h, i, j, k, l, m, n, o, p))
    }
}

impl<
    A: BorshDeserialize,
    B: BorshDeserialize,
    C: BorshDeserialize,
    D: BorshDeserialize,
    E: BorshDeserialize,
    F: BorshDeserialize,
    G: BorshDeserialize,
    H: BorshDeserialize,
    I: BorshDeserialize,
    J: BorshDeserialize,
    K: BorshDeserialize,
    L: BorshDeserialize,
    M: BorshDeserialize,
    N: BorshDeserialize,
    O: BorshDeserialize,
    P: BorshDeserialize,
    Q: BorshDeserialize,
> BorshDeserialize for (A, B, C, D, E, F, G, H, I, J, K, L, M, N, O, P, Q) {
    #[inline]
    fn deserialize_reader<R: Read>(
        alloc: Global,
        reader: &mut R,
    ) -> Result<(A, B, C, D, E, F, G, H, I, J, K, L, M, N, O, P, Q)> {
        let (a, b, c, (d, e, f, g, h, i, j, k, l, m, n, o, p, q)) = <(
            A,
            B,
            C,
            (D, E, F, G, H, I, J, K, L, M, N, O, P, Q),
        )>::deserialize_reader(alloc, reader)?;
        Ok((a, b, c, d, e, f, g, h, i, j, k, l, m, n, o, p, q))
    }
}

impl<
    A: BorshDeserialize,
    B: BorshDeserialize,
    C: BorshDeserialize,
    D: BorshDeserialize,
    E: BorshDeserialize,
    F: BorshDeserialize,
    G: BorshDeserialize,
    H: BorshDeserialize,
    I: BorshDeserialize,
    J: BorshDeserialize,
    K: BorshDeserialize,
    L: BorshDeserialize,
    M: BorshDeserialize,
    N: BorshDeserialize,
    O: BorshDeserialize,
    P: BorshDeserialize,
    Q: BorshDeserialize,
    S: BorshDeserialize,
> BorshDeserialize for (A, B, C, D, E, F, G, H, I, J, K, L, M, N, O, P, Q, S) {
    #[inline]
    fn deserialize_reader<R: Read>(
        alloc: Global,
        reader: &mut R,
    ) -> Result<(A, B, C, D, E, F, G, H, I, J, K, L, M, N, O, P, Q, S)> {
        let (a, b, c, (d, e, f, g, h, i, j, k, l, m, n, o, p, q, s)) = <(
            A,
            B,
            C,
            (D, E, F, G, H, I, J, K, L, M, N, O, P, Q, S),
        )>::deserialize_reader(alloc, reader)?;
        Ok((a, b, c, d, e, f, g, h, i, j, k, l, m, n, o, p, q, s))
    }
}

impl<
    A: BorshDeserialize,
    B: BorshDeserialize,
    C: BorshDeserialize,
    D: BorshDeserialize,
    E: BorshDeserialize,
    F: BorshDeserialize,
    G: BorshDeserialize,
    H: BorshDeserialize,
    I: BorshDeserialize,
    J: BorshDeserialize,
    K: BorshDeserialize,
    L: BorshDeserialize,
    M: BorshDeserialize,
    N: BorshDeserialize,
    O: BorshDeserialize,
    P: BorshDeserialize,
    Q: BorshDeserialize,
    S: BorshDeserialize,
    T: BorshDeserialize,
> BorshDeserialize for (A, B, C, D, E, F, G, H, I, J, K, L, M, N, O, P, Q, S, T) {
    #[inline]
    fn deserialize_reader<R: Read>(
        alloc: Global,
        reader: &mut R,
    ) -> Result<(A, B, C, D, E, F, G, H, I, J, K, L, M, N, O, P, Q, S, T)> {
        let (a, b, c, (d, e, f, g, h, i, j, k, l, m, n, o, p, q, s, t)) = <(
            A,
            B,
            C,
            (D, E, F, G, H, I, J, K, L, M, N, O, P, Q, S, T),
        )>::deserialize_reader(alloc, reader)?;
        Ok((a, b, c, d, e, f, g, h, i, j, k, l, m, n, o, p, q, s, t))
    }
}

impl<
    A: BorshDeserialize,
    B: BorshDeserialize,
    C: BorshDeserialize,
    D: BorshDeserialize,
    E: BorshDeserialize,
    F: BorshDeserialize,
    G: BorshDeserialize,
    H: BorshDeserialize,
    I: BorshDeserialize,
    J: BorshDeserialize,
    K: BorshDeserialize,
    L: BorshDeserialize,
    M: BorshDeserialize,
    N: BorshDeserialize,
    O: BorshDeserialize,
    P: BorshDeserialize,
    Q: BorshDeserialize,
    S: BorshDeserialize,
    T: BorshDeserialize,
    U: BorshDeserialize,
> BorshDeserialize for (A, B, C, D, E, F, G, H, I, J, K, L, M, N, O, P, Q, S, T, U) {
    #[inline]
    fn deserialize_reader<R: Read>(
        alloc: Global,
        reader: &mut R,
    ) -> Result<(A, B, C, D, E, F, G, H, I, J, K, L, M, N, O, P, Q, S, T, U)> {
        let (a, b, c, (d, e, f, g, h, i, j, k, l, m, n, o, p, q, s, t, u)) = <(
            A,
            B,
            C,
            (D, E, F, G, H, I, J, K, L, M, N, O, P, Q, S, T, U),
        )>::deserialize_reader(alloc, reader)?;
        Ok((a, b, c, d, e, f, g, h, i, j, k, l, m, n, o, p, q, s, t, u))
    }
}
