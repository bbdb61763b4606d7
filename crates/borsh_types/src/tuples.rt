// Tuples of one to twenty places: their parts in order.
ghost use Rattle.borsh_codec.specs.Shapes.{contramap, pair};
ghost use Rattle.borsh_codec.proofs.Laws.Exact.{contramap-lawful};
ghost use Rattle.borsh_codec.proofs.Laws.Pairs.{pair-lawful};
ghost use Rattle.borsh_codec.proofs.Laws.Conditional.{both, from, from_two};

use super::types::BorshType;

impl<A: BorshType> BorshType for (A,) {
    ghost codec = { contramap (λ t. t.0) A.codec };

    ghost lawful_if = { from (contramap-lawful (λ t. t.0)) A.lawful_if };

    ghost premises = { A.premises };

    fn encodes_empty() -> bool {
        A::encodes_empty()
    }

    fn element_size() -> usize {
        A::element_size()
    }
}

impl<A: BorshType, B: BorshType> BorshType for (A, B) {
    ghost codec = { pair A.codec B.codec };

    ghost lawful_if = { from_two pair-lawful A.lawful_if B.lawful_if };

    ghost premises = { (A.premises, B.premises) };

    fn encodes_empty() -> bool {
        A::encodes_empty() && B::encodes_empty()
    }

    fn element_size() -> usize {
        A::element_size().saturating_add(B::element_size())
    }
}

impl<A: BorshType, B: BorshType, C: BorshType> BorshType for (A, B, C) {
    ghost codec = { contramap
        (λ t. (t.0, (t.1, t.2)))
        ⟦<(A, (B, C)) as BorshType>⟧.codec };

    ghost lawful_if = { from
        (contramap-lawful (λ t. (t.0, (t.1, t.2))))
        ⟦<(A, (B, C)) as BorshType>⟧.lawful_if };

    ghost premises = { both A.premises (both B.premises C.premises) };

    fn encodes_empty() -> bool {
        <(A, (B, C))>::encodes_empty()
    }

    fn element_size() -> usize {
        <(A, (B, C))>::element_size()
    }
}

impl<A: BorshType, B: BorshType, C: BorshType, D: BorshType> BorshType for (A, B, C, D) {
    ghost codec = { contramap
        (λ t. (t.0, (t.1, (t.2, t.3))))
        ⟦<(A, (B, (C, D))) as BorshType>⟧.codec };

    ghost lawful_if = { from
        (contramap-lawful (λ t. (t.0, (t.1, (t.2, t.3)))))
        ⟦<(A, (B, (C, D))) as BorshType>⟧.lawful_if };

    ghost premises = { both A.premises (both B.premises (both C.premises D.premises)) };

    fn encodes_empty() -> bool {
        <(A, (B, C, D))>::encodes_empty()
    }

    fn element_size() -> usize {
        <(A, (B, C, D))>::element_size()
    }
}

impl<A: BorshType, B: BorshType, C: BorshType, D: BorshType, E: BorshType> BorshType
    for (A, B, C, D, E) {
    ghost codec = { contramap
        (λ t. (t.0, (t.1, (t.2, (t.3, t.4)))))
        ⟦<(A, (B, (C, (D, E)))) as BorshType>⟧.codec };

    ghost lawful_if = { from
        (contramap-lawful (λ t. (t.0, (t.1, (t.2, (t.3, t.4))))))
        ⟦<(A, (B, (C, (D, E)))) as BorshType>⟧.lawful_if };

    ghost premises = { both A.premises (both B.premises (both C.premises (both D.premises
        E.premises))) };

    fn encodes_empty() -> bool {
        <(A, (B, C, D, E))>::encodes_empty()
    }

    fn element_size() -> usize {
        <(A, (B, C, D, E))>::element_size()
    }
}

impl<A: BorshType, B: BorshType, C: BorshType, D: BorshType, E: BorshType, F: BorshType> BorshType
    for (A, B, C, D, E, F) {
    ghost codec = { contramap
        (λ t. (t.0, (t.1, (t.2, (t.3, (t.4, t.5))))))
        ⟦<(A, (B, (C, (D, (E, F))))) as BorshType>⟧.codec };

    ghost lawful_if = { from
        (contramap-lawful (λ t. (t.0, (t.1, (t.2, (t.3, (t.4, t.5)))))))
        ⟦<(A, (B, (C, (D, (E, F))))) as BorshType>⟧.lawful_if };

    ghost premises = { both A.premises (both B.premises (both C.premises (both D.premises
        (both E.premises F.premises)))) };

    fn encodes_empty() -> bool {
        <(A, (B, C, D, E, F))>::encodes_empty()
    }

    fn element_size() -> usize {
        <(A, (B, C, D, E, F))>::element_size()
    }
}

impl<
    A: BorshType,
    B: BorshType,
    C: BorshType,
    D: BorshType,
    E: BorshType,
    F: BorshType,
    G: BorshType,
> BorshType for (A, B, C, D, E, F, G) {
    ghost codec = { contramap
        (λ t. (t.0, (t.1, (t.2, (t.3, (t.4, (t.5, t.6)))))))
        ⟦<(A, (B, (C, (D, (E, (F, G)))))) as BorshType>⟧.codec };

    ghost lawful_if = { from
        (contramap-lawful (λ t. (t.0, (t.1, (t.2, (t.3, (t.4, (t.5, t.6))))))))
        ⟦<(A, (B, (C, (D, (E, (F, G)))))) as BorshType>⟧.lawful_if };

    ghost premises = { both A.premises (both B.premises (both C.premises (both D.premises
        (both E.premises (both F.premises G.premises))))) };

    fn encodes_empty() -> bool {
        <(A, (B, C, D, E, F, G))>::encodes_empty()
    }

    fn element_size() -> usize {
        <(A, (B, C, D, E, F, G))>::element_size()
    }
}

impl<
    A: BorshType,
    B: BorshType,
    C: BorshType,
    D: BorshType,
    E: BorshType,
    F: BorshType,
    G: BorshType,
    H: BorshType,
> BorshType for (A, B, C, D, E, F, G, H) {
    ghost codec = { contramap
        (λ t. (t.0, (t.1, (t.2, (t.3, (t.4, (t.5, (t.6, t.7))))))))
        ⟦<(A, (B, (C, (D, (E, (F, (G, H))))))) as BorshType>⟧.codec };

    ghost lawful_if = { from
        (contramap-lawful (λ t. (t.0, (t.1, (t.2, (t.3, (t.4, (t.5, (t.6, t.7)))))))))
        ⟦<(A, (B, (C, (D, (E, (F, (G, H))))))) as BorshType>⟧.lawful_if };

    ghost premises = { both A.premises (both B.premises (both C.premises (both D.premises
        (both E.premises (both F.premises (both G.premises H.premises)))))) };

    fn encodes_empty() -> bool {
        <(A, (B, C, D, E, F, G, H))>::encodes_empty()
    }

    fn element_size() -> usize {
        <(A, (B, C, D, E, F, G, H))>::element_size()
    }
}

impl<
    A: BorshType,
    B: BorshType,
    C: BorshType,
    D: BorshType,
    E: BorshType,
    F: BorshType,
    G: BorshType,
    H: BorshType,
    I: BorshType,
> BorshType for (A, B, C, D, E, F, G, H, I) {
    ghost codec = { contramap
        (λ t. (t.0, (t.1, (t.2, (t.3, (t.4, (t.5, (t.6, (t.7, t.8)))))))))
        ⟦<(A, (B, (C, (D, (E, (F, (G, (H, I)))))))) as BorshType>⟧.codec };

    ghost lawful_if = { from
        (contramap-lawful (λ t. (t.0, (t.1, (t.2, (t.3, (t.4, (t.5, (t.6, (t.7, t.8))))))))))
        ⟦<(A, (B, (C, (D, (E, (F, (G, (H, I)))))))) as BorshType>⟧.lawful_if };

    ghost premises = { both A.premises (both B.premises (both C.premises (both D.premises
        (both E.premises (both F.premises (both G.premises (both H.premises I.premises))))))) };

    fn encodes_empty() -> bool {
        <(A, (B, C, D, E, F, G, H, I))>::encodes_empty()
    }

    fn element_size() -> usize {
        <(A, (B, C, D, E, F, G, H, I))>::element_size()
    }
}

impl<
    A: BorshType,
    B: BorshType,
    C: BorshType,
    D: BorshType,
    E: BorshType,
    F: BorshType,
    G: BorshType,
    H: BorshType,
    I: BorshType,
    J: BorshType,
> BorshType for (A, B, C, D, E, F, G, H, I, J) {
    ghost codec = { contramap
        (λ t. (t.0, (t.1, (t.2, (t.3, (t.4, (t.5, (t.6, (t.7, (t.8, t.9))))))))))
        ⟦<(A, (B, (C, (D, (E, (F, (G, (H, (I, J))))))))) as BorshType>⟧.codec };

    ghost lawful_if = { from
        (contramap-lawful (λ t. (t.0, (t.1, (t.2, (t.3, (t.4, (t.5, (t.6, (t.7, (t.8, t.9)))))))))))
        ⟦<(A, (B, (C, (D, (E, (F, (G, (H, (I, J))))))))) as BorshType>⟧.lawful_if };

    ghost premises = { both A.premises (both B.premises (both C.premises (both D.premises
        (both E.premises (both F.premises (both G.premises (both H.premises (both I.premises
        J.premises)))))))) };

    fn encodes_empty() -> bool {
        <(A, (B, C, D, E, F, G, H, I, J))>::encodes_empty()
    }

    fn element_size() -> usize {
        <(A, (B, C, D, E, F, G, H, I, J))>::element_size()
    }
}

impl<
    A: BorshType,
    B: BorshType,
    C: BorshType,
    D: BorshType,
    E: BorshType,
    F: BorshType,
    G: BorshType,
    H: BorshType,
    I: BorshType,
    J: BorshType,
    K: BorshType,
> BorshType for (A, B, C, D, E, F, G, H, I, J, K) {
    ghost codec = { contramap
        (λ t. (t.0, (t.1, (t.2, (t.3, (t.4, (t.5, (t.6, (t.7, (t.8, (t.9, t.10)))))))))))
        ⟦<(A, (B, (C, (D, (E, (F, (G, (H, (I, (J, K)))))))))) as BorshType>⟧.codec };

    ghost lawful_if = { from
        (contramap-lawful (λ t. (t.0, (t.1, (t.2, (t.3, (t.4, (t.5, (t.6, (t.7, (t.8, (t.9, t.10))))))))))))
        ⟦<(A, (B, (C, (D, (E, (F, (G, (H, (I, (J, K)))))))))) as BorshType>⟧.lawful_if };

    ghost premises = { both A.premises (both B.premises (both C.premises (both D.premises
        (both E.premises (both F.premises (both G.premises (both H.premises (both I.premises
        (both J.premises K.premises))))))))) };

    fn encodes_empty() -> bool {
        <(A, (B, C, D, E, F, G, H, I, J, K))>::encodes_empty()
    }

    fn element_size() -> usize {
        <(A, (B, C, D, E, F, G, H, I, J, K))>::element_size()
    }
}

impl<
    A: BorshType,
    B: BorshType,
    C: BorshType,
    D: BorshType,
    E: BorshType,
    F: BorshType,
    G: BorshType,
    H: BorshType,
    I: BorshType,
    J: BorshType,
    K: BorshType,
    L: BorshType,
> BorshType for (A, B, C, D, E, F, G, H, I, J, K, L) {
    ghost codec = { contramap
        (λ t. (t.0, (t.1, (t.2, (t.3, (t.4, (t.5, (t.6, (t.7, (t.8, (t.9, (t.10, t.11))))))))))))
        ⟦<(A, (B, (C, (D, (E, (F, (G, (H, (I, (J, (K, L))))))))))) as BorshType>⟧.codec };

    ghost lawful_if = { from
        (contramap-lawful (λ t. (t.0, (t.1, (t.2, (t.3, (t.4, (t.5, (t.6, (t.7, (t.8, (t.9, (t.10, t.11)))))))))))))
        ⟦<(A, (B, (C, (D, (E, (F, (G, (H, (I, (J, (K, L))))))))))) as BorshType>⟧.lawful_if };

    ghost premises = { both A.premises (both B.premises (both C.premises (both D.premises
        (both E.premises (both F.premises (both G.premises (both H.premises (both I.premises
        (both J.premises (both K.premises L.premises)))))))))) };

    fn encodes_empty() -> bool {
        <(A, (B, C, D, E, F, G, H, I, J, K, L))>::encodes_empty()
    }

    fn element_size() -> usize {
        <(A, (B, C, D, E, F, G, H, I, J, K, L))>::element_size()
    }
}

impl<
    A: BorshType,
    B: BorshType,
    C: BorshType,
    D: BorshType,
    E: BorshType,
    F: BorshType,
    G: BorshType,
    H: BorshType,
    I: BorshType,
    J: BorshType,
    K: BorshType,
    L: BorshType,
    M: BorshType,
> BorshType for (A, B, C, D, E, F, G, H, I, J, K, L, M) {
    ghost codec = { pair A.codec (pair B.codec (pair C.codec (pair D.codec (pair E.codec
        (pair F.codec (pair G.codec (pair H.codec (pair I.codec (pair J.codec (pair K.codec
        (pair L.codec (contramap (λ t. t.0) M.codec)))))))))))) };

    ghost lawful_if = { from_two pair-lawful A.lawful_if (from_two pair-lawful B.lawful_if
        (from_two pair-lawful C.lawful_if (from_two pair-lawful D.lawful_if
        (from_two pair-lawful E.lawful_if (from_two pair-lawful F.lawful_if
        (from_two pair-lawful G.lawful_if (from_two pair-lawful H.lawful_if
        (from_two pair-lawful I.lawful_if (from_two pair-lawful J.lawful_if
        (from_two pair-lawful K.lawful_if (from_two pair-lawful L.lawful_if
        (from (contramap-lawful (λ t. t.0)) M.lawful_if)))))))))))) };

    ghost premises = { both A.premises (both B.premises (both C.premises (both D.premises
        (both E.premises (both F.premises (both G.premises (both H.premises (both I.premises
        (both J.premises (both K.premises (both L.premises M.premises))))))))))) };

    fn encodes_empty() -> bool {
        <(A, (B, C, D, E, F, G, H, I, J, K, L, M))>::encodes_empty()
    }

    fn element_size() -> usize {
        <(A, (B, C, D, E, F, G, H, I, J, K, L, M))>::element_size()
    }
}

impl<
    A: BorshType,
    B: BorshType,
    C: BorshType,
    D: BorshType,
    E: BorshType,
    F: BorshType,
    G: BorshType,
    H: BorshType,
    I: BorshType,
    J: BorshType,
    K: BorshType,
    L: BorshType,
    M: BorshType,
    N: BorshType,
> BorshType for (A, B, C, D, E, F, G, H, I, J, K, L, M, N) {
    ghost codec = { ⟦<(A, (B, C, D, E, F, G, H, I, J, K, L, M, N)) as BorshType>⟧.codec };

    ghost lawful_if = { ⟦<(A, (B, C, D, E, F, G, H, I, J, K, L, M, N)) as BorshType>⟧.lawful_if };

    ghost premises = { both A.premises (both B.premises (both C.premises (both D.premises
        (both E.premises (both F.premises (both G.premises (both H.premises (both I.premises
        (both J.premises (both K.premises (both L.premises (both M.premises N.premises)))))))))))) };

    fn encodes_empty() -> bool {
        <(A, (B, C, D, E, F, G, H, I, J, K, L, M, N))>::encodes_empty()
    }

    fn element_size() -> usize {
        <(A, (B, C, D, E, F, G, H, I, J, K, L, M, N))>::element_size()
    }
}

impl<
    A: BorshType,
    B: BorshType,
    C: BorshType,
    D: BorshType,
    E: BorshType,
    F: BorshType,
    G: BorshType,
    H: BorshType,
    I: BorshType,
    J: BorshType,
    K: BorshType,
    L: BorshType,
    M: BorshType,
    N: BorshType,
    O: BorshType,
> BorshType for (A, B, C, D, E, F, G, H, I, J, K, L, M, N, O) {
    ghost codec = { ⟦<(A, (B, C, D, E, F, G, H, I, J, K, L, M, N, O)) as BorshType>⟧.codec };

    ghost lawful_if = { ⟦<(A, (B, C, D, E, F, G, H, I, J, K, L, M, N, O)) as BorshType>⟧.lawful_if };

    ghost premises = { both A.premises (both B.premises (both C.premises (both D.premises
        (both E.premises (both F.premises (both G.premises (both H.premises (both I.premises
        (both J.premises (both K.premises (both L.premises (both M.premises (both N.premises
        O.premises))))))))))))) };

    fn encodes_empty() -> bool {
        <(A, (B, C, D, E, F, G, H, I, J, K, L, M, N, O))>::encodes_empty()
    }

    fn element_size() -> usize {
        <(A, (B, C, D, E, F, G, H, I, J, K, L, M, N, O))>::element_size()
    }
}

impl<
    A: BorshType,
    B: BorshType,
    C: BorshType,
    D: BorshType,
    E: BorshType,
    F: BorshType,
    G: BorshType,
    H: BorshType,
    I: BorshType,
    J: BorshType,
    K: BorshType,
    L: BorshType,
    M: BorshType,
    N: BorshType,
    O: BorshType,
    P: BorshType,
> BorshType for (A, B, C, D, E, F, G, H, I, J, K, L, M, N, O, P) {
    ghost codec = { ⟦<(A, (B, C, D, E, F, G, H, I, J, K, L, M, N, O, P)) as BorshType>⟧.codec };

    ghost lawful_if = { ⟦<(A, (B, C, D, E, F, G, H, I, J, K, L, M, N, O, P)) as BorshType>⟧.lawful_if };

    ghost premises = { both A.premises (both B.premises (both C.premises (both D.premises
        (both E.premises (both F.premises (both G.premises (both H.premises (both I.premises
        (both J.premises (both K.premises (both L.premises (both M.premises (both N.premises
        (both O.premises P.premises)))))))))))))) };

    fn encodes_empty() -> bool {
        <(A, (B, C, D, E, F, G, H, I, J, K, L, M, N, O, P))>::encodes_empty()
    }

    fn element_size() -> usize {
        <(A, (B, C, D, E, F, G, H, I, J, K, L, M, N, O, P))>::element_size()
    }
}

impl<
    A: BorshType,
    B: BorshType,
    C: BorshType,
    D: BorshType,
    E: BorshType,
    F: BorshType,
    G: BorshType,
    H: BorshType,
    I: BorshType,
    J: BorshType,
    K: BorshType,
    L: BorshType,
    M: BorshType,
    N: BorshType,
    O: BorshType,
    P: BorshType,
    Q: BorshType,
> BorshType for (A, B, C, D, E, F, G, H, I, J, K, L, M, N, O, P, Q) {
    ghost codec = { ⟦<(A, (B, C, D, E, F, G, H, I, J, K, L, M, N, O, P, Q)) as BorshType>⟧.codec };

    ghost lawful_if = { ⟦<(A, (B, C, D, E, F, G, H, I, J, K, L, M, N, O, P, Q)) as BorshType>⟧.lawful_if };

    ghost premises = { both A.premises (both B.premises (both C.premises (both D.premises
        (both E.premises (both F.premises (both G.premises (both H.premises (both I.premises
        (both J.premises (both K.premises (both L.premises (both M.premises (both N.premises
        (both O.premises (both P.premises Q.premises))))))))))))))) };

    fn encodes_empty() -> bool {
        <(A, (B, C, D, E, F, G, H, I, J, K, L, M, N, O, P, Q))>::encodes_empty()
    }

    fn element_size() -> usize {
        <(A, (B, C, D, E, F, G, H, I, J, K, L, M, N, O, P, Q))>::element_size()
    }
}

impl<
    A: BorshType,
    B: BorshType,
    C: BorshType,
    D: BorshType,
    E: BorshType,
    F: BorshType,
    G: BorshType,
    H: BorshType,
    I: BorshType,
    J: BorshType,
    K: BorshType,
    L: BorshType,
    M: BorshType,
    N: BorshType,
    O: BorshType,
    P: BorshType,
    Q: BorshType,
    S: BorshType,
> BorshType for (A, B, C, D, E, F, G, H, I, J, K, L, M, N, O, P, Q, S) {
    ghost codec = { ⟦<(A, (B, C, D, E, F, G, H, I, J, K, L, M, N, O, P, Q, S)) as BorshType>⟧.codec };

    ghost lawful_if = { ⟦<(A, (B, C, D, E, F, G, H, I, J, K, L, M, N, O, P, Q, S)) as BorshType>⟧.lawful_if };

    ghost premises = { both A.premises (both B.premises (both C.premises (both D.premises
        (both E.premises (both F.premises (both G.premises (both H.premises (both I.premises
        (both J.premises (both K.premises (both L.premises (both M.premises (both N.premises
        (both O.premises (both P.premises (both Q.premises S.premises)))))))))))))))) };

    fn encodes_empty() -> bool {
        <(A, (B, C, D, E, F, G, H, I, J, K, L, M, N, O, P, Q, S))>::encodes_empty()
    }

    fn element_size() -> usize {
        <(A, (B, C, D, E, F, G, H, I, J, K, L, M, N, O, P, Q, S))>::element_size()
    }
}

impl<
    A: BorshType,
    B: BorshType,
    C: BorshType,
    D: BorshType,
    E: BorshType,
    F: BorshType,
    G: BorshType,
    H: BorshType,
    I: BorshType,
    J: BorshType,
    K: BorshType,
    L: BorshType,
    M: BorshType,
    N: BorshType,
    O: BorshType,
    P: BorshType,
    Q: BorshType,
    S: BorshType,
    T: BorshType,
> BorshType for (A, B, C, D, E, F, G, H, I, J, K, L, M, N, O, P, Q, S, T) {
    ghost codec = { ⟦<(A, (B, C, D, E, F, G, H, I, J, K, L, M, N, O, P, Q, S, T)) as BorshType>⟧.codec };

    ghost lawful_if = { ⟦<(A, (B, C, D, E, F, G, H, I, J, K, L, M, N, O, P, Q, S, T)) as BorshType>⟧.lawful_if };

    ghost premises = { both A.premises (both B.premises (both C.premises (both D.premises
        (both E.premises (both F.premises (both G.premises (both H.premises (both I.premises
        (both J.premises (both K.premises (both L.premises (both M.premises (both N.premises
        (both O.premises (both P.premises (both Q.premises (both S.premises
        T.premises))))))))))))))))) };

    fn encodes_empty() -> bool {
        <(A, (B, C, D, E, F, G, H, I, J, K, L, M, N, O, P, Q, S, T))>::encodes_empty()
    }

    fn element_size() -> usize {
        <(A, (B, C, D, E, F, G, H, I, J, K, L, M, N, O, P, Q, S, T))>::element_size()
    }
}

impl<
    A: BorshType,
    B: BorshType,
    C: BorshType,
    D: BorshType,
    E: BorshType,
    F: BorshType,
    G: BorshType,
    H: BorshType,
    I: BorshType,
    J: BorshType,
    K: BorshType,
    L: BorshType,
    M: BorshType,
    N: BorshType,
    O: BorshType,
    P: BorshType,
    Q: BorshType,
    S: BorshType,
    T: BorshType,
    U: BorshType,
> BorshType for (A, B, C, D, E, F, G, H, I, J, K, L, M, N, O, P, Q, S, T, U) {
    ghost codec = { ⟦<(A, (B, C, D, E, F, G, H, I, J, K, L, M, N, O, P, Q, S, T, U)) as BorshType>⟧.codec };

    ghost lawful_if = { ⟦<(A, (B, C, D, E, F, G, H, I, J, K, L, M, N, O, P, Q, S, T, U)) as BorshType>⟧.lawful_if };

    ghost premises = { both A.premises (both B.premises (both C.premises (both D.premises
        (both E.premises (both F.premises (both G.premises (both H.premises (both I.premises
        (both J.premises (both K.premises (both L.premises (both M.premises (both N.premises
        (both O.premises (both P.premises (both Q.premises (both S.premises (both T.premises
        U.premises)))))))))))))))))) };

    fn encodes_empty() -> bool {
        <(A, (B, C, D, E, F, G, H, I, J, K, L, M, N, O, P, Q, S, T, U))>::encodes_empty()
    }

    fn element_size() -> usize {
        <(A, (B, C, D, E, F, G, H, I, J, K, L, M, N, O, P, Q, S, T, U))>::element_size()
    }
}
