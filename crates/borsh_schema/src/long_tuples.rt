// Tuples of thirteen to twenty places: their parts in order.
ghost use Rattle.std.specs.Prelude.{◌∷◌, [], refl};
ghost use Rattle.borsh_definitions.specs.Described.{both, none};
ghost use Rattle.borsh_definitions.proofs.Laws.Members.{describes_contramap, describes_parts, all_one, all_more};
ghost use Rattle.borsh_definitions.specs.Names.{tuple_name};
ghost use Rattle.borsh_definitions.specs.Types.{tuple_definitions};
ghost use Rattle.borsh_definitions.proofs.Laws.Quoted.{struct_described, tuple_of};

use super::definitions::{DefinitionMap, SchemaResult};
use super::fields::FieldTypes;
use super::schema::BorshSchema;
use super::tuple_parts::{Six, add_long_tuple, long_tuple_declaration};
use borsh_walks::Declaration;
use std::alloc::Global;

impl<
    A: BorshSchema,
    B: BorshSchema,
    C: BorshSchema,
    D: BorshSchema,
    E: BorshSchema,
    F: BorshSchema,
    G: BorshSchema,
    H: BorshSchema,
    I: BorshSchema,
    J: BorshSchema,
    K: BorshSchema,
    L: BorshSchema,
    M: BorshSchema,
> BorshSchema for (A, B, C, D, E, F, G, H, I, J, K, L, M) {
    ghost name = { tuple_name
        ⟦<(A, (B, (C, (D, (E, (F, (G, (H, (I, (J, (K, (L, (M, ()))))))))))))) as FieldTypes>⟧.described.names };

    ghost parts = { tuple_of
        ⟦<(A, (B, (C, (D, (E, (F, (G, (H, (I, (J, (K, (L, (M, ()))))))))))))) as FieldTypes>⟧.described };

    ghost described = { struct_described
        (λ t. t)
        ⟦<(A, (B, (C, (D, (E, (F, (G, (H, (I, (J, (K, (L, (M, ()))))))))))))) as FieldTypes>⟧.described refl };

    fn declaration(alloc: Global) -> SchemaResult<Declaration> {
        long_tuple_declaration::<A, B, C, D, E, F, Six<G, H, I, J, K, L, (M, ())>>(alloc)
    }

    fn add_definitions_recursively(alloc: Global, map: &mut DefinitionMap) -> SchemaResult<()> {
        add_long_tuple::<A, B, C, D, E, F, Six<G, H, I, J, K, L, (M, ())>>(
            alloc,
            Self::declaration(alloc)?,
            map,
        )
    }

    ghost describes = { λ defs h. describes_parts h.0 (all_more (A.describes defs h.1.0)
        (all_more (B.describes defs h.1.1.0) (all_more (C.describes defs h.1.1.1.0)
        (all_more (D.describes defs h.1.1.1.1.0) (all_more (E.describes defs h.1.1.1.1.1.0)
        (all_more (F.describes defs h.1.1.1.1.1.1.0) (all_more (G.describes defs h.1.1.1.1.1.1.1.0)
        (all_more (H.describes defs h.1.1.1.1.1.1.1.1.0)
        (let h1 = h.1.1.1.1.1.1.1.1.1 in all_more (I.describes defs h1.0)
        (all_more (J.describes defs h1.1.0) (all_more (K.describes defs h1.1.1.0)
        (all_more (L.describes defs h1.1.1.1.0)
        (all_one (describes_contramap (λ t. t.0) (M.describes defs h1.1.1.1.1.0))))))))))))))) };
}

impl<
    A: BorshSchema,
    B: BorshSchema,
    C: BorshSchema,
    D: BorshSchema,
    E: BorshSchema,
    F: BorshSchema,
    G: BorshSchema,
    H: BorshSchema,
    I: BorshSchema,
    J: BorshSchema,
    K: BorshSchema,
    L: BorshSchema,
    M: BorshSchema,
    N: BorshSchema,
> BorshSchema for (A, B, C, D, E, F, G, H, I, J, K, L, M, N) {
    ghost name = { tuple_name
        ⟦<(A, (B, (C, (D, (E, (F, (G, (H, (I, (J, (K, (L, (M, (N, ())))))))))))))) as FieldTypes>⟧.described.names };

    ghost parts = { tuple_of
        ⟦<(A, (B, (C, (D, (E, (F, (G, (H, (I, (J, (K, (L, (M, (N, ())))))))))))))) as FieldTypes>⟧.described };

    ghost described = { struct_described
        (λ t. t)
        ⟦<(A, (B, (C, (D, (E, (F, (G, (H, (I, (J, (K, (L, (M, (N, ())))))))))))))) as FieldTypes>⟧.described refl };

    fn declaration(alloc: Global) -> SchemaResult<Declaration> {
        long_tuple_declaration::<A, B, C, D, E, F, Six<G, H, I, J, K, L, (M, (N, ()))>>(alloc)
    }

    fn add_definitions_recursively(alloc: Global, map: &mut DefinitionMap) -> SchemaResult<()> {
        add_long_tuple::<A, B, C, D, E, F, Six<G, H, I, J, K, L, (M, (N, ()))>>(
            alloc,
            Self::declaration(alloc)?,
            map,
        )
    }

    ghost describes = { λ defs h. describes_parts h.0 (all_more (A.describes defs h.1.0)
        (all_more (B.describes defs h.1.1.0) (all_more (C.describes defs h.1.1.1.0)
        (all_more (D.describes defs h.1.1.1.1.0) (all_more (E.describes defs h.1.1.1.1.1.0)
        (all_more (F.describes defs h.1.1.1.1.1.1.0) (all_more (G.describes defs h.1.1.1.1.1.1.1.0)
        (all_more (H.describes defs h.1.1.1.1.1.1.1.1.0)
        (let h1 = h.1.1.1.1.1.1.1.1.1 in all_more (I.describes defs h1.0)
        (all_more (J.describes defs h1.1.0) (all_more (K.describes defs h1.1.1.0)
        (all_more (L.describes defs h1.1.1.1.0) (all_more (M.describes defs h1.1.1.1.1.0)
        (all_one (describes_contramap (λ t. t.0) (N.describes defs h1.1.1.1.1.1.0)))))))))))))))) };
}

impl<
    A: BorshSchema,
    B: BorshSchema,
    C: BorshSchema,
    D: BorshSchema,
    E: BorshSchema,
    F: BorshSchema,
    G: BorshSchema,
    H: BorshSchema,
    I: BorshSchema,
    J: BorshSchema,
    K: BorshSchema,
    L: BorshSchema,
    M: BorshSchema,
    N: BorshSchema,
    O: BorshSchema,
> BorshSchema for (A, B, C, D, E, F, G, H, I, J, K, L, M, N, O) {
    ghost name = { tuple_name
        ⟦<(A, (B, (C, (D, (E, (F, (G, (H, (I, (J, (K, (L, (M, (N, (O, ()))))))))))))))) as FieldTypes>⟧.described.names };

    ghost parts = { tuple_of
        ⟦<(A, (B, (C, (D, (E, (F, (G, (H, (I, (J, (K, (L, (M, (N, (O, ()))))))))))))))) as FieldTypes>⟧.described };

    ghost described = { struct_described
        (λ t. t)
        ⟦<(A, (B, (C, (D, (E, (F, (G, (H, (I, (J, (K, (L, (M, (N, (O, ()))))))))))))))) as FieldTypes>⟧.described refl };

    fn declaration(alloc: Global) -> SchemaResult<Declaration> {
        long_tuple_declaration::<A, B, C, D, E, F, Six<G, H, I, J, K, L, (M, (N, (O, ())))>>(alloc)
    }

    fn add_definitions_recursively(alloc: Global, map: &mut DefinitionMap) -> SchemaResult<()> {
        add_long_tuple::<A, B, C, D, E, F, Six<G, H, I, J, K, L, (M, (N, (O, ())))>>(
            alloc,
            Self::declaration(alloc)?,
            map,
        )
    }

    ghost describes = { λ defs h. describes_parts h.0 (all_more (A.describes defs h.1.0)
        (all_more (B.describes defs h.1.1.0) (all_more (C.describes defs h.1.1.1.0)
        (all_more (D.describes defs h.1.1.1.1.0) (all_more (E.describes defs h.1.1.1.1.1.0)
        (all_more (F.describes defs h.1.1.1.1.1.1.0) (all_more (G.describes defs h.1.1.1.1.1.1.1.0)
        (all_more (H.describes defs h.1.1.1.1.1.1.1.1.0)
        (let h1 = h.1.1.1.1.1.1.1.1.1 in all_more (I.describes defs h1.0)
        (all_more (J.describes defs h1.1.0) (all_more (K.describes defs h1.1.1.0)
        (all_more (L.describes defs h1.1.1.1.0) (all_more (M.describes defs h1.1.1.1.1.0)
        (all_more (N.describes defs h1.1.1.1.1.1.0)
        (all_one (describes_contramap (λ t. t.0) (O.describes defs h1.1.1.1.1.1.1.0))))))))))))))))) };
}

impl<
    A: BorshSchema,
    B: BorshSchema,
    C: BorshSchema,
    D: BorshSchema,
    E: BorshSchema,
    F: BorshSchema,
    G: BorshSchema,
    H: BorshSchema,
    I: BorshSchema,
    J: BorshSchema,
    K: BorshSchema,
    L: BorshSchema,
    M: BorshSchema,
    N: BorshSchema,
    O: BorshSchema,
    P: BorshSchema,
> BorshSchema for (A, B, C, D, E, F, G, H, I, J, K, L, M, N, O, P) {
    ghost name = { tuple_name
        ⟦<(A, (B, (C, (D, (E, (F, (G, (H, (I, (J, (K, (L, (M, (N, (O, (P, ())))))))))))))))) as FieldTypes>⟧.described.names };

    ghost parts = { tuple_of
        ⟦<(A, (B, (C, (D, (E, (F, (G, (H, (I, (J, (K, (L, (M, (N, (O, (P, ())))))))))))))))) as FieldTypes>⟧.described };

    ghost described = { struct_described
        (λ t. t)
        ⟦<(A, (B, (C, (D, (E, (F, (G, (H, (I, (J, (K, (L, (M, (N, (O, (P, ())))))))))))))))) as FieldTypes>⟧.described refl };

    fn declaration(alloc: Global) -> SchemaResult<Declaration> {
        long_tuple_declaration::<A, B, C, D, E, F, Six<G, H, I, J, K, L, (M, (N, (O, (P, ()))))>>(
            alloc,
        )
    }

    fn add_definitions_recursively(alloc: Global, map: &mut DefinitionMap) -> SchemaResult<()> {
        add_long_tuple::<A, B, C, D, E, F, Six<G, H, I, J, K, L, (M, (N, (O, (P, ()))))>>(
            alloc,
            Self::declaration(alloc)?,
            map,
        )
    }

    ghost describes = { λ defs h. describes_parts h.0 (all_more (A.describes defs h.1.0)
        (all_more (B.describes defs h.1.1.0) (all_more (C.describes defs h.1.1.1.0)
        (all_more (D.describes defs h.1.1.1.1.0) (all_more (E.describes defs h.1.1.1.1.1.0)
        (all_more (F.describes defs h.1.1.1.1.1.1.0) (all_more (G.describes defs h.1.1.1.1.1.1.1.0)
        (all_more (H.describes defs h.1.1.1.1.1.1.1.1.0)
        (let h1 = h.1.1.1.1.1.1.1.1.1 in all_more (I.describes defs h1.0)
        (all_more (J.describes defs h1.1.0) (all_more (K.describes defs h1.1.1.0)
        (all_more (L.describes defs h1.1.1.1.0) (all_more (M.describes defs h1.1.1.1.1.0)
        (all_more (N.describes defs h1.1.1.1.1.1.0) (all_more (O.describes defs h1.1.1.1.1.1.1.0)
        (all_one (describes_contramap (λ t. t.0) (P.describes defs h1.1.1.1.1.1.1.1.0)))))))))))))))))) };
}

impl<
    A: BorshSchema,
    B: BorshSchema,
    C: BorshSchema,
    D: BorshSchema,
    E: BorshSchema,
    F: BorshSchema,
    G: BorshSchema,
    H: BorshSchema,
    I: BorshSchema,
    J: BorshSchema,
    K: BorshSchema,
    L: BorshSchema,
    M: BorshSchema,
    N: BorshSchema,
    O: BorshSchema,
    P: BorshSchema,
    Q: BorshSchema,
> BorshSchema for (A, B, C, D, E, F, G, H, I, J, K, L, M, N, O, P, Q) {
    ghost name = { tuple_name
        ⟦<(A, (B, (C, (D, (E, (F, (G, (H, (I, (J, (K, (L, (M, (N, (O, (P, (Q, ()))))))))))))))))) as FieldTypes>⟧.described.names };

    ghost parts = { tuple_of
        ⟦<(A, (B, (C, (D, (E, (F, (G, (H, (I, (J, (K, (L, (M, (N, (O, (P, (Q, ()))))))))))))))))) as FieldTypes>⟧.described };

    ghost described = { struct_described
        (λ t. t)
        ⟦<(A, (B, (C, (D, (E, (F, (G, (H, (I, (J, (K, (L, (M, (N, (O, (P, (Q, ()))))))))))))))))) as FieldTypes>⟧.described refl };

    fn declaration(alloc: Global) -> SchemaResult<Declaration> {
        long_tuple_declaration::<
            A,
            B,
            C,
            D,
            E,
            F,
            Six<G, H, I, J, K, L, (M, (N, (O, (P, (Q, ())))))>,
        >(alloc)
    }

    fn add_definitions_recursively(alloc: Global, map: &mut DefinitionMap) -> SchemaResult<()> {
        add_long_tuple::<A, B, C, D, E, F, Six<G, H, I, J, K, L, (M, (N, (O, (P, (Q, ())))))>>(
            alloc,
            Self::declaration(alloc)?,
            map,
        )
    }

    ghost describes = { λ defs h. describes_parts h.0 (all_more (A.describes defs h.1.0)
        (all_more (B.describes defs h.1.1.0) (all_more (C.describes defs h.1.1.1.0)
        (all_more (D.describes defs h.1.1.1.1.0) (all_more (E.describes defs h.1.1.1.1.1.0)
        (all_more (F.describes defs h.1.1.1.1.1.1.0) (all_more (G.describes defs h.1.1.1.1.1.1.1.0)
        (all_more (H.describes defs h.1.1.1.1.1.1.1.1.0)
        (let h1 = h.1.1.1.1.1.1.1.1.1 in all_more (I.describes defs h1.0)
        (all_more (J.describes defs h1.1.0) (all_more (K.describes defs h1.1.1.0)
        (all_more (L.describes defs h1.1.1.1.0) (all_more (M.describes defs h1.1.1.1.1.0)
        (all_more (N.describes defs h1.1.1.1.1.1.0) (all_more (O.describes defs h1.1.1.1.1.1.1.0)
        (all_more (P.describes defs h1.1.1.1.1.1.1.1.0)
        (let h2 = h1.1.1.1.1.1.1.1.1 in all_one (describes_contramap (λ t. t.0) (Q.describes defs h2.0))))))))))))))))))) };
}

impl<
    A: BorshSchema,
    B: BorshSchema,
    C: BorshSchema,
    D: BorshSchema,
    E: BorshSchema,
    F: BorshSchema,
    G: BorshSchema,
    H: BorshSchema,
    I: BorshSchema,
    J: BorshSchema,
    K: BorshSchema,
    L: BorshSchema,
    M: BorshSchema,
    N: BorshSchema,
    O: BorshSchema,
    P: BorshSchema,
    Q: BorshSchema,
    S: BorshSchema,
> BorshSchema for (A, B, C, D, E, F, G, H, I, J, K, L, M, N, O, P, Q, S) {
    ghost name = { tuple_name
        ⟦<(A, (B, (C, (D, (E, (F, (G, (H, (I, (J, (K, (L, (M, (N, (O, (P, (Q, (S, ())))))))))))))))))) as FieldTypes>⟧.described.names };

    ghost parts = { tuple_of
        ⟦<(A, (B, (C, (D, (E, (F, (G, (H, (I, (J, (K, (L, (M, (N, (O, (P, (Q, (S, ())))))))))))))))))) as FieldTypes>⟧.described };

    ghost described = { struct_described
        (λ t. t)
        ⟦<(A, (B, (C, (D, (E, (F, (G, (H, (I, (J, (K, (L, (M, (N, (O, (P, (Q, (S, ())))))))))))))))))) as FieldTypes>⟧.described refl };

    fn declaration(alloc: Global) -> SchemaResult<Declaration> {
        long_tuple_declaration::<
            A,
            B,
            C,
            D,
            E,
            F,
            Six<G, H, I, J, K, L, (M, (N, (O, (P, (Q, (S, ()))))))>,
        >(alloc)
    }

    fn add_definitions_recursively(alloc: Global, map: &mut DefinitionMap) -> SchemaResult<()> {
        add_long_tuple::<A, B, C, D, E, F, Six<G, H, I, J, K, L, (M, (N, (O, (P, (Q, (S, ()))))))>>(
            alloc,
            Self::declaration(alloc)?,
            map,
        )
    }

    ghost describes = { λ defs h. describes_parts h.0 (all_more (A.describes defs h.1.0)
        (all_more (B.describes defs h.1.1.0) (all_more (C.describes defs h.1.1.1.0)
        (all_more (D.describes defs h.1.1.1.1.0) (all_more (E.describes defs h.1.1.1.1.1.0)
        (all_more (F.describes defs h.1.1.1.1.1.1.0) (all_more (G.describes defs h.1.1.1.1.1.1.1.0)
        (all_more (H.describes defs h.1.1.1.1.1.1.1.1.0)
        (let h1 = h.1.1.1.1.1.1.1.1.1 in all_more (I.describes defs h1.0)
        (all_more (J.describes defs h1.1.0) (all_more (K.describes defs h1.1.1.0)
        (all_more (L.describes defs h1.1.1.1.0) (all_more (M.describes defs h1.1.1.1.1.0)
        (all_more (N.describes defs h1.1.1.1.1.1.0) (all_more (O.describes defs h1.1.1.1.1.1.1.0)
        (all_more (P.describes defs h1.1.1.1.1.1.1.1.0)
        (let h2 = h1.1.1.1.1.1.1.1.1 in all_more (Q.describes defs h2.0)
        (all_one (describes_contramap (λ t. t.0) (S.describes defs h2.1.0)))))))))))))))))))) };
}

impl<
    A: BorshSchema,
    B: BorshSchema,
    C: BorshSchema,
    D: BorshSchema,
    E: BorshSchema,
    F: BorshSchema,
    G: BorshSchema,
    H: BorshSchema,
    I: BorshSchema,
    J: BorshSchema,
    K: BorshSchema,
    L: BorshSchema,
    M: BorshSchema,
    N: BorshSchema,
    O: BorshSchema,
    P: BorshSchema,
    Q: BorshSchema,
    S: BorshSchema,
    T: BorshSchema,
> BorshSchema for (A, B, C, D, E, F, G, H, I, J, K, L, M, N, O, P, Q, S, T) {
    ghost name = { tuple_name
        ⟦<(A, (B, (C, (D, (E, (F, (G, (H, (I, (J, (K, (L, (M, (N, (O, (P, (Q, (S, (T, ()))))))))))))))))))) as FieldTypes>⟧.described.names };

    ghost parts = { tuple_of
        ⟦<(A, (B, (C, (D, (E, (F, (G, (H, (I, (J, (K, (L, (M, (N, (O, (P, (Q, (S, (T, ()))))))))))))))))))) as FieldTypes>⟧.described };

    ghost described = { struct_described
        (λ t. t)
        ⟦<(A, (B, (C, (D, (E, (F, (G, (H, (I, (J, (K, (L, (M, (N, (O, (P, (Q, (S, (T, ()))))))))))))))))))) as FieldTypes>⟧.described refl };

    fn declaration(alloc: Global) -> SchemaResult<Declaration> {
        long_tuple_declaration::<
            A,
            B,
            C,
            D,
            E,
            F,
            Six<G, H, I, J, K, L, Six<M, N, O, P, Q, S, (T, ())>>,
        >(alloc)
    }

    fn add_definitions_recursively(alloc: Global, map: &mut DefinitionMap) -> SchemaResult<()> {
        add_long_tuple::<A, B, C, D, E, F, Six<G, H, I, J, K, L, Six<M, N, O, P, Q, S, (T, ())>>>(
            alloc,
            Self::declaration(alloc)?,
            map,
        )
    }

    ghost describes = { λ defs h. describes_parts h.0 (all_more (A.describes defs h.1.0)
        (all_more (B.describes defs h.1.1.0) (all_more (C.describes defs h.1.1.1.0)
        (all_more (D.describes defs h.1.1.1.1.0) (all_more (E.describes defs h.1.1.1.1.1.0)
        (all_more (F.describes defs h.1.1.1.1.1.1.0) (all_more (G.describes defs h.1.1.1.1.1.1.1.0)
        (all_more (H.describes defs h.1.1.1.1.1.1.1.1.0)
        (let h1 = h.1.1.1.1.1.1.1.1.1 in all_more (I.describes defs h1.0)
        (all_more (J.describes defs h1.1.0) (all_more (K.describes defs h1.1.1.0)
        (all_more (L.describes defs h1.1.1.1.0) (all_more (M.describes defs h1.1.1.1.1.0)
        (all_more (N.describes defs h1.1.1.1.1.1.0) (all_more (O.describes defs h1.1.1.1.1.1.1.0)
        (all_more (P.describes defs h1.1.1.1.1.1.1.1.0)
        (let h2 = h1.1.1.1.1.1.1.1.1 in all_more (Q.describes defs h2.0)
        (all_more (S.describes defs h2.1.0)
        (all_one (describes_contramap (λ t. t.0) (T.describes defs h2.1.1.0))))))))))))))))))))) };
}

impl<
    A: BorshSchema,
    B: BorshSchema,
    C: BorshSchema,
    D: BorshSchema,
    E: BorshSchema,
    F: BorshSchema,
    G: BorshSchema,
    H: BorshSchema,
    I: BorshSchema,
    J: BorshSchema,
    K: BorshSchema,
    L: BorshSchema,
    M: BorshSchema,
    N: BorshSchema,
    O: BorshSchema,
    P: BorshSchema,
    Q: BorshSchema,
    S: BorshSchema,
    T: BorshSchema,
    U: BorshSchema,
> BorshSchema for (A, B, C, D, E, F, G, H, I, J, K, L, M, N, O, P, Q, S, T, U) {
    ghost name = { tuple_name
        ⟦<(A, (B, (C, (D, (E, (F, (G, (H, (I, (J, (K, (L, (M, (N, (O, (P, (Q, (S, (T, (U, ())))))))))))))))))))) as FieldTypes>⟧.described.names };

    ghost parts = { tuple_of
        ⟦<(A, (B, (C, (D, (E, (F, (G, (H, (I, (J, (K, (L, (M, (N, (O, (P, (Q, (S, (T, (U, ())))))))))))))))))))) as FieldTypes>⟧.described };

    ghost described = { struct_described
        (λ t. t)
        ⟦<(A, (B, (C, (D, (E, (F, (G, (H, (I, (J, (K, (L, (M, (N, (O, (P, (Q, (S, (T, (U, ())))))))))))))))))))) as FieldTypes>⟧.described refl };

    fn declaration(alloc: Global) -> SchemaResult<Declaration> {
        long_tuple_declaration::<
            A,
            B,
            C,
            D,
            E,
            F,
            Six<G, H, I, J, K, L, Six<M, N, O, P, Q, S, (T, (U, ()))>>,
        >(alloc)
    }

    fn add_definitions_recursively(alloc: Global, map: &mut DefinitionMap) -> SchemaResult<()> {
        add_long_tuple::<
            A,
            B,
            C,
            D,
            E,
            F,
            Six<G, H, I, J, K, L, Six<M, N, O, P, Q, S, (T, (U, ()))>>,
        >(alloc, Self::declaration(alloc)?, map)
    }

    ghost describes = { λ defs h. describes_parts h.0 (all_more (A.describes defs h.1.0)
        (all_more (B.describes defs h.1.1.0) (all_more (C.describes defs h.1.1.1.0)
        (all_more (D.describes defs h.1.1.1.1.0) (all_more (E.describes defs h.1.1.1.1.1.0)
        (all_more (F.describes defs h.1.1.1.1.1.1.0) (all_more (G.describes defs h.1.1.1.1.1.1.1.0)
        (all_more (H.describes defs h.1.1.1.1.1.1.1.1.0)
        (let h1 = h.1.1.1.1.1.1.1.1.1 in all_more (I.describes defs h1.0)
        (all_more (J.describes defs h1.1.0) (all_more (K.describes defs h1.1.1.0)
        (all_more (L.describes defs h1.1.1.1.0) (all_more (M.describes defs h1.1.1.1.1.0)
        (all_more (N.describes defs h1.1.1.1.1.1.0) (all_more (O.describes defs h1.1.1.1.1.1.1.0)
        (all_more (P.describes defs h1.1.1.1.1.1.1.1.0)
        (let h2 = h1.1.1.1.1.1.1.1.1 in all_more (Q.describes defs h2.0)
        (all_more (S.describes defs h2.1.0) (all_more (T.describes defs h2.1.1.0)
        (all_one (describes_contramap (λ t. t.0) (U.describes defs h2.1.1.1.0)))))))))))))))))))))) };
}
