// Tuples of one to twelve places: their parts in order.
ghost use Rattle.std.specs.Prelude.{◌∷◌, [], refl};
ghost use Rattle.borsh_definitions.specs.Described.{both, none};
ghost use Rattle.borsh_definitions.proofs.Laws.Members.{describes_contramap, describes_parts, all_one, all_more};
ghost use Rattle.borsh_definitions.specs.Names.{tuple_name};
ghost use Rattle.borsh_definitions.specs.Types.{tuple_definitions};
ghost use Rattle.borsh_definitions.proofs.Laws.Quoted.{struct_described, tuple_of};

use super::definitions::{DefinitionMap, SchemaResult};
use super::fields::FieldTypes;
use super::schema::BorshSchema;
use super::tuple_parts::{Six, add_tuple, tuple_declaration};
use borsh_walks::Declaration;
use std::alloc::Global;

impl<A: BorshSchema> BorshSchema for (A,) {
    ghost name = { tuple_name ⟦<(A, ()) as FieldTypes>⟧.described.names };

    ghost parts = { tuple_of ⟦<(A, ()) as FieldTypes>⟧.described };

    ghost described = { struct_described
        (λ t. (t.0, tt))
        ⟦<(A, ()) as FieldTypes>⟧.described refl };

    fn declaration(alloc: Global) -> SchemaResult<Declaration> {
        let a = A::declaration(alloc)?;
        Ok(format!(in alloc; "({a},)")?)
    }

    fn add_definitions_recursively(alloc: Global, map: &mut DefinitionMap) -> SchemaResult<()> {
        add_tuple::<(A, ())>(alloc, Self::declaration(alloc)?, map)
    }

    ghost describes = { λ defs h. describes_contramap (λ t. t.0) (describes_parts h.0
        (all_one (A.describes defs h.1.0))) };
}

impl<A: BorshSchema, B: BorshSchema> BorshSchema for (A, B) {
    ghost name = { tuple_name ⟦<(A, (B, ())) as FieldTypes>⟧.described.names };

    ghost parts = { tuple_of ⟦<(A, (B, ())) as FieldTypes>⟧.described };

    ghost described = { struct_described
        (λ t. (t.0, (t.1, tt)))
        ⟦<(A, (B, ())) as FieldTypes>⟧.described refl };

    fn declaration(alloc: Global) -> SchemaResult<Declaration> {
        tuple_declaration::<A, (B, ())>(alloc)
    }

    fn add_definitions_recursively(alloc: Global, map: &mut DefinitionMap) -> SchemaResult<()> {
        add_tuple::<(A, (B, ()))>(alloc, Self::declaration(alloc)?, map)
    }

    ghost describes = { λ defs h. describes_parts h.0 (all_more (A.describes defs h.1.0)
        (all_one (B.describes defs h.1.1.0))) };
}

impl<A: BorshSchema, B: BorshSchema, C: BorshSchema> BorshSchema for (A, B, C) {
    ghost name = { tuple_name ⟦<(A, (B, (C, ()))) as FieldTypes>⟧.described.names };

    ghost parts = { tuple_of ⟦<(A, (B, (C, ()))) as FieldTypes>⟧.described };

    ghost described = { struct_described
        (λ t. (t.0, (t.1, (t.2, tt))))
        ⟦<(A, (B, (C, ()))) as FieldTypes>⟧.described refl };

    fn declaration(alloc: Global) -> SchemaResult<Declaration> {
        tuple_declaration::<A, (B, (C, ()))>(alloc)
    }

    fn add_definitions_recursively(alloc: Global, map: &mut DefinitionMap) -> SchemaResult<()> {
        add_tuple::<(A, (B, (C, ())))>(alloc, Self::declaration(alloc)?, map)
    }

    ghost describes = { λ defs h. describes_contramap (λ t. (t.0, (t.1, t.2))) (describes_parts h.0
        (all_more (A.describes defs h.1.0) (all_more (B.describes defs h.1.1.0)
        (all_one (C.describes defs h.1.1.1.0))))) };
}

impl<A: BorshSchema, B: BorshSchema, C: BorshSchema, D: BorshSchema> BorshSchema for (A, B, C, D) {
    ghost name = { tuple_name ⟦<(A, (B, (C, (D, ())))) as FieldTypes>⟧.described.names };

    ghost parts = { tuple_of ⟦<(A, (B, (C, (D, ())))) as FieldTypes>⟧.described };

    ghost described = { struct_described
        (λ t. (t.0, (t.1, (t.2, (t.3, tt)))))
        ⟦<(A, (B, (C, (D, ())))) as FieldTypes>⟧.described refl };

    fn declaration(alloc: Global) -> SchemaResult<Declaration> {
        tuple_declaration::<A, (B, (C, (D, ())))>(alloc)
    }

    fn add_definitions_recursively(alloc: Global, map: &mut DefinitionMap) -> SchemaResult<()> {
        add_tuple::<(A, (B, (C, (D, ()))))>(alloc, Self::declaration(alloc)?, map)
    }

    ghost describes = { λ defs h. describes_contramap (λ t. (t.0, (t.1, (t.2, t.3))))
        (describes_parts h.0 (all_more (A.describes defs h.1.0) (all_more (B.describes defs h.1.1.0)
        (all_more (C.describes defs h.1.1.1.0) (all_one (D.describes defs h.1.1.1.1.0)))))) };
}

impl<A: BorshSchema, B: BorshSchema, C: BorshSchema, D: BorshSchema, E: BorshSchema> BorshSchema
    for (A, B, C, D, E) {
    ghost name = { tuple_name ⟦<(A, (B, (C, (D, (E, ()))))) as FieldTypes>⟧.described.names };

    ghost parts = { tuple_of ⟦<(A, (B, (C, (D, (E, ()))))) as FieldTypes>⟧.described };

    ghost described = { struct_described
        (λ t. (t.0, (t.1, (t.2, (t.3, (t.4, tt))))))
        ⟦<(A, (B, (C, (D, (E, ()))))) as FieldTypes>⟧.described refl };

    fn declaration(alloc: Global) -> SchemaResult<Declaration> {
        tuple_declaration::<A, (B, (C, (D, (E, ()))))>(alloc)
    }

    fn add_definitions_recursively(alloc: Global, map: &mut DefinitionMap) -> SchemaResult<()> {
        add_tuple::<(A, (B, (C, (D, (E, ())))))>(alloc, Self::declaration(alloc)?, map)
    }

    ghost describes = { λ defs h. describes_contramap (λ t. (t.0, (t.1, (t.2, (t.3, t.4)))))
        (describes_parts h.0 (all_more (A.describes defs h.1.0) (all_more (B.describes defs h.1.1.0)
        (all_more (C.describes defs h.1.1.1.0) (all_more (D.describes defs h.1.1.1.1.0)
        (all_one (E.describes defs h.1.1.1.1.1.0))))))) };
}

impl<
    A: BorshSchema,
    B: BorshSchema,
    C: BorshSchema,
    D: BorshSchema,
    E: BorshSchema,
    F: BorshSchema,
> BorshSchema for (A, B, C, D, E, F) {
    ghost name = { tuple_name ⟦<(A, (B, (C, (D, (E, (F, ())))))) as FieldTypes>⟧.described.names };

    ghost parts = { tuple_of ⟦<(A, (B, (C, (D, (E, (F, ())))))) as FieldTypes>⟧.described };

    ghost described = { struct_described
        (λ t. (t.0, (t.1, (t.2, (t.3, (t.4, (t.5, tt)))))))
        ⟦<(A, (B, (C, (D, (E, (F, ())))))) as FieldTypes>⟧.described refl };

    fn declaration(alloc: Global) -> SchemaResult<Declaration> {
        tuple_declaration::<A, (B, (C, (D, (E, (F, ())))))>(alloc)
    }

    fn add_definitions_recursively(alloc: Global, map: &mut DefinitionMap) -> SchemaResult<()> {
        add_tuple::<(A, (B, (C, (D, (E, (F, ()))))))>(alloc, Self::declaration(alloc)?, map)
    }

    ghost describes = { λ defs h. describes_contramap (λ t. (t.0, (t.1, (t.2, (t.3, (t.4, t.5))))))
        (describes_parts h.0 (all_more (A.describes defs h.1.0) (all_more (B.describes defs h.1.1.0)
        (all_more (C.describes defs h.1.1.1.0) (all_more (D.describes defs h.1.1.1.1.0)
        (all_more (E.describes defs h.1.1.1.1.1.0)
        (all_one (F.describes defs h.1.1.1.1.1.1.0)))))))) };
}

impl<
    A: BorshSchema,
    B: BorshSchema,
    C: BorshSchema,
    D: BorshSchema,
    E: BorshSchema,
    F: BorshSchema,
    G: BorshSchema,
> BorshSchema for (A, B, C, D, E, F, G) {
    ghost name = { tuple_name
        ⟦<(A, (B, (C, (D, (E, (F, (G, ()))))))) as FieldTypes>⟧.described.names };

    ghost parts = { tuple_of ⟦<(A, (B, (C, (D, (E, (F, (G, ()))))))) as FieldTypes>⟧.described };

    ghost described = { struct_described
        (λ t. (t.0, (t.1, (t.2, (t.3, (t.4, (t.5, (t.6, tt))))))))
        ⟦<(A, (B, (C, (D, (E, (F, (G, ()))))))) as FieldTypes>⟧.described refl };

    fn declaration(alloc: Global) -> SchemaResult<Declaration> {
        tuple_declaration::<A, (B, (C, (D, (E, (F, (G, ()))))))>(alloc)
    }

    fn add_definitions_recursively(alloc: Global, map: &mut DefinitionMap) -> SchemaResult<()> {
        add_tuple::<Six<A, B, C, D, E, F, (G, ())>>(alloc, Self::declaration(alloc)?, map)
    }

    ghost describes = { λ defs h.
        describes_contramap (λ t. (t.0, (t.1, (t.2, (t.3, (t.4, (t.5, t.6)))))))
        (describes_parts h.0 (all_more (A.describes defs h.1.0) (all_more (B.describes defs h.1.1.0)
        (all_more (C.describes defs h.1.1.1.0) (all_more (D.describes defs h.1.1.1.1.0)
        (all_more (E.describes defs h.1.1.1.1.1.0) (all_more (F.describes defs h.1.1.1.1.1.1.0)
        (all_one (G.describes defs h.1.1.1.1.1.1.1.0))))))))) };
}

impl<
    A: BorshSchema,
    B: BorshSchema,
    C: BorshSchema,
    D: BorshSchema,
    E: BorshSchema,
    F: BorshSchema,
    G: BorshSchema,
    H: BorshSchema,
> BorshSchema for (A, B, C, D, E, F, G, H) {
    ghost name = { tuple_name
        ⟦<(A, (B, (C, (D, (E, (F, (G, (H, ())))))))) as FieldTypes>⟧.described.names };

    ghost parts = { tuple_of ⟦<(A, (B, (C, (D, (E, (F, (G, (H, ())))))))) as FieldTypes>⟧.described };

    ghost described = { struct_described
        (λ t. (t.0, (t.1, (t.2, (t.3, (t.4, (t.5, (t.6, (t.7, tt)))))))))
        ⟦<(A, (B, (C, (D, (E, (F, (G, (H, ())))))))) as FieldTypes>⟧.described refl };

    fn declaration(alloc: Global) -> SchemaResult<Declaration> {
        tuple_declaration::<A, Six<B, C, D, E, F, G, (H, ())>>(alloc)
    }

    fn add_definitions_recursively(alloc: Global, map: &mut DefinitionMap) -> SchemaResult<()> {
        add_tuple::<Six<A, B, C, D, E, F, (G, (H, ()))>>(alloc, Self::declaration(alloc)?, map)
    }

    ghost describes = { λ defs h.
        describes_contramap (λ t. (t.0, (t.1, (t.2, (t.3, (t.4, (t.5, (t.6, t.7))))))))
        (describes_parts h.0 (all_more (A.describes defs h.1.0) (all_more (B.describes defs h.1.1.0)
        (all_more (C.describes defs h.1.1.1.0) (all_more (D.describes defs h.1.1.1.1.0)
        (all_more (E.describes defs h.1.1.1.1.1.0) (all_more (F.describes defs h.1.1.1.1.1.1.0)
        (all_more (G.describes defs h.1.1.1.1.1.1.1.0)
        (all_one (H.describes defs h.1.1.1.1.1.1.1.1.0)))))))))) };
}

impl<
    A: BorshSchema,
    B: BorshSchema,
    C: BorshSchema,
    D: BorshSchema,
    E: BorshSchema,
    F: BorshSchema,
    G: BorshSchema,
    H: BorshSchema,
    I: BorshSchema,
> BorshSchema for (A, B, C, D, E, F, G, H, I) {
    ghost name = { tuple_name
        ⟦<(A, (B, (C, (D, (E, (F, (G, (H, (I, ()))))))))) as FieldTypes>⟧.described.names };

    ghost parts = { tuple_of
        ⟦<(A, (B, (C, (D, (E, (F, (G, (H, (I, ()))))))))) as FieldTypes>⟧.described };

    ghost described = { struct_described
        (λ t. (t.0, (t.1, (t.2, (t.3, (t.4, (t.5, (t.6, (t.7, (t.8, tt))))))))))
        ⟦<(A, (B, (C, (D, (E, (F, (G, (H, (I, ()))))))))) as FieldTypes>⟧.described refl };

    fn declaration(alloc: Global) -> SchemaResult<Declaration> {
        tuple_declaration::<A, Six<B, C, D, E, F, G, (H, (I, ()))>>(alloc)
    }

    fn add_definitions_recursively(alloc: Global, map: &mut DefinitionMap) -> SchemaResult<()> {
        add_tuple::<Six<A, B, C, D, E, F, (G, (H, (I, ())))>>(alloc, Self::declaration(alloc)?, map)
    }

    ghost describes = { λ defs h.
        describes_contramap (λ t. (t.0, (t.1, (t.2, (t.3, (t.4, (t.5, (t.6, (t.7, t.8)))))))))
        (describes_parts h.0 (all_more (A.describes defs h.1.0) (all_more (B.describes defs h.1.1.0)
        (all_more (C.describes defs h.1.1.1.0) (all_more (D.describes defs h.1.1.1.1.0)
        (all_more (E.describes defs h.1.1.1.1.1.0) (all_more (F.describes defs h.1.1.1.1.1.1.0)
        (all_more (G.describes defs h.1.1.1.1.1.1.1.0)
        (all_more (H.describes defs h.1.1.1.1.1.1.1.1.0)
        (let h1 = h.1.1.1.1.1.1.1.1.1 in all_one (I.describes defs h1.0))))))))))) };
}

impl<
    A: BorshSchema,
    B: BorshSchema,
    C: BorshSchema,
    D: BorshSchema,
    E: BorshSchema,
    F: BorshSchema,
    G: BorshSchema,
    H: BorshSchema,
    I: BorshSchema,
    J: BorshSchema,
> BorshSchema for (A, B, C, D, E, F, G, H, I, J) {
    ghost name = { tuple_name
        ⟦<(A, (B, (C, (D, (E, (F, (G, (H, (I, (J, ())))))))))) as FieldTypes>⟧.described.names };

    ghost parts = { tuple_of
        ⟦<(A, (B, (C, (D, (E, (F, (G, (H, (I, (J, ())))))))))) as FieldTypes>⟧.described };

    ghost described = { struct_described
        (λ t. (t.0, (t.1, (t.2, (t.3, (t.4, (t.5, (t.6, (t.7, (t.8, (t.9, tt)))))))))))
        ⟦<(A, (B, (C, (D, (E, (F, (G, (H, (I, (J, ())))))))))) as FieldTypes>⟧.described refl };

    fn declaration(alloc: Global) -> SchemaResult<Declaration> {
        tuple_declaration::<A, Six<B, C, D, E, F, G, (H, (I, (J, ())))>>(alloc)
    }

    fn add_definitions_recursively(alloc: Global, map: &mut DefinitionMap) -> SchemaResult<()> {
        add_tuple::<Six<A, B, C, D, E, F, (G, (H, (I, (J, ()))))>>(
            alloc,
            Self::declaration(alloc)?,
            map,
        )
    }

    ghost describes = { λ defs h.
        describes_contramap (λ t. (t.0, (t.1, (t.2, (t.3, (t.4, (t.5, (t.6, (t.7, (t.8, t.9))))))))))
        (describes_parts h.0 (all_more (A.describes defs h.1.0) (all_more (B.describes defs h.1.1.0)
        (all_more (C.describes defs h.1.1.1.0) (all_more (D.describes defs h.1.1.1.1.0)
        (all_more (E.describes defs h.1.1.1.1.1.0) (all_more (F.describes defs h.1.1.1.1.1.1.0)
        (all_more (G.describes defs h.1.1.1.1.1.1.1.0)
        (all_more (H.describes defs h.1.1.1.1.1.1.1.1.0)
        (let h1 = h.1.1.1.1.1.1.1.1.1 in all_more (I.describes defs h1.0)
        (all_one (J.describes defs h1.1.0)))))))))))) };
}

impl<
    A: BorshSchema,
    B: BorshSchema,
    C: BorshSchema,
    D: BorshSchema,
    E: BorshSchema,
    F: BorshSchema,
    G: BorshSchema,
    H: BorshSchema,
    I: BorshSchema,
    J: BorshSchema,
    K: BorshSchema,
> BorshSchema for (A, B, C, D, E, F, G, H, I, J, K) {
    ghost name = { tuple_name
        ⟦<(A, (B, (C, (D, (E, (F, (G, (H, (I, (J, (K, ()))))))))))) as FieldTypes>⟧.described.names };

    ghost parts = { tuple_of
        ⟦<(A, (B, (C, (D, (E, (F, (G, (H, (I, (J, (K, ()))))))))))) as FieldTypes>⟧.described };

    ghost described = { struct_described
        (λ t. (t.0, (t.1, (t.2, (t.3, (t.4, (t.5, (t.6, (t.7, (t.8, (t.9, (t.10, tt))))))))))))
        ⟦<(A, (B, (C, (D, (E, (F, (G, (H, (I, (J, (K, ()))))))))))) as FieldTypes>⟧.described refl };

    fn declaration(alloc: Global) -> SchemaResult<Declaration> {
        tuple_declaration::<A, Six<B, C, D, E, F, G, (H, (I, (J, (K, ()))))>>(alloc)
    }

    fn add_definitions_recursively(alloc: Global, map: &mut DefinitionMap) -> SchemaResult<()> {
        add_tuple::<Six<A, B, C, D, E, F, (G, (H, (I, (J, (K, ())))))>>(
            alloc,
            Self::declaration(alloc)?,
            map,
        )
    }

    ghost describes = { λ defs h.
        describes_contramap (λ t. (t.0, (t.1, (t.2, (t.3, (t.4, (t.5, (t.6, (t.7, (t.8, (t.9, t.10)))))))))))
        (describes_parts h.0 (all_more (A.describes defs h.1.0) (all_more (B.describes defs h.1.1.0)
        (all_more (C.describes defs h.1.1.1.0) (all_more (D.describes defs h.1.1.1.1.0)
        (all_more (E.describes defs h.1.1.1.1.1.0) (all_more (F.describes defs h.1.1.1.1.1.1.0)
        (all_more (G.describes defs h.1.1.1.1.1.1.1.0)
        (all_more (H.describes defs h.1.1.1.1.1.1.1.1.0)
        (let h1 = h.1.1.1.1.1.1.1.1.1 in all_more (I.describes defs h1.0)
        (all_more (J.describes defs h1.1.0) (all_one (K.describes defs h1.1.1.0))))))))))))) };
}

impl<
    A: BorshSchema,
    B: BorshSchema,
    C: BorshSchema,
    D: BorshSchema,
    E: BorshSchema,
    F: BorshSchema,
    G: BorshSchema,
    H: BorshSchema,
    I: BorshSchema,
    J: BorshSchema,
    K: BorshSchema,
    L: BorshSchema,
> BorshSchema for (A, B, C, D, E, F, G, H, I, J, K, L) {
    ghost name = { tuple_name
        ⟦<(A, (B, (C, (D, (E, (F, (G, (H, (I, (J, (K, (L, ())))))))))))) as FieldTypes>⟧.described.names };

    ghost parts = { tuple_of
        ⟦<(A, (B, (C, (D, (E, (F, (G, (H, (I, (J, (K, (L, ())))))))))))) as FieldTypes>⟧.described };

    ghost described = { struct_described
        (λ t. (t.0, (t.1, (t.2, (t.3, (t.4, (t.5, (t.6, (t.7, (t.8, (t.9, (t.10, (t.11, tt)))))))))))))
        ⟦<(A, (B, (C, (D, (E, (F, (G, (H, (I, (J, (K, (L, ())))))))))))) as FieldTypes>⟧.described refl };

    fn declaration(alloc: Global) -> SchemaResult<Declaration> {
        tuple_declaration::<A, Six<B, C, D, E, F, G, (H, (I, (J, (K, (L, ())))))>>(alloc)
    }

    fn add_definitions_recursively(alloc: Global, map: &mut DefinitionMap) -> SchemaResult<()> {
        add_tuple::<Six<A, B, C, D, E, F, (G, (H, (I, (J, (K, (L, ()))))))>>(
            alloc,
            Self::declaration(alloc)?,
            map,
        )
    }

    ghost describes = { λ defs h.
        describes_contramap (λ t. (t.0, (t.1, (t.2, (t.3, (t.4, (t.5, (t.6, (t.7, (t.8, (t.9, (t.10, t.11))))))))))))
        (describes_parts h.0 (all_more (A.describes defs h.1.0) (all_more (B.describes defs h.1.1.0)
        (all_more (C.describes defs h.1.1.1.0) (all_more (D.describes defs h.1.1.1.1.0)
        (all_more (E.describes defs h.1.1.1.1.1.0) (all_more (F.describes defs h.1.1.1.1.1.1.0)
        (all_more (G.describes defs h.1.1.1.1.1.1.1.0)
        (all_more (H.describes defs h.1.1.1.1.1.1.1.1.0)
        (let h1 = h.1.1.1.1.1.1.1.1.1 in all_more (I.describes defs h1.0)
        (all_more (J.describes defs h1.1.0) (all_more (K.describes defs h1.1.1.0)
        (all_one (L.describes defs h1.1.1.1.0)))))))))))))) };
}
