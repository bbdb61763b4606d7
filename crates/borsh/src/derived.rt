//! What `derive/borsh_derive.py` names in the implementations that it writes, under one path:
//! `use borsh::derived::*;`. The items are those of the other modules, and names for a few types.
pub use borsh_de::{BorshDeserialize, EnumExt, FromParts, read_parts};
pub use borsh_enums::{Case, Cases, Fork, FromCases, Tag, read_enum, read_variant};
pub use borsh_io::{Read, Result, Write};
pub use borsh_schema::{
    BorshSchema, CaseWith, DefinitionMap, FieldTypes, SchemaResult, VariantTypes, add_enum,
    add_enum_with, add_named, add_named_with, add_unit, add_unnamed, add_unnamed_with, declared,
    declared_with,
};
pub use borsh_ser::{
    BorshSerialize, bytes_length, joined_length, put_bytes, put_eight, put_eleven, put_five,
    put_four, put_nine, put_seven, put_six, put_ten, put_three, put_twelve, put_two, write_bytes,
    write_eight, write_eleven, write_five, write_four, write_nine, write_seven, write_six,
    write_ten, write_three, write_twelve, write_two,
};
pub use borsh_types::{BorshKey, BorshType};
pub use borsh_walks::Declaration;
pub use std::alloc::Global;

/// A tuple of types, and the same types one after another, with others behind them: of `(A, B)` they are `(A, (B, R))`.
pub trait TupleTypes<R> {
    type Chain;
}

/// The types of a tuple one after another, as [`FieldTypes`] goes through them: of `(A, B)` they are `(A, (B, ()))`.
pub type Chain<T> = <T as TupleTypes<()>>::Chain;

/// The same with the types of `R` behind them.
pub type ChainTo<T, R> = <T as TupleTypes<R>>::Chain;

/// A tuple of 2 types.
pub type Tuple2<A, B> = (A, B);

impl<A, B, R> TupleTypes<R> for Tuple2<A, B> {
    type Chain = (A, (B, R));
}

/// A tuple of 3 types.
pub type Tuple3<A, B, C> = (A, B, C);

impl<A, B, C, R> TupleTypes<R> for Tuple3<A, B, C> {
    type Chain = (A, (B, (C, R)));
}

/// A tuple of 4 types.
pub type Tuple4<A, B, C, D> = (A, B, C, D);

impl<A, B, C, D, R> TupleTypes<R> for Tuple4<A, B, C, D> {
    type Chain = (A, (B, (C, (D, R))));
}

/// A tuple of 5 types.
pub type Tuple5<A, B, C, D, E> = (A, B, C, D, E);

impl<A, B, C, D, E, R> TupleTypes<R> for Tuple5<A, B, C, D, E> {
    type Chain = (A, (B, (C, (D, (E, R)))));
}

/// A tuple of 6 types.
pub type Tuple6<A, B, C, D, E, F> = (A, B, C, D, E, F);

impl<A, B, C, D, E, F, R> TupleTypes<R> for Tuple6<A, B, C, D, E, F> {
    type Chain = (A, (B, (C, (D, (E, (F, R))))));
}

/// A tuple of 7 types.
pub type Tuple7<A, B, C, D, E, F, G> = (A, B, C, D, E, F, G);

impl<A, B, C, D, E, F, G, R> TupleTypes<R> for Tuple7<A, B, C, D, E, F, G> {
    type Chain = (A, (B, (C, (D, (E, (F, (G, R)))))));
}

/// A tuple of 8 types.
pub type Tuple8<A, B, C, D, E, F, G, H> = (A, B, C, D, E, F, G, H);

impl<A, B, C, D, E, F, G, H, R> TupleTypes<R> for Tuple8<A, B, C, D, E, F, G, H> {
    type Chain = (A, (B, (C, (D, (E, (F, (G, (H, R))))))));
}

/// A tuple of 9 types.
pub type Tuple9<A, B, C, D, E, F, G, H, I> = (A, B, C, D, E, F, G, H, I);

impl<A, B, C, D, E, F, G, H, I, R> TupleTypes<R> for Tuple9<A, B, C, D, E, F, G, H, I> {
    type Chain = (A, (B, (C, (D, (E, (F, (G, (H, (I, R)))))))));
}

/// A tuple of 10 types.
pub type Tuple10<A, B, C, D, E, F, G, H, I, J> = (A, B, C, D, E, F, G, H, I, J);

impl<A, B, C, D, E, F, G, H, I, J, R> TupleTypes<R> for Tuple10<A, B, C, D, E, F, G, H, I, J> {
    type Chain = (A, (B, (C, (D, (E, (F, (G, (H, (I, (J, R))))))))));
}

/// A tuple of 11 types.
pub type Tuple11<A, B, C, D, E, F, G, H, I, J, K> = (A, B, C, D, E, F, G, H, I, J, K);

impl<A, B, C, D, E, F, G, H, I, J, K, R> TupleTypes<R>
    for Tuple11<A, B, C, D, E, F, G, H, I, J, K> {
    type Chain = (A, (B, (C, (D, (E, (F, (G, (H, (I, (J, (K, R)))))))))));
}

/// A tuple of 12 types.
pub type Tuple12<A, B, C, D, E, F, G, H, I, J, K, L> = (A, B, C, D, E, F, G, H, I, J, K, L);

impl<A, B, C, D, E, F, G, H, I, J, K, L, R> TupleTypes<R>
    for Tuple12<A, B, C, D, E, F, G, H, I, J, K, L> {
    type Chain = (A, (B, (C, (D, (E, (F, (G, (H, (I, (J, (K, (L, R))))))))))));
}
