// Written by borsh_derive.py from generics.rt: edit that file, and run the program again.
ghost use Rattle.borsh.specs.Derived.{all_more, all_one, choice_more, choice_none, contramap};
ghost use Rattle.borsh.specs.Derived.{contramap-lawful, describes_choice, describes_contramap};
ghost use Rattle.borsh.specs.Derived.{describes_elements, describes_ordered, describes_parts};
ghost use Rattle.borsh.specs.Derived.{describes_refused_if, describes_row, describes_stored};
ghost use Rattle.borsh.specs.Derived.{describes_unit, first_variant, from, key_facts};
ghost use Rattle.borsh.specs.Derived.{later_variant, name_with, named_described, option_view};
ghost use Rattle.borsh.specs.Derived.{result_view, struct_parts};
ghost use Rattle.std.specs.Prelude.{codes, refl, ◌∷◌, []};

use super::generics::Held;
use borsh::derived::{
    BorshDeserialize, BorshSchema, BorshSerialize, BorshType, Chain, Declaration, DefinitionMap,
    FieldTypes, FromParts, Global, Read, SchemaResult, Tuple5, Write, add_named_with,
    declared_with, read_parts, write_five,
};
use std::collections::{BTreeMap, LinkedList, VecDeque};
use std::marker::PhantomData;
use std::rc::Rc;

/// The fields of [`Held`], in order.
type Fields<T, M> = Tuple5<
    [Vec<T>; 2],
    BTreeMap<u32, Option<T>>,
    Result<Box<T>, VecDeque<T>>,
    (LinkedList<T>, Rc<T>),
    PhantomData<M>,
>;

impl<T: BorshType, M> BorshType for Held<T, M>
where
    T: Clone,
{
    ghost codec = { contramap (λ v. (v.rows, v.map, v.way, v.pair, v.mark))
        ⟦<Fields<T, M> as BorshType>⟧.codec };

    ghost lawful_if = { from (contramap-lawful (λ v. (v.rows, v.map, v.way, v.pair, v.mark)))
        ⟦<Fields<T, M> as BorshType>⟧.lawful_if };

    ghost premises = { Prim.search (key_facts, T.premises) };

    fn encodes_empty() -> bool {
        <Fields<T, M>>::encodes_empty()
    }

    fn element_size() -> usize {
        <Fields<T, M>>::element_size()
    }
}

impl<T: BorshSerialize, M> BorshSerialize for Held<T, M>
where
    T: Clone,
{
    fn serialize<W: Write>(&self, alloc: Global, writer: &mut W) -> borsh::derived::Result<()> {
        write_five(
            &self.rows, &self.map, &self.way, &self.pair, &self.mark, alloc, writer,
        )
    }
}

impl<T: BorshDeserialize, M> FromParts for Held<T, M>
where
    T: Clone,
{
    type Parts = Fields<T, M>;

    ghost view = { λ v. (v.rows, v.map, v.way, v.pair, v.mark) };

    fn from_parts((rows, map, way, pair, mark): Fields<T, M>) -> Held<T, M> {
        Held {
            rows,
            map,
            way,
            pair,
            mark,
        }
    }
}

impl<T: BorshDeserialize, M> BorshDeserialize for Held<T, M>
where
    T: Clone,
{
    fn deserialize_reader<R: Read>(
        alloc: Global,
        reader: &mut R,
    ) -> borsh::derived::Result<Held<T, M>> {
        read_parts(alloc, reader)
    }

    fn width() -> usize {
        0
    }
}

impl<T: BorshSchema, M> BorshSchema for Held<T, M>
where
    T: Clone,
{
    ghost name = { name_with (codes "Held") T.name [] };

    ghost parts = { struct_parts (name_with (codes "Held") T.name [])
        (codes "rows" ∷ codes "map" ∷ codes "way" ∷ codes "pair" ∷ codes "mark" ∷ [])
        ⟦<Chain<Fields<T, M>> as FieldTypes>⟧.described };

    ghost described = { named_described (λ v. (v.rows, (v.map, (v.way, (v.pair, (v.mark, tt))))))
        (codes "rows" ∷ codes "map" ∷ codes "way" ∷ codes "pair" ∷ codes "mark" ∷ [])
        ⟦<Chain<Fields<T, M>> as FieldTypes>⟧.described refl };

    fn declaration(alloc: Global) -> SchemaResult<Declaration> {
        declared_with::<T, ()>(alloc, "Held")
    }

    fn add_definitions_recursively(alloc: Global, map: &mut DefinitionMap) -> SchemaResult<()> {
        const NAMES: &[&str] = &["rows", "map", "way", "pair", "mark"];
        add_named_with::<T, (), Chain<Fields<T, M>>>(alloc, "Held", NAMES, map)
    }

    ghost describes = { λ defs held. describes_contramap
        (λ v. (v.rows, (v.map, (v.way, (v.pair, v.mark))))) (describes_parts held.0 (all_more
        (describes_row 2 held.1.0.0 (describes_contramap (λ list. list.items) (describes_elements
        held.1.0.1.0.0 (T.describes defs held.1.0.1.0.1.0)))) (all_more (describes_contramap
        (λ map. map.entries) (describes_refused_if ⟦<u32 as BorshType>⟧.codec.is_zero_width
        (describes_ordered ⟦<u32 as Ord>⟧.cmp held.1.1.0.0 (describes_parts held.1.1.0.1.0.0
        (all_more (⟦<u32 as BorshSchema>⟧.described.describes defs held.1.1.0.1.0.1.0) (all_one
        (describes_contramap option_view (describes_choice held.1.1.0.1.0.1.1.0.0 (choice_more
        first_variant refl (describes_unit held.1.1.0.1.0.1.1.0.1.1.0.0) (choice_more
        (later_variant first_variant) refl (T.describes defs held.1.1.0.1.0.1.1.0.1.0)
        choice_none)))))))))) (all_more (describes_contramap result_view (describes_choice
        held.1.1.1.0.0 (choice_more (later_variant first_variant) refl (describes_contramap
        (λ list. list.items) (describes_elements held.1.1.1.0.1.1.0.0 (T.describes defs
        held.1.1.1.0.1.1.0.1.0))) (choice_more first_variant refl (describes_contramap
        (λ boxed. boxed.value) (describes_stored (T.describes defs held.1.1.1.0.1.0)))
        choice_none)))) (all_more (describes_contramap (λ tuple. (tuple.0, tuple.1))
        (describes_parts held.1.1.1.1.0.0 (all_more (describes_elements held.1.1.1.1.0.1.0.0
        (T.describes defs held.1.1.1.1.0.1.0.1.0)) (all_one (describes_contramap
        (λ boxed. boxed.value) (describes_stored (T.describes defs held.1.1.1.1.0.1.1.0)))))))
        (all_one (⟦<PhantomData<M> as BorshSchema>⟧.described.describes defs
        held.1.1.1.1.1.0))))))) };
}
