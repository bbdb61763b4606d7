// Written by borsh_derive.py from readme.rt: edit that file, and run the program again.
ghost use Rattle.borsh.specs.Derived.{all_more, all_one, contramap, contramap-lawful};
ghost use Rattle.borsh.specs.Derived.{describes_contramap, describes_parts, from, key_facts};
ghost use Rattle.borsh.specs.Derived.{name_with, named_described, struct_parts};
ghost use Rattle.std.specs.Prelude.{codes, refl, ◌∷◌, []};

use super::readme::Pair;
use borsh::derived::*;

/// The fields of [`Pair`], in order.
type Fields<A, B> = (A, B);

impl<A: BorshType, B: BorshType> BorshType for Pair<A, B> {
    ghost codec = { contramap (λ v. (v.first, v.second)) ⟦<Fields<A, B> as BorshType>⟧.codec };

    ghost lawful_if = { from (contramap-lawful (λ v. (v.first, v.second)))
        ⟦<Fields<A, B> as BorshType>⟧.lawful_if };

    ghost premises = { Prim.search (key_facts, A.premises, B.premises) };

    fn encodes_empty() -> bool {
        <Fields<A, B>>::encodes_empty()
    }

    fn element_size() -> usize {
        <Fields<A, B>>::element_size()
    }
}

impl<A: BorshSerialize, B: BorshSerialize> BorshSerialize for Pair<A, B> {
    fn serialize<W: Write>(&self, alloc: Global, writer: &mut W) -> Result<()> {
        write_two(&self.first, &self.second, alloc, writer)
    }

    fn put(&self, room: &mut [u8]) -> Option<usize> {
        put_two(&self.first, &self.second, room)
    }

    fn encoded_length(&self) -> Option<u32> {
        let fields = (&self.first, &self.second);
        fields.encoded_length()
    }
}

impl<A: BorshDeserialize, B: BorshDeserialize> FromParts for Pair<A, B> {
    type Parts = Fields<A, B>;

    ghost view = { λ v. (v.first, v.second) };

    fn from_parts((first, second): Fields<A, B>) -> Pair<A, B> {
        Pair { first, second }
    }
}

impl<A: BorshDeserialize, B: BorshDeserialize> BorshDeserialize for Pair<A, B> {
    fn deserialize_reader<R: Read>(alloc: Global, reader: &mut R) -> Result<Pair<A, B>> {
        read_parts(alloc, reader)
    }
}

impl<A: BorshSchema, B: BorshSchema> BorshSchema for Pair<A, B> {
    ghost name = { name_with (codes "Pair") A.name (B.name ∷ []) };

    ghost parts = { struct_parts (name_with (codes "Pair") A.name (B.name ∷ []))
        (codes "first" ∷ codes "second" ∷ []) ⟦<Chain<Fields<A, B>> as FieldTypes>⟧.described };

    ghost described = { named_described (λ v. (v.first, (v.second, tt)))
        (codes "first" ∷ codes "second" ∷ []) ⟦<Chain<Fields<A, B>> as FieldTypes>⟧.described
        refl };

    fn declaration(alloc: Global) -> SchemaResult<Declaration> {
        declared_with::<A, (B, ())>(alloc, "Pair")
    }

    fn add_definitions_recursively(alloc: Global, map: &mut DefinitionMap) -> SchemaResult<()> {
        const NAMES: &[&str] = &["first", "second"];
        add_named_with::<A, (B, ()), Chain<Fields<A, B>>>(alloc, "Pair", NAMES, map)
    }

    ghost describes = { λ defs held. describes_contramap (λ v. (v.first, v.second)) (describes_parts
        held.0 (all_more (A.describes defs held.1.0) (all_one (B.describes defs held.1.1.0)))) };
}
