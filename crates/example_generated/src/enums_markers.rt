// Written by borsh_derive.py from enums.rt: edit that file, and run the program again.
ghost use Rattle.borsh.specs.Derived.{case_described, contramap, enum_definitions, enum_described};
ghost use Rattle.borsh.specs.Derived.{enum_lawful_if, fields, key_facts};
ghost use Rattle.std.specs.Prelude.{codes, refl, ⊤, ◌∷◌, [], ◌≡◌};
ghost use Rattle.example_generated.specs.declared.enums.Markers.{Markers};

use super::enums::Markers;
use borsh::derived::*;
use std::marker::PhantomData;

/// The variants of [`Markers`]: each has a tag and its fields, in order.
type Variants<T, U> = Case<0, (PhantomData<T>, PhantomData<U>)>;

impl<T, U> FromCases for Markers<T, U> {
    type Cases = Variants<T, U>;

    ghost view = { elim [ Markers.Both part0 part1 ↦ fields (part0, part1) ] };

    fn from_cases(cases: Variants<T, U>) -> Markers<T, U>
        ensures { ⊤ → ⟦<Markers<T, U> as FromCases>⟧.view result ≡ cases }
    {
        match cases {
            (_, fields) => {
                let (part0, part1) = fields;
                Markers::Both(part0, part1)
            }
        }
    }

    ghost distinct_tags = { refl };
}

impl<T, U> BorshType for Markers<T, U> {
    ghost codec = { contramap ⟦<Markers<T, U> as FromCases>⟧.view
        ⟦<Variants<T, U> as Cases>⟧.codec };

    ghost lawful_if = { enum_lawful_if ⟦<Markers<T, U> as FromCases>⟧.view
        ⟦<Variants<T, U> as Cases>⟧.variants refl };

    ghost premises = { Prim.search key_facts };

    fn encodes_empty() -> bool {
        false
    }

    fn element_size() -> usize {
        <Variants<T, U>>::element_size()
    }
}

impl<T, U> BorshSerialize for Markers<T, U> {
    fn serialize<W: Write>(&self, alloc: Global, writer: &mut W) -> Result<()> {
        match self {
            Markers::Both(part0, part1) => write_three(&Tag(0), part0, part1, alloc, writer),
        }
    }

    fn put(&self, room: &mut [u8]) -> Option<usize> {
        match self {
            Markers::Both(part0, part1) => put_three(&Tag(0), part0, part1, room),
        }
    }
}

impl<T, U> BorshDeserialize for Markers<T, U> {
    fn deserialize_reader<R: Read>(alloc: Global, reader: &mut R) -> Result<Markers<T, U>> {
        read_enum(alloc, reader)
    }
}

impl<T, U> EnumExt for Markers<T, U> {
    fn deserialize_variant<R: Read>(
        alloc: Global,
        reader: &mut R,
        tag: u8,
    ) -> Result<Markers<T, U>> {
        read_variant(alloc, reader, tag)
    }
}

/// The variants of [`Markers`] as its schema goes through them.
type VariantList<T, U> = Case<0, (PhantomData<T>, (PhantomData<U>, ()))>;

impl<T, U> BorshSchema for Markers<T, U> {
    ghost name = { codes "Markers" };

    ghost parts = { enum_definitions (codes "Markers") ((codes "Both", []) ∷ [])
        ⟦<VariantList<T, U> as VariantTypes>⟧.read };

    ghost described = { enum_described ⟦<Markers<T, U> as FromCases>⟧.view (case_described
        (λ v. (v.0, (v.1, tt)))
        ⟦<(PhantomData<T>, (PhantomData<U>, ())) as FieldTypes>⟧.described refl refl) };

    fn declaration(alloc: Global) -> SchemaResult<Declaration> {
        declared(alloc, "Markers")
    }

    fn add_definitions_recursively(alloc: Global, map: &mut DefinitionMap) -> SchemaResult<()> {
        const NAMES: &[(&str, &[&str])] = &[("Both", &[])];
        add_enum::<VariantList<T, U>>(alloc, "Markers", NAMES, map)
    }

    ghost describes = { Self.described.describes };
}
