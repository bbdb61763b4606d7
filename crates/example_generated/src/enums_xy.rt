// Written by borsh_derive.py from enums.rt: edit that file, and run the program again.
ghost use Rattle.borsh.specs.Derived.{case_described, contramap, enum_definitions, enum_described};
ghost use Rattle.borsh.specs.Derived.{enum_lawful_if, fields, fork_described, key_facts, left};
ghost use Rattle.borsh.specs.Derived.{no_fields_described, right};
ghost use Rattle.std.specs.Prelude.{codes, refl, ⊤, ◌∷◌, [], ◌≡◌};
ghost use Rattle.example_generated.specs.declared.enums.XY.{XY};

use super::enums::XY;
use borsh::derived::*;

/// The variants of [`XY`]: each has a tag and its fields, in order.
type Variants = Fork<
    Fork<Fork<Case<0, ()>, Case<20, ()>>, Case<21, ()>>,
    Fork<Fork<Case<22, (u32, u32)>, Case<10, ()>>, Case<11, u64>>,
>;

impl FromCases for XY {
    type Cases = Variants;

    ghost view = { elim [
      | XY.A ↦ left (left (left (fields tt)))
      | XY.B ↦ left (left (right (fields tt)))
      | XY.C ↦ left (right (fields tt))
      | XY.D part0 part1 ↦ right (left (left (fields (part0, part1))))
      | XY.E ↦ right (left (right (fields tt)))
      | XY.F part0 ↦ right (right (fields part0))
    ] };

    fn from_cases(cases: Variants) -> XY
        ensures { ⊤ → ⟦<XY as FromCases>⟧.view result ≡ cases }
    {
        match cases {
            Fork::Left(Fork::Left(Fork::Left((_, ())))) => XY::A,
            Fork::Left(Fork::Left(Fork::Right((_, ())))) => XY::B,
            Fork::Left(Fork::Right((_, ()))) => XY::C,
            Fork::Right(Fork::Left(Fork::Left((_, fields)))) => {
                let (part0, part1) = fields;
                XY::D(part0, part1)
            }
            Fork::Right(Fork::Left(Fork::Right((_, ())))) => XY::E,
            Fork::Right(Fork::Right((_, part0))) => XY::F(part0),
        }
    }

    ghost distinct_tags = { refl };
}

impl BorshType for XY {
    ghost codec = { contramap ⟦<XY as FromCases>⟧.view ⟦<Variants as Cases>⟧.codec };

    ghost lawful_if = { enum_lawful_if ⟦<XY as FromCases>⟧.view ⟦<Variants as Cases>⟧.variants
        refl };

    ghost premises = { Prim.search key_facts };

    fn encodes_empty() -> bool {
        false
    }

    fn element_size() -> usize {
        size_of::<XY>()
    }
}

impl BorshSerialize for XY {
    fn serialize<W: Write>(&self, alloc: Global, writer: &mut W) -> Result<()> {
        match self {
            XY::A => write_bytes(&[0], writer),
            XY::B => write_bytes(&[20], writer),
            XY::C => write_bytes(&[21], writer),
            XY::D(part0, part1) => write_three(&Tag(22), part0, part1, alloc, writer),
            XY::E => write_bytes(&[10], writer),
            XY::F(part0) => write_two(&Tag(11), part0, alloc, writer),
        }
    }

    fn put(&self, room: &mut [u8]) -> Option<usize> {
        match self {
            XY::A => put_bytes(&[0], room),
            XY::B => put_bytes(&[20], room),
            XY::C => put_bytes(&[21], room),
            XY::D(part0, part1) => put_three(&Tag(22), part0, part1, room),
            XY::E => put_bytes(&[10], room),
            XY::F(part0) => put_two(&Tag(11), part0, room),
        }
    }
}

impl BorshDeserialize for XY {
    fn deserialize_reader<R: Read>(alloc: Global, reader: &mut R) -> Result<XY> {
        read_enum(alloc, reader)
    }
}

impl EnumExt for XY {
    fn deserialize_variant<R: Read>(alloc: Global, reader: &mut R, tag: u8) -> Result<XY> {
        read_variant(alloc, reader, tag)
    }
}

/// The variants of [`XY`] as its schema goes through them.
type VariantList = Fork<
    Fork<Fork<Case<0, ()>, Case<20, ()>>, Case<21, ()>>,
    Fork<Fork<Case<22, (u32, (u32, ()))>, Case<10, ()>>, Case<11, (u64, ())>>,
>;

impl BorshSchema for XY {
    ghost name = { codes "XY" };

    ghost parts = { enum_definitions (codes "XY") ((codes "A", []) ∷ (codes "B", [])
        ∷ (codes "C", []) ∷ (codes "D", []) ∷ (codes "E", []) ∷ (codes "F", []) ∷ [])
        ⟦<VariantList as VariantTypes>⟧.read };

    ghost described = { enum_described ⟦<XY as FromCases>⟧.view (fork_described (fork_described
        (fork_described (case_described (λ _. tt) no_fields_described refl refl) (case_described
        (λ _. tt) no_fields_described refl refl)) (case_described (λ _. tt)
        no_fields_described refl refl)) (fork_described (fork_described (case_described
        (λ v. (v.0, (v.1, tt))) ⟦<(u32, (u32, ())) as FieldTypes>⟧.described refl refl)
        (case_described (λ _. tt) no_fields_described refl refl)) (case_described (λ v. (v, tt))
        ⟦<(u64, ()) as FieldTypes>⟧.described refl refl))) };

    fn declaration(alloc: Global) -> SchemaResult<Declaration> {
        declared(alloc, "XY")
    }

    fn add_definitions_recursively(alloc: Global, map: &mut DefinitionMap) -> SchemaResult<()> {
        const NAMES: &[(&str, &[&str])] = &[
            ("A", &[]),
            ("B", &[]),
            ("C", &[]),
            ("D", &[]),
            ("E", &[]),
            ("F", &[]),
        ];
        add_enum::<VariantList>(alloc, "XY", NAMES, map)
    }

    ghost describes = { Self.described.describes };
}
