// Written by borsh_derive.py from enums.rt: edit that file, and run the program again.
ghost use Rattle.borsh.specs.Derived.{all_more, all_none, all_one, case_described, case_in};
ghost use Rattle.borsh.specs.Derived.{choice_more, choice_none, contramap, describes_choice};
ghost use Rattle.borsh.specs.Derived.{describes_contramap, describes_enum, describes_parts};
ghost use Rattle.borsh.specs.Derived.{describes_unit, enum_definitions_as, enum_described};
ghost use Rattle.borsh.specs.Derived.{enum_lawful_if, fields, first_variant, fork_described};
ghost use Rattle.borsh.specs.Derived.{fork_in, key_facts, later_variant, left, name_with};
ghost use Rattle.borsh.specs.Derived.{no_fields_described, option_view, right};
ghost use Rattle.std.specs.Prelude.{codes, refl, ⊤, ◌∷◌, [], ◌≡◌};
ghost use Rattle.example_generated.specs.declared.enums.Either.{Either};

use super::enums::Either;
use borsh::derived::*;

/// The variants of [`Either`]: each has a tag and its fields, in order.
type Variants<A, B> = Fork<Fork<Case<0, ()>, Case<1, A>>, Case<2, (B, Option<A>)>>;

impl<A: BorshType, B: BorshType> FromCases for Either<A, B> {
    type Cases = Variants<A, B>;

    ghost view = { elim [
      | Either.Neither ↦ left (left (fields tt))
      | Either.Left part0 ↦ left (right (fields part0))
      | Either.Right of with ↦ right (fields (of, with))
    ] };

    fn from_cases(cases: Variants<A, B>) -> Either<A, B>
        ensures { ⊤ → ⟦<Either<A, B> as FromCases>⟧.view result ≡ cases }
    {
        match cases {
            Fork::Left(Fork::Left((_, ()))) => Either::Neither,
            Fork::Left(Fork::Right((_, part0))) => Either::Left(part0),
            Fork::Right((_, fields)) => {
                let (of, with) = fields;
                Either::Right { of, with }
            }
        }
    }

    ghost distinct_tags = { refl };
}

impl<A: BorshType, B: BorshType> BorshType for Either<A, B> {
    ghost codec = { contramap ⟦<Either<A, B> as FromCases>⟧.view
        ⟦<Variants<A, B> as Cases>⟧.codec };

    ghost lawful_if = { enum_lawful_if ⟦<Either<A, B> as FromCases>⟧.view
        ⟦<Variants<A, B> as Cases>⟧.variants refl };

    ghost premises = { Prim.search (key_facts, A.premises, B.premises) };

    fn encodes_empty() -> bool {
        false
    }

    fn element_size() -> usize {
        <Variants<A, B>>::element_size()
    }
}

impl<A: BorshSerialize, B: BorshSerialize> BorshSerialize for Either<A, B> {
    fn serialize<W: Write>(&self, alloc: Global, writer: &mut W) -> Result<()> {
        match self {
            Either::Neither => write_bytes(&[0], writer),
            Either::Left(part0) => write_two(&Tag(1), part0, alloc, writer),
            Either::Right { of, with } => write_three(&Tag(2), of, with, alloc, writer),
        }
    }

    fn put(&self, room: &mut [u8]) -> Option<usize> {
        match self {
            Either::Neither => put_bytes(&[0], room),
            Either::Left(part0) => put_two(&Tag(1), part0, room),
            Either::Right { of, with } => put_three(&Tag(2), of, with, room),
        }
    }
}

impl<A: BorshDeserialize, B: BorshDeserialize> BorshDeserialize for Either<A, B> {
    fn deserialize_reader<R: Read>(alloc: Global, reader: &mut R) -> Result<Either<A, B>> {
        read_enum(alloc, reader)
    }
}

impl<A: BorshDeserialize, B: BorshDeserialize> EnumExt for Either<A, B> {
    fn deserialize_variant<R: Read>(
        alloc: Global,
        reader: &mut R,
        tag: u8,
    ) -> Result<Either<A, B>> {
        read_variant(alloc, reader, tag)
    }
}

/// The variants of [`Either`] as its schema goes through them.
type VariantList<A, B> = Fork<
    Fork<Case<0, ()>, CaseWith<1, A, (), (A, ())>>,
    CaseWith<2, A, (B, ()), (B, (Option<A>, ()))>,
>;

impl<A: BorshSchema, B: BorshSchema> BorshSchema for Either<A, B> {
    ghost name = { name_with (codes "Either") A.name (B.name ∷ []) };

    ghost parts = { enum_definitions_as (name_with (codes "Either") A.name (B.name ∷ []))
        (codes "Either") ((codes "Neither", []) ∷ (codes "Left", [])
        ∷ (codes "Right", codes "of" ∷ codes "with" ∷ []) ∷ [])
        ⟦<VariantList<A, B> as VariantTypes>⟧.read };

    ghost described = { enum_described ⟦<Either<A, B> as FromCases>⟧.view (fork_described
        (fork_described (case_described (λ _. tt) no_fields_described refl refl) (case_described
        (λ v. (v, tt)) ⟦<(A, ()) as FieldTypes>⟧.described refl refl)) (case_described
        (λ v. (v.0, (v.1, tt))) ⟦<(B, (Option<A>, ())) as FieldTypes>⟧.described refl refl)) };

    fn declaration(alloc: Global) -> SchemaResult<Declaration> {
        declared_with::<A, (B, ())>(alloc, "Either")
    }

    fn add_definitions_recursively(alloc: Global, map: &mut DefinitionMap) -> SchemaResult<()> {
        const NAMES: &[(&str, &[&str])] = &[
            ("Neither", &[]),
            ("Left", &[]),
            ("Right", &["of", "with"]),
        ];
        add_enum_with::<A, (B, ()), VariantList<A, B>>(alloc, "Either", NAMES, map)
    }

    ghost describes = { λ defs held. describes_enum ⟦<Either<A, B> as FromCases>⟧.view held.0
        (fork_in (fork_in (case_in refl (describes_parts held.1.0.0.0 all_none)) (case_in refl
        (describes_parts held.1.0.1.0 (all_one (A.describes defs held.1.0.1.1.0))))) (case_in refl
        (describes_contramap (λ v. (v.0, v.1)) (describes_parts held.1.1.0 (all_more (B.describes
        defs held.1.1.1.0) (all_one (describes_contramap option_view (describes_choice
        held.1.1.1.1.0.0 (choice_more first_variant refl (describes_unit held.1.1.1.1.0.1.1.0.0)
        (choice_more (later_variant first_variant) refl (A.describes defs held.1.1.1.1.0.1.0)
        choice_none)))))))))) };
}
