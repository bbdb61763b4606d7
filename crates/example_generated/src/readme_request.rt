// Written by borsh_derive.py from readme.rt: edit that file, and run the program again.
ghost use Rattle.borsh.specs.Derived.{case_described, contramap, enum_definitions, enum_described};
ghost use Rattle.borsh.specs.Derived.{enum_lawful_if, fields, fork_described, key_facts, left};
ghost use Rattle.borsh.specs.Derived.{no_fields_described, right};
ghost use Rattle.std.specs.Prelude.{codes, refl, ⊤, ◌∷◌, [], ◌≡◌};
ghost use Rattle.example_generated.specs.declared.readme.Request.{Request};

use super::readme::Request;
use borsh::derived::*;

/// The variants of [`Request`]: each has a tag and its fields, in order.
type Variants = Fork<Fork<Case<0, ()>, Case<1, (String, u32, u32)>>, Case<2, u64>>;

impl FromCases for Request {
    type Cases = Variants;

    ghost view = { elim [
      | Request.List ↦ left (left (fields tt))
      | Request.Buy name pieces price ↦ left (right (fields (name, pieces, price)))
      | Request.Cancel number ↦ right (fields number)
    ] };

    fn from_cases(cases: Variants) -> Request
        ensures { ⊤ → ⟦<Request as FromCases>⟧.view result ≡ cases }
    {
        match cases {
            Fork::Left(Fork::Left((_, ()))) => Request::List,
            Fork::Left(Fork::Right((_, fields))) => {
                let (name, pieces, price) = fields;
                Request::Buy {
                    name,
                    pieces,
                    price,
                }
            }
            Fork::Right((_, number)) => Request::Cancel { number },
        }
    }

    ghost distinct_tags = { refl };
}

impl BorshType for Request {
    ghost codec = { contramap ⟦<Request as FromCases>⟧.view ⟦<Variants as Cases>⟧.codec };

    ghost lawful_if = { enum_lawful_if ⟦<Request as FromCases>⟧.view ⟦<Variants as Cases>⟧.variants
        refl };

    ghost premises = { Prim.search key_facts };

    fn encodes_empty() -> bool {
        false
    }

    fn element_size() -> usize {
        size_of::<Request>()
    }
}

impl BorshSerialize for Request {
    fn serialize<W: Write>(&self, alloc: Global, writer: &mut W) -> Result<()> {
        let mut room = [0u8; 256];
        if let Some(n) = self.put(&mut room) {
            return write_bytes(&room[..n], writer);
        }
        match self {
            Request::List => write_bytes(&[0], writer),
            Request::Buy {
                name,
                pieces,
                price,
            } => write_four(&Tag(1), name, pieces, price, alloc, writer),
            Request::Cancel { number } => write_two(&Tag(2), number, alloc, writer),
        }
    }

    fn put(&self, room: &mut [u8]) -> Option<usize> {
        match self {
            Request::List => put_bytes(&[0], room),
            Request::Buy {
                name,
                pieces,
                price,
            } => put_four(&Tag(1), name, pieces, price, room),
            Request::Cancel { number } => put_two(&Tag(2), number, room),
        }
    }
}

impl BorshDeserialize for Request {
    fn deserialize_reader<R: Read>(alloc: Global, reader: &mut R) -> Result<Request> {
        read_enum(alloc, reader)
    }
}

impl EnumExt for Request {
    fn deserialize_variant<R: Read>(alloc: Global, reader: &mut R, tag: u8) -> Result<Request> {
        read_variant(alloc, reader, tag)
    }
}

/// The variants of [`Request`] as its schema goes through them.
type VariantList = Fork<Fork<Case<0, ()>, Case<1, (String, (u32, (u32, ())))>>, Case<2, (u64, ())>>;

impl BorshSchema for Request {
    ghost name = { codes "Request" };

    ghost parts = { enum_definitions (codes "Request") ((codes "List", [])
        ∷ (codes "Buy", codes "name" ∷ codes "pieces" ∷ codes "price" ∷ [])
        ∷ (codes "Cancel", codes "number" ∷ []) ∷ []) ⟦<VariantList as VariantTypes>⟧.read };

    ghost described = { enum_described ⟦<Request as FromCases>⟧.view (fork_described (fork_described
        (case_described (λ _. tt) no_fields_described refl refl) (case_described
        (λ v. (v.0, (v.1, (v.2, tt))))
        ⟦<(String, (u32, (u32, ()))) as FieldTypes>⟧.described refl refl)) (case_described
        (λ v. (v, tt)) ⟦<(u64, ()) as FieldTypes>⟧.described refl refl)) };

    fn declaration(alloc: Global) -> SchemaResult<Declaration> {
        declared(alloc, "Request")
    }

    fn add_definitions_recursively(alloc: Global, map: &mut DefinitionMap) -> SchemaResult<()> {
        const NAMES: &[(&str, &[&str])] = &[
            ("List", &[]),
            ("Buy", &["name", "pieces", "price"]),
            ("Cancel", &["number"]),
        ];
        add_enum::<VariantList>(alloc, "Request", NAMES, map)
    }

    ghost describes = { Self.described.describes };
}
