// Written by borsh_derive.py from enums.rt: edit that file, and run the program again.
ghost use Rattle.borsh.specs.Derived.{case_described, contramap, enum_definitions, enum_described};
ghost use Rattle.borsh.specs.Derived.{enum_lawful_if, fields, fork_described, key_facts, left};
ghost use Rattle.borsh.specs.Derived.{no_fields_described, right};
ghost use Rattle.std.specs.Prelude.{codes, refl, ⊤, ◌∷◌, [], ◌≡◌};
ghost use Rattle.example_generated.specs.declared.enums.Message.{Message};

use super::enums::Message;
use super::records::Session;
use borsh::derived::*;

/// The variants of [`Message`]: each has a tag and its fields, in order.
type Variants = Fork<
    Fork<Fork<Case<0, ()>, Case<1, String>>, Fork<Case<2, (i32, i32)>, Case<3, (u8, Session)>>>,
    Fork<Fork<Case<4, [u8; 4]>, Case<5, u16>>, Fork<Case<6, u8>, Case<7, ()>>>,
>;

impl FromCases for Message {
    type Cases = Variants;

    ghost view = { elim [
      | Message.Ping ↦ left (left (left (fields tt)))
      | Message.Text part0 ↦ left (left (right (fields part0)))
      | Message.Move x y ↦ left (right (left (fields (x, y))))
      | Message.Open part0 part1 ↦ left (right (right (fields (part0, part1))))
      | Message.Tagged part0 ↦ right (left (left (fields part0)))
      | Message.Run id _ ↦ right (left (right (fields id)))
      | Message.Wait part0 _ ↦ right (right (left (fields part0)))
      | Message.Stop _ ↦ right (right (right (fields tt)))
    ] };

    fn from_cases(cases: Variants) -> Message
        ensures { ⊤ → ⟦<Message as FromCases>⟧.view result ≡ cases }
    {
        match cases {
            Fork::Left(Fork::Left(Fork::Left((_, ())))) => Message::Ping,
            Fork::Left(Fork::Left(Fork::Right((_, part0)))) => Message::Text(part0),
            Fork::Left(Fork::Right(Fork::Left((_, fields)))) => {
                let (x, y) = fields;
                Message::Move { x, y }
            }
            Fork::Left(Fork::Right(Fork::Right((_, fields)))) => {
                let (part0, part1) = fields;
                Message::Open(part0, part1)
            }
            Fork::Right(Fork::Left(Fork::Left(case))) => {
                let part0 = case.1;
                Message::Tagged(part0)
            }
            Fork::Right(Fork::Left(Fork::Right((_, id)))) => Message::Run {
                id,
                attempts: Default::default(),
            },
            Fork::Right(Fork::Right(Fork::Left((_, part0)))) => Message::Wait(
                part0,
                Default::default(),
            ),
            Fork::Right(Fork::Right(Fork::Right((_, ())))) => Message::Stop {
                reason: Default::default(),
            },
        }
    }

    ghost distinct_tags = { refl };
}

impl BorshType for Message {
    ghost codec = { contramap ⟦<Message as FromCases>⟧.view ⟦<Variants as Cases>⟧.codec };

    ghost lawful_if = { enum_lawful_if ⟦<Message as FromCases>⟧.view ⟦<Variants as Cases>⟧.variants
        refl };

    ghost premises = { Prim.search key_facts };

    fn encodes_empty() -> bool {
        false
    }

    fn element_size() -> usize {
        size_of::<Message>()
    }
}

impl BorshSerialize for Message {
    fn serialize<W: Write>(&self, alloc: Global, writer: &mut W) -> Result<()> {
        let mut room = [0u8; 256];
        if let Some(n) = self.put(&mut room) {
            return write_bytes(&room[..n], writer);
        }
        match self {
            Message::Ping => write_bytes(&[0], writer),
            Message::Text(part0) => write_two(&Tag(1), part0, alloc, writer),
            Message::Move { x, y } => write_three(&Tag(2), x, y, alloc, writer),
            Message::Open(part0, part1) => write_three(&Tag(3), part0, part1, alloc, writer),
            Message::Tagged(part0) => write_two(&Tag(4), part0, alloc, writer),
            Message::Run { id, .. } => write_two(&Tag(5), id, alloc, writer),
            Message::Wait(part0, _) => write_two(&Tag(6), part0, alloc, writer),
            Message::Stop { .. } => write_bytes(&[7], writer),
        }
    }

    fn put(&self, room: &mut [u8]) -> Option<usize> {
        match self {
            Message::Ping => put_bytes(&[0], room),
            Message::Text(part0) => put_two(&Tag(1), part0, room),
            Message::Move { x, y } => put_three(&Tag(2), x, y, room),
            Message::Open(part0, part1) => put_three(&Tag(3), part0, part1, room),
            Message::Tagged(part0) => put_two(&Tag(4), part0, room),
            Message::Run { id, .. } => put_two(&Tag(5), id, room),
            Message::Wait(part0, _) => put_two(&Tag(6), part0, room),
            Message::Stop { .. } => put_bytes(&[7], room),
        }
    }
}

impl BorshDeserialize for Message {
    fn deserialize_reader<R: Read>(alloc: Global, reader: &mut R) -> Result<Message> {
        read_enum(alloc, reader)
    }
}

impl EnumExt for Message {
    fn deserialize_variant<R: Read>(alloc: Global, reader: &mut R, tag: u8) -> Result<Message> {
        read_variant(alloc, reader, tag)
    }
}

/// The variants of [`Message`] as its schema goes through them.
type VariantList = Fork<
    Fork<
        Fork<Case<0, ()>, Case<1, (String, ())>>,
        Fork<Case<2, (i32, (i32, ()))>, Case<3, (u8, (Session, ()))>>,
    >,
    Fork<Fork<Case<4, ([u8; 4], ())>, Case<5, (u16, ())>>, Fork<Case<6, (u8, ())>, Case<7, ()>>>,
>;

impl BorshSchema for Message {
    ghost name = { codes "Message" };

    ghost parts = { enum_definitions (codes "Message") ((codes "Ping", []) ∷ (codes "Text", [])
        ∷ (codes "Move", codes "x" ∷ codes "y" ∷ []) ∷ (codes "Open", []) ∷ (codes "Tagged", [])
        ∷ (codes "Run", codes "id" ∷ []) ∷ (codes "Wait", []) ∷ (codes "Stop", []) ∷ [])
        ⟦<VariantList as VariantTypes>⟧.read };

    ghost described = { enum_described ⟦<Message as FromCases>⟧.view (fork_described (fork_described
        (fork_described (case_described (λ _. tt) no_fields_described refl refl) (case_described
        (λ v. (v, tt)) ⟦<(String, ()) as FieldTypes>⟧.described refl refl)) (fork_described
        (case_described (λ v. (v.0, (v.1, tt)))
        ⟦<(i32, (i32, ())) as FieldTypes>⟧.described refl refl) (case_described
        (λ v. (v.0, (v.1, tt))) ⟦<(u8, (Session, ())) as FieldTypes>⟧.described refl refl)))
        (fork_described (fork_described (case_described (λ v. (v, tt))
        ⟦<([u8; 4], ()) as FieldTypes>⟧.described refl refl) (case_described (λ v. (v, tt))
        ⟦<(u16, ()) as FieldTypes>⟧.described refl refl)) (fork_described (case_described
        (λ v. (v, tt)) ⟦<(u8, ()) as FieldTypes>⟧.described refl refl) (case_described (λ _. tt)
        no_fields_described refl refl)))) };

    fn declaration(alloc: Global) -> SchemaResult<Declaration> {
        declared(alloc, "Message")
    }

    fn add_definitions_recursively(alloc: Global, map: &mut DefinitionMap) -> SchemaResult<()> {
        const NAMES: &[(&str, &[&str])] = &[
            ("Ping", &[]),
            ("Text", &[]),
            ("Move", &["x", "y"]),
            ("Open", &[]),
            ("Tagged", &[]),
            ("Run", &["id"]),
            ("Wait", &[]),
            ("Stop", &[]),
        ];
        add_enum::<VariantList>(alloc, "Message", NAMES, map)
    }

    ghost describes = { Self.described.describes };
}
