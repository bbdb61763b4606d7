// Written by borsh_derive.py from records.rt: edit that file, and run the program again.
ghost use Rattle.borsh.specs.Derived.{contramap, contramap-lawful, fields, from, groups_described};
ghost use Rattle.borsh.specs.Derived.{key_facts, more_groups, no_groups, unnamed_described};
ghost use Rattle.borsh.specs.Derived.{unnamed_struct};
ghost use Rattle.std.specs.Prelude.{codes, ⊤, ◌≡◌};

use super::records::Panel;
use borsh::derived::*;

/// The fields of [`Panel`], in order.
type Fields = (Part1Fields, Part2Fields);

impl BorshType for Panel {
    ghost codec = { contramap ⟦<Panel as FromParts>⟧.view ⟦<Fields as BorshType>⟧.codec };

    ghost lawful_if = { from (contramap-lawful ⟦<Panel as FromParts>⟧.view)
        ⟦<Fields as BorshType>⟧.lawful_if };

    ghost premises = { Prim.search key_facts };

    fn encodes_empty() -> bool {
        false
    }

    fn element_size() -> usize {
        size_of::<Panel>()
    }
}

/// Fields of [`Panel`], in order.
type Part1Fields = (u8, u16, u32, u64, i8, i16, i32, i64, bool, u8, String);

/// Fields of [`Panel`], which are written as one part.
#[derive(Drop)]
struct Part1<'a>(&'a Panel);

impl<'a> BorshType for Part1<'a> {
    ghost codec = { contramap (λ r. (⟦<Panel as FromParts>⟧.view r.0.now).0)
        ⟦<Part1Fields as BorshType>⟧.codec };

    ghost lawful_if = { from (contramap-lawful (λ r. (⟦<Panel as FromParts>⟧.view r.0.now).0))
        ⟦<Part1Fields as BorshType>⟧.lawful_if };

    ghost premises = { Prim.search key_facts };

    fn encodes_empty() -> bool
        ensures { result ≡ ⟦<Part1Fields as BorshType>⟧.codec.is_zero_width }
    {
        false
    }

    fn element_size() -> usize {
        <Part1Fields>::element_size()
    }
}

impl<'a> BorshSerialize for Part1<'a> {
    fn serialize<W: Write>(&self, alloc: Global, writer: &mut W) -> Result<()> {
        let whole = self.0;
        write_eleven(
            &whole.0, &whole.1, &whole.2, &whole.3, &whole.4, &whole.5, &whole.6, &whole.7,
            &whole.8, &whole.9, &whole.10, alloc, writer,
        )
    }
}

/// Fields of [`Panel`], in order.
type Part2Fields = Tuple12<u16, Option<u8>, Vec<u8>, i64, i32, i16, i8, u64, u32, u16, u8, bool>;

/// Fields of [`Panel`], which are written as one part.
#[derive(Drop)]
struct Part2<'a>(&'a Panel);

impl<'a> BorshType for Part2<'a> {
    ghost codec = { contramap (λ r. (⟦<Panel as FromParts>⟧.view r.0.now).1)
        ⟦<Part2Fields as BorshType>⟧.codec };

    ghost lawful_if = { from (contramap-lawful (λ r. (⟦<Panel as FromParts>⟧.view r.0.now).1))
        ⟦<Part2Fields as BorshType>⟧.lawful_if };

    ghost premises = { Prim.search key_facts };

    fn encodes_empty() -> bool
        ensures { result ≡ ⟦<Part2Fields as BorshType>⟧.codec.is_zero_width }
    {
        false
    }

    fn element_size() -> usize {
        <Part2Fields>::element_size()
    }
}

impl<'a> BorshSerialize for Part2<'a> {
    fn serialize<W: Write>(&self, alloc: Global, writer: &mut W) -> Result<()> {
        let whole = self.0;
        write_twelve(
            &whole.11, &whole.12, &whole.13, &whole.14, &whole.15, &whole.16, &whole.17, &whole.18,
            &whole.19, &whole.20, &whole.21, &whole.22, alloc, writer,
        )
    }
}

impl BorshSerialize for Panel {
    fn serialize<W: Write>(&self, alloc: Global, writer: &mut W) -> Result<()> {
        let part1 = Part1(self);
        let part2 = Part2(self);
        write_two(&part1, &part2, alloc, writer)
    }
}

impl FromParts for Panel {
    type Parts = Fields;

    ghost view = { λ v. (
      (v.0, v.1, v.2, v.3, v.4, v.5, v.6, v.7, v.8, v.9, v.10),
      (v.11, v.12, v.13, v.14, v.15, v.16, v.17, v.18, v.19, v.20, v.21, v.22),
    ) };

    fn from_parts(fields: Fields) -> Panel
        ensures { ⊤ → ⟦<Panel as FromParts>⟧.view result ≡ fields }
    {
        let (group1, group2) = fields;
        let (part0, part1, part2, part3, part4, part5, part6, part7, part8, part9, part10) = group1;
        let (
            part11,
            part12,
            part13,
            part14,
            part15,
            part16,
            part17,
            part18,
            part19,
            part20,
            part21,
            part22,
        ) = group2;
        Panel(
            part0, part1, part2, part3, part4, part5, part6, part7, part8, part9, part10, part11,
            part12, part13, part14, part15, part16, part17, part18, part19, part20, part21, part22,
        )
    }
}

impl BorshDeserialize for Panel {
    fn deserialize_reader<R: Read>(alloc: Global, reader: &mut R) -> Result<Panel> {
        read_parts(alloc, reader)
    }
}

/// The fields of [`Panel`] as its schema goes through them.
type FieldList = ChainTo<Part1Fields, FieldList1>;

type FieldList1 = Chain<Part2Fields>;

impl BorshSchema for Panel {
    ghost name = { codes "Panel" };

    ghost parts = { unnamed_struct (codes "Panel") ⟦<FieldList as FieldTypes>⟧.described.names
        ⟦<FieldList as FieldTypes>⟧.described.parts };

    ghost described = { unnamed_described
        (λ v. (
          (v.0, (v.1, (v.2, (v.3, (v.4, (v.5, (v.6, (v.7, (v.8, (v.9, (v.10, tt))))))))))),
          (
            (
              v.11,
              (
                v.12,
                (v.13, (v.14, (v.15, (v.16, (v.17, (v.18, (v.19, (v.20, (v.21, (v.22, tt)))))))))),
              ),
            ),
            tt,
          ),
        )) (groups_described (more_groups ⟦<Chain<Part1Fields> as FieldTypes>⟧.described
        (more_groups ⟦<Chain<Part2Fields> as FieldTypes>⟧.described no_groups))) };

    fn declaration(alloc: Global) -> SchemaResult<Declaration> {
        declared(alloc, "Panel")
    }

    fn add_definitions_recursively(alloc: Global, map: &mut DefinitionMap) -> SchemaResult<()> {
        add_unnamed::<FieldList>(alloc, "Panel", map)
    }

    ghost describes = { Self.described.describes };
}
