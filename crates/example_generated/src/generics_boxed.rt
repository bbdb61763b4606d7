// Written by borsh_derive.py from generics.rt: edit that file, and run the program again.
ghost use Rattle.borsh.specs.Derived.{contramap, enum_lawful_if, fields, key_facts, left, right};
ghost use Rattle.std.specs.Prelude.{refl, ⊤, ◌≡◌};
ghost use Rattle.example_generated.specs.declared.generics.Boxed.{Boxed};

use super::generics::Boxed;
use borsh::derived::*;

/// The variants of [`Boxed`]: each has a tag and its fields, in order.
type Variants<W, G> = Fork<Case<0, Vec<W>>, Case<1, Box<G>>>;

impl<W: BorshType, G: BorshType> FromCases for Boxed<W, G> {
    type Cases = Variants<W, G>;

    ghost view = { elim [ Boxed.X f ↦ left (fields f) | Boxed.Y part0 ↦ right (fields part0) ] };

    fn from_cases(cases: Variants<W, G>) -> Boxed<W, G>
        ensures { ⊤ → ⟦<Boxed<W, G> as FromCases>⟧.view result ≡ cases }
    {
        match cases {
            Fork::Left((_, f)) => Boxed::X { f },
            Fork::Right((_, part0)) => Boxed::Y(part0),
        }
    }

    ghost distinct_tags = { refl };
}

impl<W: BorshType, G: BorshType> BorshType for Boxed<W, G> {
    ghost codec = { contramap ⟦<Boxed<W, G> as FromCases>⟧.view ⟦<Variants<W, G> as Cases>⟧.codec };

    ghost lawful_if = { enum_lawful_if ⟦<Boxed<W, G> as FromCases>⟧.view
        ⟦<Variants<W, G> as Cases>⟧.variants refl };

    ghost premises = { Prim.search (key_facts, W.premises, G.premises) };

    fn encodes_empty() -> bool {
        false
    }

    fn element_size() -> usize {
        <Variants<W, G>>::element_size()
    }
}

impl<W: BorshSerialize, G: BorshSerialize> BorshSerialize for Boxed<W, G> {
    fn serialize<WType: Write>(&self, alloc: Global, writer: &mut WType) -> Result<()> {
        let mut room = [0u8; 256];
        if let Some(n) = self.put(&mut room) {
            return write_bytes(&room[..n], writer);
        }
        match self {
            Boxed::X { f } => write_two(&Tag(0), f, alloc, writer),
            Boxed::Y(part0) => write_two(&Tag(1), part0, alloc, writer),
        }
    }

    fn put(&self, room: &mut [u8]) -> Option<usize> {
        match self {
            Boxed::X { f } => put_two(&Tag(0), f, room),
            Boxed::Y(part0) => put_two(&Tag(1), part0, room),
        }
    }
}

impl<W: BorshDeserialize, G: BorshDeserialize> BorshDeserialize for Boxed<W, G> {
    fn deserialize_reader<R: Read>(alloc: Global, reader: &mut R) -> Result<Boxed<W, G>> {
        read_enum(alloc, reader)
    }
}

impl<W: BorshDeserialize, G: BorshDeserialize> EnumExt for Boxed<W, G> {
    fn deserialize_variant<R: Read>(alloc: Global, reader: &mut R, tag: u8) -> Result<Boxed<W, G>> {
        read_variant(alloc, reader, tag)
    }
}
