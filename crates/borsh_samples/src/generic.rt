// An enum with a parameter by itself, of the original's tests: seen as a `Result`, which has its tags.
ghost use Rattle.borsh.specs.Laws.OfParts.{contramap, contramap-lawful, from, key_facts};
ghost use Rattle.std.specs.Prelude.{Ok, Err};
ghost use Rattle.borsh_samples.specs.declared.generic.B.{B};

use borsh::de::{FromParts, read_parts};
use borsh::io::{self, Read, Write};
use borsh::ser::write_tagged;
use borsh::{BorshDeserialize, BorshSerialize, BorshType};
use std::alloc::Global;

/// A list under the tag 0, or a value under the tag 1.
#[derive(Drop)]
pub enum B<W, G> {
    X { f: Vec<W> },
    Y(G),
}

impl<W: BorshType, G: BorshType> BorshType for B<W, G> {
    ghost codec = { contramap (elim [ B.X f ↦ Err f | B.Y part0 ↦ Ok part0 ])
        ⟦<Result<G, Vec<W>> as BorshType>⟧.codec };

    ghost lawful_if = { from (contramap-lawful (elim [ B.X f ↦ Err f | B.Y part0 ↦ Ok part0 ]))
        ⟦<Result<G, Vec<W>> as BorshType>⟧.lawful_if };

    ghost premises = { Prim.search (key_facts, W.premises, G.premises) };

    fn encodes_empty() -> bool {
        false
    }

    fn element_size() -> usize {
        <Result<G, Vec<W>>>::element_size()
    }
}

impl<W: BorshSerialize, G: BorshSerialize> BorshSerialize for B<W, G> {
    fn serialize<T: Write>(&self, alloc: Global, writer: &mut T) -> io::Result<()> {
        match self {
            B::X { f } => write_tagged(0, f, alloc, writer),
            B::Y(part0) => write_tagged(1, part0, alloc, writer),
        }
    }
}

impl<W: BorshDeserialize, G: BorshDeserialize> FromParts for B<W, G> {
    type Parts = Result<G, Vec<W>>;

    ghost view = { elim [ B.X f ↦ Err f | B.Y part0 ↦ Ok part0 ] };

    fn from_parts(parts: Result<G, Vec<W>>) -> B<W, G> {
        match parts {
            Ok(part0) => B::Y(part0),
            Err(f) => B::X { f },
        }
    }
}

impl<W: BorshDeserialize, G: BorshDeserialize> BorshDeserialize for B<W, G> {
    fn deserialize_reader<R: Read>(alloc: Global, reader: &mut R) -> io::Result<B<W, G>> {
        read_parts(alloc, reader)
    }
}
