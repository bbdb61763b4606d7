// The struct of the original's README: a number and a text.
ghost use Rattle.borsh.specs.Laws.OfParts.{contramap, contramap-lawful, from, key_facts};

use borsh::de::{FromParts, read_parts};
use borsh::io::{Read, Result, Write};
use borsh::ser::write_two;
use borsh::{BorshDeserialize, BorshSerialize, BorshType};
use std::alloc::Global;

/// The parts in order.
#[derive(Drop)]
pub struct A {
    pub x: u64,
    pub y: String,
}

impl BorshType for A {
    ghost codec = { contramap ⟦<A as FromParts>⟧.view ⟦<(u64, String) as BorshType>⟧.codec };

    ghost lawful_if = { from (contramap-lawful ⟦<A as FromParts>⟧.view)
        ⟦<(u64, String) as BorshType>⟧.lawful_if };

    ghost premises = { Prim.search key_facts };

    fn encodes_empty() -> bool {
        <(u64, String)>::encodes_empty()
    }

    fn element_size() -> usize {
        <(u64, String)>::element_size()
    }
}

impl BorshSerialize for A {
    fn serialize<W: Write>(&self, alloc: Global, writer: &mut W) -> Result<()> {
        write_two(&self.x, &self.y, alloc, writer)
    }
}

impl FromParts for A {
    type Parts = (u64, String);

    ghost view = { λ v. (v.x, v.y) };

    fn from_parts((x, y): (u64, String)) -> A {
        A { x, y }
    }
}

impl BorshDeserialize for A {
    fn deserialize_reader<R: Read>(alloc: Global, reader: &mut R) -> Result<A> {
        read_parts(alloc, reader)
    }
}
