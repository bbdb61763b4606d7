// A struct of two parts.
ghost use Rattle.borsh.specs.Laws.OfParts.{contramap, contramap-lawful, from, key_facts};

use borsh::de::{FromParts, read_parts};
use borsh::io::{Read, Result, Write};
use borsh::ser::write_two;
use borsh::{BorshDeserialize, BorshSerialize, BorshType};
use std::alloc::Global;

/// The parts in order.
#[derive(Drop)]
pub struct MyStruct {
    pub a: u64,
    pub b: Vec<u8>,
}

impl BorshType for MyStruct {
    ghost codec = { contramap ⟦<MyStruct as FromParts>⟧.view ⟦<(u64, Vec<u8>) as BorshType>⟧.codec };

    ghost lawful_if = { from (contramap-lawful ⟦<MyStruct as FromParts>⟧.view)
        ⟦<(u64, Vec<u8>) as BorshType>⟧.lawful_if };

    ghost premises = { Prim.search key_facts };

    fn encodes_empty() -> bool {
        <(u64, Vec<u8>)>::encodes_empty()
    }

    fn element_size() -> usize {
        <(u64, Vec<u8>)>::element_size()
    }
}

impl BorshSerialize for MyStruct {
    fn serialize<W: Write>(&self, alloc: Global, writer: &mut W) -> Result<()> {
        write_two(&self.a, &self.b, alloc, writer)
    }
}

impl FromParts for MyStruct {
    type Parts = (u64, Vec<u8>);

    ghost view = { λ v. (v.a, v.b) };

    fn from_parts((a, b): (u64, Vec<u8>)) -> MyStruct {
        MyStruct { a, b }
    }
}

impl BorshDeserialize for MyStruct {
    fn deserialize_reader<R: Read>(alloc: Global, reader: &mut R) -> Result<MyStruct> {
        read_parts(alloc, reader)
    }
}
