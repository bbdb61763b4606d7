// A struct of a user's own, which is encoded and never decoded.
ghost use Rattle.borsh.specs.Laws.OfParts.{contramap, contramap-lawful, from, key_facts};

use borsh::io::{Result, Write};
use borsh::ser::write_two;
use borsh::{BorshSerialize, BorshType};
use std::alloc::Global;

/// The fields in order.
#[derive(Drop)]
pub(crate) struct Tagged {
    pub tag: String,
    pub value: u64,
}

impl BorshType for Tagged {
    ghost codec = { contramap (λ v. (v.tag, v.value)) ⟦<(String, u64) as BorshType>⟧.codec };

    ghost lawful_if = { from (contramap-lawful (λ v. (v.tag, v.value))) ⟦<(String, u64) as BorshType>⟧.lawful_if };

    ghost premises = { Prim.search key_facts };

    fn encodes_empty() -> bool {
        <(String, u64)>::encodes_empty()
    }

    fn element_size() -> usize {
        <(String, u64)>::element_size()
    }
}

impl BorshSerialize for Tagged {
    fn serialize<W: Write>(&self, alloc: Global, writer: &mut W) -> Result<()> {
        write_two(&self.tag, &self.value, alloc, writer)
    }
}
