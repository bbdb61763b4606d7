// Written by borsh_derive.py from wrappers.rt: edit that file, and run the program again.
ghost use Rattle.borsh.specs.Derived.{contramap, contramap-lawful, from, key_facts};

use super::keys::Place;
use super::wrappers::Known;
use borsh::derived::*;
use std::rc::Rc;

/// The fields of [`Known`], in order.
type Fields = (Rc<Place>, ());

impl BorshType for Known {
    ghost codec = { contramap ⟦<Known as FromParts>⟧.view ⟦<Fields as BorshType>⟧.codec };

    ghost lawful_if = { from (contramap-lawful ⟦<Known as FromParts>⟧.view)
        ⟦<Fields as BorshType>⟧.lawful_if };

    ghost premises = { Prim.search key_facts };

    fn encodes_empty() -> bool {
        <Fields>::encodes_empty()
    }

    fn element_size() -> usize {
        size_of::<Known>()
    }
}

impl BorshSerialize for Known {
    fn serialize<W: Write>(&self, alloc: Global, writer: &mut W) -> Result<()> {
        self.0.serialize(alloc, writer)
    }
}

impl FromParts for Known {
    type Parts = Fields;

    ghost view = { λ v. (v.0, tt) };

    fn from_parts((part0, _): Fields) -> Known {
        Known(part0)
    }
}

impl BorshDeserialize for Known {
    fn deserialize_reader<R: Read>(alloc: Global, reader: &mut R) -> Result<Known> {
        read_parts(alloc, reader)
    }
}
