// Written by borsh_derive.py from wrappers.rt: edit that file, and run the program again.
ghost use Rattle.borsh.specs.Derived.{contramap, contramap-lawful, from, key_facts};

use super::keys::Place;
use super::wrappers::Home;
use borsh::derived::*;

/// The fields of [`Home`], in order.
type Fields = (Box<Place>, ());

impl BorshType for Home {
    ghost codec = { contramap ⟦<Home as FromParts>⟧.view ⟦<Fields as BorshType>⟧.codec };

    ghost lawful_if = { from (contramap-lawful ⟦<Home as FromParts>⟧.view)
        ⟦<Fields as BorshType>⟧.lawful_if };

    ghost premises = { Prim.search key_facts };

    fn encodes_empty() -> bool {
        <Fields>::encodes_empty()
    }

    fn element_size() -> usize {
        size_of::<Home>()
    }
}

impl BorshSerialize for Home {
    fn serialize<W: Write>(&self, alloc: Global, writer: &mut W) -> Result<()> {
        self.0.serialize(alloc, writer)
    }
}

impl FromParts for Home {
    type Parts = Fields;

    ghost view = { λ v. (v.0, tt) };

    fn from_parts((part0, _): Fields) -> Home {
        Home(part0)
    }
}

impl BorshDeserialize for Home {
    fn deserialize_reader<R: Read>(alloc: Global, reader: &mut R) -> Result<Home> {
        read_parts(alloc, reader)
    }
}
