// Written by borsh_derive.py from wrappers.rt: edit that file, and run the program again.
ghost use Rattle.borsh.specs.Derived.{contramap, contramap-lawful, from, key_facts};

use super::keys::Place;
use super::wrappers::Route;
use borsh::derived::*;

/// The fields of [`Route`], in order.
type Fields = (Vec<Place>, ());

impl BorshType for Route {
    ghost codec = { contramap ⟦<Route as FromParts>⟧.view ⟦<Fields as BorshType>⟧.codec };

    ghost lawful_if = { from (contramap-lawful ⟦<Route as FromParts>⟧.view)
        ⟦<Fields as BorshType>⟧.lawful_if };

    ghost premises = { Prim.search key_facts };

    fn encodes_empty() -> bool {
        false
    }

    fn element_size() -> usize {
        size_of::<Route>()
    }
}

impl BorshSerialize for Route {
    fn serialize<W: Write>(&self, alloc: Global, writer: &mut W) -> Result<()> {
        self.0.serialize(alloc, writer)
    }
}

impl FromParts for Route {
    type Parts = Fields;

    ghost view = { λ v. (v.0, tt) };

    fn from_parts((part0, _): Fields) -> Route {
        Route(part0)
    }
}

impl BorshDeserialize for Route {
    fn deserialize_reader<R: Read>(alloc: Global, reader: &mut R) -> Result<Route> {
        read_parts(alloc, reader)
    }
}
