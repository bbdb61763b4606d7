// Written by borsh_derive.py from generics.rt: edit that file, and run the program again.
ghost use Rattle.borsh.specs.Derived.{contramap, contramap-lawful, from, key_facts};

use super::generics::Grid;
use borsh::derived::*;

/// The fields of [`Grid`], in order.
type Fields<const N: usize> = ([u8; N], bool);

impl<const N: usize> BorshType for Grid<N> {
    ghost codec = { contramap (λ v. (v.cells, v.turned)) ⟦<Fields<N> as BorshType>⟧.codec };

    ghost lawful_if = { from (contramap-lawful (λ v. (v.cells, v.turned)))
        ⟦<Fields<N> as BorshType>⟧.lawful_if };

    ghost premises = { Prim.search key_facts };

    fn encodes_empty() -> bool {
        <[u8; N]>::encodes_empty() && bool::encodes_empty()
    }

    fn element_size() -> usize {
        <[u8; N]>::element_size().saturating_add(bool::element_size())
    }
}

impl<const N: usize> BorshSerialize for Grid<N> {
    fn serialize<W: Write>(&self, alloc: Global, writer: &mut W) -> Result<()> {
        write_two(&self.cells, &self.turned, alloc, writer)
    }

    fn put(&self, room: &mut [u8]) -> Option<usize> {
        put_two(&self.cells, &self.turned, room)
    }

    fn encoded_length(&self) -> Option<u32> {
        let fields = (&self.cells, &self.turned);
        fields.encoded_length()
    }
}

impl<const N: usize> FromParts for Grid<N> {
    type Parts = Fields<N>;

    ghost view = { λ v. (v.cells, v.turned) };

    fn from_parts((cells, turned): Fields<N>) -> Grid<N> {
        Grid { cells, turned }
    }
}

impl<const N: usize> BorshDeserialize for Grid<N> {
    fn deserialize_reader<R: Read>(alloc: Global, reader: &mut R) -> Result<Grid<N>> {
        read_parts(alloc, reader)
    }

    fn width() -> usize {
        0
    }
}
