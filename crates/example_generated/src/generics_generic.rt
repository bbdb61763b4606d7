// Written by borsh_derive.py from generics.rt: edit that file, and run the program again.
ghost use Rattle.borsh.specs.Derived.{contramap, contramap-lawful, from, key_facts};

use super::generics::Generic;
use borsh::derived::{
    BorshDeserialize, BorshSerialize, BorshType, FromParts, Global, Read, Tuple6, Write, put_six,
    read_parts, write_bytes, write_six,
};
use borsh_samples::B;
use std::marker::PhantomData;

/// The fields of [`Generic`], in order.
type Fields<T, F, G> = Tuple6<Vec<T>, String, B<F, G>, PhantomData<T>, Result<T, G>, [u64; 5]>;

impl<T: BorshType, F: BorshType, G: BorshType> BorshType for Generic<T, F, G> {
    ghost codec = { contramap (λ v. (v.x, v.y, v.b, v.pd, v.c, v.d))
        ⟦<Fields<T, F, G> as BorshType>⟧.codec };

    ghost lawful_if = { from (contramap-lawful (λ v. (v.x, v.y, v.b, v.pd, v.c, v.d)))
        ⟦<Fields<T, F, G> as BorshType>⟧.lawful_if };

    ghost premises = { Prim.search (key_facts, T.premises, F.premises, G.premises) };

    fn encodes_empty() -> bool {
        <Fields<T, F, G>>::encodes_empty()
    }

    fn element_size() -> usize {
        <Fields<T, F, G>>::element_size()
    }
}

impl<T: BorshSerialize, F: BorshSerialize, G: BorshSerialize> BorshSerialize for Generic<T, F, G> {
    fn serialize<W: Write>(&self, alloc: Global, writer: &mut W) -> borsh::derived::Result<()> {
        let mut room = [0u8; 256];
        if let Some(n) = self.put(&mut room) {
            return write_bytes(&room[..n], writer);
        }
        write_six(
            &self.x, &self.y, &self.b, &self.pd, &self.c, &self.d, alloc, writer,
        )
    }

    fn put(&self, room: &mut [u8]) -> Option<usize> {
        put_six(&self.x, &self.y, &self.b, &self.pd, &self.c, &self.d, room)
    }

    fn encoded_length(&self) -> Option<u32> {
        let fields = (&self.x, &self.y, &self.b, &self.pd, &self.c, &self.d);
        fields.encoded_length()
    }
}

impl<T: BorshDeserialize, F: BorshDeserialize, G: BorshDeserialize> FromParts for Generic<T, F, G> {
    type Parts = Fields<T, F, G>;

    ghost view = { λ v. (v.x, v.y, v.b, v.pd, v.c, v.d) };

    fn from_parts((x, y, b, pd, c, d): Fields<T, F, G>) -> Generic<T, F, G> {
        Generic { x, y, b, pd, c, d }
    }
}

impl<T: BorshDeserialize, F: BorshDeserialize, G: BorshDeserialize> BorshDeserialize
    for Generic<T, F, G> {
    fn deserialize_reader<R: Read>(
        alloc: Global,
        reader: &mut R,
    ) -> borsh::derived::Result<Generic<T, F, G>> {
        read_parts(alloc, reader)
    }
}
