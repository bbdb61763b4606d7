// Written by borsh_derive.py from library.rt: edit that file, and run the program again.
ghost use Rattle.borsh.specs.Derived.{contramap, contramap-lawful, from, key_facts};
ghost use Rattle.std.specs.Prelude.{◌≡◌};

use super::library::Offer;
use borsh::derived::*;
use std::borrow::{Cow, CowStr};
use std::sync::ArcStr;

/// The fields of [`Offer`], in order.
type Fields<'a> = (f64, ArcStr, CowStr<'a>, Vec<Cow<'a, u16>>);

impl<'a> BorshType for Offer<'a> {
    ghost codec = { contramap (λ v. (v.price, v.name, v.text, v.marks))
        ⟦<Fields<'a> as BorshType>⟧.codec };

    ghost lawful_if = { from (contramap-lawful (λ v. (v.price, v.name, v.text, v.marks)))
        ⟦<Fields<'a> as BorshType>⟧.lawful_if };

    ghost premises = { Prim.search key_facts };

    fn encodes_empty() -> bool
        ensures { result ≡ ⟦<Fields<'a> as BorshType>⟧.codec.is_zero_width }
    {
        false
    }

    fn element_size() -> usize {
        <Fields<'a>>::element_size()
    }
}

impl<'a> BorshSerialize for Offer<'a> {
    fn serialize<W: Write>(&self, alloc: Global, writer: &mut W) -> Result<()> {
        let mut room = [0u8; 256];
        if let Some(n) = self.put(&mut room) {
            return write_bytes(&room[..n], writer);
        }
        write_four(
            &self.price,
            &self.name,
            &self.text,
            &self.marks,
            alloc,
            writer,
        )
    }

    fn put(&self, room: &mut [u8]) -> Option<usize> {
        put_four(&self.price, &self.name, &self.text, &self.marks, room)
    }
}

impl<'a> FromParts for Offer<'a> {
    type Parts = Fields<'a>;

    ghost view = { λ v. (v.price, v.name, v.text, v.marks) };

    fn from_parts((price, name, text, marks): Fields<'a>) -> Offer<'a> {
        Offer {
            price,
            name,
            text,
            marks,
        }
    }
}

impl<'a> BorshDeserialize for Offer<'a> {
    fn deserialize_reader<R: Read>(alloc: Global, reader: &mut R) -> Result<Offer<'a>> {
        read_parts(alloc, reader)
    }
}
