// Written by borsh_derive.py from wrappers.rt: edit that file, and run the program again.
ghost use Rattle.borsh.specs.Derived.{contramap, contramap-lawful, from, key_facts};
ghost use Rattle.std.specs.Prelude.{◌≡◌};

use super::keys::Place;
use super::wrappers::Note;
use borsh::derived::*;

/// The fields of [`Note`], in order.
type Fields<'a> = (&'a str, &'a Place);

impl<'a> BorshType for Note<'a> {
    ghost codec = { contramap (λ v. (v.text, v.place)) ⟦<Fields<'a> as BorshType>⟧.codec };

    ghost lawful_if = { from (contramap-lawful (λ v. (v.text, v.place)))
        ⟦<Fields<'a> as BorshType>⟧.lawful_if };

    ghost premises = { Prim.search key_facts };

    fn encodes_empty() -> bool
        ensures { result ≡ ⟦<Fields<'a> as BorshType>⟧.codec.is_zero_width }
    {
        false
    }

    fn element_size() -> usize {
        <Fields<'a>>::element_size()
    }
}

impl<'a> BorshSerialize for Note<'a> {
    fn serialize<W: Write>(&self, alloc: Global, writer: &mut W) -> Result<()> {
        let mut room = [0u8; 256];
        if let Some(n) = self.put(&mut room) {
            return write_bytes(&room[..n], writer);
        }
        write_two(&self.text, &self.place, alloc, writer)
    }

    fn put(&self, room: &mut [u8]) -> Option<usize> {
        put_two(&self.text, &self.place, room)
    }
}
