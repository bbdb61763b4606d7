// Written by borsh_derive.py from library.rt: edit that file, and run the program again.
ghost use Rattle.borsh.specs.Derived.{contramap, contramap-lawful, from, key_facts};

use super::library::Others;
use borsh::derived::*;
use bytes::{Bytes, BytesMut};
use indexmap::{IndexMap, IndexSet};
use std::net::{SocketAddr, SocketAddrV4, SocketAddrV6};
use uuid::Uuid;

/// The fields of [`Others`], in order.
type Fields = Tuple8<
    IndexMap<String, u8>,
    IndexSet<u16>,
    Bytes,
    BytesMut,
    Uuid,
    SocketAddrV4,
    SocketAddrV6,
    SocketAddr,
>;

impl BorshType for Others {
    ghost codec = { contramap ⟦<Others as FromParts>⟧.view ⟦<Fields as BorshType>⟧.codec };

    ghost lawful_if = { from (contramap-lawful ⟦<Others as FromParts>⟧.view)
        ⟦<Fields as BorshType>⟧.lawful_if };

    ghost premises = { Prim.search key_facts };

    fn encodes_empty() -> bool {
        <Fields>::encodes_empty()
    }

    fn element_size() -> usize {
        size_of::<Others>()
    }
}

impl BorshSerialize for Others {
    fn serialize<W: Write>(&self, alloc: Global, writer: &mut W) -> Result<()> {
        write_eight(
            &self.ages, &self.seen, &self.raw, &self.more, &self.id, &self.old, &self.new,
            &self.any, alloc, writer,
        )
    }
}

impl FromParts for Others {
    type Parts = Fields;

    ghost view = { λ v. (v.ages, v.seen, v.raw, v.more, v.id, v.old, v.new, v.any) };

    fn from_parts((ages, seen, raw, more, id, old, new, any): Fields) -> Others {
        Others {
            ages,
            seen,
            raw,
            more,
            id,
            old,
            new,
            any,
        }
    }
}

impl BorshDeserialize for Others {
    fn deserialize_reader<R: Read>(alloc: Global, reader: &mut R) -> Result<Others> {
        read_parts(alloc, reader)
    }
}
