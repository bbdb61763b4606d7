// Written by borsh_derive.py from library.rt: edit that file, and run the program again.
ghost use Rattle.borsh.specs.Derived.{contramap, contramap-lawful, from, key_facts};
ghost use Rattle.borsh.specs.Derived.{named_described, struct_parts};
ghost use Rattle.std.specs.Prelude.{codes, refl, ◌∷◌, []};

use super::library::Library;
use borsh::derived::*;
use std::boxed::{BoxedSlice, BoxedStr};
use std::collections::{BTreeSet, HashSet, LinkedList, VecDeque};
use std::net::{IpAddr, Ipv4Addr, Ipv6Addr};
use std::num::{NonZeroI64, NonZeroU8, NonZeroU128, NonZeroUsize};
use std::ops::{Range, RangeFrom, RangeFull, RangeInclusive, RangeTo, RangeToInclusive};
use std::rc::{Rc, RcSlice, RcStr};

/// The fields of [`Library`], in order.
type Fields = Tuple8<
    (i8, i16, u128, i128, isize),
    (NonZeroU8, NonZeroI64, NonZeroU128, NonZeroUsize),
    (Ipv4Addr, Ipv6Addr, IpAddr),
    (
        VecDeque<u16>,
        LinkedList<u8>,
        BTreeSet<String>,
        HashSet<u32>,
    ),
    (
        BoxedSlice<u16>,
        Box<u64>,
        BoxedStr,
        Rc<u32>,
        RcStr,
        RcSlice<u16>,
    ),
    (
        Range<u8>,
        RangeInclusive<u8>,
        RangeFrom<u16>,
        RangeTo<u8>,
        RangeToInclusive<u8>,
    ),
    RangeFull,
    (u8,),
>;

impl BorshType for Library {
    ghost codec = { contramap ⟦<Library as FromParts>⟧.view ⟦<Fields as BorshType>⟧.codec };

    ghost lawful_if = { from (contramap-lawful ⟦<Library as FromParts>⟧.view)
        ⟦<Fields as BorshType>⟧.lawful_if };

    ghost premises = { Prim.search key_facts };

    fn encodes_empty() -> bool {
        false
    }

    fn element_size() -> usize {
        size_of::<Library>()
    }
}

impl BorshSerialize for Library {
    fn serialize<W: Write>(&self, alloc: Global, writer: &mut W) -> Result<()> {
        write_eight(
            &self.ints, &self.some, &self.at, &self.all, &self.heap, &self.ends, &self.full,
            &self.one, alloc, writer,
        )
    }
}

impl FromParts for Library {
    type Parts = Fields;

    ghost view = { λ v. (v.ints, v.some, v.at, v.all, v.heap, v.ends, v.full, v.one) };

    fn from_parts((ints, some, at, all, heap, ends, full, one): Fields) -> Library {
        Library {
            ints,
            some,
            at,
            all,
            heap,
            ends,
            full,
            one,
        }
    }
}

impl BorshDeserialize for Library {
    fn deserialize_reader<R: Read>(alloc: Global, reader: &mut R) -> Result<Library> {
        read_parts(alloc, reader)
    }
}

impl BorshSchema for Library {
    ghost name = { codes "Library" };

    ghost parts = { struct_parts (codes "Library")
        (codes "ints" ∷ codes "some" ∷ codes "at" ∷ codes "all" ∷ codes "heap" ∷ codes "ends"
        ∷ codes "full" ∷ codes "one" ∷ [])
        ⟦<Chain<Fields> as FieldTypes>⟧.described };

    ghost described = { named_described
        (λ v. (v.ints, (v.some, (v.at, (v.all, (v.heap, (v.ends, (v.full, (v.one, tt)))))))))
        (codes "ints" ∷ codes "some" ∷ codes "at" ∷ codes "all" ∷ codes "heap" ∷ codes "ends"
        ∷ codes "full" ∷ codes "one" ∷ [])
        ⟦<Chain<Fields> as FieldTypes>⟧.described refl };

    fn declaration(alloc: Global) -> SchemaResult<Declaration> {
        declared(alloc, "Library")
    }

    fn add_definitions_recursively(alloc: Global, map: &mut DefinitionMap) -> SchemaResult<()> {
        const NAMES: &[&str] = &["ints", "some", "at", "all", "heap", "ends", "full", "one"];
        add_named::<Chain<Fields>>(alloc, "Library", NAMES, map)
    }

    ghost describes = { Self.described.describes };
}
