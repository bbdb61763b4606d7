// Elements of arrays that hold memory are dropped once, however far the array was decoded. The heap of `tools/heap.c` counts
// their blocks; any other one has nothing to say.
ghost use Rattle.borsh.specs.Laws.OfParts.{contramap, contramap-lawful, from, key_facts};

use super::sweeps::{Round, sweep};
use borsh::io::{Read, Result};
use borsh::{BorshDeserialize, BorshType, from_slice};
use std::alloc::Global;
use std::test::Fail;
use test_devices::heap::{are_other_blocks, note_blocks};

/// A byte, which holds a block where it gets one. Arrays of it are decoded at once if so, and else element by element.
#[derive(Drop)]
struct Holder<const AT_ONCE: bool> {
    number: u8,
    block: Option<Box<u8>>,
}

impl<const AT_ONCE: bool> BorshType for Holder<AT_ONCE> {
    ghost codec = { contramap (λ v. v.number) ⟦<u8 as BorshType>⟧.codec };

    ghost lawful_if = { from (contramap-lawful (λ v. v.number)) ⟦<u8 as BorshType>⟧.lawful_if };

    ghost premises = { Prim.search key_facts };

    fn encodes_empty() -> bool {
        false
    }

    fn element_size() -> usize {
        16
    }
}

impl<const AT_ONCE: bool> BorshDeserialize for Holder<AT_ONCE> {
    fn deserialize_reader<R: Read>(alloc: Global, reader: &mut R) -> Result<Self> {
        let number = u8::deserialize_reader(alloc, reader)?;
        let block = Box::new(alloc, number).ok();
        Ok(Holder { number, block })
    }

    fn width() -> usize {
        if AT_ONCE { 1 } else { 0 }
    }
}

/// An array of four of these is decoded from four bytes and no others, and leaves no block behind.
fn leaves_nothing<A: BorshDeserialize>(
    rt: HostRuntime,
    name: &str,
    bytes: &[u8],
) -> std::result::Result<(), Fail> {
    let alloc = rt.alloc();
    sweep(rt, "from_slice of an array", name, |refusal| {
        note_blocks(alloc);
        refusal.begin(alloc);
        let made = from_slice::<A>(alloc, bytes);
        let refused = refusal.end(alloc);
        let right = made.is_ok() == (bytes.len() == 4);
        drop(made);
        let right = right && !are_other_blocks(alloc);
        Ok(Round { refused, right })
    })
}

#[test]
fn elements_of_arrays_are_dropped_once(rt: HostRuntime) -> std::result::Result<(), Fail> {
    for len in 0..6usize {
        let bytes = &[1, 2, 3, 4, 5][..len];
        leaves_nothing::<[Holder<true>; 4]>(rt, "at once", bytes)?;
        leaves_nothing::<[Holder<false>; 4]>(rt, "one by one", bytes)?;
    }
    Ok(())
}
