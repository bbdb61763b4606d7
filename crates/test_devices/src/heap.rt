// Orders to the heap: requests for more bytes than any heap grants, which `tools/heap.c` reads.
use std::alloc::Global;

const REFUSE_ONE: usize = 1 << 60;

const REFUSE_REST: usize = 2 << 60;

const WAS_REFUSED: usize = 3 << 60;

const ONE_ABOVE: usize = 4 << 60;

const SUM_ABOVE: usize = 5 << 60;

const NOTE_BLOCKS: usize = 6 << 60;

const ARE_OTHER: usize = 7 << 60;

/// Which requests for memory are refused, counted from 1.
#[derive(Clone, Copy, Debug, PartialEq, Eq)]
pub enum Refusal {
    /// None; then the heap gets no order at all.
    None,
    /// This request alone.
    One(u32),
    /// This request and all after it.
    Rest(u32),
    /// None; but a request for more than so many bytes counts as one that was refused, and so do requests for more than twice
    /// as many together.
    Above(u32),
}

impl Refusal {
    /// Counts requests, and refuses them, from here on.
    pub fn begin(self, alloc: Global) {
        let _granted = match self {
            Refusal::None => false,
            Refusal::One(n) => is_granted(alloc, REFUSE_ONE + n as usize),
            Refusal::Rest(n) => is_granted(alloc, REFUSE_REST + n as usize),
            Refusal::Above(_) => is_granted(alloc, REFUSE_ONE),
        };
    }

    /// Ends it: whether a request was refused since it began. None is from here on.
    pub fn end(self, alloc: Global) -> bool {
        if self == Refusal::None {
            return false;
        }
        let was_refused = match self {
            Refusal::Above(n) => {
                is_granted(alloc, ONE_ABOVE + n as usize)
                    || is_granted(alloc, SUM_ABOVE + 2 * n as usize)
            }
            _ => is_granted(alloc, WAS_REFUSED),
        };
        Refusal::One(0).begin(alloc);
        was_refused
    }
}

/// Notes how many blocks of memory there are.
pub fn note_blocks(alloc: Global) {
    let _granted = is_granted(alloc, NOTE_BLOCKS);
}

/// Whether there are more or fewer blocks than were noted: one was never freed, or one twice.
pub fn are_other_blocks(alloc: Global) -> bool {
    is_granted(alloc, ARE_OTHER)
}

fn is_granted(alloc: Global, order: usize) -> bool {
    Vec::<u8>::with_capacity(alloc, order).is_ok()
}
