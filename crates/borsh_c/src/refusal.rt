// Why a call has no answer, or the answer is no.
ghost use Rattle.std.specs.Prelude.{◌≡◌, ◌≢◌, ◌+◌, ◌≤◌, string_bytes};
ghost use Rattle.borsh_c.specs.Answers.{code_of, told_offset, told_text};
ghost use Rattle.borsh_c.specs.Places.{IsNowhere, offset_of};
ghost use Rattle.borsh_c.specs.Room.{IsGiven, IsKept};
ghost use Rattle.borsh_c.specs.declared.refusal.NoAnswer.TheVariants.{OutOfMemory};

use super::codes::{MALFORMED, NO, OUT_OF_MEMORY, UNDECIDED};
use super::place::{NOWHERE, Place, Span, place_in};
use super::room::give;
use std::alloc::AllocError;

/// A text, and the place that it tells.
#[derive(Debug, Drop)]
pub struct Said {
    pub text: String,
    pub offset: Option<usize>,
    /// The part of the text that is a path.
    pub path: Option<Span>,
}

/// Why a call has no answer, or the answer is no, with a text that says why.
#[derive(Debug, Drop)]
pub enum NoAnswer {
    /// The answer is no.
    No(Said),
    /// The bytes aren't the encoding of a container.
    Malformed(String),
    /// An allocation failed.
    OutOfMemory,
    /// The definitions allow two values for the same bytes, or break a rule of widths.
    Undecided(String),
}

impl From<AllocError> for NoAnswer {
    ghost from_gives = { λ _ r. r ≡ OutOfMemory };

    fn from(_: AllocError) -> NoAnswer {
        NoAnswer::OutOfMemory
    }
}

impl Said {
    /// Gives the text and the place.
    pub fn tell(&self, place: &mut Place, room: &mut [u8], needed: &mut usize)
        ensures offset { offset_of place.new ≡ self.now.offset }
        ensures given { IsGiven (string_bytes self.now.text) room.new needed.new }
        ensures within { place.new.path_start + place.new.path_length ≤ needed.new }
        ensures kept { IsKept room.old room.new needed.new }
    {
        *place = place_in(self.text.len(), self.offset, self.path);
        give(self.text.as_bytes(), room, needed);
    }
}

impl NoAnswer {
    /// Gives the text and the place, and returns the code.
    pub fn tell(&self, place: &mut Place, room: &mut [u8], needed: &mut usize) -> u32
        ensures code { result ≡ code_of self.now }
        ensures offset { offset_of place.new ≡ told_offset self.now }
        ensures nowhere { result ≢ 1 → IsNowhere place.new }
        ensures given { IsGiven (told_text self.now) room.new needed.new }
        ensures within { place.new.path_start + place.new.path_length ≤ needed.new }
        ensures kept { IsKept room.old room.new needed.new }
    {
        *place = NOWHERE;
        match self {
            NoAnswer::No(said) => {
                said.tell(place, room, needed);
                NO
            }
            NoAnswer::Malformed(text) => {
                give(text.as_bytes(), room, needed);
                MALFORMED
            }
            NoAnswer::OutOfMemory => {
                give(b"out of memory", room, needed);
                OUT_OF_MEMORY
            }
            NoAnswer::Undecided(text) => {
                give(text.as_bytes(), room, needed);
                UNDECIDED
            }
        }
    }
}
