// The tags of variants that are written.
ghost use Rattle.borsh_codec.proofs.Laws.Conditional.{always};
ghost use Rattle.borsh_codec.proofs.Laws.Exact.{contramap-lawful};
ghost use Rattle.borsh_codec.specs.Reading.{any_byte};
ghost use Rattle.borsh_codec.specs.Shapes.{contramap};
ghost use Rattle.borsh_codec.proofs.CaseLaws.{any_byte-lawful};

use borsh_io::{Result, Write};
use borsh_ser::{BorshSerialize, put_bytes, write_bytes};
use borsh_types::BorshType;
use std::alloc::Global;

/// The tag of a variant, one byte, to be written before the fields:
///
/// ```
/// Event::Paid { amount, note } => write_three(&Tag(1), amount, note, alloc, writer),
/// ```
#[derive(Clone, Copy)]
pub struct Tag(pub u8);

impl BorshType for Tag {
    ghost codec = { contramap (λ t. t.0) any_byte };

    ghost lawful_if = { always (contramap-lawful (λ t. t.0) any_byte-lawful) };

    ghost premises = { tt };

    fn encodes_empty() -> bool {
        false
    }

    fn element_size() -> usize {
        1
    }
}

impl BorshSerialize for Tag {
    fn serialize<W: Write>(&self, _alloc: Global, writer: &mut W) -> Result<()> {
        write_bytes(&[self.0], writer)
    }

    fn put(&self, room: &mut [u8]) -> Option<usize> {
        put_bytes(&[self.0], room)
    }
}
