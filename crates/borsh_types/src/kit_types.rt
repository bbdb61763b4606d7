// Types of the crates `bytes` and `uuid`.
ghost use Rattle.borsh_codec.specs.Shapes.{contramap, unsigned, list};
ghost use Rattle.borsh_codec.proofs.Laws.Exact.{contramap-lawful};
ghost use Rattle.borsh_codec.proofs.Laws.Numbers.{unsigned-lawful};
ghost use Rattle.borsh_codec.proofs.Laws.Rows.{list-lawful};
ghost use Rattle.borsh_codec.specs.Types.Addresses.{octets};
ghost use Rattle.borsh_codec.proofs.Laws.Types.{octets-lawful};
ghost use Rattle.borsh_codec.proofs.Laws.Conditional.{always};

use super::types::BorshType;
use bytes::{Bytes, BytesMut};
use uuid::Uuid;

impl BorshType for Bytes {
    ghost codec = { list (unsigned 1) };

    ghost lawful_if = { always (list-lawful (unsigned-lawful 1)) };

    ghost premises = { tt };

    fn encodes_empty() -> bool {
        false
    }

    fn element_size() -> usize {
        size_of::<Bytes>()
    }
}

impl BorshType for BytesMut {
    ghost codec = { contramap (λ b. b.items) (list (unsigned 1)) };

    ghost lawful_if = { always (contramap-lawful (λ b. b.items) (list-lawful (unsigned-lawful 1))) };

    ghost premises = { tt };

    fn encodes_empty() -> bool {
        false
    }

    fn element_size() -> usize {
        size_of::<BytesMut>()
    }
}

impl BorshType for Uuid {
    ghost codec = { octets 16 };

    ghost lawful_if = { always (octets-lawful 16) };

    ghost premises = { tt };

    fn encodes_empty() -> bool {
        false
    }

    fn element_size() -> usize {
        size_of::<Uuid>()
    }
}
