// Types that are encoded as their parts.
ghost use Rattle.borsh_codec.specs.Shapes.{contramap};
ghost use Rattle.borsh_codec.proofs.Laws.Exact.{contramap-lawful};
ghost use Rattle.borsh_codec.proofs.Laws.Conditional.{from};
ghost use Rattle.borsh_codec.proofs.Laws.OrderedKeys.{contramap_ordered};

use super::keys::BorshKey;
use super::types::BorshType;
use std::num::Wrapping;

impl<T: BorshType> BorshType for Wrapping<T> {
    ghost codec = { contramap (λ w. w.0) T.codec };

    ghost lawful_if = { from (contramap-lawful (λ w. w.0)) T.lawful_if };

    ghost premises = { T.premises };

    fn encodes_empty() -> bool {
        T::encodes_empty()
    }

    fn element_size() -> usize {
        T::element_size()
    }
}

impl<T: BorshKey> BorshKey for Wrapping<T> {
    ghost ordered = { contramap_ordered (λ w. w.0) T.ordered };

    ghost key = { λ a b. T.key a.0 b.0 };
}
