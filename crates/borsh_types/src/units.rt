// Values of types with one value: no bytes.
ghost use Rattle.borsh_codec.specs.Shapes.{contramap, unit};
ghost use Rattle.borsh_codec.proofs.Laws.Exact.{contramap-lawful, unit-lawful};
ghost use Rattle.borsh_codec.proofs.Laws.Conditional.{always};

use super::types::BorshType;
use std::marker::PhantomData;
use std::ops::RangeFull;

impl BorshType for () {
    ghost codec = { unit };

    ghost lawful_if = { always unit-lawful };

    ghost premises = { tt };

    fn encodes_empty() -> bool {
        true
    }

    fn element_size() -> usize {
        0
    }
}

impl BorshType for RangeFull {
    ghost codec = { contramap (λ _. tt) unit };

    ghost lawful_if = { always (contramap-lawful (λ _. tt) unit-lawful) };

    ghost premises = { tt };

    fn encodes_empty() -> bool {
        true
    }

    fn element_size() -> usize {
        0
    }
}

impl<T> BorshType for PhantomData<T> {
    ghost codec = { contramap (λ _. tt) unit };

    ghost lawful_if = { always (contramap-lawful (λ _. tt) unit-lawful) };

    ghost premises = { tt };

    fn encodes_empty() -> bool {
        true
    }

    fn element_size() -> usize {
        0
    }
}
