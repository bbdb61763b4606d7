// Pointers, which are what they point to.
ghost use Rattle.std.specs.Cow.{cow_value};
ghost use Rattle.borsh_codec.specs.Shapes.{contramap, allocated};
ghost use Rattle.borsh_codec.proofs.Laws.Exact.{contramap-lawful, allocated-lawful};
ghost use Rattle.borsh_codec.proofs.Laws.Conditional.{from};

use super::types::BorshType;
use std::borrow::Cow;
use std::rc::Rc;
use std::sync::Arc;

impl<T: BorshType> BorshType for &T {
    ghost codec = { contramap (λ r. r.now) T.codec };

    ghost lawful_if = { from (contramap-lawful (λ r. r.now)) T.lawful_if };

    ghost premises = { T.premises };

    fn encodes_empty() -> bool {
        T::encodes_empty()
    }

    fn element_size() -> usize {
        size_of::<usize>()
    }
}

impl<T: BorshType> BorshType for Box<T> {
    ghost codec = { contramap (λ b. b.value) (allocated T.codec) };

    ghost lawful_if = { from (λ l. contramap-lawful (λ b. b.value) (allocated-lawful l)) T.lawful_if };

    ghost premises = { T.premises };

    fn encodes_empty() -> bool {
        T::encodes_empty()
    }

    fn element_size() -> usize {
        size_of::<usize>()
    }
}

impl<T: BorshType> BorshType for Rc<T> {
    ghost codec = { contramap (λ b. b.value) (allocated T.codec) };

    ghost lawful_if = { from (λ l. contramap-lawful (λ b. b.value) (allocated-lawful l)) T.lawful_if };

    ghost premises = { T.premises };

    fn encodes_empty() -> bool {
        T::encodes_empty()
    }

    fn element_size() -> usize {
        size_of::<usize>()
    }
}

impl<T: BorshType> BorshType for Arc<T> {
    ghost codec = { contramap (λ b. b.value) (allocated T.codec) };

    ghost lawful_if = { from (λ l. contramap-lawful (λ b. b.value) (allocated-lawful l)) T.lawful_if };

    ghost premises = { T.premises };

    fn encodes_empty() -> bool {
        T::encodes_empty()
    }

    fn element_size() -> usize {
        size_of::<usize>()
    }
}

impl<T: BorshType> BorshType for Cow<'_, T> {
    ghost codec = { contramap cow_value T.codec };

    ghost lawful_if = { from (contramap-lawful cow_value) T.lawful_if };

    ghost premises = { T.premises };

    fn encodes_empty() -> bool {
        T::encodes_empty()
    }

    fn element_size() -> usize {
        T::element_size().saturating_add(8)
    }
}
