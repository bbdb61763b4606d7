// Values that are one of several kinds.
ghost use Rattle.borsh_codec.specs.Types.Sums.{bool, option, result_of};
ghost use Rattle.borsh_codec.proofs.Laws.Types.{bool-lawful, option-lawful, result_of-lawful};
ghost use Rattle.borsh_codec.proofs.Laws.Conditional.{always, from, from_two};

use super::types::BorshType;

impl BorshType for bool {
    ghost codec = { bool };

    ghost lawful_if = { always bool-lawful };

    ghost premises = { tt };

    fn encodes_empty() -> bool {
        false
    }

    fn element_size() -> usize {
        size_of::<bool>()
    }
}

impl<T: BorshType> BorshType for Option<T> {
    ghost codec = { option T.codec };

    ghost lawful_if = { from option-lawful T.lawful_if };

    ghost premises = { T.premises };

    fn encodes_empty() -> bool {
        false
    }

    fn element_size() -> usize {
        T::element_size().saturating_add(1)
    }
}

impl<T: BorshType, E: BorshType> BorshType for Result<T, E> {
    ghost codec = { result_of T.codec E.codec };

    ghost lawful_if = { from_two result_of-lawful T.lawful_if E.lawful_if };

    ghost premises = { (T.premises, E.premises) };

    fn encodes_empty() -> bool {
        false
    }

    fn element_size() -> usize {
        T::element_size().max(E::element_size()).saturating_add(1)
    }
}
