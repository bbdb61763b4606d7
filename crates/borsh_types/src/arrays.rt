// Arrays: their elements in order, with no count.
ghost use Rattle.borsh_codec.specs.Shapes.{array};
ghost use Rattle.borsh_codec.proofs.Laws.Rows.{array-lawful};
ghost use Rattle.borsh_codec.proofs.Laws.Conditional.{from};

use super::types::BorshType;

impl<T: BorshType, const N: usize> BorshType for [T; N] {
    ghost codec = { array N T.codec };

    ghost lawful_if = { from (array-lawful N) T.lawful_if };

    ghost premises = { T.premises };

    fn encodes_empty() -> bool {
        N == 0 || T::encodes_empty()
    }

    fn element_size() -> usize {
        T::element_size().saturating_mul(N)
    }
}
