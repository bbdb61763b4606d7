// Floating-point numbers: the bytes of their bits, the lowest first. A NaN has no encoding, and the two zeros have
// two.
ghost use Rattle.borsh_codec.specs.Types.Floats.{float32, float64};
ghost use Rattle.borsh_codec.proofs.Laws.Types.{float32-lawful, float64-lawful};
ghost use Rattle.borsh_codec.proofs.Laws.Conditional.{always};

use super::types::BorshType;

impl BorshType for f32 {
    ghost codec = { float32 };

    ghost lawful_if = { always float32-lawful };

    ghost premises = { tt };

    fn encodes_empty() -> bool {
        false
    }

    fn element_size() -> usize {
        size_of::<f32>()
    }
}

impl BorshType for f64 {
    ghost codec = { float64 };

    ghost lawful_if = { always float64-lawful };

    ghost premises = { tt };

    fn encodes_empty() -> bool {
        false
    }

    fn element_size() -> usize {
        size_of::<f64>()
    }
}
