// Whole numbers that are not zero: their number.
ghost use Rattle.std.specs.Int.NonZero.{non_zero_u8_get, non_zero_u16_get, non_zero_u32_get, non_zero_u64_get, non_zero_u128_get, non_zero_usize_get, non_zero_i8_get, non_zero_i16_get, non_zero_i32_get, non_zero_i64_get, non_zero_i128_get};
ghost use Rattle.borsh_codec.specs.Shapes.{contramap, unsigned, signed};
ghost use Rattle.borsh_codec.proofs.Laws.Exact.{contramap-lawful};
ghost use Rattle.borsh_codec.proofs.Laws.Numbers.{unsigned-lawful, signed-lawful};
ghost use Rattle.borsh_codec.proofs.Laws.Conditional.{always};

use super::types::BorshType;
use std::num::{
    NonZeroI8, NonZeroI16, NonZeroI32, NonZeroI64, NonZeroI128, NonZeroU8, NonZeroU16, NonZeroU32,
    NonZeroU64, NonZeroU128, NonZeroUsize,
};

impl BorshType for NonZeroU8 {
    ghost codec = { contramap non_zero_u8_get (unsigned 1) };

    ghost lawful_if = { always (contramap-lawful non_zero_u8_get (unsigned-lawful 1)) };

    ghost premises = { tt };

    fn encodes_empty() -> bool {
        false
    }

    fn element_size() -> usize {
        size_of::<NonZeroU8>()
    }
}

impl BorshType for NonZeroU16 {
    ghost codec = { contramap non_zero_u16_get (unsigned 2) };

    ghost lawful_if = { always (contramap-lawful non_zero_u16_get (unsigned-lawful 2)) };

    ghost premises = { tt };

    fn encodes_empty() -> bool {
        false
    }

    fn element_size() -> usize {
        size_of::<NonZeroU16>()
    }
}

impl BorshType for NonZeroU32 {
    ghost codec = { contramap non_zero_u32_get (unsigned 4) };

    ghost lawful_if = { always (contramap-lawful non_zero_u32_get (unsigned-lawful 4)) };

    ghost premises = { tt };

    fn encodes_empty() -> bool {
        false
    }

    fn element_size() -> usize {
        size_of::<NonZeroU32>()
    }
}

impl BorshType for NonZeroU64 {
    ghost codec = { contramap non_zero_u64_get (unsigned 8) };

    ghost lawful_if = { always (contramap-lawful non_zero_u64_get (unsigned-lawful 8)) };

    ghost premises = { tt };

    fn encodes_empty() -> bool {
        false
    }

    fn element_size() -> usize {
        size_of::<NonZeroU64>()
    }
}

impl BorshType for NonZeroU128 {
    ghost codec = { contramap non_zero_u128_get (unsigned 16) };

    ghost lawful_if = { always (contramap-lawful non_zero_u128_get (unsigned-lawful 16)) };

    ghost premises = { tt };

    fn encodes_empty() -> bool {
        false
    }

    fn element_size() -> usize {
        size_of::<NonZeroU128>()
    }
}

impl BorshType for NonZeroUsize {
    ghost codec = { contramap non_zero_usize_get (unsigned 8) };

    ghost lawful_if = { always (contramap-lawful non_zero_usize_get (unsigned-lawful 8)) };

    ghost premises = { tt };

    fn encodes_empty() -> bool {
        false
    }

    fn element_size() -> usize {
        size_of::<NonZeroUsize>()
    }
}

impl BorshType for NonZeroI8 {
    ghost codec = { contramap non_zero_i8_get (signed 1) };

    ghost lawful_if = { always (contramap-lawful non_zero_i8_get (signed-lawful 1)) };

    ghost premises = { tt };

    fn encodes_empty() -> bool {
        false
    }

    fn element_size() -> usize {
        size_of::<NonZeroI8>()
    }
}

impl BorshType for NonZeroI16 {
    ghost codec = { contramap non_zero_i16_get (signed 2) };

    ghost lawful_if = { always (contramap-lawful non_zero_i16_get (signed-lawful 2)) };

    ghost premises = { tt };

    fn encodes_empty() -> bool {
        false
    }

    fn element_size() -> usize {
        size_of::<NonZeroI16>()
    }
}

impl BorshType for NonZeroI32 {
    ghost codec = { contramap non_zero_i32_get (signed 4) };

    ghost lawful_if = { always (contramap-lawful non_zero_i32_get (signed-lawful 4)) };

    ghost premises = { tt };

    fn encodes_empty() -> bool {
        false
    }

    fn element_size() -> usize {
        size_of::<NonZeroI32>()
    }
}

impl BorshType for NonZeroI64 {
    ghost codec = { contramap non_zero_i64_get (signed 8) };

    ghost lawful_if = { always (contramap-lawful non_zero_i64_get (signed-lawful 8)) };

    ghost premises = { tt };

    fn encodes_empty() -> bool {
        false
    }

    fn element_size() -> usize {
        size_of::<NonZeroI64>()
    }
}

impl BorshType for NonZeroI128 {
    ghost codec = { contramap non_zero_i128_get (signed 16) };

    ghost lawful_if = { always (contramap-lawful non_zero_i128_get (signed-lawful 16)) };

    ghost premises = { tt };

    fn encodes_empty() -> bool {
        false
    }

    fn element_size() -> usize {
        size_of::<NonZeroI128>()
    }
}
