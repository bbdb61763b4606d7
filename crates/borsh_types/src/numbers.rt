// Whole numbers, the lowest byte first, and with a sign in two's complement. A `usize` is written as a
// `u64`, and an `isize` as an `i64`.
ghost use Rattle.borsh_codec.specs.Shapes.{unsigned, signed};
ghost use Rattle.borsh_codec.proofs.Laws.Numbers.{unsigned-lawful, signed-lawful};
ghost use Rattle.borsh_codec.proofs.Laws.Conditional.{always};

use super::types::BorshType;

impl BorshType for u8 {
    ghost codec = { unsigned 1 };

    ghost lawful_if = { always (unsigned-lawful 1) };

    ghost premises = { tt };

    fn encodes_empty() -> bool {
        false
    }

    fn element_size() -> usize {
        size_of::<u8>()
    }
}

impl BorshType for u16 {
    ghost codec = { unsigned 2 };

    ghost lawful_if = { always (unsigned-lawful 2) };

    ghost premises = { tt };

    fn encodes_empty() -> bool {
        false
    }

    fn element_size() -> usize {
        size_of::<u16>()
    }
}

impl BorshType for u32 {
    ghost codec = { unsigned 4 };

    ghost lawful_if = { always (unsigned-lawful 4) };

    ghost premises = { tt };

    fn encodes_empty() -> bool {
        false
    }

    fn element_size() -> usize {
        size_of::<u32>()
    }
}

impl BorshType for u64 {
    ghost codec = { unsigned 8 };

    ghost lawful_if = { always (unsigned-lawful 8) };

    ghost premises = { tt };

    fn encodes_empty() -> bool {
        false
    }

    fn element_size() -> usize {
        size_of::<u64>()
    }
}

impl BorshType for u128 {
    ghost codec = { unsigned 16 };

    ghost lawful_if = { always (unsigned-lawful 16) };

    ghost premises = { tt };

    fn encodes_empty() -> bool {
        false
    }

    fn element_size() -> usize {
        size_of::<u128>()
    }
}

impl BorshType for usize {
    ghost codec = { unsigned 8 };

    ghost lawful_if = { always (unsigned-lawful 8) };

    ghost premises = { tt };

    fn encodes_empty() -> bool {
        false
    }

    fn element_size() -> usize {
        size_of::<usize>()
    }
}

impl BorshType for i8 {
    ghost codec = { signed 1 };

    ghost lawful_if = { always (signed-lawful 1) };

    ghost premises = { tt };

    fn encodes_empty() -> bool {
        false
    }

    fn element_size() -> usize {
        size_of::<i8>()
    }
}

impl BorshType for i16 {
    ghost codec = { signed 2 };

    ghost lawful_if = { always (signed-lawful 2) };

    ghost premises = { tt };

    fn encodes_empty() -> bool {
        false
    }

    fn element_size() -> usize {
        size_of::<i16>()
    }
}

impl BorshType for i32 {
    ghost codec = { signed 4 };

    ghost lawful_if = { always (signed-lawful 4) };

    ghost premises = { tt };

    fn encodes_empty() -> bool {
        false
    }

    fn element_size() -> usize {
        size_of::<i32>()
    }
}

impl BorshType for i64 {
    ghost codec = { signed 8 };

    ghost lawful_if = { always (signed-lawful 8) };

    ghost premises = { tt };

    fn encodes_empty() -> bool {
        false
    }

    fn element_size() -> usize {
        size_of::<i64>()
    }
}

impl BorshType for i128 {
    ghost codec = { signed 16 };

    ghost lawful_if = { always (signed-lawful 16) };

    ghost premises = { tt };

    fn encodes_empty() -> bool {
        false
    }

    fn element_size() -> usize {
        size_of::<i128>()
    }
}

impl BorshType for isize {
    ghost codec = { signed 8 };

    ghost lawful_if = { always (signed-lawful 8) };

    ghost premises = { tt };

    fn encodes_empty() -> bool {
        false
    }

    fn element_size() -> usize {
        size_of::<isize>()
    }
}
