// Ranges: their start, where they have one, and then their end, where they have one.
ghost use Rattle.std.specs.Prelude.{◌≡◌, false};
ghost use Rattle.std.specs.Range.{range_inclusive_start, range_inclusive_end, range_inclusive_exhausted};
ghost use Rattle.borsh_codec.specs.Shapes.{contramap, decoded_with, pair};
ghost use Rattle.borsh_codec.proofs.Laws.Exact.{contramap-lawful, decoded_with-lawful};
ghost use Rattle.borsh_codec.proofs.Laws.Pairs.{pair-lawful};
ghost use Rattle.borsh_codec.proofs.Laws.Conditional.{from};

use super::types::BorshType;
use std::ops::{Range, RangeFrom, RangeInclusive, RangeTo, RangeToInclusive};

impl<T: BorshType> BorshType for Range<T> {
    ghost codec = { contramap (λ r. (r.start, r.end)) (pair T.codec T.codec) };

    ghost lawful_if = { from (λ l. contramap-lawful (λ r. (r.start, r.end)) (pair-lawful l l)) T.lawful_if };

    ghost premises = { T.premises };

    fn encodes_empty() -> bool {
        <(T, T)>::encodes_empty()
    }

    fn element_size() -> usize {
        <(T, T)>::element_size()
    }
}

impl<T: BorshType> BorshType for RangeInclusive<T> {
    ghost codec = { decoded_with (λ r. range_inclusive_exhausted r ≡ false)
        (contramap (λ r. (range_inclusive_start r, range_inclusive_end r)) (pair T.codec T.codec)) };

    ghost lawful_if = { from (λ l. decoded_with-lawful (λ r. range_inclusive_exhausted r ≡ false)
        (contramap-lawful (λ r. (range_inclusive_start r, range_inclusive_end r)) (pair-lawful l l))) T.lawful_if };

    ghost premises = { T.premises };

    fn encodes_empty() -> bool {
        <(T, T)>::encodes_empty()
    }

    fn element_size() -> usize {
        <(T, T)>::element_size()
    }
}

impl<T: BorshType> BorshType for RangeFrom<T> {
    ghost codec = { contramap (λ r. r.start) T.codec };

    ghost lawful_if = { from (contramap-lawful (λ r. r.start)) T.lawful_if };

    ghost premises = { T.premises };

    fn encodes_empty() -> bool {
        T::encodes_empty()
    }

    fn element_size() -> usize {
        T::element_size()
    }
}

impl<T: BorshType> BorshType for RangeTo<T> {
    ghost codec = { contramap (λ r. r.end) T.codec };

    ghost lawful_if = { from (contramap-lawful (λ r. r.end)) T.lawful_if };

    ghost premises = { T.premises };

    fn encodes_empty() -> bool {
        T::encodes_empty()
    }

    fn element_size() -> usize {
        T::element_size()
    }
}

impl<T: BorshType> BorshType for RangeToInclusive<T> {
    ghost codec = { contramap (λ r. r.end) T.codec };

    ghost lawful_if = { from (contramap-lawful (λ r. r.end)) T.lawful_if };

    ghost premises = { T.premises };

    fn encodes_empty() -> bool {
        T::encodes_empty()
    }

    fn element_size() -> usize {
        T::element_size()
    }
}
