// Lists: a count of four bytes and the elements in order.
ghost use Rattle.std.specs.Arc.{arc_slice_items};
ghost use Rattle.std.specs.Box.{boxed_slice_items};
ghost use Rattle.std.specs.Rc.{rc_slice_items};
ghost use Rattle.std.specs.Cow.{cow_slice_items};
ghost use Rattle.borsh_codec.specs.Shapes.{contramap, length_prefixed, list};
ghost use Rattle.borsh_codec.proofs.Laws.Exact.{contramap-lawful};
ghost use Rattle.borsh_codec.proofs.Laws.Rows.{length_prefixed-lawful, list-lawful};
ghost use Rattle.borsh_codec.proofs.Laws.Conditional.{from};

use super::types::BorshType;
use std::borrow::CowSlice;
use std::boxed::BoxedSlice;
use std::collections::{LinkedList, VecDeque};
use std::rc::RcSlice;
use std::sync::ArcSlice;

impl<T: BorshType> BorshType for Vec<T> {
    ghost codec = { contramap (λ v. v.items) (list T.codec) };

    ghost lawful_if = { from (λ l. contramap-lawful (λ v. v.items) (list-lawful l)) T.lawful_if };

    ghost premises = { T.premises };

    fn encodes_empty() -> bool {
        false
    }

    fn element_size() -> usize {
        24
    }
}

impl<T: BorshType> BorshType for VecDeque<T> {
    ghost codec = { contramap (λ v. v.items) (list T.codec) };

    ghost lawful_if = { from (λ l. contramap-lawful (λ v. v.items) (list-lawful l)) T.lawful_if };

    ghost premises = { T.premises };

    fn encodes_empty() -> bool {
        false
    }

    fn element_size() -> usize {
        32
    }
}

impl<T: BorshType> BorshType for LinkedList<T> {
    ghost codec = { list T.codec };

    ghost lawful_if = { from list-lawful T.lawful_if };

    ghost premises = { T.premises };

    fn encodes_empty() -> bool {
        false
    }

    fn element_size() -> usize {
        24
    }
}

impl<T: BorshType> BorshType for BoxedSlice<T> {
    ghost codec = { contramap boxed_slice_items (list T.codec) };

    ghost lawful_if = { from (λ l. contramap-lawful boxed_slice_items (list-lawful l)) T.lawful_if };

    ghost premises = { T.premises };

    fn encodes_empty() -> bool {
        false
    }

    fn element_size() -> usize {
        16
    }
}

impl<T: BorshType> BorshType for RcSlice<T> {
    ghost codec = { contramap rc_slice_items (list T.codec) };

    ghost lawful_if = { from (λ l. contramap-lawful rc_slice_items (list-lawful l)) T.lawful_if };

    ghost premises = { T.premises };

    fn encodes_empty() -> bool {
        false
    }

    fn element_size() -> usize {
        16
    }
}

impl<T: BorshType> BorshType for ArcSlice<T> {
    ghost codec = { contramap arc_slice_items (list T.codec) };

    ghost lawful_if = { from (λ l. contramap-lawful arc_slice_items (list-lawful l)) T.lawful_if };

    ghost premises = { T.premises };

    fn encodes_empty() -> bool {
        false
    }

    fn element_size() -> usize {
        16
    }
}

impl<T: BorshType> BorshType for CowSlice<'_, T> {
    ghost codec = { contramap cow_slice_items (list T.codec) };

    ghost lawful_if = { from (λ l. contramap-lawful cow_slice_items (list-lawful l)) T.lawful_if };

    ghost premises = { T.premises };

    fn encodes_empty() -> bool {
        false
    }

    fn element_size() -> usize {
        24
    }
}

// A plain slice isn't asked whether its elements are empty.
impl<T: BorshType> BorshType for &[T] {
    ghost codec = { contramap (λ r. r.now) (length_prefixed T.codec) };

    ghost lawful_if = { from (λ l. contramap-lawful (λ r. r.now) (length_prefixed-lawful l)) T.lawful_if };

    ghost premises = { T.premises };

    fn encodes_empty() -> bool {
        false
    }

    fn element_size() -> usize {
        16
    }
}
