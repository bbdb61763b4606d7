// Texts: a count of four bytes and the bytes of the characters, in UTF-8.
ghost use Rattle.std.specs.Prelude.{◌≡◌};
ghost use Rattle.std.specs.Arc.{arc_str_bytes};
ghost use Rattle.std.specs.Box.{boxed_str_bytes};
ghost use Rattle.std.specs.Cow.{cow_str_bytes};
ghost use Rattle.std.specs.Rc.{rc_str_bytes};
ghost use Rattle.std.specs.String.{string_bytes};
ghost use Rattle.borsh_codec.specs.Shapes.{contramap};
ghost use Rattle.borsh_codec.proofs.Laws.Exact.{contramap-lawful};
ghost use Rattle.borsh_codec.specs.Types.Texts.{text};
ghost use Rattle.borsh_codec.proofs.Laws.Types.{text-lawful};
ghost use Rattle.borsh_codec.proofs.Laws.Conditional.{always};

use super::types::BorshType;
use std::borrow::CowStr;
use std::boxed::BoxedStr;
use std::rc::RcStr;
use std::sync::ArcStr;

impl BorshType for String {
    ghost codec = { contramap string_bytes text };

    ghost lawful_if = { always (contramap-lawful string_bytes text-lawful) };

    ghost premises = { tt };

    fn encodes_empty() -> bool {
        false
    }

    fn element_size() -> usize {
        24
    }
}

impl BorshType for &str {
    ghost codec = { contramap (λ r. r.now) text };

    ghost lawful_if = { always (contramap-lawful (λ r. r.now) text-lawful) };

    ghost premises = { tt };

    fn encodes_empty() -> bool
        ensures { result ≡ text.is_zero_width }
    {
        false
    }

    fn element_size() -> usize {
        16
    }
}

impl BorshType for BoxedStr {
    ghost codec = { contramap boxed_str_bytes text };

    ghost lawful_if = { always (contramap-lawful boxed_str_bytes text-lawful) };

    ghost premises = { tt };

    fn encodes_empty() -> bool {
        false
    }

    fn element_size() -> usize {
        16
    }
}

impl BorshType for RcStr {
    ghost codec = { contramap rc_str_bytes text };

    ghost lawful_if = { always (contramap-lawful rc_str_bytes text-lawful) };

    ghost premises = { tt };

    fn encodes_empty() -> bool {
        false
    }

    fn element_size() -> usize {
        16
    }
}

impl BorshType for ArcStr {
    ghost codec = { contramap arc_str_bytes text };

    ghost lawful_if = { always (contramap-lawful arc_str_bytes text-lawful) };

    ghost premises = { tt };

    fn encodes_empty() -> bool {
        false
    }

    fn element_size() -> usize {
        16
    }
}

impl BorshType for CowStr<'_> {
    ghost codec = { contramap cow_str_bytes text };

    ghost lawful_if = { always (contramap-lawful cow_str_bytes text-lawful) };

    ghost premises = { tt };

    fn encodes_empty() -> bool
        ensures { result ≡ text.is_zero_width }
    {
        false
    }

    fn element_size() -> usize {
        24
    }
}
