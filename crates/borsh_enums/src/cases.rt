// The variants of an enum as one type.
ghost use Rattle.std.specs.Prelude.{◌≡◌, true};
ghost use Rattle.borsh_codec.specs.Codec.{Codec};
ghost use Rattle.borsh_codec.proofs.CaseLaws.{Variants, case_variants, contramap_variants, either_variants};
ghost use Rattle.borsh_codec.specs.Shapes.{behind_tag, contramap};
ghost use Rattle.borsh_codec.specs.Variants.{Tags, both, distinct, has, tag_of};
ghost use Rattle.borsh_enums.specs.Cases.{fork, fork_view};

use borsh_types::BorshType;

/// The variants of an enum, each with a tag: a [`Case`], or a [`Fork`] of such types.
///
/// An implementation says what the bytes of a value are (`codec`) and which tags the variants have (`tags`),
/// and has what the laws of that codec rest on (`variants`).
pub trait Cases: Sized {
    ghost codec: { Codec Self };

    ghost tags: { Tags };

    ghost variants: { Variants tags codec };

    /// Whether a variant has this tag. Left open: none.
    fn has_tag(tag: u8) -> bool
        ensures { result ≡ has tag tags };

    /// About how many bytes of memory a value takes, as [`BorshType::element_size`]. Left open: any number.
    fn element_size() -> usize;
}

/// A tag that is known when the program is compiled. It takes no memory.
#[derive(Drop)]
pub struct TagOf<const TAG: u8>;

/// A variant: its fields, `A`, behind the tag `TAG`. The fields are `()`, one type, or a tuple.
pub type Case<const TAG: u8, A> = (TagOf<TAG>, A);

impl<const TAG: u8, A: BorshType> Cases for Case<TAG, A> {
    ghost codec = { contramap (λ v. v.1) (behind_tag TAG A.codec) };

    ghost tags = { tag_of TAG };

    ghost variants = { case_variants (λ v. v.1) TAG A.lawful_if };

    fn has_tag(tag: u8) -> bool {
        tag == TAG
    }

    fn element_size() -> usize {
        A::element_size()
    }
}

/// Some variants, or others. A tree of forks is as deep as the logarithm of the number of variants, so
/// what is said and proved of an enum grows no faster than that number.
#[derive(Drop)]
pub enum Fork<A, B> {
    Left(A),
    Right(B),
}

impl<A: Cases, B: Cases> Cases for Fork<A, B> {
    ghost codec = { fork A.codec B.codec };

    ghost tags = { both A.tags B.tags };

    ghost variants = { contramap_variants fork_view (either_variants A.variants B.variants) };

    fn has_tag(tag: u8) -> bool {
        A::has_tag(tag) || B::has_tag(tag)
    }

    fn element_size() -> usize {
        A::element_size().max(B::element_size())
    }
}

/// An enum whose values are put together from their variants.
///
/// With [`read_enum`](super::read_enum) and [`read_variant`](super::read_variant) such a type is decoded with no proof.
pub trait FromCases: Sized {
    /// The variants as one type.
    type Cases: Cases;

    /// The variant of a value.
    ghost view: { Self → Self.Cases };

    /// The value with this variant. Left open: what `view` doesn't show.
    fn from_cases(cases: Self::Cases) -> Self
        ensures { view result ≡ cases };

    /// No two variants have one tag.
    ghost distinct_tags: { distinct Self.Cases.tags ≡ true };
}
