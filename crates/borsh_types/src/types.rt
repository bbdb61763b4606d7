// What a type means.
ghost use Rattle.std.specs.Prelude.{◌≡◌, MatchResult, false, true};
ghost use Rattle.borsh_io.specs.Errors.{error_kind};
ghost use Rattle.borsh_codec.specs.Codec.{Codec, Lawful};
ghost use Rattle.borsh_codec.proofs.Laws.Conditional.{Conditional};

use borsh_io::error::ERROR_ZST_FORBIDDEN;
use borsh_io::{Error, ErrorKind, Result};

/// A type with a Borsh encoding.
///
/// An implementation says by the ghost member `codec` which bytes encode a value, which values are
/// equivalent, which bytes decode to a value, what is true of each decoded value though its bytes don't say
/// it (`made`), and whether encoding or decoding allocates, and proves by `lawful` the laws of codecs:
/// equivalent values have one encoding, no accepted input is a proper beginning of another, an encoding
/// decodes to the value that was encoded, and bytes decode to one value.
///
/// If your type has no implementation, put `// derive: borsh` above it and run derive/borsh_derive.py, or
/// write one by hand, as docs/IMPLEMENTING.md shows.
pub trait BorshType {
    ghost codec: { Codec Self };

    ghost lawful_if: { Conditional (Lawful Self codec) };

    /// Whether the encodings of the type are empty. Lists of such elements are refused, since a short
    /// input could announce any number of them. Left open: none.
    ///
    /// ```
    /// assert!(rt; <((), [u8; 0])>::encodes_empty());
    /// assert!(rt; !Vec::<u8>::encodes_empty());
    /// ```
    fn encodes_empty() -> bool
        ensures { result ≡ codec.is_zero_width };

    /// About how many bytes of memory a value takes; it sets for how many elements a list makes room at
    /// first. Left open: any number.
    ///
    /// ```
    /// let bytes = <(u64, String)>::element_size();
    /// ```
    fn element_size() -> usize;

    ghost premises: { lawful_if.premises };

    ghost lawful: { Lawful Self codec } = { lawful_if.fact premises };
}

/// Refuses elements and keys whose encodings are empty: `InvalidData`, [`ERROR_ZST_FORBIDDEN`].
#[inline]
pub fn refuse_empty<T: BorshType>() -> Result<()>
    ensures { MatchResult result
        (λ _. T.codec.is_zero_width ≡ false)
        (λ e. (T.codec.is_zero_width ≡ true) × (error_kind e ≡ ErrorKind.InvalidData)) }
{
    if T::encodes_empty() {
        return Err(Error::new(ErrorKind::InvalidData, ERROR_ZST_FORBIDDEN));
    }
    Ok(())
}
