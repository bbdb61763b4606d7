// A reader whose keys may come in any order. Left open of each call: none.
ghost use Rattle.std.specs.Prelude.{◌≡◌};
ghost use Rattle.borsh_io.specs.Stream.{unordered};
ghost use Rattle.borsh_io.specs.Unordered.{unordered_inner};

use super::error::Result;
use super::read::Read;

/// A reader from which maps and sets are decoded with their keys in any order, and repeatedly. In all
/// else it does what the inner reader does.
///
/// ```
/// let mut input = Unordered::new(bytes);
/// let map = BTreeMap::<u8, u8>::deserialize_reader(alloc, &mut input)?;
/// ```
#[derive(Drop)]
pub struct Unordered<R> {
    inner: R,
}

impl<R: Read> Unordered<R> {
    /// A reader over `inner`.
    ///
    /// ```
    /// let mut input = Unordered::new(b"\x02\x00\x00\x00\x09\x01".as_slice());
    /// let set = BTreeSet::<u8>::deserialize_reader(alloc, &mut input)?;
    /// assert_eq!(rt; set.len(), 2);
    /// ```
    pub fn new(inner: R) -> Unordered<R>
        ensures { unordered_inner result ≡ inner }
    {
        Unordered { inner }
    }
}

/// The inner reader, with keys in any order. Left open: what it leaves open.
impl<R: Read> Read for Unordered<R> {
    ghost stream = { λ u. unordered (R.stream (unordered_inner u)) };

    #[inline]
    fn read(&mut self, buf: &mut [u8]) -> Result<usize> {
        self.inner.read(buf)
    }

    #[inline]
    fn strict_order(&self) -> bool {
        false
    }

    #[inline]
    fn bytes_left(&self) -> Option<usize> {
        self.inner.bytes_left()
    }

    #[inline]
    fn read_exact(&mut self, buf: &mut [u8]) -> Result<()> {
        self.inner.read_exact(buf)
    }
}
