// What reads. Left open of each call: none.
ghost use Rattle.std.specs.Prelude.{◌≡◌, IfSome};
ghost use Rattle.borsh_io.specs.Errors.{error_kind};
ghost use Rattle.borsh_io.specs.Stream.{ReaderState, HasAtMost, ReadsSome, ReadsSomeRetrying, ReadsExactly};

use super::error::{Error, ErrorKind, Result, pass_over};

/// A source of bytes.
///
/// An implementation says by the ghost member `stream` which bytes are still to come (if it knows them),
/// how often it has failed, and with which kind last, how often it may still be interrupted, and how many
/// reads may still take bytes. So a loop over a reader ends: it yields bytes a bounded number of times.
///
/// So a reader that can fail has two fields that only a failure changes: the count of failures, which rises
/// by one and stays at 2^64 - 1, and the kind of the last error returned, `None` before the first. For one
/// that never fails they are 0 and `None`.
pub trait Read {
    ghost stream: { Self → ReaderState };

    /// Reads the next bytes into the beginning of the buffer, and returns how many: at least one, if one
    /// is left and the buffer isn't empty.
    ///
    /// After an error of kind `Interrupted` nothing was read, and the call may be made again. After any
    /// other error nothing was read, and the failure is counted with its kind. Left open: how many bytes are read,
    /// what the buffer holds behind them, and when the reader fails.
    ///
    /// ```
    /// let mut input = b"\x07\x00\xff".as_slice();
    /// let mut buffer = [0u8; 2];
    /// assert_eq!(rt; input.read(&mut buffer)?, 2);
    /// assert_eq!(rt; input, b"\xff".as_slice());
    /// ```
    fn read(&mut self, buf: &mut [u8]) -> Result<usize>
        ensures { ReadsSome stream self.old self.new buf.new result };

    /// Whether the keys of maps and sets must be in ascending order. No read changes it.
    ///
    /// ```
    /// assert!(rt; b"\x07".as_slice().strict_order());
    /// assert!(rt; !Unordered::new(b"\x07".as_slice()).strict_order());
    /// ```
    fn strict_order(&self) -> bool
        ensures { result ≡ (stream self.now).strict_order };

    /// How many bytes are left at most, if the reader knows which they are: a slice returns its length. So a
    /// list that announces more bytes than there are is refused before memory is allocated for it, and any
    /// other list of bytes is read into memory of its own size. `None`: there may be any number. Left open:
    /// `None`, of any reader but a slice.
    ///
    /// ```
    /// let input = b"\x07\x00".as_slice();
    /// assert_eq!(rt; input.bytes_left(), Some(2));
    /// ```
    fn bytes_left(&self) -> Option<usize>
        ensures { IfSome result (HasAtMost (stream self.now)) }
    {
        None
    }

    /// Fills the buffer with the next bytes, trying again after interruptions.
    ///
    /// Returns `UnexpectedEof`, "failed to fill whole buffer", if there are fewer bytes, and the reader's
    /// error if it fails. Left open: after an error, how many bytes were read, and what the buffer holds.
    ///
    /// ```
    /// let mut input = b"\x07\x00\xff".as_slice();
    /// let mut buffer = [0u8; 2];
    /// input.read_exact(&mut buffer)?;
    /// assert_eq!(rt; buffer, [7, 0]);
    /// ```
    fn read_exact(&mut self, buf: &mut [u8]) -> Result<()>
        ensures { ReadsExactly stream self.old self.new buf.old buf.new result }
    {
        let mut at = 0;
        while at < buf.len() {
            match self.read(&mut buf[at..]) {
                Ok(0) => return Err(short_read()),
                Ok(n) => at += n,
                Err(e) => pass_over(e)?,
            }
        }
        Ok(())
    }

    /// A mutable reference to the reader, so that it can be used again after a call that takes a reader
    /// by value.
    ///
    /// ```
    /// let mut unordered = Unordered::new(input.by_ref());
    /// let set = BTreeSet::<u8>::deserialize_reader(alloc, &mut unordered)?;
    /// ```
    final fn by_ref(&mut self) -> &mut Self
    where
        Self: Sized,
        ensures value { result.now ≡ self.old }
        ensures same_reference { result.ghost_name ≡ self.entry.ghost_name }
    {
        self
    }
}

/// One read, trying again after interruptions.
///
/// Returns the reader's error if it fails; nothing was read then. Left open: how many bytes are read, and
/// what the buffer holds behind them.
///
/// ```
/// let mut buffer = [0u8; 4096];
/// let n = read_some(&mut input, &mut buffer)?;
/// ```
pub fn read_some<R: Read>(reader: &mut R, buf: &mut [u8]) -> Result<usize>
    ensures { ReadsSomeRetrying R.stream reader.old reader.new buf.new result }
{
    loop {
        match reader.read(buf) {
            Ok(n) => return Ok(n),
            Err(e) => pass_over(e)?,
        }
    }
}

#[cold]
pub(crate) fn short_read() -> Error
    ensures { error_kind result ≡ ErrorKind.UnexpectedEof }
{
    Error::new(ErrorKind::UnexpectedEof, "failed to fill whole buffer")
}
