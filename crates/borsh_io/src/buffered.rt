// A reader, and bytes of it that are held until they are taken. Left open of each call: none.
ghost use Rattle.borsh_io.specs.Buffered.{ReadsMore, TakesHeld, held, piece, reader_of};
ghost use Rattle.std.specs.Prelude.{[], ◌≡◌, ◌≤◌, length};

use super::error::Result;
use super::read::{Read, read_some};
use std::alloc::Global;

/// How many bytes are read at most at once.
const CHUNK: usize = 65536;

/// A reader, and those of its bytes that were read and not yet taken. Bytes are taken as pieces, of which the last one is kept.
#[derive(Drop)]
pub struct Buffered<R> {
    reader: R,
    // The bytes before the last piece, it, and those that are held.
    buffer: Vec<u8>,
    // Where the last piece begins and ends.
    start: usize,
    end: usize,
}

impl<R: Read + Drop> Buffered<R> {
    /// No bytes of the reader were read.
    ///
    /// ```
    /// let mut input = Buffered::new(alloc, StdReader::new(rt.stdin(), 1000));
    /// ```
    pub fn new(alloc: Global, reader: R) -> Buffered<R>
        ensures reader { reader_of result ≡ reader }
        ensures none { (held result ≡ []) × (piece result ≡ []) }
    {
        Buffered {
            reader,
            buffer: Vec::new(alloc),
            start: 0,
            end: 0,
        }
    }

    /// The bytes that were read and not yet taken.
    ///
    /// ```
    /// let line_ends = input.held().contains(&b'\n');
    /// ```
    pub fn held(&self) -> &[u8]
        ensures { result.now ≡ held self.now }
    {
        let buffer = self.buffer.as_slice();
        &buffer[self.end.min(buffer.len())..]
    }

    /// The bytes that were taken last; once more were read they may be any.
    ///
    /// ```
    /// input.take(4);
    /// assert_eq!(rt; input.piece().len(), 4);
    /// ```
    pub fn piece(&self) -> &[u8]
        ensures { result.now ≡ piece self.now }
    {
        let buffer = self.buffer.as_slice();
        let taken = &buffer[..self.end.min(buffer.len())];
        &taken[self.start.min(taken.len())..]
    }

    /// Takes the first `count` of the bytes that are held.
    ///
    /// ```
    /// input.take(input.held().len());
    /// ```
    pub fn take(&mut self, count: usize)
        requires { count ≤ length (held self.old) }
        ensures { TakesHeld self.old self.new count }
    {
        self.start = self.end;
        self.end += count;
    }

    /// Reads more bytes, which are held behind the others, and returns how many: none at the end of the reader's bytes.
    ///
    /// After an error the bytes that were held are held still: the reader failed, or an allocation did. Left open:
    /// how many are read; memory.
    ///
    /// ```
    /// while input.read_more()? > 0 {}
    /// ```
    pub fn read_more(&mut self) -> Result<usize>
        ensures { ReadsMore R.stream self.old self.new result }
    {
        self.let_go();
        self.append()
    }

    // Reads more bytes, where none were taken.
    fn append(&mut self) -> Result<usize>
        requires none_taken { self.old.end ≡ 0 }
        ensures { ReadsMore R.stream self.old self.new result }
    {
        let held = self.buffer.len();
        self.buffer.resize(held + CHUNK, 0)?;
        match read_some(&mut self.reader, &mut self.buffer.as_mut_slice()[held..]) {
            Ok(length) => {
                self.buffer.truncate(held + length);
                Ok(length)
            }
            Err(error) => {
                self.buffer.truncate(held);
                Err(error)
            }
        }
    }

    /// Gives up the bytes that were taken.
    fn let_go(&mut self)
        ensures buffer { self.new.buffer.items ≡ held self.old }
        ensures end { self.new.end ≡ 0 }
        ensures reader { self.new.reader ≡ self.old.reader }
    {
        let length = self.buffer.len();
        let end = self.end.min(length);
        self.start = 0;
        self.end = 0;
        if end > 0 {
            self.buffer.as_mut_slice().copy_within(end.., 0);
            self.buffer.truncate(length - end);
        }
    }
}
