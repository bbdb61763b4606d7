// A reader over a slice.
ghost use Rattle.std.specs.Prelude.{◌≡◌, Some, length, true};
ghost use Rattle.borsh.specs.Stream.{ReaderState};
ghost use Rattle.test_devices.specs.Devices.{slice_stream};

use super::course::Course;
use borsh::io::{Read, Result};

/// Gives the bytes of a slice, and goes wrong as its course says.
#[derive(Drop)]
pub struct TestReader<'a> {
    bytes: &'a [u8],
    course: Course,
}

impl<'a> TestReader<'a> {
    pub fn new(bytes: &'a [u8], course: Course) -> TestReader<'a>
        ensures bytes { result.bytes.now ≡ bytes.now }
        ensures course { result.course ≡ course }
    {
        TestReader { bytes, course }
    }

    /// The bytes that are left.
    pub fn rest(&self) -> &'a [u8] {
        self.bytes
    }

    /// How many calls of `read` were made.
    pub fn calls(&self) -> u64 {
        self.course.calls()
    }

    /// How many calls of `read` failed.
    pub fn faults(&self) -> u64
        ensures { result ≡ self.now.course.faults }
    {
        self.course.faults()
    }
}

impl Read for TestReader<'_> {
    ghost stream = { λ r. slice_stream r.bytes.now r.course };

    fn read(&mut self, buf: &mut [u8]) -> Result<usize> {
        let most = self.course.begin()?;
        let all = self.bytes;
        let n = all.len().min(buf.len()).min(most);
        buf[..n].copy_from_slice(&all[..n]);
        self.bytes = &all[n..];
        Ok(n)
    }

    fn strict_order(&self) -> bool {
        true
    }
}
