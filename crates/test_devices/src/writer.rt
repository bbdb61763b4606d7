// A writer into memory.
ghost use Rattle.std.specs.Prelude.{◌≡◌};
ghost use Rattle.test_devices.specs.Devices.{room_writing, room-laws};

use super::course::Course;
use borsh::io::{Result, Write};

/// Appends bytes to a vector, goes wrong as its course says, and is full after a number of bytes.
#[derive(Drop)]
pub struct TestWriter {
    taken: Vec<u8>,
    room: usize,
    course: Course,
}

impl TestWriter {
    /// Appends to the vector, and takes `room` bytes at most.
    pub fn new(taken: Vec<u8>, room: usize, course: Course) -> TestWriter {
        TestWriter {
            taken,
            room,
            course,
        }
    }

    /// The bytes that were taken.
    pub fn taken(&self) -> &[u8] {
        self.taken.as_slice()
    }

    /// How many calls of `write` and `flush` were made.
    pub fn calls(&self) -> u64 {
        self.course.calls()
    }

    /// How many calls of `write` and `flush` failed.
    pub fn faults(&self) -> u64
        ensures { result ≡ self.now.course.faults }
    {
        self.course.faults()
    }
}

impl Write for TestWriter {
    ghost writing = { room_writing (λ w. w.taken.items) (λ w. w.room) (λ w. w.course.faults) (λ w. w.course.interruptions) };

    fn write(&mut self, buf: &[u8]) -> Result<usize> {
        let most = self.course.begin()?;
        let n = buf.len().min(self.room).min(most);
        self.taken.extend_from_slice(&buf[..n])?;
        self.room -= n;
        Ok(n)
    }

    fn flush(&mut self) -> Result<()> {
        self.course.begin()?;
        Ok(())
    }

    ghost lawful = { room-laws (λ w. w.taken.items) (λ w. w.room) (λ w. w.course.faults) (λ w. w.course.interruptions) };
}
