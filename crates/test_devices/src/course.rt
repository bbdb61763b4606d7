// What goes wrong at which call.
ghost use Rattle.std.specs.Prelude.{◌≡◌, ◌≢◌, ◌<◌, Some, IfOk, IfErr, OnOk};
ghost use Rattle.borsh.specs.Errors.{error_kind};
ghost use Rattle.borsh.specs.Stream.{CountedUp};
ghost use Rattle.test_devices.specs.Devices.{SameFailures};

use borsh::io::{Error, ErrorKind, Result};

/// The text of the error of a device that fails as [`Failure::Aborted`].
pub const ABORTED: &str = "I don't like to run";

/// How a call fails.
#[derive(Clone, Copy)]
pub enum Failure {
    /// `ConnectionAborted`, with a text of its own.
    Aborted,
    /// `UnexpectedEof`, "the device says so": a failure, though its kind is that of the end of the input.
    End,
}

impl Failure {
    fn error(self) -> Error
        ensures { error_kind result ≢ ErrorKind.Interrupted }
    {
        match self {
            Failure::Aborted => Error::new(ErrorKind::ConnectionAborted, ABORTED),
            Failure::End => Error::new(ErrorKind::UnexpectedEof, "the device says so"),
        }
    }
}

/// What goes wrong at which call: a number of interruptions, and perhaps one failure.
#[derive(Clone, Copy)]
pub struct Course {
    piece: usize,
    // How many calls are still interrupted: every second one, beginning with the first.
    interruptions: u32,
    interrupted: bool,
    // How many calls succeed before the one that fails.
    failure: Option<(u32, Failure)>,
    faults: u64,
    // The kind of the last failure.
    last_failure: Option<ErrorKind>,
    calls: u64,
}

impl Course {
    /// A device that takes or gives as much as it can, and never fails.
    pub fn smooth() -> Course
        ensures interruptions { result.interruptions ≡ 0 }
        ensures faults { result.faults ≡ 0 }
    {
        Course {
            piece: usize::MAX,
            interruptions: 0,
            interrupted: false,
            failure: None,
            faults: 0,
            last_failure: None,
            calls: 0,
        }
    }

    /// No call takes or gives more than so many bytes; at least one.
    pub fn in_pieces(self, piece: usize) -> Course
        ensures interruptions { result.interruptions ≡ self.interruptions }
        ensures faults { result.faults ≡ self.faults }
    {
        Course {
            piece: piece.max(1),
            ..self
        }
    }

    /// Every second call is interrupted, beginning with the first, so many times.
    pub fn interrupted(self, times: u32) -> Course
        ensures interruptions { result.interruptions ≡ times }
        ensures faults { result.faults ≡ self.faults }
    {
        Course {
            interruptions: times,
            ..self
        }
    }

    /// The call after so many successful ones fails.
    pub fn failing(self, after: u32, failure: Failure) -> Course
        ensures interruptions { result.interruptions ≡ self.interruptions }
        ensures faults { result.faults ≡ self.faults }
    {
        Course {
            failure: Some((after, failure)),
            ..self
        }
    }

    /// Whether calls take or give single bytes.
    pub fn is_by_bytes(&self) -> bool {
        self.piece <= 1
    }

    /// How many calls were made.
    pub fn calls(&self) -> u64 {
        self.calls
    }

    /// How many calls failed.
    pub fn faults(&self) -> u64
        ensures { result ≡ self.now.faults }
    {
        self.faults
    }

    /// Begins a call: the greatest number of bytes that it may take or give, or its error.
    pub fn begin(&mut self) -> Result<usize>
        ensures some { IfOk result (λ n. 0 < n) }
        ensures ok { OnOk result ((self.new.interruptions ≡ self.old.interruptions)
            × SameFailures self.old self.new) }
        ensures interrupted { IfErr result (λ e. error_kind e ≡ ErrorKind.Interrupted
            → (self.new.interruptions < self.old.interruptions) × SameFailures self.old self.new) }
        ensures failed { IfErr result (λ e. error_kind e ≢ ErrorKind.Interrupted
            → (self.new.interruptions ≡ self.old.interruptions)
            × CountedUp self.old.faults self.new.faults
            × (self.new.last_failure ≡ Some (error_kind e))) }
    {
        self.calls = self.calls.saturating_add(1);
        self.interrupted = !self.interrupted && self.interruptions > 0;
        if self.interrupted {
            self.interruptions -= 1;
            return Err(Error::from(ErrorKind::Interrupted));
        }
        match self.failure {
            Some((0, failure)) => {
                self.failure = None;
                self.faults = self.faults.saturating_add(1);
                let error = failure.error();
                self.last_failure = Some(error.kind());
                return Err(error);
            }
            Some((after, failure)) => self.failure = Some((after - 1, failure)),
            None => {}
        }
        Ok(self.piece.max(1))
    }
}

/// Courses without a failure: bytes at once, one at a time, seven at a time, and one at a time with an interruption before each.
pub fn courses() -> [Course; 4] {
    [
        Course::smooth(),
        Course::smooth().in_pieces(1),
        Course::smooth().in_pieces(7),
        Course::smooth().in_pieces(1).interrupted(100000),
    ]
}

/// The same for so many bytes: if they are very many, they go in larger pieces, since single bytes take time.
pub fn courses_of(len: usize) -> [Course; 4] {
    if len <= 10000 {
        return courses();
    }
    [
        Course::smooth(),
        Course::smooth().in_pieces(1000),
        Course::smooth().in_pieces(7777),
        Course::smooth().in_pieces(1000).interrupted(100000),
    ]
}
