// What is checked of a value that is encoded.
use super::calls::{Call, How, Report, Subject};
use super::course::{ABORTED, Failure, courses, courses_of};
use super::fault::{Result, check};
use super::reading::{is_error, places};
use super::rows::Judge;
use borsh::io::ErrorKind;

impl<S: Subject> Judge<'_, S> {
    /// Checks that the value with this encoding is encoded so: into a vector, behind what a vector holds, into a slice with room
    /// for just so many bytes and for more, and into writers of every kind; and that its length is answered.
    pub(crate) fn check_encoded(&mut self, bytes: &[u8]) -> Result<()> {
        for how in [How::ToVec, How::Serialize] {
            let report = self.call(Call::new(how, bytes))?;
            let is_right = is_written(&report, bytes);
            check(is_right, "encoded into a vector", bytes.len())?;
            self.checks.encoded = self.checks.encoded.saturating_add(1);
        }
        let report = self.call(Call::new(How::ObjectLength, bytes))?;
        let is_right = report.error.is_none() && report.count == Some(bytes.len());
        check(is_right, "length", bytes.len())?;
        for more in [0, 5] {
            let room = bytes.len().saturating_add(more);
            let report = self.call(Call::new(How::ToSlice, bytes).with_room(room))?;
            let is_right = report.error.is_none()
                && report.count == Some(more)
                && report.bytes.as_slice().starts_with(bytes)
                && is_untouched(&report, bytes.len());
            check(is_right, "encoded into a slice", more)?;
            self.checks.encoded = self.checks.encoded.saturating_add(1);
        }
        for course in courses_of(bytes.len()) {
            let report = self.call(Call::new(How::ToWriter, bytes).on(course))?;
            let is_right = is_written(&report, bytes);
            check(is_right, "encoded into a writer", bytes.len())?;
            let is_counted = !course.is_by_bytes() || report.calls >= bytes.len() as u64;
            check(is_counted, "calls of a writer", bytes.len())?;
            self.checks.encoded = self.checks.encoded.saturating_add(1);
        }
        Ok(())
    }

    /// Checks that slices and writers without room for all of the encoding hold as much of it as fits.
    pub(crate) fn check_full(&mut self, bytes: &[u8]) -> Result<()> {
        for room in places(self.alloc, bytes.len())? {
            let report = self.call(Call::new(How::ToSlice, bytes).with_room(room))?;
            check(is_full(&report, bytes, room), "full slice", room)?;
            self.checks.full = self.checks.full.saturating_add(1);
            for course in courses() {
                let call = Call::new(How::ToWriter, bytes).with_room(room);
                let report = self.call(call.on(course))?;
                check(is_full(&report, bytes, room), "full writer", room)?;
                self.checks.full = self.checks.full.saturating_add(1);
            }
        }
        Ok(())
    }

    /// Checks what is answered if a writer fails, at each of its writes: its error, with a beginning of the encoding written.
    pub(crate) fn check_failing_writers(&mut self, bytes: &[u8]) -> Result<()> {
        for course in courses() {
            for write in places(self.alloc, bytes.len())? {
                let failing = course.failing(u32::try_from(write)?, Failure::Aborted);
                let report = self.call(Call::new(How::ToWriter, bytes).on(failing))?;
                let taken = report.bytes.as_slice();
                if report.faults == 0 {
                    // Writes of more than one byte are over before that one.
                    let is_right = !course.is_by_bytes() && is_written(&report, bytes);
                    check(is_right, "a write that doesn't fail", write)?;
                    continue;
                }
                let is_answer = is_error(&report.error, ErrorKind::ConnectionAborted, ABORTED);
                check(is_answer && report.faults == 1, "failed write", write)?;
                let is_expected = taken.len() == write || !course.is_by_bytes();
                let is_right = is_expected && bytes.starts_with(taken);
                check(is_right, "bytes of a failed write", write)?;
                self.checks.failed_writes = self.checks.failed_writes.saturating_add(1);
            }
        }
        Ok(())
    }
}

fn is_written(report: &Report, bytes: &[u8]) -> bool {
    report.error.is_none() && report.bytes.as_slice() == bytes
}

/// Whether a slice holds from here on what it held before.
fn is_untouched(report: &Report, from: usize) -> bool {
    report.bytes.iter().skip(from).all(|&byte| byte == 170)
}

fn is_full(report: &Report, bytes: &[u8], room: usize) -> bool {
    let text = "failed to write whole buffer";
    is_error(&report.error, ErrorKind::WriteZero, text)
        && report.bytes.as_slice() == &bytes[..room.min(bytes.len())]
}
