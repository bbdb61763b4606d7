// What is checked of bytes that are decoded.
use super::calls::{Call, How, Report, Subject};
use super::course::{ABORTED, Failure, courses, courses_of};
use super::fault::{Result, check};
use super::reader::TestReader;
use super::rows::Judge;
use borsh::io::{Error, ErrorKind, Read};
use std::alloc::Global;

/// The text of the error where the input ends too early.
const SHORT: &str = "Unexpected length of input";

/// Above how many bytes an encoding is handled whole alone.
const WHOLE: usize = 5000;

/// At which numbers below `len` something is tried: at each of a short encoding, at five of a long one, since a try at each
/// byte takes time in the square of the length, and at none of a very long one.
pub(crate) fn places(alloc: Global, len: usize) -> Result<Vec<usize>> {
    let mut all = Vec::new(alloc);
    if len > WHOLE {
        return Ok(all);
    }
    for place in 0..len {
        let is_chosen = place < 3 || place == len / 2 || place.saturating_add(1) == len;
        if len <= 150 || is_chosen {
            all.push(place)?;
        }
    }
    Ok(all)
}

/// Whether the error has this kind and text.
pub(crate) fn is_error(error: &Option<Error>, kind: ErrorKind, text: &str) -> bool {
    match error {
        Some(e) => e.kind() == kind && e.message() == text,
        None => false,
    }
}

/// Whether the bytes were refused with this text.
pub(crate) fn is_refused(report: &Report, text: &str) -> bool {
    is_error(&report.error, ErrorKind::InvalidData, text)
}

/// Whether a value was decoded that has this encoding.
fn is_value(report: &Report, encoding: &[u8]) -> bool {
    report.error.is_none() && report.bytes.as_slice() == encoding
}

impl<S: Subject> Judge<'_, S> {
    /// Checks that `deserialize` decodes the bytes to the value with this encoding, and leaves what follows them.
    pub(crate) fn check_front(&mut self, bytes: &[u8], encoding: &[u8]) -> Result<()> {
        let mut longer = Vec::from_slice(self.alloc, bytes)?;
        longer.extend_from_slice(b"rest")?;
        let report = self.call(Call::new(How::Deserialize, longer.as_slice()))?;
        let is_right = is_value(&report, encoding) && report.count == Some(4);
        check(is_right, "decoded from a beginning", bytes.len())?;
        self.checks.decoded = self.checks.decoded.saturating_add(1);
        Ok(())
    }

    /// Checks that these calls decode all of the bytes to the value with this encoding, from readers of every kind.
    pub(crate) fn check_decoded(
        &mut self,
        hows: &[How],
        bytes: &[u8],
        encoding: &[u8],
    ) -> Result<()> {
        for &how in hows {
            for course in courses_of(bytes.len()) {
                let report = self.call(Call::new(how, bytes).on(course))?;
                check(is_value(&report, encoding), "decoded", bytes.len())?;
                self.checks.decoded = self.checks.decoded.saturating_add(1);
                if !how.has_reader() {
                    break;
                }
                // Each byte takes a call, and the end of the input takes one.
                let is_counted = !course.is_by_bytes() || report.calls > bytes.len() as u64;
                let is_right = is_counted && report.count == Some(0);
                check(is_right, "calls of a reader", bytes.len())?;
            }
        }
        Ok(())
    }

    /// Checks that each proper beginning of an encoding is refused by these calls, from readers of every kind.
    pub(crate) fn check_beginnings(&mut self, hows: &[How], bytes: &[u8]) -> Result<()> {
        for len in places(self.alloc, bytes.len())? {
            let count = self.refusals(hows, &bytes[..len.min(bytes.len())], SHORT)?;
            self.checks.beginnings = self.checks.beginnings.saturating_add(count);
        }
        Ok(())
    }

    /// Checks that the bytes are refused with this text by these calls, from readers of every kind.
    pub(crate) fn check_refused(&mut self, hows: &[How], bytes: &[u8], text: &str) -> Result<()> {
        let count = self.refusals(hows, bytes, text)?;
        self.checks.decoded = self.checks.decoded.saturating_add(count);
        Ok(())
    }

    /// How many calls these are, each of which refuses the bytes with this text.
    fn refusals(&self, hows: &[How], bytes: &[u8], text: &str) -> Result<u64> {
        let mut count = 0u64;
        for &how in hows {
            for course in courses() {
                let report = self.call(Call::new(how, bytes).on(course))?;
                let is_right = is_refused(&report, text) && report.faults == 0;
                check(is_right, "refused", bytes.len())?;
                count = count.saturating_add(1);
                if !how.has_reader() {
                    break;
                }
            }
        }
        Ok(count)
    }

    /// Checks what is answered if a reader fails, at each of its reads: with an error of its own, and with a false end of the
    /// input. The last read is the one that looks for the end.
    pub(crate) fn check_failing_readers(
        &mut self,
        how: How,
        bytes: &[u8],
        encoding: &[u8],
    ) -> Result<()> {
        for course in courses() {
            for read in places(self.alloc, bytes.len().saturating_add(1))? {
                for failure in [Failure::Aborted, Failure::End] {
                    let failing = course.failing(u32::try_from(read)?, failure);
                    let call = Call::new(how, bytes).on(failing);
                    self.check_failed(call, read, failure, encoding)?;
                }
            }
        }
        Ok(())
    }

    /// Checks a call whose reader may fail at this read.
    fn check_failed(
        &mut self,
        call: Call<'_>,
        read: usize,
        failure: Failure,
        encoding: &[u8],
    ) -> Result<()> {
        let report = self.call(call)?;
        let (course, len) = (call.course, call.bytes.len());
        if report.faults == 0 {
            // Reads of more than one byte are over before that one.
            check(!course.is_by_bytes(), "a read that doesn't fail", read)?;
            let is_right = is_value(&report, encoding);
            return check(is_right, "decoded before a failure", read);
        }
        let left = report.count.unwrap_or(usize::MAX);
        let is_answer = is_answer_to(failure, &report, left == 0, encoding);
        check(is_answer && report.faults == 1, "failed read", read)?;
        let is_next = left.saturating_add(read) == len;
        let is_right = is_next || !course.is_by_bytes() && left <= len;
        check(is_right, "bytes taken before a failed read", read)?;
        self.checks.failed_reads = self.checks.failed_reads.saturating_add(1);
        Ok(())
    }
}

/// Whether a failed read is answered as it has to be. Before all bytes were taken, the reader's own error is returned, and a
/// false end of the input is taken for the end. After that the end is looked for: a false end of the input is the end, and any
/// other error means that there may be more bytes.
fn is_answer_to(failure: Failure, report: &Report, is_at_end: bool, encoding: &[u8]) -> bool {
    match (failure, is_at_end) {
        (Failure::Aborted, false) => is_error(&report.error, ErrorKind::ConnectionAborted, ABORTED),
        (Failure::Aborted, true) => is_refused(report, "Not all bytes read"),
        (Failure::End, false) => is_refused(report, SHORT),
        (Failure::End, true) => is_value(report, encoding),
    }
}

/// Checks that all of the bytes and one more can't be read exactly, from readers of every kind, and the bytes themselves can.
pub(crate) fn check_exact_reads(alloc: Global, bytes: &[u8]) -> Result<()> {
    if bytes.len() > WHOLE {
        return Ok(());
    }
    let mut whole = vec![in alloc; 0u8; bytes.len()]?;
    let mut longer = vec![in alloc; 0u8; bytes.len().saturating_add(1)]?;
    for course in courses() {
        let mut reader = TestReader::new(bytes, course);
        reader.read_exact(whole.as_mut_slice())?;
        let are_read = whole.as_slice() == bytes && reader.rest().is_empty();
        check(are_read, "exact read", bytes.len())?;
        let mut reader = TestReader::new(bytes, course);
        let short = reader.read_exact(longer.as_mut_slice()).err();
        let text = "failed to fill whole buffer";
        let is_short = is_error(&short, ErrorKind::UnexpectedEof, text);
        check(is_short, "exact read of too much", bytes.len())?;
    }
    Ok(())
}
