// Each call is made again and again, and each time another one of its requests for memory is refused.
use super::calls::{Call, How, Report, Subject};
use super::checks::CALLS;
use super::course::Course;
use super::fault::{Result, check};
use super::heap::Refusal;
use super::reading::is_refused;
use super::rows::{AnyOrder, Judge, Memory};
use borsh::io::ErrorKind;

/// More requests than any call here makes.
const MOST: u32 = 100000;

impl<S: Subject> Judge<'_, S> {
    /// Refuses each request for memory in turn, alone and with all later ones, in these calls. Each returns what it has to, or an
    /// allocation failure; then a beginning of the encoding was written, or a tail of the bytes is left.
    pub(crate) fn sweep(
        &mut self,
        hows: &[How],
        bytes: &[u8],
        expected: AnyOrder<'_>,
    ) -> Result<()> {
        for &how in hows {
            let call = Call::new(how, bytes).on(Course::smooth().in_pieces(3));
            self.sweep_call(call, expected)?;
        }
        Ok(())
    }

    /// Refuses each request of the call in turn, until none is refused.
    fn sweep_call(&mut self, call: Call<'_>, expected: AnyOrder<'_>) -> Result<()> {
        for rest in [false, true] {
            for n in 1..MOST {
                // Of a call with many requests, few of those after the first thousand are refused.
                if n > 1000 && n % 1000 != 0 {
                    continue;
                }
                let refusal = if rest {
                    Refusal::Rest(n)
                } else {
                    Refusal::One(n)
                };
                let report = self.call(Call { refusal, ..call })?;
                let is_right = is_right(&report, call, expected);
                check(is_right, "request for memory that was refused", n as usize)?;
                if !report.was_refused {
                    break;
                }
                self.checks.count_refused(call.how);
            }
        }
        Ok(())
    }

    /// Checks that the calls which need no memory for this type succeed with every request refused, and make none.
    pub(crate) fn check_without_memory(&mut self, bytes: &[u8], memory: Memory) -> Result<()> {
        if memory != Memory::Taken {
            self.check_free(&[How::ObjectLength, How::ToSlice], bytes)?;
        }
        if memory == Memory::Free {
            self.check_free(&CALLS[4..], bytes)?;
        }
        Ok(())
    }

    fn check_free(&mut self, hows: &[How], bytes: &[u8]) -> Result<()> {
        for &how in hows {
            let call = Call {
                refusal: Refusal::Rest(1),
                ..Call::new(how, bytes).with_room(bytes.len())
            };
            let report = self.call(call)?;
            let is_right = report.error.is_none() && is_complete(&report, how, bytes);
            let is_right = is_right && !report.was_refused;
            check(is_right, "a call without memory", bytes.len())?;
            self.checks.without_memory = self.checks.without_memory.saturating_add(1);
        }
        Ok(())
    }

    /// Checks that none of the calls has a request for more than `most` bytes, or for more than twice that in all.
    pub(crate) fn check_memory(&self, hows: &[How], bytes: &[u8], most: u32) -> Result<()> {
        for &how in hows {
            let call = Call {
                refusal: Refusal::Above(most),
                ..Call::new(how, bytes).on(Course::smooth().in_pieces(1))
            };
            let report = self.call(call)?;
            check(!report.was_refused, "much memory", bytes.len())?;
        }
        Ok(())
    }
}

/// Whether a call returned what it has to, or an allocation failure because a request was refused.
fn is_right(report: &Report, call: Call<'_>, expected: AnyOrder<'_>) -> bool {
    if report.error.is_some() && is_out_of_memory(report) {
        return report.was_refused && is_partial(report, call);
    }
    match expected {
        AnyOrder::Refused(text) => is_refused(report, text),
        AnyOrder::Value(bytes) => report.error.is_none() && is_complete(report, call.how, bytes),
    }
}

/// Whether the error is an allocation failure without a text of its own.
fn is_out_of_memory(report: &Report) -> bool {
    match &report.error {
        Some(e) => e.kind() == ErrorKind::OutOfMemory && e.get_ref().is_none(),
        None => false,
    }
}

/// Whether what a call left behind after an allocation failure is as it has to be.
fn is_partial(report: &Report, call: Call<'_>) -> bool {
    if call.how.encodes() {
        return call.bytes.starts_with(report.bytes.as_slice());
    }
    report.count.is_some_and(|left| left <= call.bytes.len())
}

/// Whether a call that succeeded answered the value with this encoding, and read and wrote all.
fn is_complete(report: &Report, how: How, encoding: &[u8]) -> bool {
    if how == How::ObjectLength {
        return report.count == Some(encoding.len());
    }
    let is_read = how == How::Deserialize || how.has_reader();
    report.bytes.as_slice() == encoding && (!is_read || report.count == Some(0))
}
