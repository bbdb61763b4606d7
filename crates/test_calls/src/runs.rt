// Runs of the program's lines over readers and writers of every kind.
use super::support::{FULL, check, is_error};
use borsh::io::{ErrorKind, Result as IoResult};
use borsh_check_lines::{finish, run};
use std::alloc::Global;
use std::test::Fail;
use test_devices::{ABORTED, Course, Failure, TestReader, TestWriter, courses};

/// Lines, the last one without a line feed.
const INPUT: &[u8] =
    b"read u64 0c00000000000000\nread bool 02\nread u8 7\n\ncanon map-u8 03000000020701090208\n\
    schema uuid\nsize 010000004100000000";

/// Their answers.
const OUTPUT: &[u8] =
    b"ok 0c00000000000000\nerror Invalid bool representation: 2\nerror line\nerror line\n\
    ok 0200000001090208\nerror no schema\nmissing 41\n";

const REPORT_OF_ABORTED: &[u8] = b"borsh_check: I don't like to run\n";

const REPORT_OF_FULL: &[u8] = b"borsh_check: failed to write whole buffer\n";

/// Whether `finish` answers this status for the outcome, and writes these bytes.
fn ended_with(alloc: Global, outcome: &IoResult<()>, status: u8, report: &[u8]) -> bool {
    let mut errors = Vec::new(alloc);
    finish(outcome, &mut errors) == status && errors.as_slice() == report
}

/// Whether the lines, read and written so, have their answers, all of them are read, and the run ends well.
fn is_answered(alloc: Global, courses: (Course, Course)) -> bool {
    let (reading, writing) = courses;
    let mut reader = TestReader::new(INPUT, reading);
    let mut writer = TestWriter::new(Vec::new(alloc), usize::MAX, writing);
    let outcome = run(alloc, &mut reader, &mut writer);
    writer.taken() == OUTPUT && reader.rest().is_empty() && ended_with(alloc, &outcome, 0, b"")
}

#[test]
fn lines_are_answered_however_their_bytes_come_and_go(rt: HostRuntime) -> Result<(), Fail> {
    let smooth = Course::smooth();
    for course in courses() {
        for pair in [(course, smooth), (smooth, course), (course, course)] {
            check(is_answered(rt.alloc(), pair), "read and written", 0)?;
        }
    }
    Ok(())
}

/// Whether a run that failed so has the error, and reports it. A false end of the input is no end here.
fn is_reported(alloc: Global, outcome: &IoResult<()>, failure: Failure) -> bool {
    match failure {
        Failure::Aborted => {
            is_error(outcome, ErrorKind::ConnectionAborted, ABORTED)
                && ended_with(alloc, outcome, 1, REPORT_OF_ABORTED)
        }
        Failure::End => is_error(outcome, ErrorKind::UnexpectedEof, "the device says so"),
    }
}

/// A device of single bytes whose call after so many others fails.
fn failing(calls: usize, failure: Failure) -> Result<Course, Fail> {
    let course = Course::smooth().in_pieces(1);
    Ok(course.failing(u32::try_from(calls)?, failure))
}

/// Whether a writer whose call after so many others fails has as many bytes of the answers, and the error is reported.
fn has_beginning(alloc: Global, len: usize) -> Result<bool, Fail> {
    let mut reader = TestReader::new(INPUT, Course::smooth());
    let course = failing(len, Failure::Aborted)?;
    let mut writer = TestWriter::new(Vec::new(alloc), usize::MAX, course);
    let outcome = run(alloc, &mut reader, &mut writer);
    let is_told = is_reported(alloc, &outcome, Failure::Aborted) && writer.faults() == 1;
    let taken = writer.taken();
    Ok(is_told && taken.len() == len && OUTPUT.starts_with(taken))
}

/// Whether a writer that is full after so many bytes has these of the answers, and the error is reported.
fn has_room_for(alloc: Global, len: usize, course: Course) -> bool {
    let mut reader = TestReader::new(INPUT, Course::smooth());
    let mut writer = TestWriter::new(Vec::new(alloc), len, course);
    let outcome = run(alloc, &mut reader, &mut writer);
    let is_told = is_error(&outcome, ErrorKind::WriteZero, FULL)
        && ended_with(alloc, &outcome, 1, REPORT_OF_FULL);
    is_told && OUTPUT.get(..len) == Some(writer.taken())
}

#[test]
fn a_full_writer_has_the_first_bytes(rt: HostRuntime) -> Result<(), Fail> {
    for len in 0..OUTPUT.len() {
        for course in courses() {
            check(has_room_for(rt.alloc(), len, course), "full writer", len)?;
        }
    }
    Ok(())
}

#[test]
fn a_writer_that_fails_has_the_first_bytes(rt: HostRuntime) -> Result<(), Fail> {
    // Behind the last byte it is the flush that fails.
    for len in 0..=OUTPUT.len() {
        check(has_beginning(rt.alloc(), len)?, "failed write", len)?;
    }
    Ok(())
}

/// How many line feeds the bytes have.
fn line_feeds(bytes: &[u8]) -> usize {
    bytes.iter().filter(|byte| **byte == b'\n').count()
}

/// Whether a reader whose call after so many others fails leaves the answers to the lines whose line feed was taken, and the
/// error is reported.
fn are_lines_answered(alloc: Global, read: usize, failure: Failure) -> Result<bool, Fail> {
    let mut reader = TestReader::new(INPUT, failing(read, failure)?);
    let mut writer = TestWriter::new(Vec::new(alloc), usize::MAX, Course::smooth());
    let outcome = run(alloc, &mut reader, &mut writer);
    let is_told = is_reported(alloc, &outcome, failure) && reader.faults() == 1;
    let written = writer.taken();
    let lines = line_feeds(&INPUT[..read.min(INPUT.len())]);
    Ok(is_told && OUTPUT.starts_with(written) && line_feeds(written) == lines)
}

#[test]
fn a_failing_reader_leaves_the_answers_to_the_lines_before(rt: HostRuntime) -> Result<(), Fail> {
    for read in 0..=INPUT.len() {
        for failure in [Failure::Aborted, Failure::End] {
            let is_right = are_lines_answered(rt.alloc(), read, failure)?;
            check(is_right, "failed read", read)?;
        }
    }
    Ok(())
}
