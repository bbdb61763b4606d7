// Lists of bytes are read and written in large pieces, as if each byte was read and written by itself.
use super::support::{SHORT, check, check_written, is_error, is_invalid};
use borsh::io::ErrorKind;
use borsh::{BorshDeserialize, BorshSerialize, to_writer};
use borsh_samples::ShortA;
use std::alloc::Global;
use std::test::Fail;
use test_devices::{ABORTED, Course, Failure, TestReader, TestWriter};

/// About the bounds of what is asked for at first: of a list of bytes a MiB, of any other 4096 bytes, and of a vector a KiB.
const LENGTHS: [u32; 11] = [
    0, 1, 7, 1024, 1025, 4096, 4097, 1048575, 1048576, 1048577, LONG,
];

/// Two MiB and a byte.
const LONG: u32 = 2097153;

const BEHIND: &[u8] = &[170, 171, 172];

/// The encoding of a list of so many bytes.
fn list_of(alloc: Global, len: u32) -> Result<Vec<u8>, Fail> {
    let mut list = Vec::new(alloc);
    list.extend_from_slice(&len.to_le_bytes())?;
    for i in 0..len {
        list.push((i % 251) as u8)?;
    }
    Ok(list)
}

/// Fails unless a list is read whole, in pieces of seven bytes and byte by byte, and written again, and the bytes behind it are
/// left.
fn check_list<T: BorshSerialize + BorshDeserialize>(alloc: Global, len: u32) -> Result<(), Fail> {
    let list = list_of(alloc, len)?;
    let mut all = list.clone()?;
    all.extend_from_slice(BEHIND)?;
    for piece in [usize::MAX, 7, 1] {
        let course = Course::smooth().in_pieces(piece);
        let mut reader = TestReader::new(all.as_slice(), course);
        let value = Vec::<T>::deserialize_reader(alloc, &mut reader)?;
        check(reader.rest() == BEHIND, "behind a list", len as usize)?;
        check_written(alloc, "list", &value, list.as_slice())?;
    }
    Ok(())
}

#[test]
fn bytes_at_once_are_the_bytes_one_by_one(rt: HostRuntime) -> Result<(), Fail> {
    for &len in &LENGTHS {
        check_list::<u8>(rt.alloc(), len)?;
        // A struct of one byte, which is read and written by itself.
        check_list::<ShortA>(rt.alloc(), len)?;
    }
    Ok(())
}

#[test]
fn a_long_list_takes_few_calls(rt: HostRuntime) -> Result<(), Fail> {
    let alloc = rt.alloc();
    let list = list_of(alloc, LONG)?;
    let mut reader = TestReader::new(list.as_slice(), Course::smooth());
    let bytes = Vec::<u8>::deserialize_reader(alloc, &mut reader)?;
    let is_right = reader.calls() <= 10;
    check(is_right, "calls of read", reader.calls() as usize)?;
    let mut writer = TestWriter::new(Vec::new(alloc), usize::MAX, Course::smooth());
    to_writer(alloc, &mut writer, &bytes)?;
    let is_right = writer.calls() <= 10;
    check(is_right, "calls of write", writer.calls() as usize)
}

/// Reads the list in pieces of 512 KiB, and lets the read after so many others fail: the second MiB is read by the fourth and
/// the fifth read, the last byte by the sixth. The error is returned, and the bytes that were taken before are exactly those of
/// the other reads.
fn is_failed_read(alloc: Global, list: &[u8], read: u32, failure: Failure) -> bool {
    let course = Course::smooth().in_pieces(524288).failing(read, failure);
    let mut reader = TestReader::new(list, course);
    let outcome = Vec::<u8>::deserialize_reader(alloc, &mut reader);
    let is_right = match failure {
        Failure::Aborted => is_error(&outcome, ErrorKind::ConnectionAborted, ABORTED),
        Failure::End => is_invalid(&outcome, SHORT),
    };
    // The first read takes the length, of four bytes.
    let taken = match read.checked_sub(1) {
        Some(reads) => (reads as usize).saturating_mul(524288).saturating_add(4),
        None => 0,
    };
    let is_taken = list.len().saturating_sub(reader.rest().len()) == taken;
    is_right && reader.faults() == 1 && is_taken
}

#[test]
fn reads_of_a_long_list_fail(rt: HostRuntime) -> Result<(), Fail> {
    let alloc = rt.alloc();
    let list = list_of(alloc, LONG)?;
    for read in 0..6u32 {
        for failure in [Failure::Aborted, Failure::End] {
            let is_right = is_failed_read(alloc, list.as_slice(), read, failure);
            check(is_right, "failed read", read as usize)?;
        }
    }
    Ok(())
}
