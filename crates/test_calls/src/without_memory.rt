// Calls that ask for no memory: they are made with every request refused, and make none. For which types values need none, the
// rows of `test_rows` say.
use super::shapes::{choice, named_fields, one_byte};
use super::support::{LONG, is_invalid, owned_text};
use super::sweeps::{asks_for_none, is_out_of_memory};
use borsh::de::hint::cautious;
use borsh::io::{Error, ErrorKind, Read, StdReader, StdWriter, Text, Unordered, Write};
use borsh::schema::{
    BorshSchemaContainer, Counted, Definition, Expansions, Fields, LengthRange, Question,
    SchemaBuildError, SchemaContainerValidateError, SchemaMaxSerializedSizeError,
};
use borsh::{BorshSerialize, BorshType, from_reader};
use borsh_check_lines::finish;
use std::alloc::{AllocError, Global};
use std::collections::BTreeMap;
use std::ops::Range;
use std::test::Fail;
use test_devices::{Course, Failure, TestReader};

/// Whether errors with a text, and texts, say it.
fn are_texts(owned: String, other: String) -> bool {
    let fixed = Error::new(ErrorKind::NotFound, "fixed");
    let is_fixed = fixed.kind() == ErrorKind::NotFound && fixed.get_ref() == Some("fixed");
    let error = Error::other(owned);
    let is_other = error.kind() == ErrorKind::Other && error.message() == "owned";
    let inner = error.into_inner();
    let is_inner = inner.is_some_and(|text| text.as_str() == "owned");
    let are_made = Text::from("fixed").as_str() == "fixed" && Text::from(other).as_str() == "other";
    is_fixed && is_other && is_inner && are_made
}

#[test]
fn errors_and_texts(rt: HostRuntime) -> Result<(), Fail> {
    let alloc = rt.alloc();
    let owned = owned_text(alloc, "owned")?;
    let other = owned_text(alloc, "other")?;
    asks_for_none(alloc, "texts", move || are_texts(owned, other))?;
    let too_large: Result<Vec<u64>, AllocError> = Vec::with_capacity(alloc, usize::MAX);
    let failure = too_large.err().ok_or("granted")?;
    asks_for_none(alloc, "errors without a text", move || {
        let error = Error::from(ErrorKind::NotFound);
        let is_alone = error.get_ref().is_none() && error.message() == "entity not found";
        is_alone && is_out_of_memory::<()>(&Err(Error::from(failure)))
    })
}

/// Whether four bytes are read from a slice, which a read of too many leaves unchanged.
fn is_reader(mut bytes: &[u8]) -> bool {
    let mut two = [0u8; 2];
    let are_first = bytes.by_ref().read_exact(&mut two).is_ok() && two == [1, 2];
    let is_short = bytes.read_exact(&mut [0u8; 4]).is_err() && bytes.bytes_left() == Some(2);
    let are_last = matches!(bytes.read(&mut two), Ok(2)) && two == [3, 4];
    are_first && is_short && are_last && bytes.strict_order()
}

/// Whether a slice of four bytes takes what fits.
fn is_writer() -> bool {
    let mut space = [0u8; 4];
    let mut rest = space.as_mut_slice();
    let is_taken = rest.by_ref().write_all(&[1]).is_ok() && matches!(rest.write(&[2]), Ok(1));
    let is_cut = rest.flush().is_ok() && matches!(rest.write(&[3, 4, 5]), Ok(2));
    let is_full = rest.is_empty() && rest.write_all(&[6]).is_err();
    is_taken && is_cut && is_full && space == [1, 2, 3, 4]
}

/// Whether two bytes go through adapters, the reader's keys in any order.
fn are_adapted() -> bool {
    let mut space = [0u8; 2];
    let mut two = [0u8; 2];
    let mut reader = Unordered::new(StdReader::new(b"\x01\x02".as_slice(), 3));
    let mut writer = StdWriter::new(space.as_mut_slice(), 3);
    let is_read = !reader.strict_order() && reader.read_exact(&mut two).is_ok();
    let is_written = writer.write_all(&two).is_ok() && writer.flush().is_ok();
    is_read && is_written && writer.faults() == 0 && space == [1, 2]
}

/// Whether the program's last line is written into a slice.
fn is_finished() -> bool {
    let mut space = [0u8; 27];
    let outcome = Err(Error::from(ErrorKind::OutOfMemory));
    let status = finish(&outcome, &mut space.as_mut_slice());
    status == 1 && space == *b"borsh_check: out of memory\n"
}

#[test]
fn readers_and_writers(rt: HostRuntime) -> Result<(), Fail> {
    let alloc = rt.alloc();
    asks_for_none(alloc, "a reader", || is_reader(&[1, 2, 3, 4]))?;
    asks_for_none(alloc, "a writer", is_writer)?;
    asks_for_none(alloc, "adapters", are_adapted)?;
    asks_for_none(alloc, "the end of a run", is_finished)?;
    asks_for_none(alloc, "a flush of a vector", || {
        Vec::<u8>::new(alloc).by_ref().flush().is_ok()
    })?;
    asks_for_none(alloc, "a failure behind a value", || {
        let course = Course::smooth().failing(1, Failure::Aborted);
        let made = from_reader::<_, u8>(alloc, &mut TestReader::new(&[7], course));
        is_invalid(&made, LONG)
    })
}

#[test]
fn facts_of_types(rt: HostRuntime) -> Result<(), Fail> {
    asks_for_none(rt.alloc(), "facts of types", || {
        Range::<()>::encodes_empty()
            && !Vec::<String>::encodes_empty()
            && String::element_size() > 0
            && cautious::<u8>(4294967295) == 4096
            && u8::u8_slice(&[1, 2]) == Some([1u8, 2].as_slice())
            && bool::u8_slice(&[true]).is_none()
    })
}

/// Whether a container has the contents of `same`, which are the definition of `u8` alone.
fn is_of_one_byte(container: &BorshSchemaContainer, same: &BorshSchemaContainer) -> bool {
    *container == *same
        && container.declaration().as_str() == "u8"
        && container.definitions().count() == 1
        && container.get_definition("u8") == Some(&Definition::Primitive(1))
        && container.get_definition("u16").is_none()
}

/// Whether `u8` gets two bytes, and is then removed once.
fn is_emptied(mut container: BorshSchemaContainer, same: &BorshSchemaContainer) -> bool {
    if let Some(definition) = container.get_mut_definition("u8") {
        *definition = Definition::Primitive(2);
    }
    let is_changed = container != *same && container.get_mut_definition("u16").is_none();
    let removed = container.remove_definition("u8");
    let is_gone = container.remove_definition("u8").is_none();
    let is_empty = is_gone && container.definitions().count() == 0;
    is_changed && is_empty && removed == Some(Definition::Primitive(2))
}

/// Whether the definition of `u8` is found and counted for each question, and none of `u16`.
fn is_looked_up(definitions: &BTreeMap<String, Definition>) -> bool {
    let mut counts = Expansions::NONE;
    let mut counted = Counted::new(definitions, &mut counts);
    let one = Definition::Primitive(1);
    let is_size = counted.look(Question::Size, "u8") == Some(&one);
    let is_zero = counted.look(Question::Zero, "u8") == Some(&one);
    let is_rules = counted.look(Question::Rules, "u8") == Some(&one);
    let is_none = counted.look(Question::Rules, "u16").is_none();
    let are_counted = counts.size == 1 && counts.zero == 1 && counts.rules == 1;
    is_size && is_zero && is_rules && is_none && are_counted
}

#[test]
fn containers(rt: HostRuntime) -> Result<(), Fail> {
    let alloc = rt.alloc();
    let root = owned_text(alloc, "u8")?;
    let definitions = one_byte(alloc)?;
    let same = BorshSchemaContainer::new(owned_text(alloc, "u8")?, one_byte(alloc)?);
    asks_for_none(alloc, "a container", move || {
        let container = BorshSchemaContainer::new(root, definitions);
        let is_right = is_of_one_byte(&container, &same) && is_looked_up(container.as_map());
        is_right && is_emptied(container, &same)
    })
}

/// Whether a value is equal to itself, and not to the other.
fn is_itself<T: PartialEq + Drop>(value: &T, other: T) -> bool {
    *value == *value && *value != other
}

#[test]
fn comparisons(rt: HostRuntime) -> Result<(), Fail> {
    let alloc = rt.alloc();
    let (definition, fields) = (choice(alloc)?, named_fields(alloc)?);
    let clash = SchemaBuildError::Redefinition(owned_text(alloc, "A")?);
    let broken = SchemaContainerValidateError::ZSTSequence(owned_text(alloc, "A")?);
    let missing = SchemaMaxSerializedSizeError::MissingDefinition(owned_text(alloc, "A")?);
    let (range, other) = (
        LengthRange { start: 0, end: 1 },
        LengthRange { start: 0, end: 2 },
    );
    asks_for_none(alloc, "comparisons", || {
        is_itself(&definition, Definition::Primitive(1))
            && is_itself(&fields, Fields::Empty)
            && is_itself(&range, other)
            && is_itself(&clash, SchemaBuildError::OutOfMemory)
            && is_itself(&broken, SchemaContainerValidateError::OutOfMemory)
            && is_itself(&missing, SchemaMaxSerializedSizeError::Recursive)
    })
}
