// Errors: their kinds, their texts, and what is printed of them.
use super::support::{check, check_text, owned_text};
use borsh::io::{Error, ErrorKind};
use borsh::schema::{SchemaBuildError, SchemaContainerValidateError, SchemaMaxSerializedSizeError};
use borsh::schema_container_of;
use std::alloc::Global;
use std::fmt::Display;
use std::test::Fail;

/// The kinds in their order, with the text of an error that has none of its own.
const KINDS: [(ErrorKind, &str); 19] = [
    (ErrorKind::NotFound, "entity not found"),
    (ErrorKind::PermissionDenied, "permission denied"),
    (ErrorKind::ConnectionRefused, "connection refused"),
    (ErrorKind::ConnectionReset, "connection reset"),
    (ErrorKind::ConnectionAborted, "connection aborted"),
    (ErrorKind::NotConnected, "not connected"),
    (ErrorKind::AddrInUse, "address in use"),
    (ErrorKind::AddrNotAvailable, "address not available"),
    (ErrorKind::BrokenPipe, "broken pipe"),
    (ErrorKind::AlreadyExists, "entity already exists"),
    (ErrorKind::WouldBlock, "operation would block"),
    (ErrorKind::InvalidInput, "invalid input parameter"),
    (ErrorKind::InvalidData, "invalid data"),
    (ErrorKind::TimedOut, "timed out"),
    (ErrorKind::WriteZero, "write zero"),
    (ErrorKind::Interrupted, "operation interrupted"),
    (ErrorKind::Other, "other os error"),
    (ErrorKind::UnexpectedEof, "unexpected end of file"),
    (ErrorKind::OutOfMemory, "out of memory"),
];

/// Whether an error of this kind alone shows this text.
fn is_shown_as(alloc: Global, kind: ErrorKind, text: &str) -> Result<bool, Fail> {
    let error = Error::from(kind);
    let is_alone = error.kind() == kind && error.get_ref().is_none();
    Ok(is_alone && error.to_string(alloc)?.as_str() == text)
}

#[test]
fn a_kind_has_a_text_and_a_place(rt: HostRuntime) -> Result<(), Fail> {
    let mut before = None;
    for (place, &(kind, text)) in KINDS.iter().enumerate() {
        check(is_shown_as(rt.alloc(), kind, text)?, text, place)?;
        check(before < Some(kind), "a place", place)?;
        before = Some(kind);
    }
    Ok(())
}

fn check_shown<T: Display>(alloc: Global, error: &T, shown: &str) -> Result<(), Fail> {
    check_text(error.to_string(alloc)?.as_str(), shown)
}

#[test]
fn errors_of_schemas_are_shown(rt: HostRuntime) -> Result<(), Fail> {
    use borsh::schema::SchemaContainerValidateError as Rule;
    use borsh::schema::SchemaMaxSerializedSizeError as Size;
    let alloc = rt.alloc();
    let a = || owned_text(alloc, "A");
    let none = "`A` has no definition";
    let two = "`A` has two different definitions";
    let full = "out of memory";
    check_shown(alloc, &SchemaBuildError::Redefinition(a()?), two)?;
    check_shown(alloc, &SchemaBuildError::OutOfMemory, full)?;
    let empty = "the elements of the sequence `A` have no bytes";
    check_shown(alloc, &Rule::ZSTSequence(a()?), empty)?;
    let wide = "the length or tag of `A` is wider than eight bytes";
    check_shown(alloc, &Rule::TagTooWide(a()?), wide)?;
    let narrow = "the greatest length of `A` doesn't fit its length prefix";
    check_shown(alloc, &Rule::TagTooNarrow(a()?), narrow)?;
    let odd = "the length prefix of `A` is three, five, six or seven bytes wide";
    check_shown(alloc, &Rule::TagNotPowerOfTwo(a()?), odd)?;
    check_shown(alloc, &Rule::MissingDefinition(a()?), none)?;
    let empty = "the least length of `A` is above the greatest";
    check_shown(alloc, &Rule::EmptyLengthRange(a()?), empty)?;
    check_shown(alloc, &Rule::OutOfMemory, full)?;
    let large = "the greatest size is above 18446744073709551615 bytes";
    check_shown(alloc, &Size::Overflow, large)?;
    check_shown(alloc, &Size::Recursive, "a definition contains itself")?;
    check_shown(alloc, &Size::MissingDefinition(a()?), none)?;
    check_shown(alloc, &Size::OutOfMemory, full)?;
    check_shown(alloc, &Size::Redefinition(a()?), two)
}

#[test]
fn debug_names_the_parts(rt: HostRuntime) -> Result<(), Fail> {
    let alloc = rt.alloc();
    let container = schema_container_of::<u8>(alloc)?;
    let shown = "BorshSchemaContainer { declaration: \"u8\", definitions: {\"u8\": Primitive(1)} }";
    check_text(format!(in alloc; "{container:?}")?.as_str(), shown)?;
    let clash = SchemaBuildError::Redefinition(owned_text(alloc, "A")?);
    let shown = "Redefinition(\"A\")";
    check_text(format!(in alloc; "{clash:?}")?.as_str(), shown)?;
    let rule = SchemaContainerValidateError::TagTooWide(owned_text(alloc, "A")?);
    check_text(format!(in alloc; "{rule:?}")?.as_str(), "TagTooWide(\"A\")")?;
    let size = SchemaMaxSerializedSizeError::Recursive;
    check_text(format!(in alloc; "{size:?}")?.as_str(), "Recursive")
}
