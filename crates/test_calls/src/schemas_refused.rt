// Calls of containers, of maps of definitions and of types' schemas: each request for memory is refused in turn.
use super::shapes::{choice, container, named_fields, numbered, of_each_kind, one_byte};
use super::support::owned_text;
use super::sweeps::{Round, sweep};
use borsh::schema::{
    BorshSchema, BorshSchemaContainer, Definition, LengthRange, SchemaBuildError,
    SchemaContainerValidateError, SchemaMaxSerializedSizeError, add_definition,
};
use borsh_samples::{LongA, MyEnum, ShortA};
use std::alloc::{AllocError, Global};
use std::collections::{BTreeMap, HashMap};
use std::test::Fail;

/// The copy is equal, or an allocation failure is returned.
fn is_copied<T: Clone + PartialEq>(rt: HostRuntime, value: &T) -> Result<(), Fail> {
    let alloc = rt.alloc();
    sweep(rt, "copy", "", |refusal| {
        refusal.begin(alloc);
        let copy: Result<T, AllocError> = value.clone();
        let refused = refusal.end(alloc);
        let right = match copy {
            Ok(copy) => copy == *value,
            Err(_) => refused,
        };
        Ok(Round { refused, right })
    })
}

#[test]
fn copies_are_equal(rt: HostRuntime) -> Result<(), Fail> {
    let alloc = rt.alloc();
    let a = || owned_text(alloc, "A");
    is_copied(rt, &container(alloc, "tuple", of_each_kind(alloc)?)?)?;
    is_copied(rt, &choice(alloc)?)?;
    is_copied(rt, &named_fields(alloc)?)?;
    is_copied(rt, &LengthRange { start: 1, end: 2 })?;
    is_copied(rt, &SchemaBuildError::Redefinition(a()?))?;
    is_copied(rt, &SchemaContainerValidateError::TagTooWide(a()?))?;
    is_copied(rt, &SchemaMaxSerializedSizeError::MissingDefinition(a()?))
}

/// The numbered definitions, and a name with another definition.
fn with_definition(
    alloc: Global,
    count: u8,
    name: &str,
) -> Result<BTreeMap<String, Definition>, Fail> {
    let mut definitions = numbered(alloc, count)?;
    definitions.insert(owned_text(alloc, name)?, Definition::Primitive(77))?;
    Ok(definitions)
}

/// A new name is added, or an allocation failure is returned and the map is unchanged.
fn is_added(rt: HostRuntime, count: u8) -> Result<(), Fail> {
    let alloc = rt.alloc();
    let before = numbered(alloc, count)?;
    let after = with_definition(alloc, count, "T17b")?;
    sweep(rt, "add_definition", "T17b", |refusal| {
        let mut definitions = numbered(alloc, count)?;
        let name = owned_text(alloc, "T17b")?;
        refusal.begin(alloc);
        let done = add_definition(name, Definition::Primitive(77), &mut definitions);
        let refused = refusal.end(alloc);
        let right = match done {
            Ok(()) => definitions == after,
            Err(e) => refused && e == SchemaBuildError::OutOfMemory && definitions == before,
        };
        Ok(Round { refused, right })
    })
}

/// The name gets the definition and the old one is returned; or an allocation failure is, and the container is unchanged.
fn is_inserted(
    rt: HostRuntime,
    count: u8,
    name: &str,
    replaced: Option<Definition>,
) -> Result<(), Fail> {
    let alloc = rt.alloc();
    let before = container(alloc, "A", numbered(alloc, count)?)?;
    let after = container(alloc, "A", with_definition(alloc, count, name)?)?;
    sweep(rt, "insert_definition", name, |refusal| {
        let mut container = container(alloc, "A", numbered(alloc, count)?)?;
        let name = owned_text(alloc, name)?;
        refusal.begin(alloc);
        let done = container.insert_definition(name, Definition::Primitive(77));
        let refused = refusal.end(alloc);
        let right = match done {
            Ok(old) => old == replaced && container == after,
            Err(_) => refused && container == before,
        };
        Ok(Round { refused, right })
    })
}

/// A second definition of a name asks for no memory and changes nothing; if it isn't the one that stands, it is refused.
fn is_known(
    rt: HostRuntime,
    before: &BTreeMap<String, Definition>,
    name: &str,
    size: u8,
    is_equal: bool,
) -> Result<(), Fail> {
    let alloc = rt.alloc();
    let clash = Err(SchemaBuildError::Redefinition(owned_text(alloc, name)?));
    let answer = if is_equal { Ok(()) } else { clash };
    sweep(rt, "add_definition of a known name", name, |refusal| {
        let mut definitions = before.clone()?;
        let name = owned_text(alloc, name)?;
        refusal.begin(alloc);
        let done = add_definition(name, Definition::Primitive(size), &mut definitions);
        let refused = refusal.end(alloc);
        let right = !refused && done == answer && definitions == *before;
        Ok(Round { refused, right })
    })
}

#[test]
fn a_second_definition_of_a_name_changes_nothing(rt: HostRuntime) -> Result<(), Fail> {
    let known = one_byte(rt.alloc())?;
    is_known(rt, &known, "u8", 2, false)?;
    is_known(rt, &known, "u8", 1, true)?;
    let known = numbered(rt.alloc(), 20)?;
    is_known(rt, &known, "T5", 6, false)?;
    is_known(rt, &known, "T5", 5, true)
}

// Maps of so many sizes that some have room for a new name, and others need a new node.
#[test]
fn definitions_are_put_in_or_nothing_changes(rt: HostRuntime) -> Result<(), Fail> {
    for count in 0u8..40 {
        is_added(rt, count)?;
        is_inserted(rt, count, "T17b", None)?;
    }
    for count in [1u8, 5, 39] {
        is_inserted(rt, count, "T0", Some(Definition::Primitive(0)))?;
    }
    Ok(())
}

/// Whether `old` is as it was, and each other definition is one of the container's.
fn is_part_of(
    definitions: &BTreeMap<String, Definition>,
    container: &BorshSchemaContainer,
) -> bool {
    let mut others = definitions.iter().filter(|entry| entry.0.as_str() != "old");
    others.all(|entry| container.get_definition(entry.0.as_str()) == Some(entry.1))
        && definitions.get("old") == Some(&Definition::Primitive(3))
}

/// The definitions of a type are added to those of a map, and its container is known; or an allocation failure is returned, and
/// the map has its old definition and some of the type's.
fn has_schema<T: BorshSchema>(rt: HostRuntime, name: &str) -> Result<(), Fail> {
    let alloc = rt.alloc();
    let container = BorshSchemaContainer::for_type::<T>(alloc)?;
    let all = container.definitions().count();
    sweep(rt, "add_definitions_recursively", name, |refusal| {
        let mut definitions = BTreeMap::new(alloc);
        definitions.insert(owned_text(alloc, "old")?, Definition::Primitive(3))?;
        refusal.begin(alloc);
        let done = T::add_definitions_recursively(alloc, &mut definitions);
        let refused = refusal.end(alloc);
        let right = match done {
            Ok(()) => definitions.len() == all.saturating_add(1),
            Err(e) => refused && e == SchemaBuildError::OutOfMemory,
        };
        let right = right && is_part_of(&definitions, &container);
        Ok(Round { refused, right })
    })?;
    sweep(rt, "is_of_type", name, |refusal| {
        refusal.begin(alloc);
        let answer = container.is_of_type::<T>(alloc);
        let refused = refusal.end(alloc);
        let is_failure = answer == Err(SchemaBuildError::OutOfMemory);
        let right = answer == Ok(true) || refused && is_failure;
        Ok(Round { refused, right })
    })
}

#[test]
fn schemas_of_types_are_built(rt: HostRuntime) -> Result<(), Fail> {
    has_schema::<HashMap<u8, u8>>(rt, "HashMap<u8, u8>")?;
    has_schema::<MyEnum>(rt, "MyEnum")?;
    has_schema::<BorshSchemaContainer>(rt, "BorshSchemaContainer")
}

#[test]
fn two_types_of_one_name_have_no_schema(rt: HostRuntime) -> Result<(), Fail> {
    let alloc = rt.alloc();
    let clash = SchemaBuildError::Redefinition(owned_text(alloc, "A")?);
    sweep(rt, "for_type, refused", "(A, A)", |refusal| {
        refusal.begin(alloc);
        let made = BorshSchemaContainer::for_type::<(ShortA, LongA)>(alloc);
        let refused = refusal.end(alloc);
        let right = match made {
            Ok(_) => false,
            Err(e) => e == clash || refused && e == SchemaBuildError::OutOfMemory,
        };
        Ok(Round { refused, right })
    })?;
    // Only the pair and one `A` may be there.
    let of_short = BorshSchemaContainer::for_type::<(ShortA, ShortA)>(alloc)?;
    let of_long = BorshSchemaContainer::for_type::<(LongA, LongA)>(alloc)?;
    let call = "add_definitions_recursively, refused";
    sweep(rt, call, "(A, A)", |refusal| {
        let mut definitions = BTreeMap::new(alloc);
        definitions.insert(owned_text(alloc, "old")?, Definition::Primitive(3))?;
        refusal.begin(alloc);
        let done = <(ShortA, LongA)>::add_definitions_recursively(alloc, &mut definitions);
        let refused = refusal.end(alloc);
        let right = match done {
            Ok(()) => false,
            Err(e) => e == clash || refused && e == SchemaBuildError::OutOfMemory,
        };
        let is_part = is_part_of(&definitions, &of_short) || is_part_of(&definitions, &of_long);
        let right = right && is_part;
        Ok(Round { refused, right })
    })
}
