// What can be asked of a container; what changes one is in `schemas_refused`.
use super::shapes::{container, list, of_each_kind, tuples};
use super::support::{check, check_text, owned_text};
use borsh::schema::Expansions;
use std::test::Fail;

#[test]
fn definitions_come_by_ascending_name(rt: HostRuntime) -> Result<(), Fail> {
    let alloc = rt.alloc();
    let all = container(alloc, "tuple", of_each_kind(alloc)?)?;
    let mut names = String::new(alloc);
    for (name, definition) in all.definitions() {
        let is_found = all.get_definition(name.as_str()) == Some(definition);
        check(is_found, "a definition by its name", 0)?;
        names.push_str(name.as_str())?;
        names.push(' ')?;
    }
    check_text(names.as_str(), "bytes empty enum list named tuple unnamed ")
}

#[test]
fn a_long_chain_needs_no_stack(rt: HostRuntime) -> Result<(), Fail> {
    let alloc = rt.alloc();
    // A list of at most one of the last name of a chain.
    let mut long = container(alloc, "A", tuples(alloc, 99999, 1)?)?;
    long.insert_definition(owned_text(alloc, "A")?, list(alloc, 0, 1, "L99999")?)?;
    let mut counts = Expansions::NONE;
    let is_valid = long.validate_counted(alloc, &mut counts).is_ok();
    let is_sized = long.max_serialized_size_counted(alloc, &mut counts) == Ok(5);
    check(is_valid && is_sized, "chain", 0)?;
    // Each name is looked into once for each question; only those behind the list are asked whether they have bytes.
    let is_once = counts.rules == 100001 && counts.zero == 100000 && counts.size == 100001;
    check(is_once, "names that are looked into", counts.zero as usize)
}
