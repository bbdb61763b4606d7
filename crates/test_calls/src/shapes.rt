// Containers and their definitions, as a program makes them.
use super::support::owned_text;
use borsh::schema::{BorshSchemaContainer, Definition, Fields, LengthRange};
use std::alloc::Global;
use std::collections::BTreeMap;
use std::test::Fail;

/// The names of some types.
fn names(alloc: Global) -> Result<Vec<String>, Fail> {
    let mut names = Vec::new(alloc);
    names.push(owned_text(alloc, "u8")?)?;
    names.push(owned_text(alloc, "u16")?)?;
    Ok(names)
}

pub(crate) fn named_fields(alloc: Global) -> Result<Fields, Fail> {
    let mut fields = Vec::new(alloc);
    fields.push((owned_text(alloc, "a")?, owned_text(alloc, "u8")?))?;
    fields.push((owned_text(alloc, "b")?, owned_text(alloc, "u16")?))?;
    Ok(Fields::NamedFields(fields))
}

fn unnamed_fields(alloc: Global) -> Result<Fields, Fail> {
    Ok(Fields::UnnamedFields(names(alloc)?))
}

pub(crate) fn choice(alloc: Global) -> Result<Definition, Fail> {
    let mut variants = Vec::new(alloc);
    variants.push((-1, owned_text(alloc, "Minus")?, owned_text(alloc, "u8")?))?;
    variants.push((2, owned_text(alloc, "Two")?, owned_text(alloc, "u16")?))?;
    Ok(Definition::Enum {
        tag_width: 1,
        variants,
    })
}

/// A sequence with a length prefix of four bytes.
pub(crate) fn list(alloc: Global, start: u64, end: u64, element: &str) -> Result<Definition, Fail> {
    Ok(Definition::Sequence {
        length_width: 4,
        length_range: LengthRange { start, end },
        elements: owned_text(alloc, element)?,
    })
}

/// A definition of each kind, by name.
pub(crate) fn of_each_kind(alloc: Global) -> Result<BTreeMap<String, Definition>, Fail> {
    let mut all = BTreeMap::new(alloc);
    all.insert(owned_text(alloc, "bytes")?, Definition::Primitive(7))?;
    all.insert(owned_text(alloc, "list")?, list(alloc, 1, 2, "u8")?)?;
    let elements = names(alloc)?;
    all.insert(owned_text(alloc, "tuple")?, Definition::Tuple { elements })?;
    all.insert(owned_text(alloc, "enum")?, choice(alloc)?)?;
    let fields = named_fields(alloc)?;
    all.insert(owned_text(alloc, "named")?, Definition::Struct { fields })?;
    let fields = unnamed_fields(alloc)?;
    all.insert(owned_text(alloc, "unnamed")?, Definition::Struct { fields })?;
    let fields = Fields::Empty;
    all.insert(owned_text(alloc, "empty")?, Definition::Struct { fields })?;
    Ok(all)
}

/// `u8` as one byte.
pub(crate) fn one_byte(alloc: Global) -> Result<BTreeMap<String, Definition>, Fail> {
    let mut definitions = BTreeMap::new(alloc);
    definitions.insert(owned_text(alloc, "u8")?, Definition::Primitive(1))?;
    Ok(definitions)
}

/// So many definitions: `T0` of no bytes, `T1` of one, and so on.
pub(crate) fn numbered(alloc: Global, count: u8) -> Result<BTreeMap<String, Definition>, Fail> {
    let mut definitions = BTreeMap::new(alloc);
    for n in 0..count {
        definitions.insert(format!(in alloc; "T{n}")?, Definition::Primitive(n))?;
    }
    Ok(definitions)
}

/// The container of a name and these definitions.
pub(crate) fn container(
    alloc: Global,
    root: &str,
    definitions: BTreeMap<String, Definition>,
) -> Result<BorshSchemaContainer, Fail> {
    Ok(BorshSchemaContainer::new(owned_text(alloc, root)?, definitions))
}

/// `L0` to the last one, each the tuple of so many of the name before, and the first one byte.
pub(crate) fn tuples(
    alloc: Global,
    last: u64,
    places: usize,
) -> Result<BTreeMap<String, Definition>, Fail> {
    let mut definitions = BTreeMap::new(alloc);
    definitions.insert(owned_text(alloc, "L0")?, Definition::Primitive(1))?;
    for n in 0..last {
        let mut elements = Vec::new(alloc);
        for _ in 0..places {
            elements.push(format!(in alloc; "L{n}")?)?;
        }
        let name = format!(in alloc; "L{}", n.saturating_add(1))?;
        definitions.insert(name, Definition::Tuple { elements })?;
    }
    Ok(definitions)
}
