// What the types of the format bring: their names and definitions, by the names of their arguments.
ghost use Rattle.std.specs.Prelude.{◌≡◌, ◌∷◌, ◌++◌, [], IfOk, IfSome, OnOk, Some, string_bytes};
ghost use Rattle.borsh_definitions.specs.Described.{sequence, named, form_of, unnamed};
ghost use Rattle.borsh_definitions.specs.Names.{following, tuple_name as name_of_tuple};
ghost use Rattle.borsh_definitions.specs.Addresses.{octets_of};
ghost use Rattle.borsh_definitions.specs.Types.{list_of};
ghost use Rattle.borsh_source.specs.Forms.{Appends, Forms, address_entries, definition_of_one, either_entries, form, form_alone, form_applied, form_one, form_tuple, form_two, ip_entries, name_of_one, name_of_two, octets_entries, port_entries, socket_entries, tuple_of, variants_of_two};
ghost use Rattle.borsh_source.specs.Views.{texts_of};

use crate::formats::Kind;
use borsh_walks::{Declaration, Definition, Fields, LengthRange};
use std::alloc::{AllocError, Global};

/// A name with its definition.
pub type Entry = (Declaration, Definition);

// A text.
fn text(alloc: Global, text: &str) -> Result<String, AllocError>
    ensures { IfOk result (λ t. string_bytes t ≡ text.now) }
{
    String::from_str(alloc, text)
}

// The name of a type with one argument.
fn with_one(alloc: Global, stem: &str, argument: &str) -> Result<Declaration, AllocError>
    ensures { IfOk result (λ t. string_bytes t ≡ name_of_one stem.now argument.now) }
{
    format!(in alloc; "{stem}<{argument}>")
}

// The name of a type with two arguments.
fn with_two(alloc: Global, stem: &str, first: &str, second: &str) -> Result<Declaration, AllocError>
    ensures { IfOk result (λ t. string_bytes t ≡ name_of_two stem.now first.now second.now) }
{
    format!(in alloc; "{stem}<{first}, {second}>")
}

// The definition of a list.
fn list_definition(alloc: Global, element: &str) -> Result<Definition, AllocError>
    ensures { IfOk result (λ d. form_of d ≡ list_of element.now) }
{
    Ok(Definition::Sequence {
        length_width: Definition::DEFAULT_LENGTH_WIDTH,
        length_range: Definition::DEFAULT_LENGTH_RANGE,
        elements: text(alloc, element)?,
    })
}

// The definition of an array.
fn array_definition(alloc: Global, element: &str, length: usize) -> Result<Definition, AllocError>
    ensures { IfOk result (λ d. form_of d ≡ sequence 0 length length element.now) }
{
    Ok(Definition::Sequence {
        length_width: Definition::ARRAY_LENGTH_WIDTH,
        length_range: LengthRange {
            start: length as u64,
            end: length as u64,
        },
        elements: text(alloc, element)?,
    })
}

// The name of a tuple.
fn tuple_name(alloc: Global, names: &[Declaration]) -> Result<Declaration, AllocError>
    ensures { IfOk result (λ t. string_bytes t ≡ name_of_tuple (texts_of names.now)) }
{
    match names {
        [] => text(alloc, "()"),
        [only] => {
            let only = only.as_str();
            format!(in alloc; "({only},)")
        }
        [first, others @ ..] => {
            let first = first.as_str();
            let mut name = format!(in alloc; "({first}")?;
            push_following(&mut name, others)?;
            name.push_str(")")?;
            Ok(name)
        }
    }
}

/// Puts names at the end of a text, each behind a comma.
#[tactic(auto, using(std::proofs::Common::append_assoc))]
pub fn push_following(text: &mut String, names: &[Declaration]) -> Result<(), AllocError>
    ensures { OnOk result
        (string_bytes text.new ≡ string_bytes text.old ++ following (texts_of names.now)) }
{
    match names {
        [] => Ok(()),
        [first, others @ ..] => {
            text.push_str(", ")?;
            text.push_str(first.as_str())?;
            push_following(text, others)
        }
    }
}

/// The names again.
pub fn copied(alloc: Global, names: &[Declaration]) -> Result<Vec<Declaration>, AllocError>
    ensures { IfOk result (λ ds. texts_of ds.items ≡ texts_of names.now) }
{
    let mut copies = Vec::new(alloc);
    for name in names {
        copies.push(text(alloc, name.as_str())?)?;
    }
    Ok(copies)
}

// The definition of a tuple.
fn tuple_definition(alloc: Global, names: &[Declaration]) -> Result<Definition, AllocError>
    ensures { IfOk result (λ d. form_of d ≡ tuple_of (texts_of names.now)) }
{
    match names {
        [] => Ok(Definition::Primitive(0)),
        _ => Ok(Definition::Tuple {
            elements: copied(alloc, names)?,
        }),
    }
}

// A struct with one named field, or with two.
fn one_named(alloc: Global, field: &str, of: &str) -> Result<Definition, AllocError>
    ensures { IfOk result (λ d. form_of d ≡ named ((field.now, of.now) ∷ [])) }
{
    let fields = Fields::NamedFields(vec![in alloc; (text(alloc, field)?, text(alloc, of)?)]?);
    Ok(Definition::Struct { fields })
}

fn two_named(
    alloc: Global,
    first: &str,
    of_first: &str,
    second: &str,
    of_second: &str,
) -> Result<Definition, AllocError>
    ensures { IfOk result (λ d. form_of d
        ≡ named ((first.now, of_first.now) ∷ (second.now, of_second.now) ∷ [])) }
{
    let fields = Fields::NamedFields(vec![in alloc;
        (text(alloc, first)?, text(alloc, of_first)?),
        (text(alloc, second)?, text(alloc, of_second)?),
    ]?);
    Ok(Definition::Struct { fields })
}

// A struct with one unnamed field.
fn one_unnamed(alloc: Global, of: &str) -> Result<Definition, AllocError>
    ensures { IfOk result (λ d. form_of d ≡ unnamed (of.now ∷ [])) }
{
    let fields = Fields::UnnamedFields(vec![in alloc; text(alloc, of)?]?);
    Ok(Definition::Struct { fields })
}

// An enum of two variants: tag, name and type of each.
fn two_variants(
    alloc: Global,
    first: (u8, &str, &str),
    second: (u8, &str, &str),
) -> Result<Definition, AllocError>
    ensures { IfOk result (λ d. form_of d ≡ variants_of_two
        (first.entry.0, first.entry.1.now, first.entry.2.now)
        (second.entry.0, second.entry.1.now, second.entry.2.now)) }
{
    Ok(Definition::Enum {
        tag_width: 1,
        variants: vec![in alloc;
            (
                i64::from(first.0),
                text(alloc, first.1)?,
                text(alloc, first.2)?
            ),
            (
                i64::from(second.0),
                text(alloc, second.1)?,
                text(alloc, second.2)?
            ),
        ]?,
    })
}

// Puts a definition at the end of the list, under its name.
fn push(
    alloc: Global,
    entries: &mut Vec<Entry>,
    name: &str,
    definition: Definition,
) -> Result<(), AllocError>
    ensures { OnOk result (Appends entries.old.items entries.new.items
        ((name.now, form_of definition) ∷ [])) }
{
    let entry = (text(alloc, name)?, definition);
    entries.push(entry)?;
    Ok(())
}

// Those of an array of so many bytes.
fn push_octets(alloc: Global, entries: &mut Vec<Entry>, length: usize) -> Result<(), AllocError>
    ensures { OnOk result (Appends entries.old.items entries.new.items (octets_entries length)) }
{
    let name = format!(in alloc; "[u8; {length}]")?;
    push(
        alloc,
        entries,
        name.as_str(),
        array_definition(alloc, "u8", length)?,
    )?;
    push(alloc, entries, "u8", Definition::Primitive(1))
}

// The definition of an address of so many bytes.
fn octets_definition(alloc: Global, length: usize) -> Result<Definition, AllocError>
    ensures { IfOk result (λ d. form_of d ≡ octets_of length) }
{
    let name = format!(in alloc; "[u8; {length}]")?;
    one_named(alloc, "octets", name.as_str())
}

// Those of an address of so many bytes.
fn push_address(
    alloc: Global,
    entries: &mut Vec<Entry>,
    name: &str,
    length: usize,
) -> Result<(), AllocError>
    ensures { OnOk result (Appends entries.old.items entries.new.items
        (address_entries name.now length)) }
{
    push(alloc, entries, name, octets_definition(alloc, length)?)?;
    push_octets(alloc, entries, length)?;
    Ok(())
}

// Those of such an address with a port.
fn push_with_port(
    alloc: Global,
    entries: &mut Vec<Entry>,
    name: &str,
    address: &str,
    length: usize,
) -> Result<(), AllocError>
    ensures { OnOk result (Appends entries.old.items entries.new.items
        (port_entries name.now address.now length)) }
{
    push(
        alloc,
        entries,
        name,
        two_named(alloc, "ip", address, "port", "u16")?,
    )?;
    push(alloc, entries, "u16", Definition::Primitive(2))?;
    push_address(alloc, entries, address, length)?;
    Ok(())
}

// Those of an enum of both: the name of each variant and of what it holds.
fn push_either(
    alloc: Global,
    entries: &mut Vec<Entry>,
    name: &str,
    v4: (&str, &str),
    v6: (&str, &str),
) -> Result<(), AllocError>
    ensures { OnOk result (Appends entries.old.items entries.new.items (either_entries name.now
        (v4.entry.0.now, v4.entry.1.now) (v6.entry.0.now, v6.entry.1.now))) }
{
    let either = two_variants(alloc, (0, "V4", v4.0), (1, "V6", v6.0))?;
    push(alloc, entries, name, either)?;
    push(alloc, entries, v4.0, one_unnamed(alloc, v4.1)?)?;
    push(alloc, entries, v6.0, one_unnamed(alloc, v6.1)?)?;
    Ok(())
}

// Those of either address.
fn push_ip(alloc: Global, entries: &mut Vec<Entry>) -> Result<(), AllocError>
    ensures { OnOk result (Appends entries.old.items entries.new.items ip_entries) }
{
    push_either(
        alloc,
        entries,
        "IpAddr",
        ("IpAddr__V4", "Ipv4Addr"),
        ("IpAddr__V6", "Ipv6Addr"),
    )?;
    push_address(alloc, entries, "Ipv4Addr", 4)?;
    push_address(alloc, entries, "Ipv6Addr", 16)?;
    Ok(())
}

// Those of either address with a port.
fn push_socket(alloc: Global, entries: &mut Vec<Entry>) -> Result<(), AllocError>
    ensures { OnOk result (Appends entries.old.items entries.new.items socket_entries) }
{
    push_either(
        alloc,
        entries,
        "SocketAddr",
        ("SocketAddr__V4", "SocketAddrV4"),
        ("SocketAddr__V6", "SocketAddrV6"),
    )?;
    push_with_port(alloc, entries, "SocketAddrV4", "Ipv4Addr", 4)?;
    push_with_port(alloc, entries, "SocketAddrV6", "Ipv6Addr", 16)?;
    Ok(())
}

// A type without arguments.
fn form_alone(
    alloc: Global,
    stem: &str,
    kind: Kind,
    entries: &mut Vec<Entry>,
) -> Result<Option<Declaration>, AllocError>
    ensures { IfOk result
        (Forms (form_alone stem.now kind) entries.old.items entries.new.items) }
{
    match kind {
        Kind::Bytes(width) => {
            push(alloc, entries, stem, Definition::Primitive(width))?;
            Ok(Some(text(alloc, stem)?))
        }
        Kind::Phantom => {
            push(alloc, entries, "()", Definition::Primitive(0))?;
            Ok(Some(text(alloc, "()")?))
        }
        Kind::Text => {
            push(alloc, entries, "String", list_definition(alloc, "u8")?)?;
            push(alloc, entries, "u8", Definition::Primitive(1))?;
            Ok(Some(text(alloc, "String")?))
        }
        Kind::Octets => {
            push(alloc, entries, "Vec<u8>", list_definition(alloc, "u8")?)?;
            push(alloc, entries, "u8", Definition::Primitive(1))?;
            Ok(Some(text(alloc, "Vec<u8>")?))
        }
        Kind::RangeFull => {
            let fields = Fields::Empty;
            push(alloc, entries, "RangeFull", Definition::Struct { fields })?;
            Ok(Some(text(alloc, "RangeFull")?))
        }
        Kind::Ipv4Addr => {
            push_address(alloc, entries, "Ipv4Addr", 4)?;
            Ok(Some(text(alloc, stem)?))
        }
        Kind::Ipv6Addr => {
            push_address(alloc, entries, "Ipv6Addr", 16)?;
            Ok(Some(text(alloc, stem)?))
        }
        Kind::IpAddr => {
            push_ip(alloc, entries)?;
            Ok(Some(text(alloc, stem)?))
        }
        Kind::SocketAddrV4 => {
            push_with_port(alloc, entries, "SocketAddrV4", "Ipv4Addr", 4)?;
            Ok(Some(text(alloc, stem)?))
        }
        Kind::SocketAddrV6 => {
            push_with_port(alloc, entries, "SocketAddrV6", "Ipv6Addr", 16)?;
            Ok(Some(text(alloc, stem)?))
        }
        Kind::SocketAddr => {
            push_socket(alloc, entries)?;
            Ok(Some(text(alloc, stem)?))
        }
        _ => Ok(None),
    }
}

// The definition of a type with one argument under its name.
fn definition_with_one(
    alloc: Global,
    kind: Kind,
    argument: &str,
) -> Result<Option<Definition>, AllocError>
    ensures { IfOk result (λ o. IfSome o (λ d. definition_of_one kind argument.now ≡ Some (form_of d))) }
{
    match kind {
        Kind::List => Ok(Some(list_definition(alloc, argument)?)),
        Kind::Option => {
            let either = two_variants(alloc, (0, "None", "()"), (1, "Some", argument))?;
            Ok(Some(either))
        }
        Kind::Range => Ok(Some(two_named(alloc, "start", argument, "end", argument)?)),
        Kind::RangeFrom => Ok(Some(one_named(alloc, "start", argument)?)),
        Kind::RangeTo => Ok(Some(one_named(alloc, "end", argument)?)),
        _ => Ok(None),
    }
}

// A type with one argument.
fn form_one(
    alloc: Global,
    stem: &str,
    kind: Kind,
    argument: &str,
    entries: &mut Vec<Entry>,
) -> Result<Option<Declaration>, AllocError>
    ensures { IfOk result
        (Forms (form_one stem.now kind argument.now) entries.old.items entries.new.items) }
{
    match kind {
        Kind::Through => Ok(Some(text(alloc, argument)?)),
        Kind::Array(length) => {
            let name = format!(in alloc; "[{argument}; {length}]")?;
            push(
                alloc,
                entries,
                name.as_str(),
                array_definition(alloc, argument, length)?,
            )?;
            Ok(Some(name))
        }
        Kind::Option => {
            push(alloc, entries, "()", Definition::Primitive(0))?;
            form_applied(alloc, stem, kind, argument, entries)
        }
        _ => form_applied(alloc, stem, kind, argument, entries),
    }
}

// A type with one argument that its name is made of.
fn form_applied(
    alloc: Global,
    stem: &str,
    kind: Kind,
    argument: &str,
    entries: &mut Vec<Entry>,
) -> Result<Option<Declaration>, AllocError>
    ensures { IfOk result
        (Forms (form_applied stem.now kind argument.now) entries.old.items entries.new.items) }
{
    let Some(definition) = definition_with_one(alloc, kind, argument)? else {
        return Ok(None);
    };
    let name = with_one(alloc, stem, argument)?;
    push(alloc, entries, name.as_str(), definition)?;
    Ok(Some(name))
}

// A map, or a result.
fn form_two(
    alloc: Global,
    stem: &str,
    kind: Kind,
    names: &[Declaration],
    entries: &mut Vec<Entry>,
) -> Result<Option<Declaration>, AllocError>
    ensures { IfOk result
        (Forms (form_two stem.now kind (texts_of names.now)) entries.old.items entries.new.items) }
{
    let [first, second] = names else {
        return Ok(None);
    };
    let name = with_two(alloc, stem, first.as_str(), second.as_str())?;
    match kind {
        Kind::Map => {
            let entry = tuple_name(alloc, names)?;
            push(
                alloc,
                entries,
                entry.as_str(),
                tuple_definition(alloc, names)?,
            )?;
            push(
                alloc,
                entries,
                name.as_str(),
                list_definition(alloc, entry.as_str())?,
            )?;
            Ok(Some(name))
        }
        Kind::Result => {
            let either = two_variants(
                alloc,
                (1, "Ok", first.as_str()),
                (0, "Err", second.as_str()),
            )?;
            push(alloc, entries, name.as_str(), either)?;
            Ok(Some(name))
        }
        _ => Ok(None),
    }
}

// A tuple.
fn form_tuple(
    alloc: Global,
    names: &[Declaration],
    entries: &mut Vec<Entry>,
) -> Result<Option<Declaration>, AllocError>
    ensures { IfOk result (Forms (form_tuple (texts_of names.now)) entries.old.items entries.new.items) }
{
    let name = tuple_name(alloc, names)?;
    push(
        alloc,
        entries,
        name.as_str(),
        tuple_definition(alloc, names)?,
    )?;
    Ok(Some(name))
}

/// The name of a type of the format, by the names of its arguments, and none if it takes another number of them. The definitions
/// that it has beside those of its arguments are put at the end of the list.
pub fn form(
    alloc: Global,
    stem: &str,
    kind: Kind,
    names: &[Declaration],
    entries: &mut Vec<Entry>,
) -> Result<Option<Declaration>, AllocError>
    ensures { IfOk result
        (Forms (form stem.now kind (texts_of names.now)) entries.old.items entries.new.items) }
{
    match (kind, names) {
        (Kind::Tuple, _) => form_tuple(alloc, names, entries),
        (_, []) => form_alone(alloc, stem, kind, entries),
        (_, [only]) => form_one(alloc, stem, kind, only.as_str(), entries),
        _ => form_two(alloc, stem, kind, names, entries),
    }
}
