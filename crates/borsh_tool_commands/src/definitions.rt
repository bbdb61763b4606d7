// Definitions as text, one a line.
ghost use Rattle.std.specs.Prelude.{◌≡◌, ◌++◌, IfOk, codes, flat_map, option_map};
ghost use Rattle.borsh_tool_commands.specs.Answers.{line_of, missing_text};
ghost use Rattle.borsh_tool_commands.specs.Definitions.{braced, definition_text, elements_text, field_text, fields_text, listed, other_text, part_text, parts_text, range_text, root_line, schema_lines, sequence_text, size_text, variant_text};
ghost use Rattle.borsh_tool_commands.specs.Plain.{name_text};
ghost use Rattle.borsh_tool_commands.specs.Printed.{AddsPrinted, printed};

use super::plain_text::{Added, PlainText};
use super::values::Schema;
use borsh::schema::{Declaration, Definition, Fields, LengthRange};
use std::alloc::{AllocError, Global};
use std::collections::BTreeMap;

/// The definitions of a container, one a line: the root's, and then the others by name. A root without a
/// definition is `missing` and its name.
pub fn schema_text(alloc: Global, schema: &Schema) -> Result<PlainText, AllocError>
    ensures { IfOk result (λ t. printed t ≡ schema_lines schema.now) }
{
    let mut out = PlainText::new(alloc);
    let root = schema.root.as_str();
    push_root(root, schema.definitions.get(root), &mut out)?;
    push_others(root, &schema.definitions, &mut out)?;
    Ok(out)
}

fn push_root(root: &str, definition: Option<&Definition>, out: &mut PlainText) -> Added
    ensures { AddsPrinted out.old out.new result (root_line root.now (option_map (λ d. d.now) definition.entry)) }
{
    match definition {
        Some(definition) => push_definition(root, definition, out),
        None => push_missing(root, out),
    }
}

fn push_missing(name: &str, out: &mut PlainText) -> Added
    ensures { AddsPrinted out.old out.new result (missing_text name.now) }
{
    out.push("missing ")?;
    out.push_name(name)?;
    out.end_line()
}

/// The definitions of the names other than the root.
fn push_others(
    root: &str,
    definitions: &BTreeMap<Declaration, Definition>,
    out: &mut PlainText,
) -> Added
    ensures { AddsPrinted out.old out.new result (flat_map (other_text root.now) definitions.now.entries) }
{
    for (name, definition) in definitions {
        push_other(root, name, definition, out)?;
    }
    Ok(())
}

/// A name and its definition, as a line, or nothing for the root.
#[tactic(auto, unfolding(crate::specs::Definitions::other_text))]
fn push_other(root: &str, name: &Declaration, definition: &Definition, out: &mut PlainText) -> Added
    ensures { AddsPrinted out.old out.new result (other_text root.now (name.now, definition.now)) }
{
    if name.as_str() == root {
        return Ok(());
    }
    push_definition(name.as_str(), definition, out)
}

/// A name and its definition, as a line.
fn push_definition(name: &str, definition: &Definition, out: &mut PlainText) -> Added
    ensures { AddsPrinted out.old out.new result (line_of (definition_text name.now definition.now)) }
{
    push_definition_text(name, definition, out)?;
    out.end_line()
}

fn push_definition_text(name: &str, definition: &Definition, out: &mut PlainText) -> Added
    ensures { AddsPrinted out.old out.new result (definition_text name.now definition.now) }
{
    match definition {
        Definition::Primitive(size) => push_primitive(name, *size, out),
        Definition::Sequence {
            length_width,
            length_range,
            elements,
        } => push_sequence(name, *length_width, length_range, elements.as_str(), out),
        Definition::Tuple { elements } => push_tuple(name, elements.as_slice(), out),
        Definition::Enum {
            tag_width,
            variants,
        } => push_enum(name, *tag_width, variants.as_slice(), out),
        Definition::Struct { fields } => push_struct(name, fields, out),
    }
}

/// `primitive u32 = 4 bytes`
fn push_primitive(name: &str, size: u8, out: &mut PlainText) -> Added
    ensures { AddsPrinted out.old out.new result
        (codes "primitive " ++ (name_text name.now ++ (codes " = " ++ size_text size))) }
{
    out.push("primitive ")?;
    out.push_name(name)?;
    out.push(" = ")?;
    push_size(size, out)
}

/// `sequence String = [u8; 0..=4294967295], length in 4 bytes`, or `array "[u8; 4]" = [u8; 4]` where no length is written.
fn push_sequence(
    name: &str,
    length_width: u8,
    length_range: &LengthRange,
    elements: &str,
    out: &mut PlainText,
) -> Added
    ensures { AddsPrinted out.old out.new result (sequence_text name.now length_width length_range.now elements.now) }
{
    if length_width == 0 {
        out.push("array ")?;
        return push_elements(name, length_range, elements, out);
    }
    out.push("sequence ")?;
    push_elements(name, length_range, elements, out)?;
    out.push(", length in ")?;
    push_size(length_width, out)
}

/// `String = [u8; 0..=4294967295]`
#[tactic(auto, unfolding(crate::specs::Definitions::elements_text))]
fn push_elements(
    name: &str,
    length_range: &LengthRange,
    elements: &str,
    out: &mut PlainText,
) -> Added
    ensures { AddsPrinted out.old out.new result (elements_text name.now length_range.now elements.now) }
{
    out.push_name(name)?;
    out.push(" = [")?;
    out.push_name(elements)?;
    out.push("; ")?;
    push_range(length_range, out)?;
    out.push("]")
}

/// `0..=4294967295`, or `4`
fn push_range(range: &LengthRange, out: &mut PlainText) -> Added
    ensures { AddsPrinted out.old out.new result (range_text range.now) }
{
    out.push_number(range.start)?;
    if range.start == range.end {
        return Ok(());
    }
    out.push("..=")?;
    out.push_number(range.end)
}

/// `tuple "(u8, u16)" = (u8, u16)`
fn push_tuple(name: &str, elements: &[Declaration], out: &mut PlainText) -> Added
    ensures { AddsPrinted out.old out.new result
        (codes "tuple " ++ (name_text name.now ++ (codes " = " ++ parts_text elements.now))) }
{
    out.push("tuple ")?;
    out.push_name(name)?;
    out.push(" = ")?;
    push_parts(elements, out)
}

/// `enum "Option<u8>" { None("()") = 0, Some(u8) = 1 }, tag in 1 byte`
fn push_enum(
    name: &str,
    tag_width: u8,
    variants: &[(i64, String, Declaration)],
    out: &mut PlainText,
) -> Added
    ensures { AddsPrinted out.old out.new result
        (codes "enum " ++ (name_text name.now ++ (braced variant_text variants.now ++ (codes ", tag in " ++ size_text tag_width)))) }
{
    out.push("enum ")?;
    out.push_name(name)?;
    push_variants(variants, out)?;
    out.push(", tag in ")?;
    push_size(tag_width, out)
}

/// ` { None("()") = 0, Some(u8) = 1 }`
fn push_variants(variants: &[(i64, String, Declaration)], out: &mut PlainText) -> Added
    ensures { AddsPrinted out.old out.new result (braced variant_text variants.now) }
{
    let [first, others @ ..] = variants else {
        return out.push(" {}");
    };
    out.push(" { ")?;
    push_variant(first, out)?;
    push_other_variants(others, out)?;
    out.push(" }")
}

fn push_other_variants(variants: &[(i64, String, Declaration)], out: &mut PlainText) -> Added
    ensures { AddsPrinted out.old out.new result (flat_map (λ v. codes ", " ++ variant_text v) variants.now) }
{
    for variant in variants {
        out.push(", ")?;
        push_variant(variant, out)?;
    }
    Ok(())
}

/// `Some(u8) = 1`
fn push_variant(variant: &(i64, String, Declaration), out: &mut PlainText) -> Added
    ensures { AddsPrinted out.old out.new result (variant_text variant.now) }
{
    let (tag, name, part) = variant;
    out.push_name(name.as_str())?;
    out.push("(")?;
    out.push_name(part.as_str())?;
    out.push(") = ")?;
    out.push_signed(tag)
}

/// `struct A { x: u64, y: String }`, `struct B(u64, String)` or `struct C`
fn push_struct(name: &str, fields: &Fields, out: &mut PlainText) -> Added
    ensures { AddsPrinted out.old out.new result (codes "struct " ++ (name_text name.now ++ fields_text fields.now)) }
{
    out.push("struct ")?;
    out.push_name(name)?;
    push_fields(fields, out)
}

fn push_fields(fields: &Fields, out: &mut PlainText) -> Added
    ensures { AddsPrinted out.old out.new result (fields_text fields.now) }
{
    match fields {
        Fields::NamedFields(fields) => push_named(fields.as_slice(), out),
        Fields::UnnamedFields(parts) => push_parts(parts.as_slice(), out),
        Fields::Empty => Ok(()),
    }
}

/// ` { x: u64, y: String }`
fn push_named(fields: &[(String, Declaration)], out: &mut PlainText) -> Added
    ensures { AddsPrinted out.old out.new result (braced field_text fields.now) }
{
    let [first, others @ ..] = fields else {
        return out.push(" {}");
    };
    out.push(" { ")?;
    push_field(first, out)?;
    push_other_fields(others, out)?;
    out.push(" }")
}

fn push_other_fields(fields: &[(String, Declaration)], out: &mut PlainText) -> Added
    ensures { AddsPrinted out.old out.new result (flat_map (λ f. codes ", " ++ field_text f) fields.now) }
{
    for field in fields {
        out.push(", ")?;
        push_field(field, out)?;
    }
    Ok(())
}

/// `x: u64`
fn push_field(field: &(String, Declaration), out: &mut PlainText) -> Added
    ensures { AddsPrinted out.old out.new result (field_text field.now) }
{
    let (name, part) = field;
    out.push_name(name.as_str())?;
    out.push(": ")?;
    out.push_name(part.as_str())
}

/// `(u64, String)`
fn push_parts(parts: &[Declaration], out: &mut PlainText) -> Added
    ensures { AddsPrinted out.old out.new result (parts_text parts.now) }
{
    out.push("(")?;
    push_listed_parts(parts, out)?;
    out.push(")")
}

fn push_listed_parts(parts: &[Declaration], out: &mut PlainText) -> Added
    ensures { AddsPrinted out.old out.new result (listed part_text parts.now) }
{
    let [first, others @ ..] = parts else {
        return Ok(());
    };
    out.push_name(first.as_str())?;
    push_other_parts(others, out)
}

fn push_other_parts(parts: &[Declaration], out: &mut PlainText) -> Added
    ensures { AddsPrinted out.old out.new result (flat_map (λ p. codes ", " ++ part_text p) parts.now) }
{
    for part in parts {
        out.push(", ")?;
        out.push_name(part.as_str())?;
    }
    Ok(())
}

/// `1 byte` or `4 bytes`
fn push_size(size: u8, out: &mut PlainText) -> Added
    ensures { AddsPrinted out.old out.new result (size_text size) }
{
    out.push_number(u64::from(size))?;
    if size == 1 {
        out.push(" byte")
    } else {
        out.push(" bytes")
    }
}
