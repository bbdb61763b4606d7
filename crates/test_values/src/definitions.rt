// The definitions of rows.
use super::wrong::{Wrong, check};
use borsh::schema::{Definition, Fields, LengthRange};
use std::alloc::Global;
use std::collections::BTreeMap;

pub type Definitions = BTreeMap<String, Definition>;

/// Adds the definition of a row, if it is one; a copy of it, which has to be equal to it. The columns are, after the name:
///
/// - `primitive` SIZE
/// - `sequence` WIDTH LEAST..GREATEST ELEMENT
/// - `tuple` PART.., `unnamed` PART.., `struct` FIELD PART.., `unit`
/// - `enum` WIDTH, and for each variant TAG NAME PART
/// - `many` WIDTH FIRST STEP COUNT PART..: an enum of variants `v0`, `v1` and so on, which have these parts by turns
pub fn define(
    alloc: Global,
    map: &mut Definitions,
    kind: &str,
    name: &str,
    columns: &[&str],
) -> Result<bool, Wrong> {
    let definition = match kind {
        "primitive" => Definition::Primitive(column(columns, 0)?.parse::<u8>()?),
        "sequence" => sequence(alloc, columns)?,
        "tuple" => Definition::Tuple {
            elements: texts(alloc, columns)?,
        },
        "unit" => Definition::Struct {
            fields: Fields::Empty,
        },
        "unnamed" => Definition::Struct {
            fields: Fields::UnnamedFields(texts(alloc, columns)?),
        },
        "struct" => fields(alloc, columns)?,
        "enum" => choice(alloc, columns)?,
        "many" => many(alloc, columns)?,
        _ => return Ok(false),
    };
    let copy = definition.clone()?;
    check(alloc, copy == definition, "a copy", name)?;
    map.insert(text(alloc, name)?, copy)?;
    Ok(true)
}

/// The column of that index.
pub fn column<'a>(columns: &[&'a str], index: usize) -> Result<&'a str, Wrong> {
    match columns.get(index) {
        Some(column) => Ok(*column),
        None => Err(Wrong::NoRow),
    }
}

pub fn text(alloc: Global, name: &str) -> Result<String, Wrong> {
    Ok(String::from_str(alloc, name)?)
}

fn texts(alloc: Global, columns: &[&str]) -> Result<Vec<String>, Wrong> {
    let mut texts = Vec::new(alloc);
    for column in columns {
        texts.push(text(alloc, column)?)?;
    }
    Ok(texts)
}

fn sequence(alloc: Global, columns: &[&str]) -> Result<Definition, Wrong> {
    let Some((least, greatest)) = column(columns, 1)?.split_once("..") else {
        return Err(Wrong::NoRow);
    };
    Ok(Definition::Sequence {
        length_width: column(columns, 0)?.parse::<u8>()?,
        length_range: LengthRange {
            start: least.parse::<u64>()?,
            end: greatest.parse::<u64>()?,
        },
        elements: text(alloc, column(columns, 2)?)?,
    })
}

fn fields(alloc: Global, columns: &[&str]) -> Result<Definition, Wrong> {
    let mut fields = Vec::new(alloc);
    for pair in columns.chunks(2) {
        let name = text(alloc, column(pair, 0)?)?;
        fields.push((name, text(alloc, column(pair, 1)?)?))?;
    }
    Ok(Definition::Struct {
        fields: Fields::NamedFields(fields),
    })
}

fn choice(alloc: Global, columns: &[&str]) -> Result<Definition, Wrong> {
    let mut variants = Vec::new(alloc);
    for variant in columns.get(1..).unwrap_or(&[]).chunks(3) {
        let tag = column(variant, 0)?.parse::<i64>()?;
        let name = text(alloc, column(variant, 1)?)?;
        variants.push((tag, name, text(alloc, column(variant, 2)?)?))?;
    }
    Ok(Definition::Enum {
        tag_width: column(columns, 0)?.parse::<u8>()?,
        variants,
    })
}

fn many(alloc: Global, columns: &[&str]) -> Result<Definition, Wrong> {
    let mut tag = column(columns, 1)?.parse::<i64>()?;
    let step = column(columns, 2)?.parse::<i64>()?;
    let count = column(columns, 3)?.parse::<usize>()?;
    let parts = columns.get(4..).unwrap_or(&[]);
    let mut variants = Vec::new(alloc);
    for index in 0..count {
        let name = format!(in alloc; "v{index}")?;
        let part = column(parts, index % parts.len().max(1))?;
        variants.push((tag, name, text(alloc, part)?))?;
        tag = tag.saturating_add(step);
    }
    Ok(Definition::Enum {
        tag_width: column(columns, 0)?.parse::<u8>()?,
        variants,
    })
}
