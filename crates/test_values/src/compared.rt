// Names of definitions compared.
use super::definitions::{Definitions, text};
use super::judge::Root;
use super::random::{member_of, next_number};
use super::wrong::{Wrong, check, expect};
use borsh::schema::{Definition, Fields, LengthRange};
use borsh_compare::{Answer, Comparison, compare_plans};
use borsh_json::{Style, from_json, to_json};
use borsh_values::{Membership, Plan, is_member};
use std::alloc::Global;
use std::collections::BTreeMap;

/// So many random values of compatible names are tried.
const MOST_VALUES: usize = 20;

/// How many names the random definitions have.
const NAMES: u64 = 5;

// The answer and what changed, as a row says it.
fn written(alloc: Global, compared: &Comparison<'_>) -> Result<String, Wrong> {
    let mut out = match &compared.answer {
        Answer::Same => text(alloc, "same")?,
        Answer::Compatible => text(alloc, "compatible")?,
        Answer::Incompatible(evidence) => {
            let digits = hex::encode(alloc, evidence.bytes.as_slice())?;
            format!(in alloc; "incompatible {digits} {}", evidence.fault)?
        }
        Answer::NotKnown => text(alloc, "not known")?,
    };
    if compared.has_same_json {
        out.push_str(", same JSON")?;
    }
    for change in compared.changes.as_slice() {
        let line = format!(in alloc; "; {change}")?;
        out.push_str(line.as_str())?;
    }
    Ok(out)
}

// Whether the bytes are no value, by definitions that aren't ambiguous.
fn refuses(root: &Root<'_>, bytes: &[u8]) -> Result<bool, Wrong> {
    match is_member(root.alloc, root.name, root.map, bytes)? {
        Membership::NoMember(_) => Ok(true),
        _ => Ok(false),
    }
}

// That JSON of the old value says the same bytes by the new names, as far as the value has JSON.
fn judge_json(old: &Root<'_>, new: &Root<'_>, bytes: &[u8]) -> Result<(), Wrong> {
    let alloc = old.alloc;
    let Ok(json) = to_json(alloc, old.name, old.map, bytes, Style::COMPACT) else {
        return Ok(());
    };
    // By ambiguous definitions nothing is read.
    let is_same = match from_json(alloc, new.name, new.map, json.as_str()) {
        Ok(read) => read.as_slice() == bytes,
        Err(_) => true,
    };
    check(alloc, is_same, "same JSON", json.as_str())
}

// That the answer goes with members: random ones of names that are compatible, those of the answer of others.
fn judge_answer(
    old: &Root<'_>,
    new: &Root<'_>,
    compared: &Comparison<'_>,
    state: &mut u64,
) -> Result<(), Wrong> {
    let alloc = old.alloc;
    match &compared.answer {
        Answer::NotKnown => {}
        Answer::Incompatible(evidence) => {
            let bytes = evidence.bytes.as_slice();
            check(
                alloc,
                old.has(bytes)? && refuses(new, bytes)?,
                "evidence",
                "none",
            )?;
        }
        _ => {
            for _ in 0..MOST_VALUES {
                let Ok(bytes) = member_of(old, state) else {
                    continue;
                };
                let bytes = bytes.as_slice();
                check(
                    alloc,
                    !old.has(bytes)? || !refuses(new, bytes)?,
                    "compatible",
                    "not",
                )?;
                if compared.has_same_json {
                    judge_json(old, new, bytes)?;
                }
            }
        }
    }
    Ok(())
}

/// That the comparison of two names says this, and is right of random values.
pub fn judge_compared(old: &Root<'_>, new: &Root<'_>, wanted: &str) -> Result<(), Wrong> {
    let alloc = old.alloc;
    let before = Plan::new(alloc, old.name, old.map)?;
    let after = Plan::new(alloc, new.name, new.map)?;
    let compared = compare_plans(alloc, &before, &after)?;
    let found = written(alloc, &compared)?;
    expect(alloc, "compare", found.as_str(), wanted)?;
    let mut state = 88172645463325252;
    judge_answer(old, new, &compared, &mut state)
}

// A definition whose names are numbers.
#[derive(Drop)]
struct Sketch {
    kind: u64,
    width: u8,
    start: u64,
    end: u64,
    parts: Vec<u64>,
}

fn new_sketch(alloc: Global, state: &mut u64) -> Result<Sketch, Wrong> {
    let mut parts = Vec::new(alloc);
    for _ in 0..next_number(state) % 4 {
        parts.push(next_number(state) % (NAMES + 3))?;
    }
    let start = next_number(state) % 3;
    Ok(Sketch {
        kind: next_number(state) % 5,
        width: (next_number(state) % 3) as u8,
        start,
        end: start.saturating_add(next_number(state) % 3),
        parts,
    })
}

// Changes one thing.
fn change(sketch: &mut Sketch, state: &mut u64) -> Result<(), Wrong> {
    match next_number(state) % 8 {
        0 => sketch.width = (next_number(state) % 3) as u8,
        1 => sketch.start = next_number(state) % 3,
        2 => sketch.end = next_number(state) % 5,
        3 => sketch.kind = next_number(state) % 5,
        4 | 5 => sketch.parts.push(next_number(state) % (NAMES + 3))?,
        6 => {
            let _last = sketch.parts.pop();
        }
        _ => {
            if let Some(part) = sketch.parts.get_mut(0) {
                *part = next_number(state) % (NAMES + 3);
            }
        }
    }
    Ok(())
}

fn name_of(alloc: Global, prefix: &str, number: u64) -> Result<String, Wrong> {
    match number.checked_sub(NAMES) {
        Some(0) => text(alloc, "u8"),
        Some(1) => text(alloc, "u32"),
        Some(_) => text(alloc, "()"),
        None => Ok(format!(in alloc; "{prefix}{number}")?),
    }
}

fn definition_of(alloc: Global, prefix: &str, sketch: &Sketch) -> Result<Definition, Wrong> {
    let mut names = Vec::new(alloc);
    let mut variants = Vec::new(alloc);
    for (index, part) in sketch.parts.as_slice().iter().enumerate() {
        names.push(name_of(alloc, prefix, *part)?)?;
        let tag = (index % 100) as i64;
        let variant = format!(in alloc; "V{index}")?;
        variants.push((tag, variant, name_of(alloc, prefix, *part)?))?;
    }
    Ok(match sketch.kind {
        0 => Definition::Primitive(sketch.width),
        1 => Definition::Sequence {
            length_width: sketch.width,
            length_range: LengthRange {
                start: sketch.start,
                end: sketch.end,
            },
            elements: name_of(
                alloc,
                prefix,
                sketch.parts.as_slice().first().copied().unwrap_or(5),
            )?,
        },
        2 => Definition::Tuple { elements: names },
        3 => Definition::Struct {
            fields: Fields::UnnamedFields(names),
        },
        _ => Definition::Enum {
            tag_width: 1,
            variants,
        },
    })
}

/// That comparisons of so many random containers with changed ones are right.
pub fn judge_changed(alloc: Global, count: u64) -> Result<(), Wrong> {
    let mut state = 88172645463325252;
    for _ in 0..count {
        let mut map: Definitions = BTreeMap::new(alloc);
        map.insert(text(alloc, "u8")?, Definition::Primitive(1))?;
        map.insert(text(alloc, "u32")?, Definition::Primitive(4))?;
        map.insert(text(alloc, "()")?, Definition::Primitive(0))?;
        let changed = next_number(&mut state) % NAMES;
        for number in 0..NAMES {
            let mut one = new_sketch(alloc, &mut state)?;
            map.insert(
                name_of(alloc, "a", number)?,
                definition_of(alloc, "a", &one)?,
            )?;
            if number == changed {
                change(&mut one, &mut state)?;
            }
            map.insert(
                name_of(alloc, "b", number)?,
                definition_of(alloc, "b", &one)?,
            )?;
        }
        let map = &map;
        for (old, new) in [("a0", "b0"), ("b0", "a0"), ("a1", "a2")] {
            let before = Plan::new(alloc, old, map)?;
            let after = Plan::new(alloc, new, map)?;
            let compared = compare_plans(alloc, &before, &after)?;
            let old = Root {
                alloc,
                map,
                name: old,
            };
            let new = Root {
                alloc,
                map,
                name: new,
            };
            judge_answer(&old, &new, &compared, &mut state)?;
        }
    }
    Ok(())
}
