// The types of the program's words and of `example_generated`, and random values of each.
use super::definitions::Definitions;
use super::generated::asked;
use super::judge::{Root, digits_of};
use super::random::member_of;
use super::wrong::{Wrong, check};
use borsh::from_slice;
use borsh_check_lines::answer;
use borsh_values::find_ambiguous;
use std::alloc::Global;

/// The first state of random numbers.
const SEED: u64 = 88172645463325252;

/// How many random values of a type are judged with all that is near them.
const ROUNDS: u64 = 100;

/// How many come back from their JSON: over 100,000 of all types.
const VALUES: u64 = 2100;

/// That so many random values of the root come back from their JSON, those that the type takes.
pub fn judge_random(root: &Root<'_>, count: u64) -> Result<(), Wrong> {
    let mut state = SEED;
    for _ in 0..count {
        let bytes = member_of(root, &mut state)?;
        root.judge_json(bytes.as_slice())?;
    }
    Ok(())
}

/// Judges random values of a word's type by its container, whose definitions are returned.
pub fn judge_type(alloc: Global, word: &str, columns: &[&str]) -> Result<Definitions, Wrong> {
    let digits = answer_of(alloc, word, None)?;
    let Ok(container) = hex::decode(alloc, digits.as_str()) else {
        return Err(Wrong::NoRow);
    };
    let Ok((name, map)) = from_slice::<(String, Definitions)>(alloc, container.as_slice()) else {
        return Err(Wrong::NoRow);
    };
    let root = Root {
        alloc,
        map: &map,
        name: name.as_str(),
    };
    let is_clear = find_ambiguous(alloc, root.name, &map)?.is_none();
    check(alloc, is_clear, "find_ambiguous", "a name")?;
    let mut state = SEED;
    for _ in 0..ROUNDS {
        let bytes = member_of(&root, &mut state)?;
        judge_typed(word, &root, bytes.as_slice())?;
        judge_strict(word, &root, bytes.as_slice(), columns.is_empty())?;
    }
    judge_random(&root, VALUES)?;
    Ok(map)
}

/// That the type decodes what `check_strict` takes, and nothing else; or, where names don't tell the order of its keys, only that
/// it decodes nothing else.
fn judge_strict(word: &str, root: &Root<'_>, bytes: &[u8], is_told: bool) -> Result<(), Wrong> {
    let is_taken = root.strict(bytes)?.as_str() == "taken";
    let is_read = is_read(word, root.alloc, bytes)?;
    let is_right = is_read == is_taken || is_taken && !is_told;
    check(
        root.alloc,
        is_right,
        "check_strict",
        "the type says otherwise",
    )
}

/// That the bytes are a value; and that neither a beginning of them nor they with one byte more are one or are decoded by the
/// type, nor does it decode what isn't one where a byte is one greater.
fn judge_typed(word: &str, root: &Root<'_>, bytes: &[u8]) -> Result<(), Wrong> {
    root.judge_member(bytes)?;
    root.judge_json(bytes)?;
    root.judge_rows(bytes)?;
    for end in 0..bytes.len() {
        check_refused(word, root, &bytes[..end])?;
    }
    let mut longer = Vec::from_slice(root.alloc, bytes)?;
    longer.push(0)?;
    check_refused(word, root, longer.as_slice())?;
    for place in 0..bytes.len() {
        let mut changed = Vec::from_slice(root.alloc, bytes)?;
        if let Some(byte) = changed.get_mut(place) {
            *byte = byte.wrapping_add(1);
        }
        if !root.has(changed.as_slice())? {
            check_refused(word, root, changed.as_slice())?;
        }
    }
    Ok(())
}

/// That neither the definitions nor the type has this value.
fn check_refused(word: &str, root: &Root<'_>, bytes: &[u8]) -> Result<(), Wrong> {
    let alloc = root.alloc;
    check(alloc, !root.has(bytes)?, "is_member", "it is a value")?;
    let is_read = is_read(word, alloc, bytes)?;
    check(alloc, !is_read, "the type", "it is decoded")
}

/// Whether the type of a word decodes the bytes.
fn is_read(word: &str, alloc: Global, bytes: &[u8]) -> Result<bool, Wrong> {
    Ok(answer_of(alloc, word, Some(bytes))?.starts_with("ok"))
}

/// The digits of the container of a type of `example_generated`, or of a word's type; or of bytes, `ok` if it decodes them.
fn answer_of(alloc: Global, word: &str, bytes: Option<&[u8]>) -> Result<String, Wrong> {
    if let Some(answer) = asked(alloc, word, bytes)? {
        return Ok(answer);
    }
    let line = match bytes {
        Some(bytes) => {
            let digits = digits_of(alloc, bytes)?;
            format!(in alloc; "read {word} {digits}")?
        }
        None => format!(in alloc; "schema {word}")?,
    };
    match String::from_utf8(answer(alloc, line.as_bytes())?) {
        Ok(answer) => Ok(answer),
        Err(_) => Err(Wrong::NoRow),
    }
}
