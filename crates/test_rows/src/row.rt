// The columns of a row.
use std::alloc::Global;
use test_devices::Fault;

/// The first column, and the others, which have tabs between them.
pub fn first_of(columns: &str) -> Result<(&str, &str), Fault> {
    columns.split_once('\t').ok_or(Fault::NoRow)
}

/// The bytes that a column says: `-` for none, or pieces with `+` between them, each of them digits, and perhaps `*` and how
/// often they come.
pub fn bytes_of(alloc: Global, column: &str) -> Result<Vec<u8>, Fault> {
    let mut bytes = Vec::new(alloc);
    if column == "-" {
        return Ok(bytes);
    }
    for piece in column.split('+') {
        let (digits, times) = piece.split_once('*').unwrap_or((piece, "1"));
        let (Ok(part), Ok(times)) = (hex::decode(alloc, digits), times.parse::<u32>()) else {
            return Err(Fault::NoRow);
        };
        for _ in 0..times {
            bytes.extend_from_slice(part.as_slice())?;
        }
    }
    Ok(bytes)
}

/// Whether an answer is one of those that are right, which have tabs between them.
pub fn is_answer(answers: &str, answer: &str) -> bool {
    answers.split('\t').any(|right| has_words(right, answer))
}

/// Whether an answer has these words, of which `A..B` is any number from A to B.
fn has_words(right: &str, answer: &str) -> bool {
    let mut words = answer.split(' ');
    for pattern in right.split(' ') {
        match words.next() {
            Some(word) if is_word(pattern, word) => {}
            _ => return false,
        }
    }
    words.next().is_none()
}

fn is_word(pattern: &str, word: &str) -> bool {
    let Some((least, most)) = pattern.split_once("..") else {
        return pattern == word;
    };
    match (
        least.parse::<u64>(),
        word.parse::<u64>(),
        most.parse::<u64>(),
    ) {
        (Ok(least), Ok(number), Ok(most)) => least <= number && number <= most,
        _ => false,
    }
}
