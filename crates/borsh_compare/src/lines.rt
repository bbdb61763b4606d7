// What a comparison says, in words.
use crate::changes::Change;
use crate::compare::{Answer, Comparison};
use crate::evidence::Evidence;
use std::alloc::{AllocError, Global};
use std::fmt;

/// At most so many bytes of a value are written.
const SHOWN_BYTES: usize = 256;

/// The bytes as digits, of many the first, and why they are no value of the new schema.
impl<'a> fmt::Display for Evidence<'a> {
    fn fmt<W: fmt::Write>(&self, f: &mut fmt::Formatter<W>) -> fmt::Result {
        let bytes = self.bytes.as_slice();
        let shown = bytes.len().min(SHOWN_BYTES);
        for byte in &bytes[..shown] {
            write!(f, "{byte:02x}")?;
        }
        if shown < bytes.len() {
            f.write_str("..")?;
        }
        let fault = &self.fault;
        write!(
            f,
            " is a value of the old schema and no value of the new one: {fault}"
        )
    }
}

// A word, and the first of the changes.
fn headed(alloc: Global, word: &str, changes: &[Change<'_>]) -> Result<String, AllocError> {
    match changes.first() {
        Some(change) => format!(in alloc; "{word}: {change}"),
        None => String::from_str(alloc, word),
    }
}

/// The answer and the changes as lines, without their ends. Names are as the schemas have them: escape these before they go to a
/// terminal. The only error is that an allocation failed. Left open: the lines: tested.
///
/// ```
/// for line in &comparison_lines(alloc, &compared)? {
///     println!(rt; "{line}")?;
/// }
/// ```
pub fn comparison_lines(
    alloc: Global,
    compared: &Comparison<'_>,
) -> Result<Vec<String>, AllocError> {
    let mut lines: Vec<String> = Vec::new(alloc);
    let changes = compared.changes.as_slice();
    // How many changes the answer's own line has.
    let mut told = 0;
    let json = if compared.has_same_json {
        ", with the same JSON"
    } else {
        ""
    };
    match &compared.answer {
        Answer::Same => {
            let same = "the same: the two schemas have the same values";
            lines.push(format!(in alloc; "{same}{json}")?)?;
        }
        Answer::Compatible => {
            let compatible = "compatible: every value of the old schema is a value of the new one";
            lines.push(format!(in alloc; "{compatible}{json}")?)?;
        }
        Answer::Incompatible(evidence) => {
            lines.push(headed(alloc, "incompatible", changes)?)?;
            lines.push(format!(in alloc; "  {evidence}")?)?;
            told = 1;
        }
        Answer::NotKnown => {
            lines.push(headed(alloc, "not known", changes)?)?;
            told = 1;
        }
    }
    for change in changes.get(told..).unwrap_or(&[]) {
        lines.push(format!(in alloc; "  {change}")?)?;
    }
    Ok(lines)
}
