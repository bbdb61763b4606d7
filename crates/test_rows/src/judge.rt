// Judges a row.
use super::names::Named;
use super::row::{bytes_of, first_of, is_answer};
use borsh_check_lines::answer;
use std::alloc::Global;
use std::str;
use test_devices::fault::{Fault, Result, check};
use test_devices::heap::Refusal;
use test_devices::{AnyOrder, Call, Checks, Heap, How, Memory, Subject};

type Judge<'a> = test_devices::Judge<'a, Named<'a>>;

/// Checks what a row says, and returns how many checks were made till then. Its columns are
///
/// - `read` TYPE HEX, and `ok HEX`, the encoding of the value, or `error TEXT`; then for which calls the type needs no memory,
///   `free` or `free to encode`, or how much a refusal may ask for, `at most N`
/// - `canon` TYPE HEX, and `ok HEX` or `error TEXT`: the same where keys may come in any order; then the answer where they have
///   to ascend, if it is another one: `error TEXT`
/// - `schema` TYPE, and the greatest size, `-` for none, a space, and the encoding of the container
/// - `check` HEX, `size` HEX, `counts` HEX: a question about a container, and the answers that are right
/// - `line` LINE: a line of the program `borsh_check`, and the answers that are right
pub fn judge(alloc: Global, heap: Heap, row: &str, checks: Checks) -> Result<Checks> {
    let (kind, columns) = first_of(row)?;
    let (first, columns) = first_of(columns)?;
    let named = Named { name: first };
    let mut judge = Judge {
        alloc,
        heap,
        subject: &named,
        checks,
    };
    match kind {
        "read" => {
            let (digits, columns) = first_of(columns)?;
            let (answer, memory) = columns.split_once('\t').unwrap_or((columns, ""));
            judge_read(&mut judge, digits, answer, memory)?;
        }
        "canon" => {
            let (digits, columns) = first_of(columns)?;
            let (answer, strict) = columns.split_once('\t').unwrap_or((columns, columns));
            judge_canon(&mut judge, digits, answer, strict)?;
        }
        "schema" => judge_schema(&mut judge, columns)?,
        "line" => judge_line(&mut judge, first, columns)?,
        "check" | "size" | "counts" => {
            let bytes = bytes_of(alloc, first)?;
            let line = if bytes.is_empty() {
                format!(in alloc; "{kind} -")?
            } else {
                let digits = hex::encode(alloc, bytes.as_slice())?;
                format!(in alloc; "{kind} {digits}")?
            };
            judge_line(&mut judge, line.as_str(), columns)?;
        }
        _ => return Err(Fault::NoRow),
    }
    Ok(judge.checks)
}

fn judge_read(judge: &mut Judge<'_>, digits: &str, answer: &str, memory: &str) -> Result<()> {
    let bytes = bytes_of(judge.alloc, digits)?;
    let bytes = bytes.as_slice();
    match answer.split_once(' ') {
        Some(("ok", again)) => {
            let encoding = bytes_of(judge.alloc, again)?;
            judge.judge_value(bytes, encoding.as_slice(), memory_of(memory)?)
        }
        Some(("error", text)) => judge.judge_refused(bytes, text, most_of(memory)?),
        _ => Err(Fault::NoRow),
    }
}

fn memory_of(column: &str) -> Result<Memory> {
    match column {
        "" => Ok(Memory::Taken),
        "free to encode" => Ok(Memory::FreeToEncode),
        "free" => Ok(Memory::Free),
        _ => Err(Fault::NoRow),
    }
}

/// How many bytes a request for memory may be for, if that is said.
fn most_of(column: &str) -> Result<Option<u32>> {
    if column.is_empty() {
        return Ok(None);
    }
    let number = column.strip_prefix("at most ").ok_or(Fault::NoRow)?;
    Ok(Some(number.parse::<u32>().ok().ok_or(Fault::NoRow)?))
}

fn judge_canon(judge: &mut Judge<'_>, digits: &str, answer: &str, strict: &str) -> Result<()> {
    if answer == strict {
        return judge_read(judge, digits, answer, "");
    }
    let bytes = bytes_of(judge.alloc, digits)?;
    let bytes = bytes.as_slice();
    let text = strict.strip_prefix("error ").ok_or(Fault::NoRow)?;
    match answer.split_once(' ') {
        Some(("ok", again)) => {
            let encoding = bytes_of(judge.alloc, again)?;
            judge.judge_unordered(bytes, AnyOrder::Value(encoding.as_slice()), text)
        }
        Some(("error", other)) => judge.judge_unordered(bytes, AnyOrder::Refused(other), text),
        _ => Err(Fault::NoRow),
    }
}

/// Checks the container and the greatest size of a type; over a heap that takes orders, that with each request for memory refused,
/// alone or with all later ones, they are answered so or not at all.
fn judge_schema(judge: &mut Judge<'_>, answer: &str) -> Result<()> {
    let (size, digits) = answer.split_once(' ').ok_or(Fault::NoRow)?;
    let container = bytes_of(judge.alloc, digits)?;
    let container = container.as_slice();
    check_schema(judge, Refusal::None, size, container)?;
    if judge.heap == Heap::Ordinary {
        return Ok(());
    }
    for n in 1..MOST {
        let all = check_schema(judge, Refusal::Rest(n), size, container)?;
        let one = check_schema(judge, Refusal::One(n), size, container)?;
        if !all && !one {
            break;
        }
        judge.checks.refused_in_schemas = judge.checks.refused_in_schemas.saturating_add(2);
    }
    Ok(())
}

/// Whether a request was refused.
fn check_schema(judge: &Judge<'_>, refusal: Refusal, size: &str, container: &[u8]) -> Result<bool> {
    let call = Call {
        refusal,
        ..Call::new(How::Schema, b"")
    };
    let report = judge.subject.call(judge.alloc, &call)?;
    let is_size = match report.count {
        Some(count) => size.parse::<usize>() == Ok(count),
        None => size == "-" || report.was_refused,
    };
    check(is_size, "greatest size", report.count.unwrap_or(0))?;
    let bytes = report.bytes.as_slice();
    let is_container = bytes == container || bytes.is_empty() && report.was_refused;
    check(is_container, "container", bytes.len())?;
    Ok(report.was_refused)
}

/// More requests than any line makes.
const MOST: u32 = 100000;

/// Checks that the line is answered so; over a heap that takes orders, that with each request for memory and all later ones
/// refused it is answered so or not at all.
fn judge_line(judge: &mut Judge<'_>, line: &str, answers: &str) -> Result<()> {
    let alloc = judge.alloc;
    let answered = answer(alloc, line.as_bytes()).ok();
    check(is_right(&answered, false, answers), "answer", 0)?;
    if judge.heap == Heap::Ordinary {
        return Ok(());
    }
    for n in 1..MOST {
        let refusal = Refusal::Rest(n);
        refusal.begin(alloc);
        let answered = answer(alloc, line.as_bytes()).ok();
        let was_refused = refusal.end(alloc);
        let holds = is_right(&answered, was_refused, answers);
        check(holds, "answer", n as usize)?;
        if !was_refused {
            break;
        }
        judge.checks.refused_in_lines = judge.checks.refused_in_lines.saturating_add(1);
    }
    Ok(())
}

fn is_right(answered: &Option<Vec<u8>>, was_refused: bool, answers: &str) -> bool {
    match answered {
        Some(bytes) => match str::from_utf8(bytes.as_slice()) {
            Ok(text) => is_answer(answers, text),
            Err(_) => false,
        },
        None => was_refused,
    }
}
