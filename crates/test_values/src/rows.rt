// The kinds of rows.
use super::compared::{judge_changed, judge_compared};
use super::definitions::{Definitions, column, define};
use super::judge::Root;
use super::pieces::{bytes_of, text_of};
use super::types::{judge_random, judge_type};
use super::wrong::{Wrong, expect};
use borsh_values::find_ambiguous;
use std::alloc::Global;

/// Adds the definition of a row, or checks what it says. The columns are, beside those of [`define`]:
///
/// - `value` ROOT HEX JSON..: a value and its JSON, both ways; or after `! ` why the bytes are none, by each call
/// - `refused` ROOT HEX REFUSAL..: a value by the definitions without JSON, as one that the type refuses
/// - `quoted` ROOT HEX JSON..: a value and its JSON with numbers of 64 bits as texts
/// - `member` ROOT HEX: a value, whose JSON isn't looked at
/// - `records` ROOT HEX ANSWER..: where values one after another begin, with `+` behind each, and `end` or why they don't end
/// - `text` ROOT HEX JSON..: another JSON text of a value; or after `! ` why the text is none
/// - `nodes` ROOT HEX NODE..: the nodes of a value
/// - `ambiguous` ROOT NAME: which definition is ambiguous, `-` for none
/// - `compare` ROOT NEW ANSWER..: the answer to whether values of the root are values of another name, and what changed
/// - `changed` COUNT: so many random containers are compared with changed ones
/// - `random` COUNT ROOT..: random values come back from their JSON
/// - `type` WORD [untold]: the definitions of the type of a word of `borsh_check` or of this name, in place of those before, and
///   random values; with `untold` where names don't tell the order of its keys
pub fn judge_row(alloc: Global, map: &mut Definitions, row: &str) -> Result<(), Wrong> {
    let columns: Vec<&str> = row.split('\t').collect(alloc)?;
    let kind = column(columns.as_slice(), 0)?;
    let name = column(columns.as_slice(), 1)?;
    let columns = columns.as_slice().get(2..).unwrap_or(&[]);
    if define(alloc, map, kind, name, columns)? {
        return Ok(());
    }
    match kind {
        "type" => *map = judge_type(alloc, name, columns)?,
        "changed" => judge_changed(alloc, name.parse::<u64>()?)?,
        "random" => {
            let count = name.parse::<u64>()?;
            for &name in columns {
                judge_random(&Root { alloc, map, name }, count)?;
            }
        }
        _ => judge_root(&Root { alloc, map, name }, kind, columns)?,
    }
    Ok(())
}

fn judge_root(root: &Root<'_>, kind: &str, columns: &[&str]) -> Result<(), Wrong> {
    let alloc = root.alloc;
    let first = column(columns, 0)?;
    let others = columns.get(1..).unwrap_or(&[]);
    let text = text_of(alloc, others)?;
    let text = text.as_str();
    match kind {
        "text" => return root.judge_text(text, first),
        "ambiguous" => {
            let found = find_ambiguous(alloc, root.name, root.map)?.unwrap_or("-");
            return expect(alloc, "find_ambiguous", found, first);
        }
        "compare" => {
            let new = Root {
                name: first,
                ..*root
            };
            return judge_compared(root, &new, text);
        }
        _ => {}
    }
    let bytes = bytes_of(alloc, first)?;
    let bytes = bytes.as_slice();
    match kind {
        "value" => root.judge(bytes, text),
        "refused" => root.judge_written(bytes, text),
        "quoted" => root.judge_quoted(bytes, text),
        "member" => root.judge_member(bytes),
        "records" => root.judge_records(bytes, text),
        "nodes" => root.judge_nodes(bytes, others),
        _ => Err(Wrong::NoRow),
    }
}
