//! Judges values by definitions alone, and their JSON: the rows of `data/`, whose columns are separated by tabs.
//!
//! Definitions hold to the end of their file.
#![tactic(auto)]

mod compared;
mod definitions;
mod generated;
mod judge;
mod pieces;
mod random;
mod rows;
mod types;
mod wrong;

use definitions::Definitions;
use rows::judge_row;
use std::collections::BTreeMap;
use std::{fs, io};
use test_devices::{Section, sections_of};

/// The files of `data/`.
const FILES: [&str; 7] = [
    "json.tsv",
    "formats.tsv",
    "names.tsv",
    "members.tsv",
    "nodes.tsv",
    "types.tsv",
    "compared.tsv",
];

/// Prints the rows that aren't as they say, with why, and how many there are and are as they say.
fn judge_section(
    rt: &(impl Print + AllocGlobal),
    section: &Section<'_>,
    map: &mut Definitions,
) -> io::Result<()> {
    let mut right = 0usize;
    for &row in section.rows.iter() {
        match judge_row(rt.alloc(), map, row) {
            Ok(()) => right = right.saturating_add(1),
            Err(wrong) => rt.println(format_args!("{row}\n    {wrong:?}"))?,
        }
    }
    let (name, rows) = (section.name, section.rows.len());
    rt.println(format_args!("  {name}: {right} of {rows}"))
}

fn main(rt: HostRuntime) -> io::Result<()> {
    for file in FILES {
        let text = fs::read_to_string(&rt, file)?;
        println!(rt; "{file}")?;
        let mut map = BTreeMap::new(rt.alloc());
        for section in sections_of(rt.alloc(), text.as_str())?.iter() {
            judge_section(&rt, section, &mut map)?;
        }
    }
    Ok(())
}
