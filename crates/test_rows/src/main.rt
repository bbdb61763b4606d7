//! Judges the rows of the suite: encodings, what is refused, schemas, containers, and lines of the program.
//!
//! The rows stand in the files of `data/`. With the argument `--refuse`, over the heap of `tools/heap.c`, each request for memory is
//! refused in turn too, and each block of memory is freed once.
#![tactic(auto)]

mod judge;
mod names;
mod row;

use judge::judge;
use std::alloc::Global;
use std::{env, fs, io};
use test_devices::fault::check;
use test_devices::heap::{are_other_blocks, note_blocks};
use test_devices::{CALLS, Checks, Fault, Heap, Section, sections_of};

/// The files of `data/`.
const FILES: &[&str] = &[
    "numbers.tsv",
    "sums.tsv",
    "lists.tsv",
    "keys.tsv",
    "addresses.tsv",
    "types.tsv",
    "refusals.tsv",
    "announced.tsv",
    "old.tsv",
    "long.tsv",
    "generated.tsv",
    "schemas.tsv",
    "containers.tsv",
    "walks.tsv",
    "lines.tsv",
    "replay.tsv",
];

/// Judges a row, which frees each block of memory once.
fn judge_row(alloc: Global, heap: Heap, row: &str, checks: &mut Checks) -> Result<(), Fault> {
    note_blocks(alloc);
    *checks = judge(alloc, heap, row, *checks)?;
    check(!are_other_blocks(alloc), "blocks of memory", 0)
}

/// Prints the rows that aren't as they say, with why, and how many there are and are as they say.
fn judge_section(
    rt: &(impl Print + AllocGlobal),
    heap: Heap,
    section: &Section<'_>,
    checks: &mut Checks,
) -> io::Result<()> {
    let mut right = 0usize;
    for &row in section.rows.iter() {
        match judge_row(rt.alloc(), heap, row, checks) {
            Ok(()) => right = right.saturating_add(1),
            Err(fault) => rt.println(format_args!("{row}\n    {fault:?}"))?,
        }
    }
    let (name, rows) = (section.name, section.rows.len());
    rt.println(format_args!("  {name}: {right} of {rows}"))
}

fn main(rt: HostRuntime) -> io::Result<()> {
    let heap = if env::args(&rt)?.any(|word| word.as_str() == "--refuse") {
        Heap::TakesOrders
    } else {
        Heap::Ordinary
    };
    let mut checks = Checks::NONE;
    for &file in FILES {
        let text = fs::read_to_string(&rt, file)?;
        println!(rt; "{file}")?;
        for section in sections_of(rt.alloc(), text.as_str())?.iter() {
            judge_section(&rt, heap, section, &mut checks)?;
        }
    }
    println!(rt; "{checks}")?;
    if heap == Heap::Ordinary {
        return Ok(());
    }
    for (how, count) in CALLS.iter().zip(checks.refused_requests.iter()) {
        println!(rt; "{how:?}: {count} requests refused")?;
    }
    let lines = checks.refused_in_lines;
    println!(rt; "lines: {lines} requests refused")?;
    let schemas = checks.refused_in_schemas;
    println!(rt; "Schema: {schemas} requests refused")
}
