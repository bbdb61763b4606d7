//! Encodes and decodes a value of types of one's own, which are marked in `example_generated`, prints its schema, and says why
//! bytes are refused.
#![tactic(auto)]

use borsh::schema::BorshSchema;
use borsh::{from_slice, schema_container_of, to_vec};
use borsh_json::check_strict;
use example_generated::readme::{Pair, Request, Stock};
use std::collections::BTreeMap;

fn main(rt: HostRuntime) -> Result<(), anyhow::Error> {
    let alloc = rt.alloc();

    let mut pieces = BTreeMap::new(alloc);
    pieces.insert(String::from_str(alloc, "cup")?, 12u32)?;
    let first = Stock { pieces, note: None };
    let second = Request::Cancel { number: 7 };
    let bytes = to_vec(alloc, &Pair { first, second })?;
    println!(rt; "{}", hex::encode(alloc, bytes.as_slice())?)?;

    let again: Pair<Stock, Request> = from_slice(alloc, bytes.as_slice())?;
    for (name, count) in again.first.pieces.iter() {
        println!(rt; "{name}: {count}")?;
    }

    // The schema of the type, and the rules that every schema has to keep.
    let container = schema_container_of::<Pair<Stock, Request>>(alloc)?;
    container.validate(alloc)?;
    println!(rt; "{} is made of", container.declaration())?;
    for (name, _definition) in container.definitions() {
        println!(rt; "  {name}")?;
    }

    // Two refused stocks: a note that is cut short, and pieces whose names descend.
    show_fault::<Stock>(&rt, b"\0\0\0\0\x01\x03\0\0\0cu".as_slice())?;
    show_fault::<Stock>(
        &rt,
        b"\x02\0\0\0\x01\0\0\0b\x07\0\0\0\x01\0\0\0a\x07\0\0\0\0".as_slice(),
    )
}

/// Prints why bytes that `from_slice` refuses are no value of the type: where they are no member of its container, or else
/// which part its type refuses. Nothing where only the type knows, as of keys of a struct of one's own.
fn show_fault<T: BorshSchema>(
    rt: &(impl Print + AllocGlobal),
    bytes: &[u8],
) -> Result<(), anyhow::Error> {
    let container = schema_container_of::<T>(rt.alloc())?;
    let root = container.declaration().as_str();
    if let Err(fault) = check_strict(rt.alloc(), root, container.as_map(), bytes) {
        println!(rt; "{fault}")?;
    }
    Ok(())
}
