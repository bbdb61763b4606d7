//! Reads a map of balances from standard input, prints it, adds an entry, and prints the new encoding.
#![tactic(auto)]

mod signing;

use borsh::io::StdReader;
use borsh::{from_reader, to_vec};
use signing::{bytes_to_sign, signed_list, signed_value};
use std::collections::BTreeMap;

/// How often standard input may be interrupted before that counts as an error.
const INTERRUPTIONS: u32 = 1000;

fn main(rt: HostRuntime) -> Result<(), anyhow::Error> {
    let alloc = rt.alloc();

    // Decode: the entries must be in ascending order, and nothing may follow them.
    let mut input = StdReader::new(rt.stdin(), INTERRUPTIONS);
    let mut balances: BTreeMap<String, u64> = from_reader(alloc, &mut input)?;
    for (name, balance) in balances.iter() {
        println!(rt; "{name} has {balance}")?;
    }

    // Encode: there is one encoding, whatever the order in which the entries came.
    balances.insert(String::from_str(alloc, "carol")?, 7)?;
    let bytes = to_vec(alloc, &balances)?;
    println!(rt; "{}", hex::encode(alloc, bytes.as_slice())?)?;

    // Round trip.
    let signed = bytes_to_sign(alloc, &balances)?;
    let again: BTreeMap<String, u64> = signed_value(alloc, signed.as_slice())?;
    println!(rt; "decoded {} entries", again.len())?;

    // A list, which can't have more elements than bytes.
    let flags: Vec<bool> = signed_list(alloc, b"\x02\0\0\0\x01\0".as_slice())?;
    println!(rt; "decoded {} flags", flags.len())?;

    signing::show(&rt)
}
