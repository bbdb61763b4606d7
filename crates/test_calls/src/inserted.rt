// Maps and sets that are filled in any order, under any hasher: they are written by ascending key, or in the order of insertion.
use super::support::{check, check_value, check_written};
use borsh::to_vec;
use indexmap::{IndexMap, IndexSet};
use std::collections::HashMap;
use std::hash::{BuildHasher, RandomState};
use std::test::Fail;

#[test]
fn index_maps_and_sets_keep_the_order_of_insertion(rt: HostRuntime) -> Result<(), Fail> {
    let alloc = rt.alloc();
    let mut map = IndexMap::new(alloc);
    let mut set = IndexSet::new(alloc);
    for (key, value) in [(5u8, 2u8), (1, 4), (3, 6)] {
        map.insert(key, value)?;
        set.insert(key)?;
    }
    let bytes = b"\x03\0\0\0\x05\x02\x01\x04\x03\x06";
    check_value(alloc, "map", map, bytes)?;
    check_value(alloc, "set", set, b"\x03\0\0\0\x05\x01\x03")
}

/// Fills the map with the numbers below a hundred, from the first on by steps.
fn filled<S: BuildHasher + Drop>(
    mut map: HashMap<u8, u8, S>,
    first: u8,
    step: u8,
) -> Result<HashMap<u8, u8, S>, Fail> {
    let mut n = first;
    for _ in 0..100u8 {
        map.insert(n, n.wrapping_mul(3))?;
        n = n.wrapping_add(step) % 100;
    }
    Ok(map)
}

#[test]
fn a_hashed_map_has_the_bytes_of_its_entries(rt: HostRuntime) -> Result<(), Fail> {
    let alloc = rt.alloc();
    let ascending = filled(HashMap::new(alloc), 0, 1)?;
    let bytes = to_vec(alloc, &ascending)?;
    let other = filled(HashMap::with_hasher(alloc, RandomState::new(&rt)?), 99, 37)?;
    check_written(alloc, "random hasher", &other, bytes.as_slice())?;
    let front = b"\x64\0\0\0\0\0\x01\x03\x02\x06";
    let is_ascending = bytes.as_slice().starts_with(front) && bytes.len() == 204;
    check(is_ascending, "ascending keys", bytes.len())
}
