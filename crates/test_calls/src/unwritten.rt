// Values without an encoding: none of them is written, and what a writer has stays as it was.
use super::support::{check, is_invalid, is_kind_alone};
use super::sweeps::{Round, asks_for_none, is_out_of_memory, sweep};
use borsh::error::ERROR_ZST_FORBIDDEN;
use borsh::io::{ErrorKind, Result as IoResult};
use borsh::{BorshSerialize, object_length, to_vec, to_writer};
use borsh_samples::{MyEnum, OneOrZero};
use std::alloc::Global;
use std::boxed::BoxedSlice;
use std::collections::{BTreeMap, BTreeSet, HashMap, HashSet, LinkedList, VecDeque};
use std::test::Fail;

/// The round of a call that refuses the value with this text, or returns an allocation failure.
pub(crate) fn judge_refused<T: Drop>(made: IoResult<T>, refused: bool, text: &str) -> Round {
    let right = is_invalid(&made, text) || refused && is_out_of_memory(&made);
    Round { refused, right }
}

/// The value is refused with this text by `to_vec`, each request for memory refused in turn.
pub(crate) fn is_no_vector<T: BorshSerialize>(
    rt: HostRuntime,
    name: &str,
    value: &T,
    text: &str,
) -> Result<(), Fail> {
    let alloc = rt.alloc();
    sweep(rt, "to_vec of a refused value", name, |refusal| {
        refusal.begin(alloc);
        let made = to_vec(alloc, value);
        let refused = refusal.end(alloc);
        Ok(judge_refused(made, refused, text))
    })
}

/// The same of `to_writer` and `object_length`, which need no memory to refuse it: a vector keeps what it has, and gets nothing.
pub(crate) fn is_never_written<T: BorshSerialize>(
    rt: HostRuntime,
    name: &str,
    value: &T,
    text: &str,
) -> Result<(), Fail> {
    let alloc = rt.alloc();
    is_no_vector(rt, name, value, text)?;
    let mut out = Vec::from_slice(alloc, b"front")?;
    asks_for_none(alloc, name, || {
        let done = to_writer(alloc, &mut out, value);
        let length = object_length(alloc, value);
        let is_kept = out.as_slice() == b"front".as_slice();
        is_kept && is_invalid(&done, text) && is_invalid(&length, text)
    })
}

/// The same of a list, a set or a map of elements without bytes.
fn is_empty_refused<T: BorshSerialize>(rt: HostRuntime, name: &str, value: &T) -> Result<(), Fail> {
    is_never_written(rt, name, value, ERROR_ZST_FORBIDDEN)
}

fn lists(rt: HostRuntime, len: usize) -> Result<(), Fail> {
    let alloc = rt.alloc();
    let units: Vec<()> = vec![in alloc; (); len]?;
    is_empty_refused(rt, "Vec<()>", &units)?;
    let slice: BoxedSlice<()> = units.into_boxed_slice();
    is_empty_refused(rt, "BoxedSlice<()>", &slice)?;
    let mut ring = VecDeque::new(alloc);
    let mut linked = LinkedList::new(alloc);
    for _ in 0..len {
        ring.push_back(())?;
        linked.push_back(())?;
    }
    is_empty_refused(rt, "VecDeque<()>", &ring)?;
    is_empty_refused(rt, "LinkedList<()>", &linked)
}

/// A list of one list: the outer one isn't empty, and the inner one is refused also where it has no elements.
fn list_of_a_list(rt: HostRuntime, len: usize) -> Result<(), Fail> {
    let mut lists: Vec<Vec<()>> = Vec::new(rt.alloc());
    lists.push(vec![in rt.alloc(); (); len]?)?;
    is_no_vector(rt, "Vec<Vec<()>>", &lists, ERROR_ZST_FORBIDDEN)
}

fn sets_and_maps(rt: HostRuntime, len: usize) -> Result<(), Fail> {
    let alloc = rt.alloc();
    let mut ordered_set = BTreeSet::new(alloc);
    let mut hashed_set = HashSet::new(alloc);
    let mut ordered = BTreeMap::new(alloc);
    let mut hashed = HashMap::new(alloc);
    for _ in 0..len {
        ordered_set.insert(())?;
        hashed_set.insert(())?;
        ordered.insert((), 42u64)?;
        hashed.insert((), 42u64)?;
    }
    is_empty_refused(rt, "BTreeSet<()>", &ordered_set)?;
    is_empty_refused(rt, "HashSet<()>", &hashed_set)?;
    is_empty_refused(rt, "BTreeMap<(), u64>", &ordered)?;
    is_empty_refused(rt, "HashMap<(), u64>", &hashed)
}

#[test]
fn elements_without_bytes_are_refused(rt: HostRuntime) -> Result<(), Fail> {
    for len in [0usize, 1, 3] {
        lists(rt, len)?;
        list_of_a_list(rt, len)?;
        sets_and_maps(rt, len)?;
    }
    Ok(())
}

#[test]
fn a_variant_without_an_encoding_is_refused(rt: HostRuntime) -> Result<(), Fail> {
    let many = OneOrZero(MyEnum::Many(Vec::from_slice(rt.alloc(), &[1u8])?));
    is_never_written(rt, "OneOrZero", &many, "MyEnum::Many not allowed here")
}

#[test]
fn more_elements_than_a_count_can_say_are_refused(rt: HostRuntime) -> Result<(), Fail> {
    let alloc = rt.alloc();
    let units = [(); 4294967296];
    let units = units.as_slice();
    let mut out = Vec::from_slice(alloc, b"front")?;
    let is_refused = is_kind_alone(&to_writer(alloc, &mut out, &units), ErrorKind::InvalidData)
        && is_kind_alone(&object_length(alloc, &units), ErrorKind::InvalidData);
    let is_kept = out.as_slice() == b"front".as_slice();
    check(is_refused && is_kept, "units", units.len())
}
