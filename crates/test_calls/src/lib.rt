//! What no row of `test_rows` can say: values that no bytes make, readers and writers of other kinds, errors, containers in
//! memory, and how much memory a call asks for.
#![tactic(auto)]

#[cfg(test)]
mod adapters;
#[cfg(test)]
mod byte_lists;
#[cfg(test)]
mod constructed;
#[cfg(test)]
mod containers;
#[cfg(test)]
mod dropped;
#[cfg(test)]
mod errors;
#[cfg(test)]
mod floats;
#[cfg(test)]
mod generated;
#[cfg(test)]
mod hints;
#[cfg(test)]
mod inserted;
#[cfg(test)]
mod keys;
#[cfg(test)]
mod members;
#[cfg(test)]
mod runs;
#[cfg(test)]
mod schemas_refused;
#[cfg(test)]
mod sent;
#[cfg(test)]
mod shapes;
#[cfg(test)]
mod slices;
#[cfg(test)]
mod support;
#[cfg(test)]
mod sweeps;
#[cfg(test)]
mod tagged;
#[cfg(test)]
mod unwritten;
#[cfg(test)]
mod without_memory;
