// Types with parameters.
use borsh::BorshKey;
use borsh_samples::B;
use std::collections::{BTreeMap, BTreeSet, HashMap, HashSet, LinkedList, VecDeque};
use std::hash::Hash;
use std::marker::PhantomData;
use std::rc::Rc;

/// A parameter within the types of the library, and one that isn't encoded: it isn't in the name of the schema either.
// derive: borsh, schema
#[derive(Drop)]
pub struct Held<T, M>
where
    T: Clone,
{
    pub rows: [Vec<T>; 2],
    pub map: BTreeMap<u32, Option<T>>,
    pub way: Result<Box<T>, VecDeque<T>>,
    pub pair: (LinkedList<T>, Rc<T>),
    pub mark: PhantomData<M>,
}

/// A parameter that is the key of maps and sets.
// derive: borsh, schema
#[derive(Drop)]
pub struct Hashed<K: BorshKey + Ord + Hash + Eq, V> {
    pub map: HashMap<K, V>,
    pub keys: HashSet<K>,
    pub set: BTreeSet<K>,
}

/// A parameter that is a length.
// derive: borsh
#[derive(Drop)]
pub struct Grid<const N: usize> {
    pub cells: [u8; N],
    pub turned: bool,
}

/// An enum with two parameters, which are within a list and a box.
// derive: borsh
#[derive(Drop)]
pub enum Boxed<W, G> {
    X { f: Vec<W> },
    Y(Box<G>),
}

/// Parameters in another type with parameters, one of them by itself there, so that type is by hand.
// derive: borsh
#[derive(Drop)]
pub struct Generic<T, F, G> {
    pub x: Vec<T>,
    pub y: String,
    pub b: B<F, G>,
    pub pd: PhantomData<T>,
    pub c: Result<T, G>,
    pub d: [u64; 5],
}
