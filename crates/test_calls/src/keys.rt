// Maps whose keys are of every kind that the library has, and generated: the laws of all of them are found. Nothing is run.
ghost use Rattle.borsh.specs.Laws.OfParts.{contramap, contramap-lawful, from, key_facts};

use borsh::BorshType;
use bytes::{Bytes, BytesMut};
use example_generated::keys::Place;
use indexmap::{IndexMap, IndexSet};
use std::borrow::{CowSlice, CowStr};
use std::boxed::{BoxedSlice, BoxedStr};
use std::collections::{BTreeMap, BTreeSet, HashMap, HashSet, LinkedList, VecDeque};
use std::marker::PhantomData;
use std::net::{IpAddr, Ipv4Addr, Ipv6Addr, SocketAddrV4};
use std::num::{
    NonZeroI8, NonZeroI16, NonZeroI32, NonZeroI64, NonZeroI128, NonZeroU8, NonZeroU16, NonZeroU32,
    NonZeroU64, NonZeroU128, NonZeroUsize,
};
use std::ops::{Range, RangeFrom, RangeFull, RangeTo, RangeToInclusive};
use std::rc::{Rc, RcSlice, RcStr};
use uuid::Uuid;

// Sets whose keys are tuples, so that each part has to be a key: parts of every kind, and tuples of every length.
type Unsigned = BTreeSet<(u8, u16, u32, u64, u128, usize)>;

type Signed = BTreeSet<(i8, i16, i32, i64, i128, isize)>;

type NonZeroUnsigned = (NonZeroU8, NonZeroU16, NonZeroU32, NonZeroU64, NonZeroU128);

type NonZeroSigned = (NonZeroI8, NonZeroI16, NonZeroI32, NonZeroI64, NonZeroI128);

type NonZero = BTreeSet<(NonZeroUnsigned, NonZeroSigned, NonZeroUsize)>;

type Sums = BTreeSet<(bool, PhantomData<u8>, (), Option<u8>, Result<u8, String>)>;

type Octets = BTreeSet<(IpAddr, Ipv4Addr, Ipv6Addr, SocketAddrV4, Uuid)>;

type Texts = BTreeSet<(String, &'static str, BoxedStr, RcStr, CowStr<'static>)>;

type Pointers = BTreeSet<(Box<u8>, Rc<String>, &'static u8, &'static [u8])>;

type Lists = BTreeSet<([u8; 4], Vec<u8>, VecDeque<String>, LinkedList<u8>)>;

type Slices = BTreeSet<(BoxedSlice<u8>, RcSlice<u8>, CowSlice<'static, u8>)>;

type Others = BTreeSet<(Bytes, BytesMut, BTreeMap<u8, String>, BTreeSet<u8>)>;

type Places = BTreeMap<Place, BTreeMap<Vec<Place>, u8>>;

type Short = BTreeSet<((u8,), (u8, u8), (u8, u8, u8), (u8, u8, u8, u8, u8, u8, u8))>;

type Eight = BTreeSet<(u8, u8, u8, u8, u8, u8, u8, u8)>;

type Nine = BTreeSet<(u8, u8, u8, u8, u8, u8, u8, u8, u8)>;

type Ten = BTreeSet<(u8, u8, u8, u8, u8, u8, u8, u8, u8, u8)>;

type Eleven = BTreeSet<(u8, u8, u8, u8, u8, u8, u8, u8, u8, u8, u8)>;

type Twelve = BTreeSet<(u8, u8, u8, u8, u8, u8, u8, u8, u8, u8, u8, u8)>;

type Hashed = (
    HashSet<(u8, String, bool)>,
    HashMap<(u8, String), HashSet<Option<u8>>>,
);

// Keys of index maps need no order.
type Ranges = (RangeFrom<u8>, RangeTo<u8>, RangeToInclusive<u8>, RangeFull);

type Inserted = (IndexSet<Ranges>, IndexSet<Vec<String>>);

type Nested = IndexMap<Range<u8>, IndexMap<u8, u8>>;

type First = (
    Unsigned,
    Signed,
    NonZero,
    Sums,
    Octets,
    Texts,
    Pointers,
    Lists,
);

type Second = (Slices, Others, Places, Short, Hashed, Inserted, Nested);

type Third = (Eight, Nine, Ten, Eleven, Twelve);

/// A struct of all of them.
#[derive(Drop)]
pub struct Keys(pub (First, Second, Third));

impl BorshType for Keys {
    ghost codec = { contramap (λ v. v.0) ⟦<(First, Second, Third) as BorshType>⟧.codec };

    ghost lawful_if = { from (contramap-lawful (λ v. v.0)) ⟦<(First, Second, Third) as BorshType>⟧.lawful_if };

    ghost premises = { (
      Prim.search key_facts depth 60,
      (Prim.search key_facts depth 60, Prim.search key_facts depth 60),
    ) };

    fn encodes_empty() -> bool {
        false
    }

    fn element_size() -> usize {
        24
    }
}
