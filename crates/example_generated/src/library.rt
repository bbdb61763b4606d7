// Types of the library as fields.
use bytes::{Bytes, BytesMut};
use indexmap::{IndexMap, IndexSet};
use std::borrow::{Cow, CowStr};
use std::boxed::{BoxedSlice, BoxedStr};
use std::collections::{BTreeSet, HashSet, LinkedList, VecDeque};
use std::net::{IpAddr, Ipv4Addr, Ipv6Addr, SocketAddr, SocketAddrV4, SocketAddrV6};
use std::num::{NonZeroI64, NonZeroU8, NonZeroU128, NonZeroUsize};
use std::ops::{Range, RangeFrom, RangeFull, RangeInclusive, RangeTo, RangeToInclusive};
use std::rc::{Rc, RcSlice, RcStr};
use std::sync::ArcStr;
use uuid::Uuid;

/// Numbers, addresses without ports, lists and sets, values on the heap, whose schema is that of what they hold, ranges, which are
/// their ends, and tuples.
// derive: borsh, schema
#[derive(Drop)]
pub struct Library {
    pub ints: (i8, i16, u128, i128, isize),
    pub some: (NonZeroU8, NonZeroI64, NonZeroU128, NonZeroUsize),
    pub at: (Ipv4Addr, Ipv6Addr, IpAddr),
    pub all: (
        VecDeque<u16>,
        LinkedList<u8>,
        BTreeSet<String>,
        HashSet<u32>,
    ),
    pub heap: (
        BoxedSlice<u16>,
        Box<u64>,
        BoxedStr,
        Rc<u32>,
        RcStr,
        RcSlice<u16>,
    ),
    pub ends: (
        Range<u8>,
        RangeInclusive<u8>,
        RangeFrom<u16>,
        RangeTo<u8>,
        RangeToInclusive<u8>,
    ),
    pub full: RangeFull,
    pub one: (u8,),
}

/// Types without a schema: those of other libraries, and addresses with ports.
// derive: borsh
#[derive(Drop)]
pub struct Others {
    pub ages: IndexMap<String, u8>,
    pub seen: IndexSet<u16>,
    pub raw: Bytes,
    pub more: BytesMut,
    pub id: Uuid,
    pub old: SocketAddrV4,
    pub new: SocketAddrV6,
    pub any: SocketAddr,
}

/// A float, a shared text, and what may be borrowed, which is decoded as owned.
// derive: borsh
#[derive(Drop)]
pub struct Offer<'a> {
    pub price: f64,
    pub name: ArcStr,
    pub text: CowStr<'a>,
    pub marks: Vec<Cow<'a, u16>>,
}
