// Keys of maps and elements of sets: types whose `==` says whether two values have one encoding.
ghost use Rattle.borsh_codec.proofs.Laws.AddressKeys.{ip_key};
ghost use Rattle.borsh_codec.proofs.Laws.Keys.{all_key, and_key, bare_key, first_key, last_key, next_key, option_key, pair_key, result_key};
ghost use Rattle.borsh_codec.proofs.Laws.OrderedKeys.{OrderedCodec, number_ordered, signed_ordered, bool_ordered, unit_ordered, text_ordered, ipv6_ordered, contramap_ordered, allocated_ordered, option_ordered, result_ordered, length_prefixed_ordered, list_ordered, array_ordered, pair_ordered, first_part, next_part, last_part, btree_map_ordered, btree_set_ordered};
ghost use Rattle.borsh_codec.specs.Maps.{KeyLaw};
ghost use Rattle.borsh_codec.specs.Shapes.{pair};
ghost use Rattle.borsh_codec.specs.Types.Addresses.{ip, socket_v4_view};
ghost use Rattle.std.specs.contracts.net.ip_addr.IpAddrOrd.TheImpl.Laws.{total-law as ip-total, matches_eq-law as ip-matches};
ghost use Rattle.std.proofs.Common.{refl};
ghost use Rattle.std.specs.Arc.{arc_slice_items, arc_str_bytes};
ghost use Rattle.std.specs.Box.{boxed_slice_items, boxed_str_bytes};
ghost use Rattle.std.specs.Cow.{cow_slice_items, cow_str_bytes, cow_value};
ghost use Rattle.std.specs.Int.NonZero.{non_zero_u8_get, non_zero_u16_get, non_zero_u32_get, non_zero_u64_get, non_zero_u128_get, non_zero_usize_get, non_zero_i8_get, non_zero_i16_get, non_zero_i32_get, non_zero_i64_get, non_zero_i128_get};
ghost use Rattle.std.specs.Net.Addr.{ipv4_octets};
ghost use Rattle.std.specs.Rc.{rc_slice_items, rc_str_bytes};
ghost use Rattle.std.specs.String.{string_bytes};

use super::types::BorshType;
use bytes::{Bytes, BytesMut};
use std::borrow::{Cow, CowSlice, CowStr};
use std::boxed::{BoxedSlice, BoxedStr};
use std::collections::{BTreeMap, BTreeSet, LinkedList, VecDeque};
use std::marker::PhantomData;
use std::net::{IpAddr, Ipv4Addr, Ipv6Addr, SocketAddrV4};
use std::num::{
    NonZeroI8, NonZeroI16, NonZeroI32, NonZeroI64, NonZeroI128, NonZeroU8, NonZeroU16, NonZeroU32,
    NonZeroU64, NonZeroU128, NonZeroUsize,
};
use std::ops::{Range, RangeFrom, RangeFull, RangeTo, RangeToInclusive};
use std::rc::{Rc, RcSlice, RcStr};
use std::sync::{Arc, ArcSlice, ArcStr};
use uuid::Uuid;

/// A type whose values can be keys of a map or elements of a set.
///
/// Two keys are equal exactly if they are equivalent for the codec, so exactly if they have one encoding. So no two keys
/// of a map have one encoding, and equal keys have one.
pub trait BorshKey: BorshType + Eq {
    ghost ordered: { OrderedCodec Self };

    ghost key: { KeyLaw Self.eq Self.codec };
}

impl BorshKey for u8 {
    ghost ordered = { number_ordered 1 };

    ghost key = { Self.ordered.key };
}

impl BorshKey for u16 {
    ghost ordered = { number_ordered 2 };

    ghost key = { Self.ordered.key };
}

impl BorshKey for u32 {
    ghost ordered = { number_ordered 4 };

    ghost key = { Self.ordered.key };
}

impl BorshKey for u64 {
    ghost ordered = { number_ordered 8 };

    ghost key = { Self.ordered.key };
}

impl BorshKey for u128 {
    ghost ordered = { number_ordered 16 };

    ghost key = { Self.ordered.key };
}

impl BorshKey for usize {
    ghost ordered = { number_ordered 8 };

    ghost key = { Self.ordered.key };
}

impl BorshKey for i8 {
    ghost ordered = { signed_ordered 1 };

    ghost key = { Self.ordered.key };
}

impl BorshKey for i16 {
    ghost ordered = { signed_ordered 2 };

    ghost key = { Self.ordered.key };
}

impl BorshKey for i32 {
    ghost ordered = { signed_ordered 4 };

    ghost key = { Self.ordered.key };
}

impl BorshKey for i64 {
    ghost ordered = { signed_ordered 8 };

    ghost key = { Self.ordered.key };
}

impl BorshKey for i128 {
    ghost ordered = { signed_ordered 16 };

    ghost key = { Self.ordered.key };
}

impl BorshKey for isize {
    ghost ordered = { signed_ordered 8 };

    ghost key = { Self.ordered.key };
}

impl BorshKey for NonZeroU8 {
    ghost ordered = { contramap_ordered non_zero_u8_get (number_ordered 1) };

    ghost key = { Self.ordered.key };
}

impl BorshKey for NonZeroU16 {
    ghost ordered = { contramap_ordered non_zero_u16_get (number_ordered 2) };

    ghost key = { Self.ordered.key };
}

impl BorshKey for NonZeroU32 {
    ghost ordered = { contramap_ordered non_zero_u32_get (number_ordered 4) };

    ghost key = { Self.ordered.key };
}

impl BorshKey for NonZeroU64 {
    ghost ordered = { contramap_ordered non_zero_u64_get (number_ordered 8) };

    ghost key = { Self.ordered.key };
}

impl BorshKey for NonZeroU128 {
    ghost ordered = { contramap_ordered non_zero_u128_get (number_ordered 16) };

    ghost key = { Self.ordered.key };
}

impl BorshKey for NonZeroUsize {
    ghost ordered = { contramap_ordered non_zero_usize_get (number_ordered 8) };

    ghost key = { Self.ordered.key };
}

impl BorshKey for NonZeroI8 {
    ghost ordered = { contramap_ordered non_zero_i8_get (signed_ordered 1) };

    ghost key = { Self.ordered.key };
}

impl BorshKey for NonZeroI16 {
    ghost ordered = { contramap_ordered non_zero_i16_get (signed_ordered 2) };

    ghost key = { Self.ordered.key };
}

impl BorshKey for NonZeroI32 {
    ghost ordered = { contramap_ordered non_zero_i32_get (signed_ordered 4) };

    ghost key = { Self.ordered.key };
}

impl BorshKey for NonZeroI64 {
    ghost ordered = { contramap_ordered non_zero_i64_get (signed_ordered 8) };

    ghost key = { Self.ordered.key };
}

impl BorshKey for NonZeroI128 {
    ghost ordered = { contramap_ordered non_zero_i128_get (signed_ordered 16) };

    ghost key = { Self.ordered.key };
}

impl BorshKey for bool {
    ghost ordered = { bool_ordered };

    ghost key = { Self.ordered.key };
}

impl BorshKey for () {
    ghost ordered = { unit_ordered };

    ghost key = { Self.ordered.key };
}

impl<T> BorshKey for PhantomData<T> {
    ghost ordered = { contramap_ordered (λ _. tt) unit_ordered };

    ghost key = { Self.ordered.key };
}

impl<T: BorshKey> BorshKey for Option<T> {
    ghost ordered = { option_ordered T.ordered };

    ghost key = { option_key T.codec T.key };
}

impl<T: BorshKey, E: BorshKey> BorshKey for Result<T, E> {
    ghost ordered = { result_ordered T.ordered E.ordered };

    ghost key = { result_key T.codec E.codec T.key E.key };
}

impl BorshKey for String {
    ghost ordered = { contramap_ordered string_bytes text_ordered };

    ghost key = { Self.ordered.key };
}

impl BorshKey for &str {
    ghost ordered = { contramap_ordered (λ r. r.now) text_ordered };

    ghost key = { Self.ordered.key };
}

impl BorshKey for BoxedStr {
    ghost ordered = { contramap_ordered boxed_str_bytes text_ordered };

    ghost key = { Self.ordered.key };
}

impl BorshKey for RcStr {
    ghost ordered = { contramap_ordered rc_str_bytes text_ordered };

    ghost key = { Self.ordered.key };
}

impl BorshKey for ArcStr {
    ghost ordered = { contramap_ordered arc_str_bytes text_ordered };

    ghost key = { Self.ordered.key };
}

impl BorshKey for CowStr<'_> {
    ghost ordered = { contramap_ordered cow_str_bytes text_ordered };

    ghost key = { Self.ordered.key };
}

impl<T: BorshKey> BorshKey for &T {
    ghost ordered = { contramap_ordered (λ r. r.now) T.ordered };

    ghost key = { λ a b. T.key a.now b.now };
}

impl<T: BorshKey> BorshKey for Box<T> {
    ghost ordered = { contramap_ordered (λ b. b.value) (allocated_ordered T.ordered) };

    ghost key = { λ a b. T.key a.value b.value };
}

impl<T: BorshKey> BorshKey for Rc<T> {
    ghost ordered = { contramap_ordered (λ b. b.value) (allocated_ordered T.ordered) };

    ghost key = { λ a b. T.key a.value b.value };
}

impl<T: BorshKey> BorshKey for Arc<T> {
    ghost ordered = { contramap_ordered (λ b. b.value) (allocated_ordered T.ordered) };

    ghost key = { λ a b. T.key a.value b.value };
}

impl<T: BorshKey> BorshKey for Cow<'_, T> {
    ghost ordered = { contramap_ordered cow_value T.ordered };

    ghost key = { λ a b. T.key (cow_value a) (cow_value b) };
}

impl<T: BorshKey> BorshKey for Range<T> {
    ghost ordered = { contramap_ordered (λ r. (r.start, r.end)) (pair_ordered T.ordered T.ordered) };

    ghost key = { λ a b. and_key (T.key a.start b.start) (T.key a.end b.end) };
}

impl<T: BorshKey> BorshKey for RangeFrom<T> {
    ghost ordered = { contramap_ordered (λ r. r.start) T.ordered };

    ghost key = { λ a b. T.key a.start b.start };
}

impl<T: BorshKey> BorshKey for RangeTo<T> {
    ghost ordered = { contramap_ordered (λ r. r.end) T.ordered };

    ghost key = { λ a b. T.key a.end b.end };
}

impl<T: BorshKey> BorshKey for RangeToInclusive<T> {
    ghost ordered = { contramap_ordered (λ r. r.end) T.ordered };

    ghost key = { λ a b. T.key a.end b.end };
}

impl<A: BorshKey> BorshKey for (A,) {
    ghost ordered = { contramap_ordered (λ t. t.0) A.ordered };

    ghost key = { λ x y. A.key x.0 y.0 };
}

impl<A: BorshKey, B: BorshKey> BorshKey for (A, B) {
    ghost ordered = { pair_ordered A.ordered B.ordered };

    ghost key = { λ x y. and_key (A.key x.0 y.0) (B.key x.1 y.1) };
}

impl<A: BorshKey, B: BorshKey, C: BorshKey> BorshKey for (A, B, C) {
    ghost ordered = { last_part (next_part (first_part (λ t. t.0) A.ordered) (λ t. t.1) B.ordered)
        (λ t. t.2) C.ordered };

    ghost key = { λ x y. last_key
        (next_key (first_key (A.key x.0 y.0)) (B.key x.1 y.1)) (C.key x.2 y.2) };
}

impl<A: BorshKey, B: BorshKey, C: BorshKey, D: BorshKey> BorshKey for (A, B, C, D) {
    ghost ordered = { last_part (next_part (next_part (first_part (λ t. t.0) A.ordered) (λ t. t.1)
        B.ordered) (λ t. t.2) C.ordered) (λ t. t.3) D.ordered };

    ghost key = { λ x y. last_key
        (next_key (next_key (first_key (A.key x.0 y.0)) (B.key x.1 y.1)) (C.key x.2 y.2))
        (D.key x.3 y.3) };
}

impl<A: BorshKey, B: BorshKey, C: BorshKey, D: BorshKey, E: BorshKey> BorshKey for (A, B, C, D, E) {
    ghost ordered = { last_part (next_part (next_part (next_part (first_part (λ t. t.0) A.ordered)
        (λ t. t.1) B.ordered) (λ t. t.2) C.ordered) (λ t. t.3) D.ordered) (λ t. t.4) E.ordered };

    ghost key = { λ x y. last_key
        (next_key (next_key (next_key (first_key (A.key x.0 y.0)) (B.key x.1 y.1)) (C.key x.2 y.2))
        (D.key x.3 y.3)) (E.key x.4 y.4) };
}

impl<A: BorshKey, B: BorshKey, C: BorshKey, D: BorshKey, E: BorshKey, F: BorshKey> BorshKey
    for (A, B, C, D, E, F) {
    ghost ordered = { last_part (next_part (next_part (next_part (next_part (first_part (λ t. t.0)
        A.ordered) (λ t. t.1) B.ordered) (λ t. t.2) C.ordered) (λ t. t.3) D.ordered) (λ t. t.4)
        E.ordered) (λ t. t.5) F.ordered };

    ghost key = { λ x y. last_key
        (next_key (next_key (next_key (next_key (first_key (A.key x.0 y.0)) (B.key x.1 y.1))
        (C.key x.2 y.2)) (D.key x.3 y.3)) (E.key x.4 y.4)) (F.key x.5 y.5) };
}

impl<
    A: BorshKey,
    B: BorshKey,
    C: BorshKey,
    D: BorshKey,
    E: BorshKey,
    F: BorshKey,
    G: BorshKey,
> BorshKey for (A, B, C, D, E, F, G) {
    ghost ordered = { last_part (next_part (next_part (next_part (next_part (next_part (first_part
        (λ t. t.0) A.ordered) (λ t. t.1) B.ordered) (λ t. t.2) C.ordered) (λ t. t.3) D.ordered) (λ
        t. t.4) E.ordered) (λ t. t.5) F.ordered) (λ t. t.6) G.ordered };

    ghost key = { λ x y. last_key
        (next_key (next_key (next_key (next_key (next_key (first_key (A.key x.0 y.0))
        (B.key x.1 y.1)) (C.key x.2 y.2)) (D.key x.3 y.3)) (E.key x.4 y.4)) (F.key x.5 y.5))
        (G.key x.6 y.6) };
}

impl<
    A: BorshKey,
    B: BorshKey,
    C: BorshKey,
    D: BorshKey,
    E: BorshKey,
    F: BorshKey,
    G: BorshKey,
    H: BorshKey,
> BorshKey for (A, B, C, D, E, F, G, H) {
    ghost ordered = { last_part (next_part (next_part (next_part (next_part (next_part (next_part
        (first_part (λ t. t.0) A.ordered) (λ t. t.1) B.ordered) (λ t. t.2) C.ordered) (λ t. t.3)
        D.ordered) (λ t. t.4) E.ordered) (λ t. t.5) F.ordered) (λ t. t.6) G.ordered) (λ t. t.7)
        H.ordered };

    ghost key = { λ x y. last_key
        (next_key (next_key (next_key (next_key (next_key (next_key (first_key (A.key x.0 y.0))
        (B.key x.1 y.1)) (C.key x.2 y.2)) (D.key x.3 y.3)) (E.key x.4 y.4)) (F.key x.5 y.5))
        (G.key x.6 y.6)) (H.key x.7 y.7) };
}

impl<
    A: BorshKey,
    B: BorshKey,
    C: BorshKey,
    D: BorshKey,
    E: BorshKey,
    F: BorshKey,
    G: BorshKey,
    H: BorshKey,
    I: BorshKey,
> BorshKey for (A, B, C, D, E, F, G, H, I) {
    ghost ordered = { last_part (next_part (next_part (next_part (next_part (next_part (next_part
        (next_part (first_part (λ t. t.0) A.ordered) (λ t. t.1) B.ordered) (λ t. t.2) C.ordered) (λ
        t. t.3) D.ordered) (λ t. t.4) E.ordered) (λ t. t.5) F.ordered) (λ t. t.6) G.ordered) (λ t.
        t.7) H.ordered) (λ t. t.8) I.ordered };

    ghost key = { λ x y. last_key
        (next_key (next_key (next_key (next_key (next_key (next_key (next_key (first_key (A.key x.0 y.0))
        (B.key x.1 y.1)) (C.key x.2 y.2)) (D.key x.3 y.3)) (E.key x.4 y.4)) (F.key x.5 y.5))
        (G.key x.6 y.6)) (H.key x.7 y.7)) (I.key x.8 y.8) };
}

impl<
    A: BorshKey,
    B: BorshKey,
    C: BorshKey,
    D: BorshKey,
    E: BorshKey,
    F: BorshKey,
    G: BorshKey,
    H: BorshKey,
    I: BorshKey,
    J: BorshKey,
> BorshKey for (A, B, C, D, E, F, G, H, I, J) {
    ghost ordered = { last_part (next_part (next_part (next_part (next_part (next_part (next_part
        (next_part (next_part (first_part (λ t. t.0) A.ordered) (λ t. t.1) B.ordered) (λ t. t.2)
        C.ordered) (λ t. t.3) D.ordered) (λ t. t.4) E.ordered) (λ t. t.5) F.ordered) (λ t. t.6)
        G.ordered) (λ t. t.7) H.ordered) (λ t. t.8) I.ordered) (λ t. t.9) J.ordered };

    ghost key = { λ x y. last_key
        (next_key (next_key (next_key (next_key (next_key (next_key (next_key (next_key (first_key (A.key x.0 y.0))
        (B.key x.1 y.1)) (C.key x.2 y.2)) (D.key x.3 y.3)) (E.key x.4 y.4)) (F.key x.5 y.5))
        (G.key x.6 y.6)) (H.key x.7 y.7)) (I.key x.8 y.8)) (J.key x.9 y.9) };
}

impl<
    A: BorshKey,
    B: BorshKey,
    C: BorshKey,
    D: BorshKey,
    E: BorshKey,
    F: BorshKey,
    G: BorshKey,
    H: BorshKey,
    I: BorshKey,
    J: BorshKey,
    K: BorshKey,
> BorshKey for (A, B, C, D, E, F, G, H, I, J, K) {
    ghost ordered = { last_part (next_part (next_part (next_part (next_part (next_part (next_part
        (next_part (next_part (next_part (first_part (λ t. t.0) A.ordered) (λ t. t.1) B.ordered) (λ
        t. t.2) C.ordered) (λ t. t.3) D.ordered) (λ t. t.4) E.ordered) (λ t. t.5) F.ordered) (λ t.
        t.6) G.ordered) (λ t. t.7) H.ordered) (λ t. t.8) I.ordered) (λ t. t.9) J.ordered) (λ t.
        t.10) K.ordered };

    ghost key = { λ x y. last_key
        (next_key (next_key (next_key (next_key (next_key (next_key (next_key (next_key (next_key (first_key (A.key x.0 y.0))
        (B.key x.1 y.1)) (C.key x.2 y.2)) (D.key x.3 y.3)) (E.key x.4 y.4)) (F.key x.5 y.5))
        (G.key x.6 y.6)) (H.key x.7 y.7)) (I.key x.8 y.8)) (J.key x.9 y.9)) (K.key x.10 y.10) };
}

impl<
    A: BorshKey,
    B: BorshKey,
    C: BorshKey,
    D: BorshKey,
    E: BorshKey,
    F: BorshKey,
    G: BorshKey,
    H: BorshKey,
    I: BorshKey,
    J: BorshKey,
    K: BorshKey,
    L: BorshKey,
> BorshKey for (A, B, C, D, E, F, G, H, I, J, K, L) {
    ghost ordered = { last_part (next_part (next_part (next_part (next_part (next_part (next_part
        (next_part (next_part (next_part (next_part (first_part (λ t. t.0) A.ordered) (λ t. t.1)
        B.ordered) (λ t. t.2) C.ordered) (λ t. t.3) D.ordered) (λ t. t.4) E.ordered) (λ t. t.5)
        F.ordered) (λ t. t.6) G.ordered) (λ t. t.7) H.ordered) (λ t. t.8) I.ordered) (λ t. t.9)
        J.ordered) (λ t. t.10) K.ordered) (λ t. t.11) L.ordered };

    ghost key = { λ x y. last_key
        (next_key (next_key (next_key (next_key (next_key (next_key (next_key (next_key (next_key (next_key (first_key (A.key x.0 y.0))
        (B.key x.1 y.1)) (C.key x.2 y.2)) (D.key x.3 y.3)) (E.key x.4 y.4)) (F.key x.5 y.5))
        (G.key x.6 y.6)) (H.key x.7 y.7)) (I.key x.8 y.8)) (J.key x.9 y.9)) (K.key x.10 y.10))
        (L.key x.11 y.11) };
}

impl<T: BorshKey, const N: usize> BorshKey for [T; N] {
    ghost ordered = { array_ordered N T.ordered };

    ghost key = { all_key T.codec T.key };
}

impl<T: BorshKey> BorshKey for &[T] {
    ghost ordered = { contramap_ordered (λ r. r.now) (length_prefixed_ordered T.ordered) };

    ghost key = { λ a b. all_key T.codec T.key a.now b.now };
}

impl<T: BorshKey> BorshKey for Vec<T> {
    ghost ordered = { contramap_ordered (λ v. v.items) (list_ordered T.ordered) };

    ghost key = { λ a b. all_key T.codec T.key a.items b.items };
}

impl<T: BorshKey> BorshKey for VecDeque<T> {
    ghost ordered = { contramap_ordered (λ v. v.items) (list_ordered T.ordered) };

    ghost key = { λ a b. all_key T.codec T.key a.items b.items };
}

impl<T: BorshKey> BorshKey for LinkedList<T> {
    ghost ordered = { list_ordered T.ordered };

    ghost key = { all_key T.codec T.key };
}

impl<T: BorshKey> BorshKey for BoxedSlice<T> {
    ghost ordered = { contramap_ordered boxed_slice_items (list_ordered T.ordered) };

    ghost key = { λ a b. all_key T.codec T.key (boxed_slice_items a) (boxed_slice_items b) };
}

impl<T: BorshKey> BorshKey for RcSlice<T> {
    ghost ordered = { contramap_ordered rc_slice_items (list_ordered T.ordered) };

    ghost key = { λ a b. all_key T.codec T.key (rc_slice_items a) (rc_slice_items b) };
}

impl<T: BorshKey> BorshKey for ArcSlice<T> {
    ghost ordered = { contramap_ordered arc_slice_items (list_ordered T.ordered) };

    ghost key = { λ a b. all_key T.codec T.key (arc_slice_items a) (arc_slice_items b) };
}

impl<T: BorshKey> BorshKey for CowSlice<'_, T> {
    ghost ordered = { contramap_ordered cow_slice_items (list_ordered T.ordered) };

    ghost key = { λ a b. all_key T.codec T.key (cow_slice_items a) (cow_slice_items b) };
}

impl<K: BorshKey + Ord, V: BorshKey> BorshKey for BTreeMap<K, V> {
    ghost ordered = { contramap_ordered (λ m. m.entries) (btree_map_ordered K.cmp K.ordered
        V.ordered) };

    ghost key = { λ m n. all_key (pair K.codec V.codec)
        (pair_key K.codec V.codec K.key V.key)
        m.entries
        n.entries };
}

impl<K: BorshKey + Ord> BorshKey for BTreeSet<K> {
    ghost ordered = { contramap_ordered (λ s. s.keys) (btree_set_ordered K.cmp K.ordered) };

    ghost key = { λ s t. bare_key K.codec K.key s.keys t.keys };
}

impl BorshKey for RangeFull {
    ghost ordered = { contramap_ordered (λ _. tt) unit_ordered };

    ghost key = { Self.ordered.key };
}

impl BorshKey for Ipv4Addr {
    ghost ordered = { contramap_ordered ipv4_octets (array_ordered 4 (number_ordered 1)) };

    ghost key = { Self.ordered.key };
}

impl BorshKey for Ipv6Addr {
    ghost ordered = { ipv6_ordered };

    ghost key = { Self.ordered.key };
}

impl BorshKey for Bytes {
    ghost ordered = { list_ordered (number_ordered 1) };

    ghost key = { Self.ordered.key };
}

impl BorshKey for BytesMut {
    ghost ordered = { contramap_ordered (λ b. b.items) (list_ordered (number_ordered 1)) };

    ghost key = { Self.ordered.key };
}

impl BorshKey for Uuid {
    ghost ordered = { array_ordered 16 (number_ordered 1) };

    ghost key = { Self.ordered.key };
}

impl BorshKey for IpAddr {
    ghost ordered = { record {
      codec = ip;
      eq = ⟦<IpAddr as PartialEq>⟧.eq;
      cmp = ⟦<IpAddr as Ord>⟧.cmp;
      key = ip_key ⟦<IpAddr as PartialEq>⟧.eq (λ a b. refl) (λ a b. refl) (λ a b.
          (refl, refl));
      total = ip-total;
      matches = ip-matches;
    } };

    ghost key = { Self.ordered.key };
}

impl BorshKey for SocketAddrV4 {
    ghost ordered = { contramap_ordered socket_v4_view (pair_ordered (contramap_ordered ipv4_octets
        (array_ordered 4 (number_ordered 1))) (number_ordered 2)) };

    ghost key = { Self.ordered.key };
}
