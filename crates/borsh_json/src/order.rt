// The order of the keys of maps and sets, as far as names and definitions tell it.
ghost use Rattle.borsh_json.specs.Words.{AreNumbers, ArePrimitives, ComparesCopies, ComparesFronts, ComparesNumbers, ComparesTexts, DecidesAscent, DecidesFall, FindsBytesAt, FindsCopies, FindsNext, FindsNoBytesAt, Form, HasForm, InRange, IsCut, IsNotBelow, IsSequenceName, IsTreeMapName, Less, NamedPlace, NumberOrder, OrderedBy, OrdersBytes, PrimitivesDescend, TakesBoth, TakesCounts, TakesSame, array_order, decimal, following, form_of, forms_of, int_cmp, is_negative, little_endian, nat_cmp, node_size, primitive_kind, sequence, shape_of_form, tag, tuple, tuple_name, variant_of};
ghost use Rattle.std.specs.Prelude.{◌≡◌, ◌++◌, ◌∷◌, [], ◌<◌, ◌≤◌, ◌^◌, ℕ, ℤ, All, Bool, List, Decides, IfOk, IfSome, MatchBool, MatchOption, None, Option, Some, codes, drop, length, map, option_map, slice_get, string_bytes, true};

use crate::definitions::Definitions;
use crate::formats::{behind, is_composed, is_list, option_part};
use crate::kinds::{Kind, Variants, is_text, kind_of_primitive};
use crate::table::Table;
use borsh_values::{Node, count_of};
use borsh_walks::{Declaration, Definition, DiscriminantValue};
use itoa::Buffer;
use std::alloc::AllocError;
use std::cmp::Ordering;
use std::mem;

/// How the values of a name are ordered.
#[derive(Clone, Copy)]
pub enum Ordered {
    /// There is one value, without bytes.
    Single,
    /// As numbers of so many bytes, `bool` too, and whether with a sign.
    Number(u8, bool),
    /// As texts: by their bytes, a beginning first.
    Text,
    /// As arrays of so many elements of the name at this place: by the first that differs.
    Array(u64, usize),
    /// As lists, behind a count of so many bytes, of elements of the name at this place: by the first that differs, a beginning
    /// first. An option is one of at most one element, behind one byte.
    List(usize, usize),
    /// As tuples, whose definition is at this place and has so many parts: by the first part that differs.
    Tuple(usize, usize),
    /// Neither the name at this place nor its definition tells: of two values is known only whether they are the same.
    Other(usize),
}

/// How the values of the name at a place are ordered; none where neither that nor the definition tells it: of structs, enums, and
/// primitives of other names.
pub fn ordered_as(
    definitions: &Definitions<'_, '_>,
    at: usize,
    definition: &Definition,
) -> Option<Ordered>
    ensures order { FindsBytesAt definitions.now at (form_of definition.now) result }
    ensures none { FindsNoBytesAt definitions.now at (form_of definition.now) result }
{
    let name = definitions.name(at);
    match definition {
        Definition::Primitive(size) => number_as(name, *size),
        Definition::Sequence { elements, .. } if is_list(definition) => {
            list_as(definitions, at, definition, elements.as_str())
        }
        Definition::Sequence { .. } => array_as(definitions, at, definition),
        Definition::Tuple { elements } => {
            if is_tuple_name(name, elements.as_slice()) {
                Some(Ordered::Tuple(at, elements.len()))
            } else {
                None
            }
        }
        Definition::Enum { .. } => {
            let part = option_part(definitions, at, definition)?;
            Some(Ordered::List(1, part))
        }
        Definition::Struct { .. } => None,
    }
}

fn number_as(name: &str, size: u8) -> Option<Ordered>
    ensures order { IfSome result (λ found. (signed : Bool) × (found ≡ NumberOrder size signed) ×
        AreNumbers (primitive_kind name.now size) size signed) }
    ensures none { result ≡ None → (signed : Bool) → AreNumbers (primitive_kind name.now size) size signed → ⊥ }
{
    match kind_of_primitive(name, size) {
        Kind::Bool => Some(Ordered::Number(size, false)),
        Kind::Number(number) => Some(Ordered::Number(size, number.is_signed)),
        _ => None,
    }
}

fn list_as(
    definitions: &Definitions<'_, '_>,
    at: usize,
    definition: &Definition,
    element: &str,
) -> Option<Ordered>
    ensures order { (e : List ℕ) → form_of definition.now ≡ sequence 4 0 4294967295 e → element.now ≡ e →
        FindsBytesAt definitions.now at (form_of definition.now) result }
    ensures none { (e : List ℕ) → form_of definition.now ≡ sequence 4 0 4294967295 e → element.now ≡ e →
        FindsNoBytesAt definitions.now at (form_of definition.now) result }
{
    if is_text(definitions, at, definition) {
        return Some(Ordered::Text);
    }
    let name = definitions.name(at);
    let part = definitions.part(at, 0);
    if is_list_name(name, element) {
        return Some(Ordered::List(4, part));
    }
    if is_tree_map(name, definitions.get(part)) {
        return Some(Ordered::List(4, part));
    }
    None
}

/// How the values of a sequence without a length prefix are ordered.
fn array_as(
    definitions: &Definitions<'_, '_>,
    at: usize,
    definition: &Definition,
) -> Option<Ordered>
    ensures order { FindsBytesAt definitions.now at (form_of definition.now) result }
    ensures none { (x : List ℕ) → HasForm definitions.now at (form_of definition.now) x → result ≡ None →
        (n : ℕ) (e : List ℕ) → OrdersBytes (forms_of definitions.now) x (array_order n e) → ⊥ }
{
    let Definition::Sequence {
        length_width: 0,
        length_range: range,
        elements,
    } = definition
    else {
        return None;
    };
    if range.start != range.end {
        return None;
    }
    if is_array_name(definitions.name(at), elements.as_str(), range.start) {
        Some(Ordered::Array(range.start, definitions.part(at, 0)))
    } else {
        None
    }
}

/// Whether a name is that of a list or an ordered set of these elements.
fn is_list_name(name: &str, element: &str) -> bool
    ensures { Decides result (IsSequenceName name.now element.now) }
{
    is_composed(name, &["Vec<", element, ">"])
        || is_composed(name, &["VecDeque<", element, ">"])
        || is_composed(name, &["LinkedList<", element, ">"])
        || is_composed(name, &["BTreeSet<", element, ">"])
}

/// Whether a name is that of an ordered map, of whose entries this is the definition.
fn is_tree_map(name: &str, definition: Option<&Definition>) -> bool
    ensures { let form = option_map (λ d. form_of d.now) definition.entry in MatchBool result
        ((k v : List ℕ) × (form ≡ Some (tuple (k ∷ v ∷ []))) × IsTreeMapName name.now k v)
        ((k v : List ℕ) → form ≡ Some (tuple (k ∷ v ∷ [])) → IsTreeMapName name.now k v → ⊥) }
{
    match definition {
        Some(Definition::Tuple { elements }) => is_tree_map_name(name, elements.as_slice()),
        _ => false,
    }
}

fn is_tree_map_name(name: &str, parts: &[Declaration]) -> bool
    ensures { MatchBool result
        ((k v : List ℕ) × (map (λ p. string_bytes p) parts.now ≡ k ∷ v ∷ []) × IsTreeMapName name.now k v)
        ((k v : List ℕ) → map (λ p. string_bytes p) parts.now ≡ k ∷ v ∷ [] → IsTreeMapName name.now k v → ⊥) }
{
    if parts.len() != 2 {
        return false;
    }
    let (key, value) = (parts[0].as_str(), parts[1].as_str());
    is_composed(name, &["BTreeMap<", key, ", ", value, ">"])
}

/// Whether a name is `[element; count]`.
fn is_array_name(name: &str, element: &str, count: u64) -> bool
    ensures { Decides result (name.now ≡ codes "[" ++ element.now ++ codes "; " ++ decimal count ++ codes "]") }
{
    let mut digits = Buffer::new();
    is_composed(name, &["[", element, "; ", digits.format(count), "]"])
}

/// Whether a name is that of the tuple of these parts: `(A, B)`, and `(A,)` of one.
fn is_tuple_name(name: &str, parts: &[Declaration]) -> bool
    ensures { Decides result (name.now ≡ tuple_name (map (λ p. string_bytes p) parts.now)) }
{
    let Some((first, others)) = parts.split_first() else {
        return name == "()";
    };
    let first = first.as_str();
    if others.is_empty() {
        return is_composed(name, &["(", first, ",)"]);
    }
    let Some(rest) = behind(name, &["(", first]) else {
        return false;
    };
    match behind_parts(rest, others) {
        Some(rest) => rest == ")",
        None => false,
    }
}

/// What of a text comes behind these parts, each behind a comma.
fn behind_parts<'n>(text: &'n str, parts: &[Declaration]) -> Option<&'n str>
    ensures { let front = following (map (λ p. string_bytes p) parts.now) in MatchOption result
        ((rest : List ℕ) → text.now ≡ front ++ rest → ⊥) (λ rest. text.now ≡ front ++ rest.now) }
{
    let mut rest = text;
    for part in parts {
        rest = behind(rest, &[", ", part.as_str()])?;
    }
    Some(rest)
}

/// What is still to be compared.
#[derive(Clone, Copy)]
enum Pending {
    /// The elements of two lists of the name at a place, so many of the one and so many of the other.
    Elements(usize, u64, u64),
    /// The parts of the tuple at a place, which has so many, from this one on.
    Parts(usize, usize, usize),
    /// So many values of the name at a place, of which is known only whether they are the same.
    Copies(usize, u64),
    /// The parts of the definition at a place from this one on, of which is known only whether they are the same.
    PartCopies(usize, usize),
}

/// Two encodings of values of one name that are being compared: what is left of each.
#[derive(Drop)]
struct Pair<'b> {
    left: &'b [u8],
    right: &'b [u8],
}

impl<'b> Pair<'b> {
    /// The next bytes of both; none where fewer are left: then they are no encodings of the name.
    fn take(&mut self, left: usize, right: usize) -> Option<(&'b [u8], &'b [u8])>
        ensures { TakesBoth left right self.old self.new result }
    {
        if self.left.len() < left || self.right.len() < right {
            return None;
        }
        let (left, left_after) = split(self.left, left);
        let (right, right_after) = split(self.right, right);
        self.left = left_after;
        self.right = right_after;
        Some((left, right))
    }

    /// The next bytes of both, if these are the same.
    fn take_same(&mut self, size: usize) -> Option<&'b [u8]>
        ensures { TakesSame size self.old self.new result }
    {
        let (left, right) = self.take(size, size)?;
        if left == right { Some(left) } else { None }
    }

    /// The counts, of so many bytes, that come next in both.
    fn take_counts(&mut self, width: usize) -> Option<(u64, u64)>
        ensures { TakesCounts width self.old self.new result }
    {
        let (left, right) = self.take(width, width)?;
        Some((count_in(left), count_in(right)))
    }

    fn compare_numbers(&mut self, size: u8, is_signed: bool) -> Ordering
        ensures { ComparesNumbers size is_signed self.old self.new result }
    {
        let size = usize::from(size);
        let Some((left, right)) = self.take(size, size) else {
            return Ordering::Less;
        };
        compare_numbers(left, right, is_signed)
    }

    fn compare_texts(&mut self) -> Ordering
        ensures { ComparesTexts self.old self.new result }
    {
        let Some((left, right)) = self.take_counts(4) else {
            return Ordering::Less;
        };
        let Some((left, right)) = self.take(left as usize, right as usize) else {
            return Ordering::Less;
        };
        left.cmp(right)
    }
}

fn split<'b>(bytes: &'b [u8], count: usize) -> (&'b [u8], &'b [u8])
    ensures cut { IsCut count bytes.now result.0.now result.1.now }
    ensures small { All (λ b. b < 256) bytes.now }
{
    bytes.split_at(count.min(bytes.len()))
}

/// The number that one byte or four are.
fn count_in(bytes: &[u8]) -> u64
    ensures one { (n : ℕ) → n < 256 ^ 1 → bytes.now ≡ little_endian 1 n → result ≡ n }
    ensures four { (n : ℕ) → n < 256 ^ 4 → bytes.now ≡ little_endian 4 n → result ≡ n }
{
    match bytes {
        [count] => u64::from(*count),
        [a, b, c, d] => u64::from(u32::from_le_bytes([*a, *b, *c, *d])),
        _ => 0,
    }
}

/// Whether the first of two values of a name with this order, which begin the bytes, isn't below the second, as far as the order
/// is told: it is equal or above.
pub fn is_at_least(
    json: &Table<'_, '_>,
    order: Ordered,
    left: &[u8],
    right: &[u8],
) -> Result<bool, AllocError>
    ensures { (x : List ℕ) → OrderedBy json.now x order → IfOk result (λ b. MatchBool b
        (IsNotBelow json.now x left.now right.now) (IsNotBelow json.now x left.now right.now → ⊥)) }
{
    let mut pair = Pair { left, right };
    let mut pending: Vec<Pending> = Vec::new(json.alloc());
    let mut order = order;
    for _ in 0..u64::MAX {
        let front = compare_front(json, order, &mut pair, &mut pending)?;
        match front {
            Ordering::Equal => match next_value(json, &mut pending)? {
                Next::Value(next) => order = next,
                Next::Decided(ordering) => return Ok(is_ge(ordering)),
            },
            decided => return Ok(is_ge(decided)),
        }
    }
    Err(AllocError)
}

fn is_ge(ordering: Ordering) -> bool
    ensures { MatchBool result (ordering ≡ Less → ⊥) (ordering ≡ Less) }
{
    !ordering.is_lt()
}

/// What comes next of what is to be compared.
#[derive(Clone, Copy)]
enum Next {
    /// Two values of a name with this order.
    Value(Ordered),
    /// Nothing: this is how the values compare.
    Decided(Ordering),
}

fn next_value(json: &Table<'_, '_>, pending: &mut Vec<Pending>) -> Result<Next, AllocError>
    ensures { FindsNext json.now pending.old.items pending.new.items result }
{
    while let Some(next) = pending.pop() {
        match next {
            Pending::Elements(at, left, right) => {
                if left > 0 && right > 0 {
                    pending.push(Pending::Elements(at, left - 1, right - 1))?;
                    return Ok(Next::Value(json.known_order(at)));
                }
                if left != right {
                    return Ok(Next::Decided(left.cmp(&right)));
                }
            }
            Pending::Parts(at, count, index) => {
                if index < count {
                    pending.push(Pending::Parts(at, count, index + 1))?;
                    let part = json.part(at, index);
                    return Ok(Next::Value(json.known_order(part)));
                }
            }
            Pending::Copies(at, count) => {
                if count > 0 && !json.is_zero_size(at) {
                    pending.push(Pending::Copies(at, count - 1))?;
                    return Ok(Next::Value(Ordered::Other(at)));
                }
            }
            Pending::PartCopies(at, index) => {
                if let Some(part) = json.part_at(at, index) {
                    pending.push(Pending::PartCopies(at, index + 1))?;
                    return Ok(Next::Value(Ordered::Other(part)));
                }
            }
        }
    }
    Ok(Next::Decided(Ordering::Equal))
}

/// How two values compare by the bytes that come before their parts; the parts become pending.
fn compare_front(
    json: &Table<'_, '_>,
    order: Ordered,
    pair: &mut Pair<'_>,
    pending: &mut Vec<Pending>,
) -> Result<Ordering, AllocError>
    ensures { ComparesFronts json.now order pending.old.items pair.old pending.new.items pair.new result }
{
    match order {
        Ordered::Single => Ok(Ordering::Equal),
        Ordered::Number(size, is_signed) => Ok(pair.compare_numbers(size, is_signed)),
        Ordered::Text => Ok(pair.compare_texts()),
        Ordered::Array(count, element) => {
            pending.push(Pending::Elements(element, count, count))?;
            Ok(Ordering::Equal)
        }
        Ordered::List(width, element) => {
            let Some((left, right)) = pair.take_counts(width) else {
                return Ok(Ordering::Less);
            };
            if json.is_zero_size(element) {
                return Ok(left.cmp(&right));
            }
            pending.push(Pending::Elements(element, left, right))?;
            Ok(Ordering::Equal)
        }
        Ordered::Tuple(at, count) => {
            pending.push(Pending::Parts(at, count, 0))?;
            Ok(Ordering::Equal)
        }
        Ordered::Other(at) => compare_copies(json, at, pair, pending),
    }
}

/// How two values compare of which is known only whether they are the same: `Equal` if their own bytes are, and the parts become
/// pending; otherwise `Less`, since nothing tells that they don't ascend.
fn compare_copies(
    json: &Table<'_, '_>,
    at: usize,
    pair: &mut Pair<'_>,
    pending: &mut Vec<Pending>,
) -> Result<Ordering, AllocError>
    ensures { ComparesCopies json.now at pending.old.items pair.old pending.new.items pair.new result }
{
    if json.is_zero_size(at) {
        return Ok(Ordering::Equal);
    }
    let Some((definition, _)) = json.kind(at) else {
        return Ok(Ordering::Less);
    };
    let Some(own) = pair.take_same(own_size(definition)) else {
        return Ok(Ordering::Less);
    };
    match copies_behind(json, at, definition, own) {
        Some(parts) => {
            pending.push(parts)?;
            Ok(Ordering::Equal)
        }
        None => Ok(Ordering::Less),
    }
}

/// How many own bytes a value of the definition has: those of a primitive, of the count of a sequence, or of the tag of an enum.
fn own_size(definition: &Definition) -> usize
    ensures { result ≡ node_size (shape_of_form (form_of definition.now)) }
{
    match definition {
        Definition::Primitive(size) => usize::from(*size),
        Definition::Sequence { length_width, .. } => usize::from(*length_width),
        Definition::Enum { tag_width, .. } => usize::from(*tag_width),
        Definition::Tuple { .. } | Definition::Struct { .. } => 0,
    }
}

/// The parts of a value of the name at a place that has these own bytes; none if its definition has no such value.
fn copies_behind(
    json: &Table<'_, '_>,
    at: usize,
    definition: &Definition,
    own: &[u8],
) -> Option<Pending>
    ensures { let s = shape_of_form (form_of definition.now) in (x : List ℕ) →
        HasForm json.now at (form_of definition.now) x → length own.now ≡ node_size s → FindsCopies json.now s own.now result }
{
    match definition {
        Definition::Primitive(_) => Some(Pending::Copies(at, 0)),
        Definition::Tuple { .. } => Some(Pending::PartCopies(at, 0)),
        Definition::Struct { .. } => Some(Pending::PartCopies(at, 0)),
        Definition::Sequence { .. } => {
            let node = Node {
                at,
                name: json.name(at),
                definition,
                bytes: own,
                offset: 0,
                depth: 0,
            };
            match count_of(&node) {
                Some(count) => Some(Pending::Copies(json.part(at, 0), count)),
                None => None,
            }
        }
        Definition::Enum { variants, .. } => match variant_with(variants, own) {
            Some(index) => Some(Pending::Copies(json.part(at, index), 1)),
            None => None,
        },
    }
}

/// The place of the first variant with a tag of at most eight bytes.
fn variant_with(variants: &Variants, tag: &[u8]) -> Option<usize>
    ensures { let vs = map (λ v. (v.0, string_bytes v.2)) variants.now.items in
        MatchOption result (length tag.now ≤ 8 → variant_of tag.now vs ≡ None)
        (λ i. (length tag.now ≤ 8) × (k : ℤ) × (p : List ℕ) × (slice_get vs i ≡ Some (k, p)) × (variant_of tag.now vs ≡ Some p)) }
{
    if tag.len() > 8 {
        return None;
    }
    let mut index = 0;
    while let Some((discriminant, _, _)) = variants.get(index) {
        if is_tag(discriminant, tag) {
            return Some(index);
        }
        index += 1;
    }
    None
}

/// Whether at most eight bytes are the tag of a variant.
fn is_tag(discriminant: &DiscriminantValue, bytes: &[u8]) -> bool
    requires { length bytes.now ≤ 8 }
    ensures { Decides result (tag (length bytes.now) discriminant.now ≡ bytes.now) }
{
    let value = *discriminant;
    let tag = value.to_le_bytes();
    bytes == &tag[..bytes.len()]
}

/// How two numbers of the same size compare.
pub fn compare_numbers(left: &[u8], right: &[u8], is_signed: bool) -> Ordering
    ensures { (n : ℕ) (y z : ℤ) → 0 < n → InRange n is_signed y → InRange n is_signed z → left.now ≡ tag n y →
        right.now ≡ tag n z → result ≡ int_cmp y z }
{
    if is_signed {
        let (left_sign, right_sign) = (is_negative(left), is_negative(right));
        if left_sign != right_sign {
            return right_sign.cmp(&left_sign);
        }
    }
    compare_bytes(left, right)
}

fn is_negative(bytes: &[u8]) -> bool
    ensures { (n : ℕ) (z : ℤ) → 0 < n → InRange n true z → bytes.now ≡ tag n z → result ≡ is_negative z }
{
    match bytes {
        [.., last] => *last >= 128,
        [] => false,
    }
}

/// How two numbers of the same size without signs compare.
fn compare_bytes(left: &[u8], right: &[u8]) -> Ordering
    ensures { (n y z : ℕ) → y < 256 ^ n → z < 256 ^ n → left.now ≡ little_endian n y → right.now ≡ little_endian n z →
        result ≡ nat_cmp y z }
{
    let mut end = left.len().min(right.len());
    while end > 0 {
        end -= 1;
        if left[end] != right[end] {
            return left[end].cmp(&right[end]);
        }
    }
    Ordering::Equal
}

/// Of a set or map, where its elements begin in the bytes, as they are gone through.
#[derive(Clone, Copy)]
pub struct Ascent {
    order: Ordered,
    earlier: Option<usize>,
    last: Option<usize>,
}

impl Ascent {
    pub fn new(order: Ordered) -> Ascent
        ensures order { result.order ≡ order }
        ensures none { (result.earlier ≡ None) × (result.last ≡ None) }
    {
        Ascent {
            order,
            earlier: None,
            last: None,
        }
    }

    /// That the next element begins at `start`; or, at the end of the collection, that it would.
    pub fn begin(&mut self, start: usize)
        ensures order { self.new.order ≡ self.old.order }
        ensures earlier { self.new.earlier ≡ self.old.last }
        ensures last { self.new.last ≡ Some start }
    {
        self.earlier = mem::replace(&mut self.last, Some(start));
    }

    /// Whether the element that was begun last is above the one before it, as far as the order is told.
    pub fn ascends(&self, json: &Table<'_, '_>, bytes: &[u8]) -> Result<bool, AllocError>
        ensures first { self.now.earlier ≡ None → IfOk result (λ ascends. ascends ≡ true) }
        ensures order { DecidesAscent json.now self.now bytes.now result }
    {
        let Some(earlier) = self.earlier else {
            return Ok(true);
        };
        let Some(last) = self.last else {
            return Ok(true);
        };
        let left = from(bytes, earlier);
        let right = from(bytes, last);
        let is_at_least = is_at_least(json, self.order, left, right)?;
        Ok(!is_at_least)
    }
}

fn from(bytes: &[u8], start: usize) -> &[u8]
    ensures { result.now ≡ drop start bytes.now }
{
    &bytes[start.min(bytes.len())..]
}

/// The first element of a list of primitives of so many bytes that isn't above the one before it, as far as the order is told.
pub fn first_descent(order: Ordered, size: usize, bytes: &[u8]) -> Option<usize>
    ensures { (F : List ℕ → Option Form) (ns : List NamedPlace) (e : List ℕ) → ArePrimitives F ns e order size bytes.now →
        MatchOption result ((i : ℕ) → PrimitivesDescend F e size bytes.now i → ⊥) (PrimitivesDescend F e size bytes.now) }
{
    let mut rest = bytes;
    for index in 1..bytes.len() {
        if rest.len() <= size {
            break;
        }
        let (element, after) = split(rest, size);
        let (next, _) = split(after, size);
        if falls(order, element, next) {
            return Some(index);
        }
        rest = after;
    }
    None
}

/// Whether the first of two primitives isn't below the second, as far as the order is told.
fn falls(order: Ordered, first: &[u8], second: &[u8]) -> bool
    ensures { DecidesFall order (length first.now) first.now second.now result }
{
    match order {
        Ordered::Number(_, is_signed) => !compare_numbers(first, second, is_signed).is_lt(),
        _ => first == second,
    }
}
