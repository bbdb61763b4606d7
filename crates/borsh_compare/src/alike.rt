// Whether JSON that says a value by the old schema says it by the new one.
ghost use Rattle.borsh_compare.specs.Alike.{AlikeAt, AreKeysAlike, FoundAlike, GoAlikeAt, HasVariantParts, IsBehind, LieIn, SaysAlso, VariantAlike, VariantsAlike, field_names, forms_of, variants_of};
ghost use Rattle.borsh_compare.specs.Together.{NamesGo};
ghost use Rattle.borsh_compare.specs.Walks.{HasPair, Paired, PartGoes};
ghost use Rattle.borsh_json.specs.Forms.{form_of};
ghost use Rattle.borsh_json.specs.Places.{IsAt, lengths_of};
ghost use Rattle.borsh_plan.specs.Names.{parts_in, shape_at};
ghost use Rattle.borsh_plan.specs.Plan.{names_of};
ghost use Rattle.std.specs.Prelude.{IfOk, List, Some, [], false, length, slice_get, string_bytes, true, ℕ, ◌≡◌};

use crate::definitions::{Both, Owners, Variants, definitions_go, index_for, indexes_of, lies_in};
use crate::pairs::{MOST_PAIRS, Pair, Pairs, ROOTS};
use borsh_json::{Elements, Entries, Json, KeyKind, Kind};
use borsh_walks::{Declaration, Definition, DiscriminantValue, FieldName, VariantName};
use std::alloc::{AllocError, Global};

/// At most so many structs with one field without a name are seen through.
const MOST_NEWTYPES: usize = 128;

/// The pairs of names that were compared, and the indexes of those whose values are written as other JSON.
#[derive(Drop)]
pub struct Written {
    pub pairs: Pairs,
    pub apart: Vec<usize>,
    /// Whether all values of the old root are said by the same JSON.
    pub is_alike: bool,
}

// The place of what is behind structs with one field without a name.
fn behind(json: &Json<'_, '_>, at: usize) -> usize
    ensures { let p = json.now.plan.now in (x : List ℕ) → IsAt (names_of p) at x
        → (y : List ℕ) × IsAt (names_of p) result y × IsBehind (forms_of p) x y }
{
    let mut at = at;
    for _ in 0..MOST_NEWTYPES {
        if json.is_zero_size(at) {
            return at;
        }
        match json.kind(at) {
            Some((_, Kind::Newtype(part))) => at = part,
            _ => return at,
        }
    }
    at
}

// Whether prefixes are of one width, and the lengths of the old sequence are lengths of the new one.
fn lengths_lie(old: &Definition, new: &Definition) -> bool
    ensures { result ≡ true → LieIn (lengths_of (form_of old.now)) (lengths_of (form_of new.now)) }
{
    match (old, new) {
        (
            Definition::Sequence {
                length_width: old_width,
                length_range: old_range,
                ..
            },
            Definition::Sequence {
                length_width: new_width,
                length_range: new_range,
                ..
            },
        ) => *old_width == *new_width && lies_in(old_range, new_range),
        _ => false,
    }
}

// Whether numbers have as many bytes, with a sign or without, and are both without 0 or with it.
fn numbers_alike(old: (u8, bool, bool), new: (u8, bool, bool)) -> bool
    ensures size { result ≡ true → old.0 ≡ new.0 }
    ensures signed { result ≡ true → old.1 ≡ new.1 }
    ensures zero { result ≡ true → old.2 ≡ new.2 }
{
    old.0 == new.0 && old.1 == new.1 && old.2 == new.2
}

// Whether the elements are a pair. A list whose elements have to ascend isn't written as one of any order.
fn elements_paired(pairs: &Pairs, old: Elements, new: Elements) -> bool
    ensures { result ≡ true → HasPair pairs.now.list.items old.at new.at }
{
    old.order.is_some() == new.order.is_some() && pairs.has(old.at, new.at)
}

fn keys_alike(old: KeyKind, new: KeyKind) -> bool
    ensures { result ≡ true → AreKeysAlike old new }
{
    match (old, new) {
        (KeyKind::Text, KeyKind::Text) => true,
        (KeyKind::Number(old), KeyKind::Number(new)) => old.size == new.size,
        _ => false,
    }
}

fn entries_paired(pairs: &Pairs, old: &Entries<'_>, new: &Entries<'_>) -> bool
    ensures kind { result ≡ true → AreKeysAlike old.now.key_kind new.now.key_kind }
    ensures key { result ≡ true → HasPair pairs.now.list.items old.now.key new.now.key }
    ensures value { result ≡ true → HasPair pairs.now.list.items old.now.value new.now.value }
{
    keys_alike(old.key_kind, new.key_kind)
        && pairs.has(old.key, new.key)
        && pairs.has(old.value, new.value)
}

// Whether a part of the old name and one of the new are a pair.
fn part_paired(both: Both<'_, '_>, pairs: &Pairs, at: Owners, old: usize, new: usize) -> bool
    ensures { let p = both.entry.old.now in let q = both.entry.new.now in
        result ≡ true → PartGoes p q pairs.now.list.items at.old at.new old new }
{
    match (both.old.part(at.old, old), both.new.part(at.new, new)) {
        (Some(old), Some(new)) => pairs.has(old, new),
        _ => false,
    }
}

// Whether the names have as many parts, and each is a pair with the one in its place.
fn parts_paired(both: Both<'_, '_>, pairs: &Pairs, at: Owners) -> bool
    ensures { result ≡ true → NamesGo (Paired both.entry.old.now both.entry.new.now pairs.now.list.items)
        (parts_in (shape_at (names_of both.entry.old.now) at.old))
        (parts_in (shape_at (names_of both.entry.new.now) at.new)) }
{
    let count = both.old.parts(at.old).len();
    if both.new.parts(at.new).len() != count {
        return false;
    }
    for index in 0..count {
        if !part_paired(both, pairs, at, index, index) {
            return false;
        }
    }
    true
}

fn is_same_name(old: &(FieldName, Declaration), new: &(FieldName, Declaration)) -> bool
    ensures { result ≡ true → string_bytes old.now.0 ≡ string_bytes new.now.0 }
{
    old.0.as_str() == new.0.as_str()
}

// Whether the fields have the same names, one after another.
fn fields_alike(old: &[(FieldName, Declaration)], new: &[(FieldName, Declaration)]) -> bool
    ensures { result ≡ true → field_names old.now ≡ field_names new.now }
{
    if old.len() != new.len() {
        return false;
    }
    for index in 0..old.len() {
        if !is_same_name(&old[index], &new[index]) {
            return false;
        }
    }
    true
}

fn is_same_variant(
    old: &(DiscriminantValue, VariantName, Declaration),
    new: &(DiscriminantValue, VariantName, Declaration),
) -> bool
    ensures tag { result ≡ true → old.now.0 ≡ new.now.0 }
    ensures name { result ≡ true → string_bytes old.now.1 ≡ string_bytes new.now.1 }
{
    old.0 == new.0 && old.1.as_str() == new.1.as_str()
}

// Whether the variants at two indexes have one discriminant and one name, and are a pair.
fn variant_alike(
    both: Both<'_, '_>,
    pairs: &Pairs,
    at: Owners,
    variants: &Variants,
    others: &Variants,
    index: usize,
    other: usize,
) -> bool
    ensures { result ≡ true → HasVariantParts both.entry.old.now at.old variants.now.items
        → HasVariantParts both.entry.new.now at.new others.now.items
        → VariantAlike both.entry.old.now both.entry.new.now pairs.now.list.items index
        (variants_of variants.now.items) (variants_of others.now.items) }
{
    let (Some(old), Some(new)) = (variants.get(index), others.get(other)) else {
        return false;
    };
    if !is_same_variant(old, new) {
        return false;
    }
    part_paired(both, pairs, at, index, other)
}

// Whether each variant of the old name is one of the new, by its discriminant and its name.
fn variants_alike(
    alloc: Global,
    both: Both<'_, '_>,
    pairs: &Pairs,
    at: Owners,
    variants: &Variants,
    others: &Variants,
) -> Result<bool, AllocError>
    ensures { let vs = variants_of variants.now.items in IfOk result (λ b. b ≡ true
        → HasVariantParts both.entry.old.now at.old variants.now.items
        → HasVariantParts both.entry.new.now at.new others.now.items → VariantsAlike
        (Paired both.entry.old.now both.entry.new.now pairs.now.list.items)
        (length vs) vs (variants_of others.now.items)) }
{
    let indexes = indexes_of(alloc, others)?;
    for index in 0..variants.len() {
        let Some((discriminant, _, _)) = variants.get(index) else {
            return Ok(false);
        };
        let Some(other) = index_for(others, &indexes, index, discriminant) else {
            return Ok(false);
        };
        if !variant_alike(both, pairs, at, variants, others, index, other) {
            return Ok(false);
        }
    }
    Ok(true)
}

// Whether two kinds of names say the same JSON, if their parts do.
fn kinds_alike<'a>(
    alloc: Global,
    both: Both<'_, '_>,
    pairs: &Pairs,
    at: Owners,
    old: (&Definition, Kind<'a>),
    new: (&Definition, Kind<'a>),
) -> Result<bool, AllocError>
    ensures { IfOk result (λ b. b ≡ true → FoundAlike
        both.entry.old.now both.entry.new.now pairs.now.list.items
        at.old at.new old.entry.0.now new.entry.0.now old.entry.1 new.entry.1) }
{
    match (old.1, new.1) {
        (Kind::Refused(_), _) => Ok(true),
        (Kind::Number(a), Kind::Number(b)) => Ok(numbers_alike(
            (a.size, a.is_signed, a.is_non_zero),
            (b.size, b.is_signed, b.is_non_zero),
        )),
        (Kind::Bool, Kind::Bool) => Ok(true),
        (Kind::Text, Kind::Text) => Ok(lengths_lie(old.0, new.0)),
        (Kind::Bytes(m), Kind::Bytes(n)) if m == n => Ok(true),
        (Kind::Float(k), Kind::Float(l)) if k == l => Ok(true),
        (Kind::ByteList(a), Kind::ByteList(b)) => {
            Ok(lengths_lie(old.0, new.0) && elements_paired(pairs, a, b))
        }
        (Kind::Numbers(a), Kind::Numbers(b)) => {
            Ok(lengths_lie(old.0, new.0) && elements_paired(pairs, a, b))
        }
        (Kind::List(a), Kind::List(b)) => {
            Ok(lengths_lie(old.0, new.0) && elements_paired(pairs, a, b))
        }
        (Kind::Map(a, _), Kind::Map(b, _)) => {
            Ok(lengths_lie(old.0, new.0) && entries_paired(pairs, &a, &b))
        }
        (Kind::Row(_), Kind::Row(_)) => Ok(parts_paired(both, pairs, at)),
        (Kind::Object(a), Kind::Object(b)) => {
            Ok(fields_alike(a.as_slice(), b.as_slice()) && parts_paired(both, pairs, at))
        }
        (Kind::Optional(a), Kind::Optional(b)) => Ok(pairs.has(a, b)),
        (Kind::Choice(v, variants), Kind::Choice(w, others)) if v == w => {
            variants_alike(alloc, both, pairs, at, variants, others)
        }
        _ => Ok(false),
    }
}

// Whether the names at two places say the same JSON, if their parts do.
fn places_alike(
    alloc: Global,
    old: &Json<'_, '_>,
    new: &Json<'_, '_>,
    pairs: &Pairs,
    at: Owners,
) -> Result<bool, AllocError>
    ensures { IfOk result (λ b. b ≡ true →
        AlikeAt old.now.plan.now new.now.plan.now pairs.now.list.items at.old at.new) }
{
    if old.is_zero_size(at.old) {
        return Ok(new.is_zero_size(at.new));
    }
    let Some(before) = old.kind(at.old) else {
        return Ok(true);
    };
    if new.is_zero_size(at.new) {
        return Ok(false);
    }
    let Some(after) = new.kind(at.new) else {
        return Ok(false);
    };
    let both = Both {
        old: old.plan(),
        new: new.plan(),
    };
    kinds_alike(alloc, both, pairs, at, before, after)
}

fn is_same(old: bool, new: bool) -> bool
    ensures { result ≡ true → old ≡ new }
{
    old == new
}

// Whether the names of the pair at an index say the same JSON, if those of all pairs do.
fn pair_alike(
    alloc: Global,
    old: &Json<'_, '_>,
    new: &Json<'_, '_>,
    pairs: &Pairs,
    index: usize,
) -> Result<bool, AllocError>
    ensures { IfOk result (λ b. b ≡ true → (p : Pair) →
        slice_get pairs.now.list.items index ≡ Some p →
        GoAlikeAt old.now.plan.now new.now.plan.now pairs.now.list.items p.old p.new) }
{
    let Some(pair) = pairs.get(index) else {
        return Ok(true);
    };
    let is_old_empty = old.is_zero_size(pair.old);
    let is_new_empty = new.is_zero_size(pair.new);
    if !is_same(is_old_empty, is_new_empty) {
        return Ok(false);
    }
    let at = Owners {
        from: index,
        old: behind(old, pair.old),
        new: behind(new, pair.new),
    };
    places_alike(alloc, old, new, pairs, at)
}

// The pairs of names that lead from the two roots, each with the one in its place.
fn all_pairs(alloc: Global, old: &Json<'_, '_>, new: &Json<'_, '_>) -> Result<Pairs, AllocError> {
    let both = Both {
        old: old.plan(),
        new: new.plan(),
    };
    let mut pairs = Pairs::new(alloc);
    pairs.add(ROOTS)?;
    for from in 0..MOST_PAIRS {
        let Some(pair) = pairs.get(from) else {
            return Ok(pairs);
        };
        let owners = Owners {
            from,
            old: behind(old, pair.old),
            new: behind(new, pair.new),
        };
        definitions_go(alloc, both, &mut pairs, owners)?;
    }
    Ok(pairs)
}

// The indexes of the pairs that don't say the same JSON.
fn apart(
    alloc: Global,
    old: &Json<'_, '_>,
    new: &Json<'_, '_>,
    pairs: &Pairs,
) -> Result<Vec<usize>, AllocError>
    ensures { IfOk result (λ v. v.items ≡ [] → (i : ℕ) (p : Pair) →
        slice_get pairs.now.list.items i ≡ Some p →
        GoAlikeAt old.now.plan.now new.now.plan.now pairs.now.list.items p.old p.new) }
{
    let mut found: Vec<usize> = Vec::new(alloc);
    for index in 0..pairs.len() {
        if !pair_alike(alloc, old, new, pairs, index)? {
            found.push(index)?;
        }
    }
    Ok(found)
}

// Whether no pair is apart, and the roots are one.
fn has_roots(pairs: &Pairs, apart: &[usize]) -> bool
    ensures none { result ≡ true → apart.now ≡ [] }
    ensures roots { result ≡ true → HasPair pairs.now.list.items 0 0 }
{
    apart.is_empty() && pairs.has(0, 0)
}

/// Compares the JSON of the values of two roots.
pub fn compare_json(
    alloc: Global,
    old: &Json<'_, '_>,
    new: &Json<'_, '_>,
) -> Result<Written, AllocError>
    ensures { IfOk result (λ w. w.is_alike ≡ true → SaysAlso old.now.plan.now new.now.plan.now) }
{
    let pairs = all_pairs(alloc, old, new)?;
    let apart = apart(alloc, old, new, &pairs)?;
    let is_alike = has_roots(&pairs, apart.as_slice());
    Ok(Written {
        pairs,
        apart,
        is_alike,
    })
}
