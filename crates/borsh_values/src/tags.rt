// The tags of variants, numbers for them, and tables, so that the variant of a tag isn't looked for among all variants.
ghost use Rattle.borsh_values.specs.Tags.{FoundAs, IsTagKey, IsTagTable, IsVariantIndex, KeepsTables, TableFits, at_key, bits_of, byte_as, is_negative, key_of, magnitude_of, more_found, tag_from, number_of};
ghost use Rattle.borsh_walks.specs.{Container.little_endian, Container.tag, Tables.mark_of};
ghost use Rattle.std.specs.Prelude.{Decides, IfOk, MatchOption, ◌<◌, ◌≤◌, ◌≡◌, ◌^◌, length, map, string_bytes};

use borsh_walks::{Declaration, DiscriminantValue, VariantName};
use std::alloc::{AllocError, Global};
use std::collections::BTreeMap;

/// The variants with a tag.
#[derive(Clone, Copy)]
pub enum Found {
    Nothing,
    /// The one at this index.
    One(usize),
    Several,
}

// An enum with at most so many variants has no table.
const FEW: usize = 16;

/// The number that at most eight bytes encode, little-endian.
pub fn number(bytes: &[u8]) -> u64
    requires { length bytes.now ≤ 8 }
    ensures value { result ≡ number_of bytes.now }
    ensures written { little_endian (length bytes.now) result ≡ bytes.now }
    ensures small { result < 256 ^ length bytes.now }
{
    let mut value: u64 = 0;
    let mut place = bytes.len();
    while place > 0 {
        place -= 1;
        value = value * 256 + u64::from(bytes[place]);
    }
    value
}

// The number, or -1 less a negative one.
fn magnitude(discriminant: i64) -> u64
    ensures { result ≡ magnitude_of discriminant }
{
    if discriminant < 0 {
        (-(discriminant + 1)) as u64
    } else {
        discriminant as u64
    }
}

fn is_negative(discriminant: i64) -> bool
    ensures { result ≡ is_negative discriminant }
{
    discriminant < 0
}

// The byte of a tag, of the byte of its magnitude.
fn tag_byte(negative: bool, low: u8) -> u8
    ensures { result ≡ byte_as negative low }
{
    if negative { 255 - low } else { low }
}

// Whether the bytes are those of the number, or their complements.
fn writes_tag(negative: bool, number: u64, bytes: &[u8]) -> bool
    ensures { Decides result (tag_from negative (length bytes.now) number ≡ bytes.now) }
{
    let mut left = number;
    for b in bytes {
        if tag_byte(negative, (left % 256) as u8) != *b {
            return false;
        }
        left /= 256;
    }
    true
}

/// Whether the bytes are the discriminant in as many bytes, little-endian.
pub fn is_tag(discriminant: &i64, bytes: &[u8]) -> bool
    ensures { Decides result (tag (length bytes.now) discriminant.now ≡ bytes.now) }
{
    let value = *discriminant;
    writes_tag(is_negative(value), magnitude(value), bytes)
}

fn add(found: Found, index: usize) -> Found
    ensures { result ≡ more_found found index }
{
    match found {
        Found::Nothing => Found::One(index),
        _ => Found::Several,
    }
}

/// The variants whose tag is these bytes.
pub fn find_variant(
    variants: &Vec<(DiscriminantValue, VariantName, Declaration)>,
    bytes: &[u8],
) -> Found
    ensures { FoundAs (map (λ v. (v.0, string_bytes v.2)) variants.now.items) bytes.now result }
{
    let mut found = Found::Nothing;
    let mut index: usize = 0;
    while let Some((discriminant, _, _)) = variants.get(index) {
        if is_tag(discriminant, bytes) {
            found = add(found, index);
        }
        index += 1;
    }
    found
}

/// The first variant whose tag is these bytes.
pub fn variant_at(
    variants: &Vec<(DiscriminantValue, VariantName, Declaration)>,
    bytes: &[u8],
) -> Option<usize>
    ensures { IsVariantIndex (map (λ v. (v.0, string_bytes v.2)) variants.now.items) bytes.now result }
{
    let mut index: usize = 0;
    while let Some((discriminant, _, _)) = variants.get(index) {
        if is_tag(discriminant, bytes) {
            return Some(index);
        }
        index += 1;
    }
    None
}

/// How many numbers have that many bytes, where that is below 2^64.
pub fn numbers_in(width: u8) -> Option<u64>
    ensures { MatchOption result (8 ≤ width) (λ n. (n ≡ 256 ^ width) × (width < 8) × (0 < n)) }
{
    match width {
        0 => Some(1),
        1 => Some(256),
        2 => Some(65536),
        3 => Some(16777216),
        4 => Some(4294967296),
        5 => Some(1099511627776),
        6 => Some(281474976710656),
        7 => Some(72057594037927936),
        _ => None,
    }
}

// The number of 64 bits, in two's complement.
fn bits(discriminant: i64) -> u64
    ensures { result ≡ bits_of discriminant }
{
    if discriminant < 0 {
        18446744073709551615 - (-(discriminant + 1)) as u64
    } else {
        discriminant as u64
    }
}

/// The number of the discriminant's tag in that width: two discriminants share it exactly if their tags are the same.
pub fn tag_key(width: u8, discriminant: &i64) -> u64
    ensures { IsTagKey width discriminant.now result }
{
    let value = *discriminant;
    let bits = bits(value);
    match numbers_in(width) {
        Some(numbers) => bits % numbers,
        None => bits,
    }
}

// The number of the first eight bytes of a tag, or of all if these are fewer.
fn key_of_bytes(tag: &[u8]) -> u64
    ensures { result ≡ key_of tag.now }
{
    if tag.len() <= 8 {
        number(tag)
    } else {
        number(&tag[..8])
    }
}

// The variants that a table has at a key.
fn found_at(table: &BTreeMap<u64, Found>, key: u64) -> Found
    ensures { result ≡ at_key table.now key }
{
    match table.get(&key) {
        Some(found) => *found,
        None => Found::Nothing,
    }
}

// The table of an enum: the variants at each key.
fn table_of(
    alloc: Global,
    width: u8,
    variants: &Vec<(DiscriminantValue, VariantName, Declaration)>,
) -> Result<BTreeMap<u64, Found>, AllocError>
    ensures { let vs = map (λ v. (v.0, string_bytes v.2)) variants.now.items in
        IfOk result (λ t. IsTagTable width vs (at_key t)) }
{
    let mut table: BTreeMap<u64, Found> = BTreeMap::new(alloc);
    let mut index: usize = 0;
    while let Some((discriminant, _, _)) = variants.get(index) {
        let key = tag_key(width, discriminant);
        let found = add(found_at(&table, key), index);
        table.insert(key, found)?;
        index += 1;
    }
    Ok(table)
}

// The variants whose tag is these bytes, by the table of their enum.
fn find_in_table(
    table: &BTreeMap<u64, Found>,
    variants: &Vec<(DiscriminantValue, VariantName, Declaration)>,
    tag: &[u8],
) -> Found
    requires { let vs = map (λ v. (v.0, string_bytes v.2)) variants.now.items in
        IsTagTable (length tag.now) vs (at_key table.now) }
    ensures { FoundAs (map (λ v. (v.0, string_bytes v.2)) variants.now.items) tag.now result }
{
    match found_at(table, key_of_bytes(tag)) {
        Found::One(index) => match variants.get(index) {
            Some((discriminant, _, _)) => {
                if is_tag(discriminant, tag) {
                    Found::One(index)
                } else {
                    Found::Nothing
                }
            }
            None => Found::Nothing,
        },
        Found::Several => Found::Several,
        Found::Nothing => Found::Nothing,
    }
}

/// The variants of the enum `name` whose tag is these bytes. Where it has more than a few, its table is made at the
/// first meeting and kept in `tables`.
pub fn find_variant_of<'a>(
    alloc: Global,
    tables: &mut BTreeMap<&'a str, BTreeMap<u64, Found>>,
    name: &'a str,
    width: u8,
    variants: &Vec<(DiscriminantValue, VariantName, Declaration)>,
    tag: &[u8],
) -> Result<Found, AllocError>
    requires long { length tag.now ≡ width }
    requires fits { let vs = map (λ v. (v.0, string_bytes v.2)) variants.now.items in
        TableFits width vs (mark_of tables.old name.now) }
    ensures found { let vs = map (λ v. (v.0, string_bytes v.2)) variants.now.items in
        IfOk result (λ f. FoundAs vs tag.now f) }
    ensures kept { let vs = map (λ v. (v.0, string_bytes v.2)) variants.now.items in
        KeepsTables name.now width vs tables.old tables.new }
{
    if variants.len() <= FEW {
        return Ok(find_variant(variants, tag));
    }
    if let Some(table) = tables.get(name) {
        return Ok(find_in_table(table, variants, tag));
    }
    let table = table_of(alloc, width, variants)?;
    let found = find_in_table(&table, variants, tag);
    tables.insert(name, table)?;
    Ok(found)
}
