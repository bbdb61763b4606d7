// What is written of a value without places of its own.
ghost use Rattle.borsh_json.specs.Leaves.{ForPrimitives, HasSize, IsElementWritten, IsOpenedAs, IsWritten, RefusesAt, RefusesValue, TellsAbove, WritesHex, WritesKey, WritesNode};
ghost use Rattle.borsh_json.specs.Words.{Form, FoundBytes, FoundNumbers, FoundText, HasKind, IsKindOf, IsPrimitiveKind, SaysFirst, TableKind, float, float_size, form_of, forms_of, names_of, null, string, truth, whole};
ghost use Rattle.hex.specs.Hex.{encode_lower};
ghost use Rattle.std.specs.Float.{Format};
ghost use Rattle.std.specs.Prelude.{◌≡◌, ◌≤◌, ◌+◌, ◌*◌, ◌∷◌, ◌++◌, [], if◌then◌else◌, ℕ, List, MatchOption, Option, codes, length};

use crate::error::{Refusal, WriteError};
use crate::floats::shortest;
use crate::integers::Integer;
use crate::kinds::{Elements, KeyKind, Kind, kind_of_primitive};
use crate::numbers::Number;
use crate::output::Output;
use crate::sources::EntryKey;
use crate::table::Table;
use borsh_values::{Node, elements_of};
use itoa::Buffer;
use json::{Token, is_number};
use std::alloc::Global;
use std::str;

/// What a step of writing returns.
pub type Written = Result<(), WriteError>;

/// Writes `null`, of a value without bytes, or of an option that is none.
pub fn write_null(out: &mut Output) -> Written
    ensures { (F : List ℕ → Option Form) (x own : List ℕ) → SaysFirst F x null own [] →
        IsWritten F 0 x own out.old out.new result }
{
    Ok(out.put(Token::Null)?)
}

/// Writes the name of a variant without bytes.
pub fn write_name(name: &str, out: &mut Output) -> Written
    ensures { (F : List ℕ → Option Form) (x own : List ℕ) → SaysFirst F x (string name.now) own [] →
        IsWritten F 0 x own out.old out.new result }
{
    Ok(out.put(Token::String(name))?)
}

/// Writes a primitive: a whole number, a `bool`, a float or other bytes.
pub fn write_primitive(
    alloc: Global,
    kind: Kind<'_>,
    node: &Node<'_, '_>,
    out: &mut Output,
) -> Written
    ensures { (k : TableKind) → IsPrimitiveKind kind.entry k →
        WritesNode kind.entry 0 node.now.definition.now node.now.bytes.now out.old out.new result }
{
    put_primitive(alloc, kind, node.bytes, out)
}

/// Writes a `String`.
pub fn write_text(node: &Node<'_, '_>, out: &mut Output) -> Written
    ensures { WritesNode FoundText 0 node.now.definition.now node.now.bytes.now out.old out.new result }
{
    match str::from_utf8(elements_of(node)) {
        Ok(text) => Ok(out.put(Token::String(text))?),
        Err(_) => Err(WriteError::Refused(Refusal::NotUtf8)),
    }
}

/// Writes a list of `u8`, in hexadecimal.
pub fn write_byte_list(
    alloc: Global,
    node: &Node<'_, '_>,
    elements: Elements,
    out: &mut Output,
) -> Written
    ensures { let d = node.now.definition.now in
        WritesNode (FoundBytes elements) 0 d node.now.bytes.now out.old out.new result }
{
    put_bytes(alloc, elements_of(node), out)
}

/// Writes a list of primitives.
pub fn write_numbers(
    json: &Table<'_, '_>,
    node: &Node<'_, '_>,
    elements: Elements,
    out: &mut Output,
) -> Written
    ensures { let F = forms_of json.now in let f = form_of node.now.definition.now in
        (x : List ℕ) (parts : List (List ℕ)) →
        IsOpenedAs F x f node.now.bytes.now parts →
        IsKindOf F (names_of json.now) x f (FoundNumbers elements) →
        (parts ≡ []) × IsWritten F 1 x node.now.bytes.now out.old out.new result }
{
    let kind = kind_of_primitive(json.name(elements.at), elements.size);
    let size = usize::from(elements.size);
    let mut rest = elements_of(node);
    let mut index: usize = 0;
    out.put(Token::BeginArray)?;
    'elements: while !rest.is_empty() {
        let (element, after) = rest.split_at(size.clamp(1, rest.len()));
        match put_element(json.alloc(), kind, index, element, out) {
            Ok(()) => rest = after,
            Err(error) => return Err(error),
        }
        index = index.saturating_add(1);
    }
    Ok(out.put(Token::EndArray)?)
}

/// Writes the element of an index.
fn put_element(alloc: Global, kind: Kind<'_>, index: usize, own: &[u8], out: &mut Output) -> Written
    ensures { ForPrimitives kind.entry own.now
        (λ F e. IsElementWritten F index e own.now out.old out.new result) }
{
    match put_primitive(alloc, kind, own, out) {
        Ok(()) => Ok(()),
        Err(error) => Err(of_element(error, index)),
    }
}

/// The error, as that of the element of an index.
fn of_element(error: WriteError, index: usize) -> WriteError
    ensures { (F : List ℕ → Option Form) (e own : List ℕ) (k : TableKind) → HasKind F e k →
        HasSize k (length own) → RefusesValue F e own error → RefusesAt F index e own result }
{
    match error {
        WriteError::OutOfMemory => WriteError::OutOfMemory,
        WriteError::Refused(refusal) => WriteError::Element(index, refusal),
        WriteError::Element(index, refusal) => WriteError::Element(index, refusal),
    }
}

/// Writes the key of an entry, which its node has; the key that it gives orders it.
pub fn write_key<'b>(
    kind: KeyKind,
    node: &Node<'_, 'b>,
    out: &mut Output,
) -> Result<EntryKey<'b>, WriteError>
    ensures { WritesKey kind node.now.definition.now node.now.bytes.now out.old out.new result }
{
    match kind {
        KeyKind::Text => match str::from_utf8(elements_of(node)) {
            Ok(text) => {
                out.put(Token::Key(text))?;
                Ok(EntryKey::Text(text))
            }
            Err(_) => Err(WriteError::Refused(Refusal::NotUtf8)),
        },
        KeyKind::Number(number) => {
            let integer = Integer::decode(node.bytes, number.is_signed);
            if number.is_non_zero && integer.is_zero() {
                return Err(WriteError::Refused(Refusal::Zero));
            }
            let mut buffer = Buffer::new();
            out.put(Token::Key(integer.decimal(&mut buffer)))?;
            Ok(EntryKey::Rank(integer.rank(number.is_signed)))
        }
    }
}

/// Whether a key of a map is above another one.
pub fn is_above(key: EntryKey<'_>, last: EntryKey<'_>) -> bool
    ensures { TellsAbove last.entry key.entry result }
{
    match (last, key) {
        (EntryKey::Text(last), EntryKey::Text(key)) => last < key,
        (EntryKey::Rank(last), EntryKey::Rank(key)) => last < key,
        _ => false,
    }
}

/// Writes a primitive.
fn put_primitive(alloc: Global, kind: Kind<'_>, own: &[u8], out: &mut Output) -> Written
    ensures { ForPrimitives kind.entry own.now (λ F x. IsWritten F 0 x own.now out.old out.new result) }
{
    match kind {
        Kind::Number(number) => put_number(number, own, out),
        Kind::Bool => put_bool(own, out),
        Kind::Float(_) => put_float(own, out),
        _ => put_bytes(alloc, own, out),
    }
}

fn put_number(number: Number, own: &[u8], out: &mut Output) -> Written
    ensures { let k = whole number.size number.is_signed number.is_non_zero in
        (F : List ℕ → Option Form) (x : List ℕ) → HasKind F x k → HasSize k (length own.now) →
        IsWritten F 0 x own.now out.old out.new result }
{
    let integer = Integer::decode(own, number.is_signed);
    if number.is_non_zero && integer.is_zero() {
        return Err(WriteError::Refused(Refusal::Zero));
    }
    let mut buffer = Buffer::new();
    let text = integer.decimal(&mut buffer);
    if own.len() <= 4 {
        Ok(out.put(Token::Number(text))?)
    } else if own.len() <= 8 {
        Ok(out.put_long(text)?)
    } else {
        Ok(out.put(Token::String(text))?)
    }
}

fn put_bool(own: &[u8], out: &mut Output) -> Written
    ensures { (F : List ℕ → Option Form) (x : List ℕ) → HasKind F x truth → length own.now ≡ 1 →
        IsWritten F 0 x own.now out.old out.new result }
{
    match bool_of(own) {
        Some(value) => Ok(out.put(Token::Bool(value))?),
        None => Err(WriteError::Refused(Refusal::NotBool)),
    }
}

/// The `bool` of a byte.
fn bool_of(own: &[u8]) -> Option<bool>
    ensures { MatchOption result ((own.now ≡ 0 ∷ [] → ⊥) × (own.now ≡ 1 ∷ [] → ⊥))
        (λ b. own.now ≡ (if b then 1 else 0) ∷ []) }
{
    match own {
        [0] => Some(false),
        [1] => Some(true),
        _ => None,
    }
}

/// Writes a float: the shortest number that reads back as it, or the word of an infinity.
fn put_float(own: &[u8], out: &mut Output) -> Written
    ensures { (F : List ℕ → Option Form) (x : List ℕ) (f : Format) →
        HasKind F x (float f) → length own.now ≡ float_size f →
        IsWritten F 0 x own.now out.old out.new result }
{
    let mut buffer = ryu::Buffer::new();
    let Some(text) = shortest(own, &mut buffer) else {
        return Err(WriteError::Refused(Refusal::NotNumber));
    };
    if is_number(text) {
        Ok(out.put(Token::Number(text))?)
    } else {
        Ok(out.put(Token::String(text))?)
    }
}

/// Writes `0x` and two hexadecimal digits for each byte.
fn put_bytes(alloc: Global, own: &[u8], out: &mut Output) -> Written
    ensures { WritesHex own.now out.old out.new result }
{
    if out.is_nothing() {
        return Ok(());
    }
    if own.len() <= 32 {
        return put_short(own, out);
    }
    match own.len().saturating_add(1).checked_mul(2) {
        Some(len) => {
            let mut text = vec![in alloc; 0u8; len]?;
            put_hex(own, text.as_mut_slice(), out)
        }
        None => Err(WriteError::OutOfMemory),
    }
}

/// The same of at most 32 bytes.
fn put_short(own: &[u8], out: &mut Output) -> Written
    requires { length own.now ≤ 32 }
    ensures { WritesHex own.now out.old out.new result }
{
    let mut text = [0u8; 66];
    put_hex(own, &mut text[..2 * own.len() + 2], out)
}

/// The same, through a text of so many bytes.
fn put_hex(own: &[u8], text: &mut [u8], out: &mut Output) -> Written
    requires { length text.old ≡ 2 * length own.now + 2 }
    ensures { WritesHex own.now out.old out.new result }
{
    spell(own, text);
    let text = str::from_utf8(text).unwrap();
    Ok(out.put(Token::String(text))?)
}

/// Writes `0x` and the digits over a text.
fn spell(own: &[u8], text: &mut [u8])
    requires { length text.old ≡ 2 * length own.now + 2 }
    ensures { text.new ≡ codes "0x" ++ encode_lower own.now }
{
    text[0] = b'0';
    text[1] = b'x';
    hex::encode_to_slice(own, &mut text[2..]).unwrap()
}
