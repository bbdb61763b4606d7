// How a value of each kind is written: whole, or its beginning, behind which its parts follow.
ghost use Rattle.borsh_json.specs.Words.{ArePartsOf, BeginsAt, BeginsStruct, Form, FoundChoice, FoundList, FoundMap, FoundOption, FoundOrder, HasNode, NamedPlace, WritesValueOf, forms_of, names_of};
ghost use Rattle.std.specs.Prelude.{ℕ, List, Option};

use crate::error::WriteError;
use crate::kinds::{Elements, Entries, Kind, Variants};
use crate::leaves::{
    write_byte_list, write_name, write_null, write_numbers, write_primitive, write_text,
};
use crate::output::Output;
use crate::position::{Parts, Place};
use crate::table::Table;
use borsh_values::{Node, count_of, variant_of};
use json::Token;
use std::alloc::Global;

/// Where a value's parts are written; none if it was written whole.
type Begun<'a, 'b> = Result<Option<Place<'a, 'b>>, WriteError>;

/// Begins a value of a kind that has no own bytes; of another kind none is begun, and nothing is written.
pub fn begin_struct<'a, 'b>(
    alloc: Global,
    at: usize,
    kind: Kind<'a>,
    out: &mut Output,
) -> Begun<'a, 'b>
    ensures { BeginsStruct at kind.entry out.old out.new result }
{
    if let Kind::Refused(flaw) = kind {
        return Err(WriteError::Refused(flaw.refusal(alloc)?));
    }
    let Some(parts) = parts_of_struct(at, kind) else {
        return Ok(None);
    };
    begin(parts, out)
}

/// The parts of a value of a kind that has no own bytes.
fn parts_of_struct<'a>(at: usize, kind: Kind<'a>) -> Option<Parts<'a>>
    ensures { ArePartsOf at kind.entry result }
{
    match kind {
        Kind::Row(count) => Some(Parts::Row(at, count)),
        Kind::Newtype(part) => Some(Parts::Newtype(part)),
        Kind::Object(fields) => Some(Parts::Object(at, fields)),
        _ => None,
    }
}

/// Writes the bracket in front of a value's parts.
fn begin<'a, 'b>(parts: Parts<'a>, out: &mut Output) -> Begun<'a, 'b>
    ensures { BeginsAt parts.entry out.old out.new result }
{
    match parts {
        Parts::Root | Parts::Newtype(_) | Parts::Some(_) => (),
        Parts::List(_, _) | Parts::Row(_, _) => out.put(Token::BeginArray)?,
        Parts::Object(_, _) | Parts::Entries(_, _) | Parts::Variant(_, _) => {
            out.put(Token::BeginObject)?
        }
    }
    let place: Place<'a, 'b> = Place::new(parts);
    Ok(Some(place))
}

/// Writes a value of another kind, whose node this is, or begins it.
pub fn begin_value<'a, 'b>(
    json: &Table<'a, '_>,
    at: usize,
    kind: Kind<'a>,
    node: &Node<'a, 'b>,
    out: &mut Output,
) -> Begun<'a, 'b>
    ensures { HasNode kind.entry →
        WritesValueOf (forms_of json.now) (names_of json.now) at kind.entry node.now out.old out.new result }
{
    match kind {
        Kind::Number(_) | Kind::Bool | Kind::Bytes(_) | Kind::Float(_) => {
            write_primitive(json.alloc(), kind, node, out)?;
            Ok(None)
        }
        Kind::Text => {
            write_text(node, out)?;
            Ok(None)
        }
        Kind::ByteList(elements) => {
            write_byte_list(json.alloc(), node, elements, out)?;
            Ok(None)
        }
        Kind::Numbers(elements) => {
            write_numbers(json, node, elements, out)?;
            Ok(None)
        }
        Kind::List(elements) => begin_list(elements, node, out),
        Kind::Map(entries, _) => begin_map(entries, node, out),
        Kind::Optional(part) => begin_option(part, node, out),
        Kind::Choice(_, variants) => begin_variant(json, at, variants, node, out),
        _ => Ok(None),
    }
}

fn begin_list<'a, 'b>(elements: Elements, node: &Node<'a, 'b>, out: &mut Output) -> Begun<'a, 'b>
    ensures { (F : List ℕ → Option Form) (ns : List NamedPlace) (at : ℕ) →
        WritesValueOf F ns at (FoundList elements) node.now out.old out.new result }
{
    let count = count_of(node).unwrap_or(0);
    let parts: Parts<'a> = Parts::List(elements.at, count);
    begin(parts, out)
}

fn begin_map<'a, 'b>(entries: Entries<'a>, node: &Node<'a, 'b>, out: &mut Output) -> Begun<'a, 'b>
    ensures { (F : List ℕ → Option Form) (ns : List NamedPlace) (at : ℕ) (order : FoundOrder) →
        WritesValueOf F ns at (FoundMap entries.entry order) node.now out.old out.new result }
{
    let count = count_of(node).unwrap_or(0);
    begin(Parts::Entries(entries, count), out)
}

fn begin_option<'a, 'b>(part: usize, node: &Node<'a, 'b>, out: &mut Output) -> Begun<'a, 'b>
    ensures { (F : List ℕ → Option Form) (ns : List NamedPlace) (at : ℕ) →
        WritesValueOf F ns at (FoundOption part) node.now out.old out.new result }
{
    let index = variant_of(node).unwrap_or(usize::MAX);
    if index == 0 {
        write_null(out)?;
        return Ok(None);
    }
    let parts: Parts<'a> = Parts::Some(part);
    begin(parts, out)
}

fn begin_variant<'a, 'b>(
    json: &Table<'a, '_>,
    at: usize,
    variants: &'a Variants,
    node: &Node<'a, 'b>,
    out: &mut Output,
) -> Begun<'a, 'b>
    ensures { (w : ℕ) →
        WritesValueOf (forms_of json.now) (names_of json.now) at (FoundChoice w variants.entry) node.now out.old out.new result }
{
    let index = variant_of(node).unwrap_or(usize::MAX);
    let Some((_, variant, _)) = variants.get(index) else {
        return Ok(None);
    };
    let part = json.part(at, index);
    if json.is_zero_size(part) {
        write_name(variant.as_str(), out)?;
        return Ok(None);
    }
    begin(Parts::Variant(variant.as_str(), part), out)
}
