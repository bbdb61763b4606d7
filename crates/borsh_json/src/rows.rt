// What each of the bytes of a value is.
ghost use Rattle.borsh_json.specs.Words.{IsNoMemberReason, IsNoRowsReason, IsPrimitiveKind, IsWhole, Member, definitions_of, float, float_size, form_of, forms_in, primitive_kind, root_of};
ghost use Rattle.borsh_json.specs.Rows.{BeginsRows, GivesRow, IsNoRow, IsPrimitiveText, IsQuoted, IsTextOf, IsValueText, NestsTooDeep, counted, rows_plan};
ghost use Rattle.std.specs.Float.{Format};
ghost use Rattle.std.specs.Prelude.{◌≡◌, ◌≤◌, [], false, ℕ, Decides, IfErr, IfOk, List, MatchOption, OnOk, string_bytes};

use crate::error::{JsonError, Refusal};
use crate::floats::shortest;
use crate::formats::is_list;
use crate::kinds::{Kind, kind_of_primitive};
use crate::numbers::Number;
use borsh_values::{
    Membership, Node, Path, Plan, Preorder, PreorderError, count_of, elements_of, is_member_of,
    variant_of,
};
use borsh_walks::Definition;
use itoa::Buffer;
use json::MAX_DEPTH;
use std::alloc::{AllocError, Global};
use std::collections::BTreeMap;
use std::str;

/// What each of the bytes of a value is, one row after another: a row is the node of the count of a list, with its elements if
/// these are primitives; of the tag of an enum; or of a primitive. [`value_of`] says what its bytes say. As much memory is taken
/// as values are in one another, at most 128.
///
/// ```
/// let plan = Plan::new(alloc, "(u8, bool)", &definitions)?;
/// let mut rows = Rows::new(alloc, &plan, &[7, 1])?;
/// while let Some(row) = rows.next()? {
///     let value = value_of(alloc, &definitions, &row)?;
///     println!(rt; "{}: {} {value}", row.offset, rows.path())?;
/// }
/// ```
#[derive(Drop)]
pub struct Rows<'a, 'l, 'b> {
    alloc: Global,
    nodes: Preorder<'a, 'l, 'b>,
}

impl<'a, 'l, 'b> Rows<'a, 'l, 'b> {
    /// In front of the first row of the value of the plan's root that `bytes` are.
    ///
    /// The errors are as of [`to_json`](crate::to_json), without refusals. Left open: memory.
    pub fn new(
        alloc: Global,
        plan: &'l Plan<'a>,
        bytes: &'b [u8],
    ) -> Result<Rows<'a, 'l, 'b>, JsonError<'a>>
        ensures member { OnOk result (Member (definitions_of plan.now) (root_of plan.now) bytes.now) }
        ensures rows { IfOk result (BeginsRows plan.entry bytes.now) }
        ensures reason { IfErr result (IsNoRowsReason (definitions_of plan.now) (root_of plan.now) bytes.now) }
        ensures unrefused { IfErr result (IsNoMemberReason (definitions_of plan.now) (root_of plan.now) bytes.now) }
    {
        match is_member_of(alloc, plan, bytes)? {
            Membership::Member => Ok(Rows {
                alloc,
                nodes: Preorder::new(alloc, plan, bytes)?,
            }),
            Membership::NoMember(fault) => Err(JsonError::NoMember(fault)),
            Membership::Ambiguous(name) => Err(JsonError::Ambiguous(name)),
        }
    }

    /// The next row; none where all bytes are in a row. After an error the rows are to be dropped.
    ///
    /// Determined: a row has the first of the bytes that are left, at least one, and its offset is the number of bytes before them;
    /// its name is the next to be read, whose definition in the map encodes them before its parts, and its depth is the number of
    /// values around it. The only refusal is `TooDeep`, with its path, where a value inside of more than 128 others comes next.
    /// Left open: memory.
    pub fn next(&mut self) -> Result<Option<Node<'a, 'b>>, JsonError<'a>>
        ensures row { IfOk result (λ found. GivesRow self.old self.new found) }
        ensures plan { rows_plan self.new ≡ rows_plan self.old }
        ensures reason { IfErr result (IsNoRow (rows_plan self.old).now) }
        ensures deep { IfErr result (NestsTooDeep self.old.nodes) }
    {
        for _ in 0..u64::MAX {
            let node = match self.nodes.next() {
                Ok(Some(node)) => node,
                Ok(None) => return Ok(None),
                Err(PreorderError::OutOfMemory) => return Err(JsonError::OutOfMemory),
                Err(PreorderError::Ambiguous(name)) => return Err(JsonError::Ambiguous(name)),
            };
            if node.depth > MAX_DEPTH {
                let Path { root, steps } = self.nodes.path();
                let steps = Vec::from_slice(self.alloc, steps.as_slice())?;
                return Err(JsonError::Refused(Path { root, steps }, Refusal::TooDeep));
            }
            if !node.bytes.is_empty() {
                return Ok(Some(node));
            }
        }
        Err(JsonError::OutOfMemory)
    }

    /// The path of the row that was given last, or of the root. Left open: none.
    pub fn path(&self) -> &Path<'a>
        ensures root { result.now.root.now ≡ root_of (rows_plan self.now).now }
        ensures path { result.now ≡ self.now.nodes.path }
    {
        self.nodes.path()
    }
}

/// What the own bytes of a node say, by its name and definition, where these are of the map: a whole number in decimal, a float, a
/// `bool`, a text in quotation marks, the number of elements of a list, the name of a variant; nothing of other nodes.
///
/// The only error is that an allocation failed. Left open: memory; of the numbers that read back as a float, which: tested.
///
/// ```
/// // the node of `bool`
/// assert_eq!(rt; value_of(alloc, &definitions, &node)?.as_str(), "true");
/// ```
pub fn value_of<'a>(
    alloc: Global,
    map: &BTreeMap<String, Definition>,
    node: &Node<'a, '_>,
) -> Result<String, AllocError>
    ensures { IfOk result (λ v. IsValueText (forms_in map.now) node.now.name.now (form_of node.now.definition.now)
        node.now.bytes.now (string_bytes v)) }
{
    match node.definition {
        Definition::Primitive(size) => {
            primitive_text(alloc, kind_of_primitive(node.name, *size), node.bytes)
        }
        Definition::Sequence { elements, .. } => {
            if is_list(node.definition) && is_text(map, node.name, elements.as_str()) {
                quoted(alloc, elements_of(node))
            } else {
                counted_text(alloc, count_of(node))
            }
        }
        Definition::Enum { variants, .. } => {
            let Some(index) = variant_of(node) else {
                return Ok(String::new(alloc));
            };
            match variants.get(index) {
                Some((_, variant, _)) => String::from_str(alloc, variant.as_str()),
                None => Ok(String::new(alloc)),
            }
        }
        _ => Ok(String::new(alloc)),
    }
}

/// Whether the name, of a list of these elements, is the format's `String`.
fn is_text(map: &BTreeMap<String, Definition>, name: &str, element: &str) -> bool
    ensures { Decides result (IsTextOf (forms_in map.now) name.now element.now) }
{
    name == "String"
        && element == "u8"
        && matches!(map.get(element), Some(Definition::Primitive(1)))
}

fn primitive_text(alloc: Global, kind: Kind<'_>, bytes: &[u8]) -> Result<String, AllocError>
    ensures { (x : List ℕ) (n : ℕ) → IsPrimitiveKind kind.entry (primitive_kind x n) →
        IfOk result (λ v. IsPrimitiveText (primitive_kind x n) bytes.now (string_bytes v)) }
{
    match kind {
        Kind::Number(number) => number_text(alloc, number, bytes),
        Kind::Float(size) => float_text(alloc, size, bytes),
        Kind::Bool => match bytes {
            [0] => String::from_str(alloc, "false"),
            [1] => String::from_str(alloc, "true"),
            _ => String::from_str(alloc, "neither true nor false"),
        },
        _ => Ok(String::new(alloc)),
    }
}

/// The number that the bytes encode, in decimal.
fn number_text(alloc: Global, number: Number, bytes: &[u8]) -> Result<String, AllocError>
    ensures { number.size ≤ 16 →
        IfOk result (λ v. IsWhole number.size number.is_signed false (string_bytes v) bytes.now) }
{
    if bytes.len() != usize::from(number.size) {
        return Err(AllocError);
    }
    let mut buffer = Buffer::new();
    String::from_str(alloc, number.decimal(&mut buffer, bytes))
}

/// The float that the bytes encode, as JSON has it without quotation marks.
fn float_text(alloc: Global, size: u8, bytes: &[u8]) -> Result<String, AllocError>
    ensures { (f : Format) → size ≡ float_size f →
        IfOk result (λ v. IsPrimitiveText (float f) bytes.now (string_bytes v)) }
{
    if bytes.len() != usize::from(size) {
        return Err(AllocError);
    }
    let mut buffer = ryu::Buffer::new();
    match shortest(bytes, &mut buffer) {
        Some(text) => String::from_str(alloc, text),
        None => String::from_str(alloc, "not a number"),
    }
}

fn quoted(alloc: Global, bytes: &[u8]) -> Result<String, AllocError>
    ensures { IfOk result (λ v. IsQuoted bytes.now (string_bytes v)) }
{
    match str::from_utf8(bytes) {
        Ok(text) => format!(in alloc; "\"{text}\""),
        Err(_) => String::from_str(alloc, "not UTF-8"),
    }
}

fn counted_text(alloc: Global, count: Option<u64>) -> Result<String, AllocError>
    ensures { IfOk result
        (λ v. MatchOption count (string_bytes v ≡ []) (λ k. string_bytes v ≡ counted k)) }
{
    match count {
        Some(1) => String::from_str(alloc, "1 element"),
        Some(count) => format!(in alloc; "{count} elements"),
        None => Ok(String::new(alloc)),
    }
}
