// Many values of one schema, which is decoded once.
ghost use Rattle.borsh_plan.specs.Plan.{definitions_of, map_of, root_of};
ghost use Rattle.borsh_c.specs.Answers.{About, IsRefused, IsUnclear};
ghost use Rattle.borsh_c.specs.Many.{AreLines, BeginWithLengths, HaveLines, HasNoLine, IsNoLine, IsNoRecord, IsStop, CountsValues, behind};
ghost use Rattle.borsh_json.specs.declared.output.Characters.TheVariants.{Any};
ghost use Rattle.borsh_json.specs.declared.output.Layout.TheVariants.{Compact};
ghost use Rattle.std.specs.Prelude.{◌≡◌, ◌≤◌, IfErr, IfOk, drop, length, take};

use super::answers::{container_from, no, no_value, said_of, unclear};
use super::refusal::{NoAnswer, Said};
use borsh_json::{Json, JsonError, Style};
use borsh_values::{Fault, Front, Plan, front_of};
use std::alloc::{AllocError, Global};

/// As the tool says it.
const EMPTY_VALUE: &str =
    "the type has a value without bytes, so that any bytes are any number of values";

/// The first of the bytes, at most so many.
fn first(bytes: &[u8], length: usize) -> &[u8]
    ensures { result.now ≡ take length bytes.now }
{
    if length < bytes.len() {
        &bytes[..length]
    } else {
        bytes
    }
}

/// The bytes behind those.
fn others(bytes: &[u8], length: usize) -> &[u8]
    ensures { result.now ≡ drop length bytes.now }
{
    if length < bytes.len() {
        &bytes[length..]
    } else {
        &bytes[..0]
    }
}

/// What was found behind values.
#[derive(Drop)]
pub enum Stop<'a> {
    /// No bytes, or no room for another length.
    End,
    /// That the root has the empty value.
    EmptyValue,
    /// The beginning of a value.
    Short(Fault<'a>),
    /// No value, whatever bytes follow.
    NoMember(Fault<'a>),
    /// A definition that is ambiguous.
    Ambiguous(&'a str),
}

/// How many values bytes begin with, and what is behind them.
#[derive(Drop)]
struct Measured<'a> {
    count: usize,
    stop: Stop<'a>,
}

/// Writes the length of each of the values that the bytes begin with.
fn measure<'a>(
    alloc: Global,
    plan: &Plan<'a>,
    bytes: &[u8],
    lengths: &mut [usize],
) -> Result<Measured<'a>, AllocError>
    ensures room { IfOk result (λ m. m.count ≤ length lengths.new) }
    ensures values { let C = definitions_of plan.now in
        IfOk result (λ m. BeginWithLengths C (root_of plan.now) (take m.count lengths.new) bytes.now) }
    ensures stop { let C = definitions_of plan.now in
        let left = λ (m : Measured). behind (take m.count lengths.new) bytes.now in
        IfOk result (λ m. IsStop C (root_of plan.now) (length lengths.new) m.count (left m) m.stop) }
{
    let mut left = bytes;
    let mut count = 0;
    while count < lengths.len() && !left.is_empty() {
        match front_of(alloc, plan, left)? {
            Front::Value(length) => {
                if length == 0 {
                    return Ok(Measured {
                        count,
                        stop: Stop::EmptyValue,
                    });
                }
                lengths[count] = length;
                left = others(left, length);
                count += 1;
            }
            Front::TooShort(fault) => {
                return Ok(Measured {
                    count,
                    stop: Stop::Short(fault),
                });
            }
            Front::NoMember(fault) => {
                return Ok(Measured {
                    count,
                    stop: Stop::NoMember(fault),
                });
            }
            Front::Ambiguous(name) => {
                return Ok(Measured {
                    count,
                    stop: Stop::Ambiguous(name),
                });
            }
        }
    }
    Ok(Measured {
        count,
        stop: Stop::End,
    })
}

/// How many values bytes begin with, or where the first is cut.
#[derive(Drop)]
pub enum Whole {
    /// So many.
    Values(usize),
    /// The bytes end within the first.
    Short(Said),
}

/// Writes the length of each of the values that the bytes begin with, as many as are whole and as there is room for.
pub fn whole_values(
    alloc: Global,
    schema: &[u8],
    bytes: &[u8],
    lengths: &mut [usize],
) -> Result<Whole, NoAnswer>
    ensures ok { IfOk result (λ w. CountsValues schema.now bytes.now lengths.new w) }
    ensures err { IfErr result (λ e. IsRefused schema.now (IsNoRecord bytes.now) IsUnclear e) }
{
    let (root, definitions) = container_from(alloc, schema)?;
    let plan = Plan::new(alloc, root.as_str(), &definitions)?;
    let measured = measure(alloc, &plan, bytes, lengths)?;
    if measured.count > 0 {
        return Ok(Whole::Values(measured.count));
    }
    match measured.stop {
        Stop::End => Ok(Whole::Values(0)),
        Stop::EmptyValue => Err(no(String::from_str(alloc, EMPTY_VALUE)?, None)),
        Stop::Short(fault) => {
            let said = said_of(alloc, "", &fault)?;
            Ok(Whole::Short(said))
        }
        Stop::NoMember(fault) => Err(NoAnswer::No(said_of(alloc, "", &fault)?)),
        Stop::Ambiguous(name) => Err(NoAnswer::Undecided(unclear(alloc, name)?)),
    }
}

/// How many values have a line of JSON, the lines, and why the next value has none.
#[derive(Drop)]
struct Written<'a> {
    count: usize,
    text: Vec<u8>,
    stop: Option<JsonError<'a>>,
}

/// The JSON of each of the values that have these lengths, and a line end behind it, up to one that has none.
fn write_lines<'a>(
    alloc: Global,
    json: &Json<'a, '_>,
    values: &[u8],
    lengths: &[usize],
    style: Style,
) -> Result<Written<'a>, AllocError>
    requires { (style.layout ≡ Compact) × (style.characters ≡ Any) }
    ensures room { IfOk result (λ w. w.count ≤ length lengths.now) }
    ensures lines { let l = json.now.plan.now in
        IfOk result (λ w. HaveLines style.long_numbers (map_of l) (root_of l) (take w.count lengths.now) values.now w.text.items) }
    ensures stop { let l = json.now.plan.now in
        IfOk result (λ w. IsNoLine (map_of l) (root_of l) lengths.now values.now w.count w.stop) }
{
    let mut text: Vec<u8> = Vec::new(alloc);
    let mut left = values;
    let mut count = 0;
    while count < lengths.len() {
        match json.to_json(first(left, lengths[count]), style) {
            Ok(line) => {
                text.extend_from_slice(line.as_bytes())?;
                text.push(b'\n')?;
            }
            Err(JsonError::OutOfMemory) => return Err(AllocError),
            Err(error) => {
                return Ok(Written {
                    count,
                    text,
                    stop: Some(error),
                });
            }
        }
        left = others(left, lengths[count]);
        count += 1;
    }
    Ok(Written {
        count,
        text,
        stop: None,
    })
}

/// How many values have a line of JSON, and the lines.
#[derive(Drop)]
pub struct Lines {
    pub count: usize,
    pub text: Vec<u8>,
}

/// The JSON of each of the values that have these lengths, up to one that has none.
pub fn lines_of(
    alloc: Global,
    schema: &[u8],
    values: &[u8],
    lengths: &[usize],
    style: Style,
) -> Result<Lines, NoAnswer>
    requires { (style.layout ≡ Compact) × (style.characters ≡ Any) }
    ensures ok { let lines = λ (l : Lines). AreLines style.long_numbers values.now lengths.now l.count l.text.items in
        IfOk result (λ l. About schema.now (lines l)) }
    ensures err { IfErr result (λ e. IsRefused schema.now (HasNoLine values.now lengths.now) IsUnclear e) }
{
    let (root, definitions) = container_from(alloc, schema)?;
    let plan = Plan::new(alloc, root.as_str(), &definitions)?;
    let json = Json::new(alloc, &plan)?;
    let written = write_lines(alloc, &json, values, lengths, style)?;
    let (count, text) = (written.count, written.text);
    if count > 0 {
        return Ok(Lines { count, text });
    }
    match written.stop {
        None => Ok(Lines { count, text }),
        Some(error) => Err(no_value(alloc, &error)?),
    }
}
