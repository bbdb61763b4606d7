// What is checked of a value by its definitions.
use super::definitions::{Definitions, text};
use super::wrong::{Wrong, check, expect};
use borsh_json::{
    JsonError, LongNumbers, Rows, Style, check_strict, from_json, json_gives_back, to_json,
    value_of,
};
use borsh_values::{
    Front, Membership, Node, Plan, Preorder, RecordError, Records, count_of, elements_of, front_of,
    is_member, is_member_of, variant_of,
};
use std::alloc::Global;
use test_devices::{Course, TestReader, courses};

/// How many beginnings of a value are tried.
const BEGINNINGS: usize = 300;

/// Definitions, and the name of the type whose values are judged.
#[derive(Clone, Copy)]
pub struct Root<'a> {
    pub alloc: Global,
    pub map: &'a Definitions,
    pub name: &'a str,
}

impl<'a> Root<'a> {
    /// That the bytes are a value with this JSON, and the type takes them; or after `! ` why they are none.
    pub fn judge(&self, bytes: &[u8], json: &str) -> Result<(), Wrong> {
        if json.starts_with("! ") {
            return self.judge_refused(bytes, json);
        }
        self.judge_written(bytes, json)?;
        self.judge_lengths(bytes)?;
        self.judge_read(json, bytes)?;
        let lines = self.json(bytes, Style::PRETTY)?;
        self.judge_read(lines.as_str(), bytes)?;
        self.judge_rows(bytes)
    }

    /// That no call takes the bytes for a value, and each says this.
    fn judge_refused(&self, bytes: &[u8], wanted: &str) -> Result<(), Wrong> {
        let alloc = self.alloc;
        expect(alloc, "is_member", self.member(bytes)?.as_str(), wanted)?;
        let front = self.front(bytes)?;
        let is_front = wanted.ends_with("too few bytes are left") == (front.as_str() == "short");
        check(alloc, is_front, "front", front.as_str())?;
        self.expect_answers(bytes, wanted)?;
        let plan = Plan::new(alloc, self.name, self.map)?;
        match Rows::new(alloc, &plan, bytes) {
            Ok(_) => check(alloc, false, "rows", "rows"),
            Err(error) => expect(alloc, "rows", told(alloc, &error)?.as_str(), wanted),
        }
    }

    /// That the bytes are a value, which has this JSON, or after `! ` why none.
    pub fn judge_written(&self, bytes: &[u8], json: &str) -> Result<(), Wrong> {
        self.judge_member(bytes)?;
        self.expect_answers(bytes, json)
    }

    /// That the bytes have this JSON, and pass without their type; or neither, and each call says why.
    fn expect_answers(&self, bytes: &[u8], json: &str) -> Result<(), Wrong> {
        let alloc = self.alloc;
        let written = self.json(bytes, Style::COMPACT)?;
        expect(alloc, "to_json", written.as_str(), json)?;
        let strict = self.strict(bytes)?;
        if json.starts_with("! ") {
            return expect(alloc, "check_strict", strict.as_str(), json);
        }
        expect(alloc, "check_strict", strict.as_str(), "taken")?;
        self.expect_given_back(bytes)
    }

    /// That the JSON of the bytes gives these back.
    fn expect_given_back(&self, bytes: &[u8]) -> Result<(), Wrong> {
        let alloc = self.alloc;
        match json_gives_back(alloc, self.name, self.map, bytes, Style::PRETTY) {
            Ok(back) => check(
                alloc,
                back.as_slice() == bytes,
                "json_gives_back",
                "other bytes",
            ),
            Err(error) => check(
                alloc,
                false,
                "json_gives_back",
                told(alloc, &error)?.as_str(),
            ),
        }
    }

    /// That the bytes are a value with this JSON where numbers of 64 bits are texts.
    pub fn judge_quoted(&self, bytes: &[u8], json: &str) -> Result<(), Wrong> {
        let style = Style {
            long_numbers: LongNumbers::Quoted,
            ..Style::COMPACT
        };
        expect(
            self.alloc,
            "to_json",
            self.json(bytes, style)?.as_str(),
            json,
        )?;
        self.judge_read(json, bytes)
    }

    /// That the bytes have a JSON, which is read as them, exactly if they pass without their type.
    pub fn judge_json(&self, bytes: &[u8]) -> Result<(), Wrong> {
        let written = self.json(bytes, Style::COMPACT)?;
        let strict = self.strict(bytes)?;
        if strict.as_str() == "taken" {
            self.judge_read(written.as_str(), bytes)
        } else {
            expect(self.alloc, "JSON", written.as_str(), strict.as_str())
        }
    }

    /// `taken`, or why the bytes don't pass without their type.
    pub fn strict(&self, bytes: &[u8]) -> Result<String, Wrong> {
        match check_strict(self.alloc, self.name, self.map, bytes) {
            Ok(()) => text(self.alloc, "taken"),
            Err(error) => told(self.alloc, &error),
        }
    }

    /// That a JSON text is read as these digits, or refused with the text after `! `.
    pub fn judge_text(&self, json: &str, wanted: &str) -> Result<(), Wrong> {
        let read = match from_json(self.alloc, self.name, self.map, json) {
            Ok(bytes) => hex::encode(self.alloc, bytes.as_slice())?,
            Err(error) => told(self.alloc, &error)?,
        };
        expect(self.alloc, "from_json", read.as_str(), wanted)
    }

    /// That the bytes are a value, with nodes that have these bytes, each where its own begin.
    pub fn judge_member(&self, bytes: &[u8]) -> Result<(), Wrong> {
        let alloc = self.alloc;
        expect(alloc, "is_member", self.member(bytes)?.as_str(), "member")?;
        let joined = self.joined_nodes(bytes)?;
        check(alloc, joined.as_slice() == bytes, "nodes", "other bytes")
    }

    /// The own bytes of all nodes of a value.
    fn joined_nodes(&self, bytes: &[u8]) -> Result<Vec<u8>, Wrong> {
        let alloc = self.alloc;
        let mut joined = Vec::new(alloc);
        let plan = Plan::new(alloc, self.name, self.map)?;
        let Membership::Member = is_member_of(alloc, &plan, bytes)? else {
            return Ok(joined);
        };
        let mut nodes = Preorder::new(alloc, &plan, bytes)?;
        for _ in 0..u64::MAX {
            let Ok(Some(node)) = nodes.next() else {
                break;
            };
            check(
                alloc,
                node.offset == joined.len(),
                "a node",
                "another offset",
            )?;
            joined.extend_from_slice(node.bytes)?;
        }
        Ok(joined)
    }

    /// That neither a beginning of the bytes is a value nor they with one byte more, which begin with the value.
    fn judge_lengths(&self, bytes: &[u8]) -> Result<(), Wrong> {
        let alloc = self.alloc;
        for end in 0..bytes.len().min(BEGINNINGS) {
            check(alloc, !self.has(&bytes[..end])?, "is_member", "a beginning")?;
            expect(alloc, "front", self.front(&bytes[..end])?.as_str(), "short")?;
        }
        let mut longer = Vec::from_slice(alloc, bytes)?;
        longer.push(0)?;
        check(alloc, !self.has(longer.as_slice())?, "is_member", "longer")?;
        let length = format!(in alloc; "{}", bytes.len())?;
        let front = self.front(longer.as_slice())?;
        expect(alloc, "front", front.as_str(), length.as_str())
    }

    fn front(&self, bytes: &[u8]) -> Result<String, Wrong> {
        front(self.alloc, self.name, self.map, bytes)
    }

    /// Whether the bytes are a value.
    pub fn has(&self, bytes: &[u8]) -> Result<bool, Wrong> {
        let answer = is_member(self.alloc, self.name, self.map, bytes)?;
        Ok(matches!(answer, Membership::Member))
    }

    /// That the bytes are values one after another which begin at these offsets, and then end, or why they don't; from readers
    /// in pieces. A beginning of the bytes ends within a value, or behind one.
    pub fn judge_records(&self, bytes: &[u8], wanted: &str) -> Result<(), Wrong> {
        let alloc = self.alloc;
        for course in courses() {
            let told = self.records(bytes, course)?;
            expect(alloc, "records", told.as_str(), wanted)?;
        }
        for end in 0..bytes.len() {
            let told = self.records(&bytes[..end], Course::smooth())?;
            let (offsets, ending) = told.rsplit_once('+').unwrap_or(("", told.as_str()));
            let ends = ending == "end" || ending.contains("cut short") || wanted.ends_with(ending);
            check(
                alloc,
                ends && wanted.starts_with(offsets),
                "a beginning",
                told.as_str(),
            )?;
        }
        Ok(())
    }

    fn records(&self, bytes: &[u8], course: Course) -> Result<String, Wrong> {
        let plan = Plan::new(self.alloc, self.name, self.map)?;
        let mut told = String::new(self.alloc);
        let reader = TestReader::new(bytes, course);
        let outcome = list_records(self.alloc, &plan, reader, &mut told);
        match outcome {
            Ok(()) => told.push_str("end")?,
            Err(error) => told.push_str(format!(in self.alloc; "! {error}")?.as_str())?,
        }
        Ok(told)
    }

    /// That the JSON is read as these bytes.
    pub fn judge_read(&self, json: &str, bytes: &[u8]) -> Result<(), Wrong> {
        let alloc = self.alloc;
        match from_json(alloc, self.name, self.map, json) {
            Ok(read) => check(alloc, read.as_slice() == bytes, "from_json", "bytes"),
            Err(error) => check(alloc, false, "from_json", told(alloc, &error)?.as_str()),
        }
    }

    /// That each of the bytes is in one row.
    pub fn judge_rows(&self, bytes: &[u8]) -> Result<(), Wrong> {
        let alloc = self.alloc;
        match self.joined_rows(bytes) {
            Ok(joined) => check(alloc, joined.as_slice() == bytes, "rows", "other bytes"),
            Err(error) => check(alloc, false, "rows", told(alloc, &error)?.as_str()),
        }
    }

    /// The bytes of all rows.
    fn joined_rows(&self, bytes: &[u8]) -> Result<Vec<u8>, JsonError<'a>> {
        let plan = Plan::new(self.alloc, self.name, self.map)?;
        let mut rows = Rows::new(self.alloc, &plan, bytes)?;
        let mut joined = Vec::new(self.alloc);
        for _ in 0..u64::MAX {
            let Some(row) = rows.next()? else {
                break;
            };
            joined.extend_from_slice(row.bytes)?;
            let _value = value_of(self.alloc, self.map, &row)?;
        }
        Ok(joined)
    }

    /// The JSON of the bytes, or why there is none.
    fn json(&self, bytes: &[u8], style: Style) -> Result<String, Wrong> {
        match to_json(self.alloc, self.name, self.map, bytes, style) {
            Ok(json) => Ok(json),
            Err(error) => told(self.alloc, &error),
        }
    }

    /// `member`, or why the bytes are none.
    fn member(&self, bytes: &[u8]) -> Result<String, Wrong> {
        match is_member(self.alloc, self.name, self.map, bytes)? {
            Membership::Member => text(self.alloc, "member"),
            Membership::NoMember(fault) => told(self.alloc, &JsonError::NoMember(fault)),
            Membership::Ambiguous(name) => told(self.alloc, &JsonError::Ambiguous(name)),
        }
    }

    /// That the bytes have these nodes. One is its depth, its offset, its path, and after a colon its type and its own bytes;
    /// then the number of elements and those of its bytes that are elements, or the variant.
    pub fn judge_nodes(&self, bytes: &[u8], wanted: &[&str]) -> Result<(), Wrong> {
        let alloc = self.alloc;
        self.judge_member(bytes)?;
        let plan = Plan::new(alloc, self.name, self.map)?;
        let Membership::Member = is_member_of(alloc, &plan, bytes)? else {
            return check(alloc, false, "is_member", "no member");
        };
        let mut nodes = Preorder::new(alloc, &plan, bytes)?;
        for wanted in wanted {
            let Ok(Some(node)) = nodes.next() else {
                return check(alloc, false, "nodes", "too few");
            };
            let (depth, offset, path) = (node.depth, node.offset, nodes.path());
            let name = node.name;
            let own = digits_of(alloc, node.bytes)?;
            let detail = detail(alloc, &node)?;
            let line = format!(in alloc; "{depth} {offset} {path}: {name} {own}{detail}")?;
            expect(alloc, "a node", line.as_str(), wanted)?;
        }
        check(alloc, matches!(nodes.next(), Ok(None)), "nodes", "too many")
    }
}

/// Adds where each of the values of at most 1000 bytes begins.
fn list_records<'a>(
    alloc: Global,
    plan: &Plan<'a>,
    reader: TestReader<'_>,
    told: &mut String,
) -> Result<(), RecordError<'a>> {
    let mut records = Records::new(alloc, plan, reader, 1000)?;
    'values: for _ in 0..u64::MAX {
        if !records.advance(alloc)? {
            break;
        }
        told.push_str(format!(in alloc; "{}+", records.offset())?.as_str())?;
    }
    Ok(())
}

/// How many of the first bytes are a value; or why none are.
fn front<'a>(
    alloc: Global,
    name: &'a str,
    map: &'a Definitions,
    bytes: &[u8],
) -> Result<String, Wrong> {
    let plan = Plan::new(alloc, name, map)?;
    match front_of(alloc, &plan, bytes)? {
        Front::Value(taken) => Ok(format!(in alloc; "{taken}")?),
        Front::TooShort(_) => text(alloc, "short"),
        Front::NoMember(fault) => told(alloc, &JsonError::NoMember(fault)),
        Front::Ambiguous(name) => told(alloc, &JsonError::Ambiguous(name)),
    }
}

/// How many elements a node has, and which of its bytes these are; or its variant. It is known by its index.
fn detail(alloc: Global, node: &Node<'_, '_>) -> Result<String, Wrong> {
    let elements = elements_of(node);
    if let Some(count) = count_of(node) {
        let elements = digits_of(alloc, elements)?;
        return Ok(format!(in alloc; " #{count} {elements}")?);
    }
    check(alloc, elements == node.bytes, "elements_of", "other bytes")?;
    match variant_of(node) {
        Some(variant) => Ok(format!(in alloc; " ={variant}")?),
        None => Ok(String::new(alloc)),
    }
}

/// Bytes as digits, `-` for none.
pub fn digits_of(alloc: Global, bytes: &[u8]) -> Result<String, Wrong> {
    if bytes.is_empty() {
        return text(alloc, "-");
    }
    Ok(hex::encode(alloc, bytes)?)
}

/// An error as rows tell it.
fn told(alloc: Global, error: &JsonError<'_>) -> Result<String, Wrong> {
    Ok(format!(in alloc; "! {error}")?)
}
