// A container as Rust items.
ghost use Rattle.std.specs.Prelude.{IfOk, string_bytes};
ghost use Rattle.borsh_definitions.specs.Described.{forms_in};
ghost use Rattle.borsh_source.specs.Container.{IsMeaning};

use crate::error::TextError;
use crate::parse::{parse_items, parse_type};
use borsh_source::{CompileError, Compiled, Source, compile};
use borsh_walks::parts::referenced_part;
use borsh_walks::{Definition, Fields};
use std::alloc::{AllocError, AllocFailed, Global};
use std::collections::{BTreeMap, BTreeSet};
use std::fmt::Display;
use std::str;

/// Rust items, and the container that was compiled from them.
#[derive(Drop)]
pub struct Items {
    /// The items, behind a comment with the type that is the root.
    pub text: String,
    /// The tree of the text, and the root in it.
    pub tree: Source,
    pub root: usize,
    pub compiled: Compiled,
}

/// Why there are no Rust items of a container.
#[derive(Drop)]
pub enum NoItems {
    /// In words, with the name that Rust has otherwise.
    Refused(String),
    /// An allocation failed.
    OutOfMemory,
}

impl From<AllocError> for NoItems {
    fn from(_: AllocError) -> NoItems {
        NoItems::OutOfMemory
    }
}

impl<T: Drop> From<AllocFailed<T>> for NoItems {
    fn from(_: AllocFailed<T>) -> NoItems {
        NoItems::OutOfMemory
    }
}

fn refused<D: Display + Drop>(alloc: Global, name: &str, why: D) -> NoItems {
    match format!(in alloc; "no Rust type has this container: `{name}` {why}") {
        Ok(text) => NoItems::Refused(text),
        Err(_) => NoItems::OutOfMemory,
    }
}

fn not_read(alloc: Global, name: &str, error: &TextError<'_>) -> NoItems {
    match error {
        TextError::OutOfMemory => NoItems::OutOfMemory,
        _ => refused(alloc, name, "is no type in Rust"),
    }
}

// Structs and enums of the format, which need no item.
const FORMATS: &str =
    "Option Result Range RangeInclusive RangeFrom RangeTo RangeToInclusive RangeFull Ipv4Addr Ipv6Addr IpAddr SocketAddrV4 SocketAddrV6 SocketAddr";

const KEYWORDS: &str =
    "as break const continue crate else enum extern false fn for if impl in let loop match mod move mut pub ref return self Self static struct super trait true type unsafe use where while async await dyn abstract become box do final macro override priv typeof unsized virtual yield try _";

// What stands before, between and behind the named fields of a struct, and of a variant.
const OF_STRUCT: [&str; 3] = [" {\n    ", ",\n    ", ",\n}"];

const OF_VARIANT: [&str; 3] = [" { ", ", ", " }"];

/// The Rust items from which `compile` makes a container, if there are such: they are compiled, and what comes out is compared. The
/// error says which name Rust has otherwise.
///
/// Determined: the tree means what was compiled. Left open: memory; which containers are refused, and why: tested.
///
/// ```
/// let items = print_items(alloc, "A", &definitions)?;
/// println!(rt; "{}", items.text)?;
/// ```
pub fn print_items(
    alloc: Global,
    root: &str,
    definitions: &BTreeMap<String, Definition>,
) -> Result<Items, NoItems>
    ensures { IfOk result (λ i. IsMeaning i.tree i.root (string_bytes i.compiled.declaration)
        (forms_in i.compiled.definitions)) }
{
    let mut names = own_names(alloc, definitions)?;
    match same_items(alloc, root, definitions, &mut names) {
        Err(NoItems::Refused(why)) => {
            // A name of the format may be one of the text's own.
            match same_items(alloc, root, definitions, &mut names) {
                Err(NoItems::Refused(_)) => Err(NoItems::Refused(why)),
                second => second,
            }
        }
        first => first,
    }
}

/// The items of these names, if they have the container. Else the names of all structs and enums that came out otherwise are added.
fn same_items<'b>(
    alloc: Global,
    root: &str,
    definitions: &'b BTreeMap<String, Definition>,
    names: &mut BTreeSet<&'b str>,
) -> Result<Items, NoItems>
    ensures { IfOk result (λ i. IsMeaning i.tree i.root (string_bytes i.compiled.declaration)
        (forms_in i.compiled.definitions)) }
{
    let outcome = compiled(alloc, root, definitions, names);
    add_others(&outcome, definitions, names)?;
    let items = outcome?;
    if let Some(name) = other_name(definitions, &items.compiled.definitions) {
        return Err(refused(alloc, name, "has another definition, or none"));
    }
    if items.compiled.declaration.as_str() != root {
        return Err(refused(alloc, root, "is written otherwise"));
    }
    Ok(items)
}

/// Adds the names of the structs and enums that came out otherwise.
fn add_others<'b>(
    outcome: &Result<Items, NoItems>,
    definitions: &'b BTreeMap<String, Definition>,
    names: &mut BTreeSet<&'b str>,
) -> Result<(), AllocError> {
    for (name, definition) in definitions {
        let is_same = match outcome {
            Ok(items) => items.compiled.definitions.get(name.as_str()) == Some(definition),
            Err(_) => false,
        };
        if is_item(definition) && !is_same {
            names.insert(name.as_str())?;
        }
    }
    Ok(())
}

fn is_item(definition: &Definition) -> bool {
    matches!(
        definition,
        Definition::Struct { .. } | Definition::Enum { .. }
    )
}

/// A name that two maps define differently.
fn other_name<'b>(
    left: &'b BTreeMap<String, Definition>,
    right: &'b BTreeMap<String, Definition>,
) -> Option<&'b str> {
    for definitions in [left, right] {
        for name in definitions.keys() {
            if left.get(name.as_str()) != right.get(name.as_str()) {
                return Some(name.as_str());
            }
        }
    }
    None
}

/// The items of these names, compiled.
fn compiled(
    alloc: Global,
    root: &str,
    definitions: &BTreeMap<String, Definition>,
    names: &BTreeSet<&str>,
) -> Result<Items, NoItems>
    ensures { IfOk result (λ i. IsMeaning i.tree i.root (string_bytes i.compiled.declaration)
        (forms_in i.compiled.definitions)) }
{
    let text = text_of(alloc, root, definitions, names)?;
    let mut tree = match parse_items(alloc, text.as_str()) {
        Ok(tree) => tree,
        Err(error) => return Err(not_read(alloc, root, &error)),
    };
    let at = match parse_type(alloc, &mut tree, root) {
        Ok(at) => at,
        Err(error) => return Err(not_read(alloc, root, &error)),
    };
    match compile(alloc, &tree, at) {
        Ok(compiled) => Ok(Items {
            text,
            tree,
            root: at,
            compiled,
        }),
        Err(CompileError::Refused { cause, name, .. }) => {
            Err(refused(alloc, name.as_str(), cause))
        }
        Err(CompileError::OutOfMemory) => Err(NoItems::OutOfMemory),
    }
}

/// The structs and enums that aren't the format's, nor the fields of an enum's variant.
fn own_names<'b>(
    alloc: Global,
    definitions: &'b BTreeMap<String, Definition>,
) -> Result<BTreeSet<&'b str>, AllocError> {
    let mut names = BTreeSet::new(alloc);
    for (name, definition) in definitions {
        if is_item(definition) && !is_one_of(stem_of(name.as_str()), FORMATS) {
            names.insert(name.as_str())?;
        }
    }
    for (name, definition) in definitions {
        if let Definition::Enum { variants, .. } = definition {
            let stem = stem_of(name.as_str());
            for (_, variant, fields) in variants {
                if stem_of(fields.as_str()) == format!(in alloc; "{stem}__{variant}")?.as_str() {
                    names.remove(fields.as_str());
                }
            }
        }
    }
    Ok(names)
}

fn is_one_of(name: &str, names: &str) -> bool {
    for known in names.split(' ') {
        if known == name {
            return true;
        }
    }
    false
}

/// The name of an item, without what its parameters stand for.
fn stem_of(name: &str) -> &str {
    match name.split_once('<') {
        Some((stem, _)) => stem,
        None => name,
    }
}

/// The names that the parameters of an item stand for.
fn arguments_of<'b>(alloc: Global, name: &'b str) -> Result<Vec<&'b [u8]>, AllocError> {
    let mut arguments = Vec::new(alloc);
    let mut depth: usize = 0;
    let mut start: usize = 0;
    for (at, byte) in name.as_bytes().iter().enumerate() {
        let before = name.as_bytes().get(start..at).unwrap_or(&[]);
        match byte {
            b'<' | b'(' | b'[' => {
                depth = depth.saturating_add(1);
                if depth == 1 {
                    start = at.saturating_add(1);
                }
            }
            b'>' | b')' | b']' => {
                depth = depth.saturating_sub(1);
                if depth == 0 {
                    arguments.push(before)?;
                }
            }
            b',' if depth == 1 => {
                arguments.push(before)?;
                start = at.saturating_add(2);
            }
            _ => {}
        }
    }
    Ok(arguments)
}

/// The text of the items of these names.
fn text_of(
    alloc: Global,
    root: &str,
    definitions: &BTreeMap<String, Definition>,
    names: &BTreeSet<&str>,
) -> Result<String, NoItems> {
    let mut stems: BTreeMap<&str, Vec<&str>> = BTreeMap::new(alloc);
    for name in names {
        let stem = stem_of(name);
        match stems.get_mut(stem) {
            Some(instances) => instances.push(*name)?,
            None => {
                stems.insert(stem, vec![in alloc; *name]?)?;
            }
        }
    }
    let mut printer = Printer {
        alloc,
        definitions,
        text: String::new(alloc),
        scratch: Source {
            items: Vec::new(alloc),
            types: Vec::new(alloc),
            expressions: Vec::new(alloc),
        },
        given: Vec::new(alloc),
        uses: Vec::new(alloc),
    };
    printer.push("// ")?;
    printer.push(root)?;
    printer.push("\n")?;
    for (stem, instances) in &stems {
        printer.item(stem, instances.as_slice())?;
    }
    Ok(printer.text)
}

/// The items so far. An item with parameters is one text for all its instances.
#[derive(Drop)]
struct Printer<'b> {
    alloc: Global,
    definitions: &'b BTreeMap<String, Definition>,
    text: String,
    // Where types are read that are only tried.
    scratch: Source,
    // What the parameters stand for in each instance.
    given: Vec<Vec<&'b [u8]>>,
    // How often each of the parameters was named among the fields; the greatest number where it may not be.
    uses: Vec<usize>,
}

impl<'b> Printer<'b> {
    fn push(&mut self, text: &str) -> Result<(), NoItems> {
        self.text.push_str(text)?;
        Ok(())
    }

    /// The name of an item, a field or a variant.
    fn word(&mut self, name: &str) -> Result<(), NoItems> {
        let is_word = name
            .bytes()
            .all(|byte| byte.is_ascii_alphanumeric() || byte == b'_')
            && !name.starts_with(|first: char| first.is_ascii_digit());
        if name.is_empty() || !is_word || is_one_of(name, KEYWORDS) {
            return Err(refused(self.alloc, name, "is no name in Rust"));
        }
        self.push(name)
    }

    /// The item of a name, by its instances.
    fn item(&mut self, stem: &str, instances: &[&'b str]) -> Result<(), NoItems> {
        let mut shapes: Vec<&'b Definition> = Vec::new(self.alloc);
        self.given.clear();
        for instance in instances {
            self.given.push(arguments_of(self.alloc, instance)?)?;
            if let Some(definition) = self.definitions.get(*instance) {
                shapes.push(definition)?;
            }
        }
        self.open(instances.first().unwrap_or(&""))?;
        match shapes.first() {
            Some(Definition::Enum { variants, .. }) => {
                self.enumeration(stem, variants.as_slice(), shapes.as_slice())
            }
            _ => self.structure(stem, shapes.as_slice()),
        }
    }

    /// Lets the fields that come name the parameters whose types stand in the name of their definition, and no others.
    fn open(&mut self, name: &str) -> Result<(), AllocError> {
        let wanted = arguments_of(self.alloc, name)?;
        let mut next: usize = 0;
        self.uses.clear();
        if let Some(given) = self.given.first() {
            for argument in given {
                if wanted.get(next) == Some(argument) {
                    self.uses.push(0)?;
                    next = next.saturating_add(1);
                } else {
                    self.uses.push(usize::MAX)?;
                }
            }
        }
        Ok(())
    }

    /// `struct Name<T1>` or `enum Name<T1>`.
    fn head(&mut self, word: &str, stem: &str) -> Result<(), NoItems> {
        self.push(word)?;
        self.word(stem)?;
        let mut mark = "<";
        for which in 0..self.uses.len() {
            self.push(format!(in self.alloc; "{mark}T{which}")?.as_str())?;
            mark = ", ";
        }
        if mark == ", " {
            self.push(">")?;
        }
        Ok(())
    }

    fn structure(&mut self, stem: &str, shapes: &[&'b Definition]) -> Result<(), NoItems> {
        self.head("\nstruct ", stem)?;
        self.fields(shapes, OF_STRUCT)?;
        let has_braces = self.text.ends_with('}');
        self.push(if has_braces { "\n" } else { ";\n" })
    }

    fn enumeration(
        &mut self,
        stem: &str,
        variants: &'b [(i64, String, String)],
        shapes: &[&'b Definition],
    ) -> Result<(), NoItems> {
        let mut is_explicit = false;
        let mut next: i64 = 0;
        for (tag, _, _) in variants {
            is_explicit = is_explicit || *tag != next;
            next = next.saturating_add(1);
        }
        if is_explicit {
            self.push("\n#[borsh(use_discriminant = true)]\n#[repr(u8)]")?;
        }
        self.head("\nenum ", stem)?;
        self.push(" {\n")?;
        for (at, (tag, name, whole)) in variants.iter().enumerate() {
            self.push("    ")?;
            self.word(name.as_str())?;
            if *tag < 0 {
                return Err(refused(self.alloc, name.as_str(), "has a tag below 0"));
            }
            let mut parts: Vec<&'b Definition> = Vec::new(self.alloc);
            for shape in shapes {
                if let Some(part) = referenced_part(shape, at)
                    && let Some(definition) = self.definitions.get(part)
                {
                    parts.push(definition)?;
                }
            }
            self.open(whole.as_str())?;
            self.fields(parts.as_slice(), OF_VARIANT)?;
            if is_explicit {
                self.push(format!(in self.alloc; " = {tag}")?.as_str())?;
            }
            self.push(",\n")?;
        }
        self.push("}\n")
    }

    /// Fields, which each instance has.
    fn fields(&mut self, shapes: &[&'b Definition], marks: [&str; 3]) -> Result<(), NoItems> {
        let Some(Definition::Struct { fields }) = shapes.first() else {
            return Ok(());
        };
        match fields {
            Fields::NamedFields(list) => {
                let mut mark = marks[0];
                for (at, (name, _)) in list.iter().enumerate() {
                    self.push(mark)?;
                    self.word(name.as_str())?;
                    self.push(": ")?;
                    self.part(shapes, at)?;
                    mark = marks[1];
                }
                self.push(marks[2])
            }
            Fields::UnnamedFields(list) => {
                let mut mark = "(";
                for at in 0..list.len() {
                    self.push(mark)?;
                    self.part(shapes, at)?;
                    mark = ", ";
                }
                self.push(")")
            }
            Fields::Empty => Ok(()),
        }
    }

    /// The type of a field, where the parameters are named in place of what they stand for.
    fn part(&mut self, shapes: &[&'b Definition], at: usize) -> Result<(), NoItems> {
        let mut rests: Vec<&'b [u8]> = Vec::new(self.alloc);
        for shape in shapes {
            rests.push(referenced_part(shape, at).unwrap_or("").as_bytes())?;
        }
        let most = match rests.first() {
            Some(rest) => rest.len(),
            None => 0,
        };
        let mut written = Vec::new(self.alloc);
        let mut begins = true;
        for _ in 0..most {
            if begins && let Some(which) = self.parameter(&mut rests) {
                let name = format!(in self.alloc; "T{which}")?;
                written.extend_from_slice(name.as_bytes())?;
                begins = false;
            } else if let Some(byte) = next_byte(&mut rests) {
                written.push(byte)?;
                begins = matches!(byte, b'<' | b'(' | b'[' | b' ');
            }
        }
        let text = str::from_utf8(written.as_slice()).unwrap_or("");
        match parse_type(self.alloc, &mut self.scratch, text) {
            Ok(_) => self.push(text),
            Err(error) => Err(not_read(self.alloc, text, &error)),
        }
    }

    /// Takes what a parameter stands for off the front of each type, if it stands there; of several the one that was named least.
    fn parameter(&mut self, rests: &mut Vec<&'b [u8]>) -> Option<usize> {
        let mut best = None;
        let mut least = usize::MAX;
        for (which, uses) in self.uses.iter().enumerate() {
            if *uses < least && self.stands(rests.as_slice(), which) {
                best = Some(which);
                least = *uses;
            }
        }
        let which = best?;
        for (rest, given) in rests.iter_mut().zip(&self.given) {
            if let Some(behind) = behind(rest, given.as_slice(), which) {
                *rest = behind;
            }
        }
        if let Some(uses) = self.uses.get_mut(which) {
            *uses = uses.saturating_add(1);
        }
        Some(which)
    }

    /// Whether what a parameter stands for stands at the front of each type.
    fn stands(&self, rests: &[&'b [u8]], which: usize) -> bool {
        for (rest, given) in rests.iter().zip(&self.given) {
            if behind(rest, given.as_slice(), which).is_none() {
                return false;
            }
        }
        true
    }
}

/// What is behind the type that a parameter stands for, if this stands in front.
fn behind<'b>(rest: &'b [u8], given: &[&[u8]], which: usize) -> Option<&'b [u8]> {
    let rest = rest.strip_prefix(*given.get(which)?)?;
    match rest {
        [] | [b',' | b'>' | b')' | b']' | b';', ..] => Some(rest),
        _ => None,
    }
}

/// Takes the byte that all begin with.
fn next_byte(rests: &mut Vec<&[u8]>) -> Option<u8> {
    let byte = *rests.first()?.first()?;
    for rest in rests.iter_mut() {
        *rest = rest.strip_prefix(&[byte])?;
    }
    Some(byte)
}
