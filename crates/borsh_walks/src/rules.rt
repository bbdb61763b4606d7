// Whether the names that are reached keep the rules.
ghost use Rattle.borsh_walks.specs.Counts.{counts_of, definition_count, definitions_of, LooksOn};
ghost use Rattle.borsh_walks.specs.RulesAnswer.{AcceptsIfValid, AnswersShape, ElementReaches, IsRulesError, JudgesRules, IsWidth, BreaksWidth, MarksElement, RuleAnswer, rule_of, checked_element};
ghost use Rattle.borsh_walks.specs.Definitions.{shape_of};
ghost use Rattle.borsh_walks.specs.Places.{AreListed};
ghost use Rattle.borsh_walks.specs.ZeroAnswer.{ZeroCounted, ZeroTable};
ghost use Rattle.borsh_walks.specs.RulesState.{CountsVisit, JudgedCounts, RulesWork, StaysIfSeen, Visits};
ghost use Rattle.std.specs.Prelude.{◌≡◌, IfOk, MatchOption, OnOk, length, option_map, reverse};

use crate::counted::{Counted, Question};
use crate::definition::Definition;
use crate::error::SchemaContainerValidateError;
use crate::parts::referenced_part;
use crate::places::{Places, mark_at, no_marks, set_mark};
use crate::stack::Spot;
use crate::zero::is_zero;
use std::alloc::{AllocError, Global};
use std::collections::BTreeMap;

// A rule that a definition breaks.
#[derive(Clone, Copy)]
pub enum Broken {
    ZeroSized,
    Wide,
    Narrow,
    NotPowerOfTwo,
    Missing,
    EmptyRange,
}

// The rule of a sequence's width that is broken, if one is.
fn broken_width(width: u8, end: u64) -> Option<Broken>
    ensures { MatchOption result (IsWidth width end) (λ k. BreaksWidth (rule_of k) width end) }
{
    match width {
        1 if end >= 256 => Some(Broken::Narrow),
        2 if end >= 65536 => Some(Broken::Narrow),
        4 if end >= 4294967296 => Some(Broken::Narrow),
        0 | 1 | 2 | 4 | 8 => None,
        3 | 5 | 6 | 7 => Some(Broken::NotPowerOfTwo),
        _ => Some(Broken::Wide),
    }
}

// The rule without a look at other names that the definition breaks, if it breaks one.
fn broken_shape(definition: &Definition) -> Option<Broken>
    ensures { AnswersShape (shape_of definition.now) result }
{
    match definition {
        Definition::Sequence { length_range, .. } if length_range.end < length_range.start => {
            Some(Broken::EmptyRange)
        }
        Definition::Sequence {
            length_width,
            length_range,
            ..
        } => broken_width(*length_width, length_range.end),
        Definition::Enum { tag_width, .. } if *tag_width > 8 => Some(Broken::Wide),
        _ => None,
    }
}

// The element of a sequence that must not be of zero size.
fn element_to_check(definition: &Definition) -> Option<&str>
    ensures { option_map (λ p. p.now) result ≡ checked_element (shape_of definition.now) }
{
    match definition {
        Definition::Sequence {
            length_width,
            length_range,
            elements,
        } if *length_width != 0 || length_range.start != length_range.end => {
            Some(elements.as_str())
        }
        _ => None,
    }
}

// The rule that the definition breaks, if it breaks one.
fn broken_rule<'a, 'm: 'a>(
    alloc: Global,
    definition: &'a Definition,
    table: &mut BTreeMap<&'a str, bool>,
    counted: &mut Counted<'m, '_>,
) -> Result<Option<Broken>, AllocError>
    requires { ZeroTable (definitions_of counted.old) table.old }
    ensures same { LooksOn counted.old counted.new }
    ensures answer { IfOk result (RuleAnswer (definitions_of counted.old) (shape_of definition.now)) }
    ensures table { OnOk result (ZeroTable (definitions_of counted.old) table.new) }
    ensures marked { IfOk result
        (MarksElement (definitions_of counted.old) (shape_of definition.now) table.old table.new) }
    ensures counts { ZeroCounted
        (λ x. ElementReaches (definitions_of counted.old) (shape_of definition.now) x)
        counted.old counted.new table.old table.new result }
{
    if let Some(broken) = broken_shape(definition) {
        return Ok(Some(broken));
    }
    if let Some(element) = element_to_check(definition) {
        if is_zero(alloc, element, table, counted)? {
            return Ok(Some(Broken::ZeroSized));
        }
    }
    Ok(None)
}

// The error that the name breaks the rule.
fn error_of(alloc: Global, broken: Broken, name: &str) -> SchemaContainerValidateError
    ensures { IsRulesError (rule_of broken) name.now result }
{
    let Ok(name) = String::from_str(alloc, name) else {
        return SchemaContainerValidateError::OutOfMemory;
    };
    match broken {
        Broken::ZeroSized => SchemaContainerValidateError::ZSTSequence(name),
        Broken::Wide => SchemaContainerValidateError::TagTooWide(name),
        Broken::Narrow => SchemaContainerValidateError::TagTooNarrow(name),
        Broken::NotPowerOfTwo => SchemaContainerValidateError::TagNotPowerOfTwo(name),
        Broken::Missing => SchemaContainerValidateError::MissingDefinition(name),
        Broken::EmptyRange => SchemaContainerValidateError::EmptyLengthRange(name),
    }
}

// That a name was visited.
#[derive(Clone, Copy)]
pub struct Seen;

// The visit of a reached name. The first one checks its rules, and the names that it refers to wait on the stack.
fn visit<'a, 'm: 'a>(
    alloc: Global,
    name: &'a str,
    places: &Places<'m>,
    seen: &mut Vec<Option<Seen>>,
    stack: &mut Vec<Spot<'a>>,
    table: &mut BTreeMap<&'a str, bool>,
    counted: &mut Counted<'m, '_>,
) -> Result<(), SchemaContainerValidateError>
    requires table { ZeroTable (definitions_of counted.old) table.old }
    requires places { (places.now.map ≡ counted.old.map) × AreListed places.now }
    requires seen { length seen.old.items ≡ definition_count counted.old }
    ensures same { LooksOn counted.old counted.new }
    ensures seen { length seen.new.items ≡ length seen.old.items }
    ensures visited { Visits counted.old name.now seen.old.items seen.new.items
        (reverse stack.old.items) (reverse stack.new.items) table.old table.new result }
    ensures counts { CountsVisit counted.old counted.new name.now seen.old.items seen.new.items
        (reverse stack.old.items) table.old table.new result }
    ensures again { StaysIfSeen counted.old counted.new name.now seen.old.items seen.new.items
        (reverse stack.old.items) (reverse stack.new.items) table.old table.new result }
{
    let Some((place, definition)) = places.find(name) else {
        return Err(error_of(alloc, Broken::Missing, name));
    };
    if mark_at(seen, place).is_some() {
        return Ok(());
    }
    set_mark(seen, place, Seen);
    counted.visit(Question::Rules);
    if let Some(broken) = broken_rule(alloc, definition, table, counted)? {
        return Err(error_of(alloc, broken, name));
    }
    stack.push(Spot::at(name, definition))?;
    Ok(())
}

/// Checks that each name that the root refers to, directly or through other definitions, is defined and keeps the rules.
///
/// A sequence of width 0 whose least length is its greatest (an array) keeps them. Of any other sequence the least length is at
/// most the greatest, the width is 0, 1, 2, 4 or 8 with room for the greatest length, and the elements have bytes. The tag of an
/// enum has at most eight bytes. An error says which name breaks which rule. Only reached definitions are counted, each at most
/// once, and after `Ok` all of them; for zero size only those that decide whether a checked element has bytes, each at most once,
/// and after `Ok` all checked elements. Left open: memory; which of several broken rules is reported; how many of these are
/// counted otherwise; definitions that are read without [`Counted::look`].
///
/// ```
/// check_rules(alloc, "Vec<u8>", &mut Counted::new(&definitions, &mut counts))?;
/// ```
pub fn check_rules(
    alloc: Global,
    root: &str,
    counted: &mut Counted<'_, '_>,
) -> Result<(), SchemaContainerValidateError>
    ensures same { LooksOn counted.old counted.new }
    ensures answer { JudgesRules (definitions_of counted.old) root.now result }
    ensures complete { AcceptsIfValid (definitions_of counted.old) root.now result }
    ensures counts { OnOk result (JudgedCounts (definitions_of counted.old) root.now
        (counts_of counted.old) (counts_of counted.new)) }
    ensures work { RulesWork (definitions_of counted.old) root.now (definition_count counted.old)
        (counts_of counted.old) (counts_of counted.new) }
{
    walk_rules(alloc, root, counted)
}

// The walk over the names that are reached. A name that was visited waits on the stack `stack` until each
// name that it refers to was visited.
fn walk_rules<'a, 'm: 'a>(
    alloc: Global,
    root: &'a str,
    counted: &mut Counted<'m, '_>,
) -> Result<(), SchemaContainerValidateError>
    ensures same { LooksOn counted.old counted.new }
    ensures answer { JudgesRules (definitions_of counted.old) root.now result }
    ensures counts { OnOk result (JudgedCounts (definitions_of counted.old) root.now
        (counts_of counted.old) (counts_of counted.new)) }
    ensures work { RulesWork (definitions_of counted.old) root.now (definition_count counted.old)
        (counts_of counted.old) (counts_of counted.new) }
{
    let places = Places::new(alloc, counted.map)?;
    let mut table: BTreeMap<&'a str, bool> = BTreeMap::new(alloc);
    let mut seen = no_marks(alloc, counted.map.len())?;
    let mut stack: Vec<Spot<'a>> = Vec::new(alloc);
    visit(
        alloc, root, &places, &mut seen, &mut stack, &mut table, counted,
    )?;
    while let Some(mut spot) = stack.pop() {
        let Some(part) = referenced_part(spot.definition, spot.next) else {
            continue;
        };
        spot.next += 1;
        stack.push(spot)?;
        visit(
            alloc, part, &places, &mut seen, &mut stack, &mut table, counted,
        )?;
    }
    Ok(())
}
