// Where in a value the reader or writer is.
ghost use Rattle.borsh_json.specs.Words.{AscendsFrom, GivesPart, HasPath, IsElementFall, IsFull, IsOf, IsOfRead, IsOfWrite, IsPath, NoneFalls, Root, Step, element_step, first_steps, found_step, place_step, step_of, steps_at, steps_through, write_steps};
ghost use Rattle.borsh_json.specs.declared.error.Refusal.TheVariants.{Descends};
ghost use Rattle.std.specs.Prelude.{◌≡◌, ◌+◌, ◌^◌, ◌<◌, ◌≤◌, ◌∷◌, ◌++◌, [], true, false, ℕ, List, None, length, map, IfErr, IfOk, IfSome, MatchOption, OnOk};

use crate::error::{PartError, PartResult, ReadError, Refusal, WriteError};
use crate::kinds::{Elements, Entries, NamedFields};
use crate::order::{Ascent, Ordered, first_descent};
use crate::sources::EntryKey;
use crate::table::Table;
use borsh_values::{Path, PathStep};
use json::MAX_DEPTH;
use std::alloc::{AllocError, Global};

/// The parts of a value, by the places of their names.
#[derive(Clone, Copy)]
pub enum Parts<'a> {
    /// The value itself.
    Root,
    /// So many elements of one name.
    List(usize, u64),
    /// Those of the tuple, or of the struct without names, whose definition is at this place, and how many they are.
    Row(usize, usize),
    /// Those of the struct whose definition is at this place.
    Object(usize, &'a NamedFields),
    /// So many values of the entries of a map that is an object.
    Entries(Entries<'a>, u64),
    /// The only part of a struct.
    Newtype(usize),
    /// The value of an option that is there.
    Some(usize),
    /// The variant, and the place of the name of its value.
    Variant(&'a str, usize),
}

/// The parts of a value, and how many of them were begun.
#[derive(Clone, Copy)]
pub struct Place<'a, 'k> {
    pub parts: Parts<'a>,
    pub begun: usize,
    /// Where the parts have to ascend.
    pub ascent: Option<Ascent>,
    /// The last key that was written of a map.
    pub last: Option<EntryKey<'k>>,
}

/// The key of a part in an object.
#[derive(Clone, Copy)]
pub enum Key<'a> {
    None,
    /// The name of a field or a variant.
    Name(&'a str),
    /// The key of an entry of a map.
    Entry(Entries<'a>),
}

/// A part: the place of the name of its type, and its key in an object.
#[derive(Clone, Copy)]
pub struct Part<'a> {
    pub at: usize,
    pub key: Key<'a>,
}

impl<'a, 'k> Place<'a, 'k> {
    pub fn new(parts: Parts<'a>) -> Place<'a, 'k>
        ensures parts { result.parts ≡ parts.entry }
        ensures begun { result.begun ≡ 0 }
        ensures last { result.last ≡ None }
        ensures ascent { result.ascent ≡ None }
    {
        Place {
            parts,
            begun: 0,
            ascent: None,
            last: None,
        }
    }

    /// The same place, whose parts have to ascend in an order, if there is one.
    pub fn in_order(self, order: Option<Ordered>) -> Place<'a, 'k>
        ensures same { (result.parts ≡ self.entry.parts) × (result.begun ≡ self.entry.begun) × (result.last ≡ self.entry.last) }
        ensures ascent { AscendsFrom order result.ascent }
    {
        let ascent = match order {
            Some(order) => Some(Ascent::new(order)),
            None => None,
        };
        Place { ascent, ..self }
    }

    /// The next part, which is begun; none if there are no more.
    pub fn next_part(&mut self, json: &Table<'a, '_>) -> Option<Part<'a>>
        ensures part { GivesPart json.now self.old.parts self.old.begun self.new.parts self.new.begun result }
        ensures begun { IfSome result (λ part. self.new.begun ≡ self.old.begun + 1) }
        ensures same { (self.new.parts ≡ self.old.parts) × (self.new.last ≡ self.old.last) × (self.new.ascent ≡ self.old.ascent) }
    {
        let part = self.part_at(json, self.begun)?;
        self.begun = self.begun.saturating_add(1);
        Some(part)
    }

    fn part_at(&self, json: &Table<'a, '_>, index: usize) -> Option<Part<'a>>
        ensures part { GivesPart json.now self.now.parts index self.now.parts (index + 1) result }
        ensures more { IfSome result (λ p. index + 1 < 2 ^ 64) }
    {
        match self.parts {
            Parts::Root => copy_at(0, 1, Key::None, index),
            Parts::Newtype(at) | Parts::Some(at) => copy_at(at, 1, Key::None, index),
            Parts::Variant(variant, at) => copy_at(at, 1, Key::Name(variant), index),
            Parts::List(at, count) => copy_at(at, count, Key::None, index),
            Parts::Entries(entries, count) => {
                copy_at(entries.value, count, Key::Entry(entries), index)
            }
            Parts::Row(at, count) => {
                copy_at(json.part(at, index), count as u64, Key::None, index)
            }
            Parts::Object(at, fields) => match fields.get(index) {
                Some((field, _)) => Some(Part {
                    at: json.part(at, index),
                    key: Key::Name(field.as_str()),
                }),
                None => None,
            },
        }
    }

    /// Adds the steps to the part that was begun last.
    fn add_steps(&self, steps: &mut Vec<PathStep<'a>>) -> Result<(), AllocError>
        ensures { OnOk result (map step_of steps.new.items ≡ map step_of steps.old.items ++ steps_at self.now) }
    {
        self.add_first(steps)?;
        if let Parts::Entries(_, _) = self.parts {
            steps.push(PathStep::Place(1))?;
        }
        Ok(())
    }

    /// Adds the step to the part that was begun last; of the value of an entry, the step to the entry.
    fn add_first(&self, steps: &mut Vec<PathStep<'a>>) -> Result<(), AllocError>
        ensures { OnOk result (map step_of steps.new.items ≡
            map step_of steps.old.items ++ first_steps self.now.parts self.now.begun) }
    {
        if let Some(step) = self.step() {
            steps.push(step)?;
        }
        Ok(())
    }

    fn step(&self) -> Option<PathStep<'a>>
        ensures { found_step result ≡ first_steps self.now.parts self.now.begun }
    {
        let index = self.begun.saturating_sub(1);
        match self.parts {
            Parts::Root => None,
            Parts::List(_, _) | Parts::Entries(_, _) => Some(PathStep::Element(index as u64)),
            Parts::Row(_, _) | Parts::Newtype(_) => Some(PathStep::Place(index)),
            Parts::Object(_, fields) => Some(PathStep::Field(fields.get(index)?.0.as_str())),
            Parts::Some(_) => Some(PathStep::Variant("Some")),
            Parts::Variant(variant, _) => Some(PathStep::Variant(variant)),
        }
    }
}

/// The part of an index, of so many of the name at a place.
fn copy_at<'a>(at: usize, count: u64, key: Key<'a>, index: usize) -> Option<Part<'a>>
    ensures { MatchOption result (count ≤ index) (λ p. (index < count) × (p.at ≡ at) × (p.key ≡ key.entry)) }
{
    if (index as u64) < count {
        Some(Part { at, key })
    } else {
        None
    }
}

/// Where the reader or writer is: the parts that it is in, the innermost in `place`.
#[derive(Drop)]
pub struct Position<'a, 'k> {
    alloc: Global,
    root: &'a str,
    outer: Vec<Place<'a, 'k>>,
    pub place: Place<'a, 'k>,
}

impl<'a, 'k> Position<'a, 'k> {
    /// In front of a value of this name.
    pub fn new(alloc: Global, root: &'a str) -> Position<'a, 'k>
        ensures root { result.root ≡ root.entry }
        ensures outer { result.outer.items ≡ [] }
        ensures place { (result.place.parts ≡ Root) × (result.place.begun ≡ 0) × (result.place.ascent ≡ None) }
    {
        let parts: Parts<'a> = Parts::Root;
        let place: Place<'a, 'k> = Place::new(parts);
        Position {
            alloc,
            root,
            outer: Vec::new(alloc),
            place,
        }
    }

    /// Goes into the parts of the part that was begun last.
    pub fn enter(&mut self, place: Place<'a, 'k>) -> PartResult<'a, ()>
        ensures full { IfErr result (IsFull (length self.old.outer.items)) }
        ensures room { OnOk result (length self.old.outer.items < 128) }
        ensures path { IfErr result (HasPath self.old.root.now (steps_through self.old.outer.items ++ steps_at self.old.place)) }
        ensures root { OnOk result (self.new.root ≡ self.old.root) }
        ensures place { OnOk result (self.new.place ≡ place.entry) }
        ensures outer { OnOk result (self.new.outer.items ≡ self.old.outer.items ++ self.old.place ∷ []) }
    {
        self.check_room()?;
        self.outer.push(self.place)?;
        self.place = place;
        Ok(())
    }

    /// Refuses more brackets where as many as may be are around.
    pub fn check_room(&self) -> PartResult<'a, ()>
        ensures full { IfErr result (IsFull (length self.now.outer.items)) }
        ensures path { IfErr result (HasPath self.now.root.now (steps_through self.now.outer.items ++ steps_at self.now.place)) }
        ensures room { OnOk result (length self.now.outer.items < 128) }
    {
        if self.outer.len() < MAX_DEPTH {
            Ok(())
        } else {
            Err(self.refused(Refusal::TooDeep))
        }
    }

    /// Goes back to the parts around these; says no at the value itself.
    pub fn leave(&mut self) -> bool
        ensures left { result ≡ true → self.old.outer.items ≡ self.new.outer.items ++ self.new.place ∷ [] }
        ensures all { result ≡ false → self.old.outer.items ≡ [] }
        ensures stays { result ≡ false → (self.new.place ≡ self.old.place) × (self.new.outer.items ≡ []) }
        ensures root { self.new.root ≡ self.old.root }
    {
        match self.outer.pop() {
            Some(outer) => {
                self.place = outer;
                true
            }
            None => false,
        }
    }

    /// Refuses a primitive of a list that isn't above the one before it, where these have to ascend.
    pub fn check_ascent(&self, elements: Elements, bytes: &[u8]) -> PartResult<'a, ()>
        ensures descends { IfErr result (IsOf Descends) }
        ensures falls { let s = self.now in IfErr result (IsElementFall s.root.now
            (steps_through s.outer.items ++ steps_at s.place) elements bytes.now) }
        ensures rises { OnOk result (NoneFalls elements bytes.now) }
    {
        let Some(order) = elements.order else {
            return Ok(());
        };
        match first_descent(order, usize::from(elements.size), bytes) {
            Some(index) => Err(refused_at(self.path_to(index), Refusal::Descends)),
            None => Ok(()),
        }
    }

    /// The error of the part that was begun last.
    pub fn refused(&self, refusal: Refusal) -> PartError<'a>
        ensures same { IsOf refusal result }
        ensures path { HasPath self.now.root.now (steps_through self.now.outer.items ++ steps_at self.now.place) result }
    {
        refused_at(self.path(), refusal)
    }

    /// The error of the part that was begun last and not read.
    pub fn refused_part(&self, error: ReadError) -> PartError<'a>
        ensures same { IsOfRead error result }
        ensures path { HasPath self.now.root.now
            (steps_through self.now.outer.items ++ steps_at self.now.place) result }
    {
        match error {
            ReadError::OutOfMemory => PartError::OutOfMemory,
            ReadError::Refused(refusal) => self.refused(refusal),
        }
    }

    /// The error of the key of the entry that was begun last and not read.
    pub fn unread_key(&self, error: ReadError) -> PartError<'a>
        ensures same { IsOfRead error result }
        ensures path { HasPath self.now.root.now (steps_through self.now.outer.items ++
            (first_steps self.now.place.parts self.now.place.begun ++ place_step 0 ∷ [])) result }
    {
        match error {
            ReadError::OutOfMemory => PartError::OutOfMemory,
            ReadError::Refused(refusal) => refused_at(self.path_of_key(), refusal),
        }
    }

    /// The error of the part that was begun last and not written, or of an element of it.
    pub fn refused_value(&self, error: WriteError) -> PartError<'a>
        ensures same { IsOfWrite error result }
        ensures path { HasPath self.now.root.now
            (write_steps (steps_through self.now.outer.items ++ steps_at self.now.place) error) result }
    {
        match error {
            WriteError::OutOfMemory => PartError::OutOfMemory,
            WriteError::Refused(refusal) => self.refused(refusal),
            WriteError::Element(index, refusal) => refused_at(self.path_to(index), refusal),
        }
    }

    /// The error of the element or entry that was begun last.
    pub fn refused_element(&self, refusal: Refusal) -> PartError<'a>
        ensures same { IsOf refusal result }
        ensures path { HasPath self.now.root.now (steps_through self.now.outer.items ++
            first_steps self.now.place.parts self.now.place.begun) result }
    {
        refused_at(self.path_of_element(), refusal)
    }

    /// The error of the key of the entry that was begun last.
    pub fn refused_key(&self, error: WriteError) -> PartError<'a>
        ensures same { IsOfWrite error result }
        ensures path { HasPath self.now.root.now (steps_through self.now.outer.items ++
            (first_steps self.now.place.parts self.now.place.begun ++ place_step 0 ∷ [])) result }
    {
        match error {
            WriteError::OutOfMemory => PartError::OutOfMemory,
            WriteError::Refused(refusal) | WriteError::Element(_, refusal) => {
                refused_at(self.path_of_key(), refusal)
            }
        }
    }

    fn path(&self) -> Result<Path<'a>, AllocError>
        ensures { IfOk result (IsPath self.now.root.now (steps_through self.now.outer.items ++ steps_at self.now.place)) }
    {
        let mut path = self.path_to_place()?;
        self.place.add_steps(&mut path.steps)?;
        Ok(path)
    }

    fn path_to(&self, index: usize) -> Result<Path<'a>, AllocError>
        ensures { IfOk result (IsPath self.now.root.now
            ((steps_through self.now.outer.items ++ steps_at self.now.place) ++ element_step index ∷ [])) }
    {
        let mut path = self.path()?;
        path.steps.push(PathStep::Element(index as u64))?;
        Ok(path)
    }

    fn path_of_key(&self) -> Result<Path<'a>, AllocError>
        ensures { IfOk result (IsPath self.now.root.now (steps_through self.now.outer.items ++
            (first_steps self.now.place.parts self.now.place.begun ++ place_step 0 ∷ []))) }
    {
        let mut path = self.path_of_element()?;
        path.steps.push(PathStep::Place(0))?;
        Ok(path)
    }

    fn path_of_element(&self) -> Result<Path<'a>, AllocError>
        ensures { IfOk result (IsPath self.now.root.now
            (steps_through self.now.outer.items ++ first_steps self.now.place.parts self.now.place.begun)) }
    {
        let mut path = self.path_to_place()?;
        self.place.add_first(&mut path.steps)?;
        Ok(path)
    }

    /// The path to the value whose parts these are.
    fn path_to_place(&self) -> Result<Path<'a>, AllocError>
        ensures { IfOk result (IsPath self.now.root.now (steps_through self.now.outer.items)) }
    {
        let mut steps: Vec<PathStep<'a>> = Vec::new(self.alloc);
        for place in self.outer.as_slice() {
            place.add_steps(&mut steps)?;
        }
        Ok(Path {
            root: self.root,
            steps,
        })
    }
}

fn refused_at<'a>(path: Result<Path<'a>, AllocError>, refusal: Refusal) -> PartError<'a>
    ensures same { IsOf refusal result }
    ensures path { (root : List ℕ) (steps : List Step) → IfOk path.entry (IsPath root steps) → HasPath root steps result }
{
    match path {
        Ok(path) => PartError::Refused(path, refusal),
        Err(_) => PartError::OutOfMemory,
    }
}
