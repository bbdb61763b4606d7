// The reader's loop over the parts of a value.
ghost use Rattle.borsh_json.specs.Words.{AreKeysOf, BeginsWith, DeniesKey, Entry, FailsRead, Form, HasBegun, HasEnded, HasEntries, HasPath, HasRead, HaveBytes, IsAt, IsDoing, IsEntryKey, IsFull, IsNext, IsNextEntry, IsUnread, Json, JsonPart, Keys, NamedPlace, NextMissing, NextPart, ReadsOn, SaysFirst, form_of, forms_in, forms_of, key_json, map_of, names_of, root_of, steps_at, steps_through};
ghost use Rattle.std.specs.Prelude.{◌≡◌, ◌∷◌, ◌++◌, [], true, IfErr, IfOk, ℕ, List, MatchOption, MatchResult, OnOk, Option, length};

use crate::error::{PartError, PartResult, ReadError, Refusal};
use crate::kinds::{Entries, KeyKind};
use crate::opening::{Frame, open_part, put_list, put_number};
use crate::position::{Key, Place, Position};
use crate::sources::{EntryKey, Source};
use crate::table::Table;
use json::Element;
use std::alloc::Global;
use std::mem;

/// What comes next of the parts of a value.
#[derive(Drop)]
enum Next<'t, 's> {
    /// The part with this JSON, the name of whose type is at a place.
    Part(usize, Element<'t, 's>),
    /// A field that the object has not.
    Missing,
    /// Nothing.
    End,
}

/// The bytes that JSON says as a value of the plan's root, which needn't be a member.
pub fn read_value<'a>(json: &Table<'a, '_>, element: Element<'_, '_>) -> PartResult<'a, Vec<u8>>
    ensures { let F = forms_in (map_of json.now.plan.now) in
        let root = root_of json.now.plan.now in
        (j : Json) → BeginsWith element.entry j →
        MatchResult result (λ v. HaveBytes F ((root, j) ∷ []) v.items)
        (λ e. IsUnread F root j e) }
{
    let alloc = json.alloc();
    let position = Position::new(alloc, json.plan().root());
    let out = Vec::new(alloc);
    let outer = Vec::new(alloc);
    let mut reading = Reading {
        out,
        position,
        source: Source::One(Some(element)),
        outer,
    };
    for _ in 0..u64::MAX {
        match reading.read_next(json) {
            Ok(more) => {
                if !more {
                    return Ok(reading.out);
                }
            }
            Err(error) => return Err(error),
        }
    }
    // No text has so many parts.
    Err(PartError::OutOfMemory)
}

/// The bytes so far, and where the reader is, with the JSON of the parts around it.
#[derive(Drop)]
struct Reading<'a, 't, 's> {
    out: Vec<u8>,
    position: Position<'a, 'static>,
    source: Source<'t, 's>,
    outer: Vec<Source<'t, 's>>,
}

impl<'a, 't, 's> Reading<'a, 't, 's> {
    /// Reads the next part, or goes back to the parts around; says no at the end of the value.
    fn read_next(&mut self, json: &Table<'a, '_>) -> PartResult<'a, bool>
        ensures { (root : List ℕ) (j : Json) → HasRead json.now root j self.old →
            ReadsOn json.now root j self.new result }
    {
        match take_next(
            json,
            &mut self.position.place,
            &mut self.source,
            &mut self.out,
        ) {
            Ok(next) => match next {
                Next::Part(at, part) => self.open(json, at, part),
                Next::Missing => Err(self.position.refused(Refusal::MissingField)),
                Next::End => self.leave(json),
            },
            Err(error) => Err(self.position.unread_key(error)),
        }
    }

    /// Reads a part, and goes into its parts if it has some.
    fn open(
        &mut self,
        json: &Table<'a, '_>,
        at: usize,
        part: Element<'t, 's>,
    ) -> PartResult<'a, bool>
        ensures { (root : List ℕ) (j : Json) →
            HasBegun json.now root j self.old at part.entry → ReadsOn json.now root j self.new result }
    {
        match open_part(json, at, part, &mut self.out) {
            Ok(opened) => match opened {
                Some(frame) => self.enter(frame),
                None => Ok(true),
            },
            Err(error) => Err(self.position.refused_part(error)),
        }
    }

    fn enter(&mut self, frame: Frame<'a, 't, 's>) -> PartResult<'a, bool>
        ensures more { IfOk result (λ more. more ≡ true) }
        ensures frame { OnOk result ((self.new.position.place ≡ frame.entry.place) × (self.new.source ≡ frame.entry.source)) }
        ensures outer { OnOk result
            ((self.new.position.outer.items ≡ self.old.position.outer.items ++ self.old.position.place ∷ []) ×
            (self.new.outer.items ≡ self.old.outer.items ++ self.old.source ∷ [])) }
        ensures same { OnOk result (self.new.out ≡ self.old.out) }
        ensures full { IfErr result (IsFull (length self.old.position.outer.items)) }
        ensures path { IfErr result (HasPath self.old.position.root.now
            (steps_through self.old.position.outer.items ++ steps_at self.old.position.place)) }
        ensures root { OnOk result (self.new.position.root ≡ self.old.position.root) }
    {
        self.position.enter(frame.place)?;
        self.outer
            .push(mem::replace(&mut self.source, frame.source))?;
        Ok(true)
    }

    /// Goes back to the parts around, unless a key of an object is left that is no field.
    fn leave(&mut self, json: &Table<'a, '_>) -> PartResult<'a, bool>
        ensures { (root : List ℕ) (j : Json) → HasEnded json.now root j self.old →
            ReadsOn json.now root j self.new result }
    {
        let unknown = self.source.unknown_key();
        let is_part = self.position.leave();
        if let Some(key) = unknown {
            let name = String::from_str(json.alloc(), key)?;
            return Err(self.position.refused(Refusal::UnknownName(name)));
        }
        if !is_part {
            return Ok(false);
        }
        match self.outer.pop() {
            Some(around) => {
                self.source = around;
                Ok(true)
            }
            None => Ok(false),
        }
    }
}

/// What comes next. The key of an entry is added.
fn take_next<'a, 't, 's>(
    json: &Table<'a, '_>,
    place: &mut Place<'a, '_>,
    source: &mut Source<'t, 's>,
    out: &mut Vec<u8>,
) -> Result<Next<'t, 's>, ReadError>
    ensures parts { place.new.parts ≡ place.old.parts }
    ensures next { let F = forms_of json.now in let ns = names_of json.now in
        (d : ℕ) (x : List ℕ) (i : Json) (own : List ℕ) (ds : List JsonPart) →
        IsDoing F ns place.old source.old d x i own ds → MatchResult result
        (IsNext F ns d x i own ds place.new source.new out.old.items out.new.items)
        (DeniesKey F ns d x i own ds place.new) }
{
    let Some(part) = place.next_part(json) else {
        return Ok(Next::End);
    };
    match part.key {
        Key::Entry(entries) => next_entry(json.alloc(), entries, source, out),
        Key::Name(name) => Ok(found(part.at, source.take(name))),
        Key::None => Ok(found(part.at, source.take(""))),
    }
}

fn found<'t, 's>(at: usize, element: Option<Element<'t, 's>>) -> Next<'t, 's>
    ensures { MatchOption element.entry (result ≡ NextMissing) (λ e. result ≡ NextPart at e) }
{
    match element {
        Some(element) => Next::Part(at, element),
        None => Next::Missing,
    }
}

fn next_entry<'t, 's>(
    alloc: Global,
    entries: Entries<'_>,
    source: &mut Source<'t, 's>,
    out: &mut Vec<u8>,
) -> Result<Next<'t, 's>, ReadError>
    ensures { (F : List ℕ → Option Form) (ns : List NamedPlace) (keys : Keys) (k v : List ℕ) (es : List Entry) →
        IsAt ns entries.entry.value v →
        AreKeysOf F ns k (form_of entries.entry.key_definition.now) entries.entry.key_kind keys →
        HasEntries entries.entry.key_kind source.old es → MatchResult result
        (IsNextEntry F ns keys k v es entries.entry.key_kind source.new out.old.items out.new.items)
        (λ e. (s : List ℕ) × (j : Json) × (rest : List Entry) × (es ≡ (s, j) ∷ rest) ×
        FailsRead F k (key_json keys s) e) }
{
    match source.take_entry() {
        Some((key, element)) => {
            match put_key(alloc, entries, key, out) {
                Ok(()) => Ok(Next::Part(entries.value, element)),
                Err(error) => Err(error),
            }
        }
        None => Ok(Next::Missing),
    }
}

/// Adds the key of an entry.
fn put_key(
    alloc: Global,
    entries: Entries<'_>,
    key: EntryKey<'_>,
    out: &mut Vec<u8>,
) -> Result<(), ReadError>
    ensures { (F : List ℕ → Option Form) (ns : List NamedPlace) (k : List ℕ) (keys : Keys) (s : List ℕ) →
        AreKeysOf F ns k (form_of entries.entry.key_definition.now) entries.entry.key_kind keys →
        IsEntryKey entries.entry.key_kind key.entry s → MatchResult result
        (λ _. (own : List ℕ) × (out.new.items ≡ out.old.items ++ own) × SaysFirst F k (key_json keys s) own [])
        (FailsRead F k (key_json keys s)) }
{
    match entries.key_kind {
        KeyKind::Text => match key {
            EntryKey::Text(text) => {
                put_list(alloc, entries.key_definition, text.as_bytes(), out)
            }
            EntryKey::Rank(_) => Ok(()),
        },
        KeyKind::Number(number) => match key {
            EntryKey::Text(_) => Ok(()),
            EntryKey::Rank(rank) => {
                put_number(number, number.of_rank(rank), out)?;
                Ok(())
            }
        },
    }
}
