// The one walk over the bytes of a value.
ghost use Rattle.borsh_plan.specs.Plan.{definitions_of, names_of};
ghost use Rattle.borsh_values.specs.Cursor.{Happens, IsCursor, IsInValue, IsOpenable, Moves, OpensFull, Shows, Stays, StepsOn, KnownAs, frames, remaining};
ghost use Rattle.borsh_values.specs.declared.frames.{Frame.Frame, Rest.TheVariants.Copies};
ghost use Rattle.std.specs.Prelude.{IfOk, None, Some, [], false, true, ◌∷◌, ◌+◌, ◌-◌, ◌<◌, ◌≤◌, ◌≡◌, drop, get_or, length, replicate, slice_set, take};

use crate::faults::{Path, Reason, path_to};
use crate::frames::{Frame, Mark, Opened, Rest, Step, after_copies, next_part};
use crate::opening::open_definition;
use crate::runs::free_front;
use crate::tags::Found;
use borsh_plan::Plan;
use borsh_walks::Definition;
use std::alloc::{AllocError, Global};
use std::collections::BTreeMap;

/// Where a walk over the bytes of a value is: in front of the next name of `frame`, with the bytes `left`. Each frame of `stack`
/// waits until the one after it was read.
#[derive(Drop)]
pub struct Cursor<'a, 'p, 'b> {
    alloc: Global,
    pub plan: &'p Plan<'a>,
    pub bytes: &'b [u8],
    pub left: &'b [u8],
    marks: Vec<Option<Mark>>,
    tables: BTreeMap<&'a str, BTreeMap<u64, Found>>,
    stack: Vec<Frame>,
    frame: Frame,
    // How many names were begun since the last byte was taken.
    idle: usize,
}

/// What a step of a walk finds.
#[derive(Clone, Copy)]
pub enum Event<'a, 'b> {
    /// A value of the name at a place begins, whose definition has these own bytes; its parts follow.
    Open(usize, &'a Definition, &'b [u8]),
    /// Values of the name at a place, which have no bytes, are passed.
    Pass(usize),
    /// A value ends.
    Close,
    /// The whole value ends.
    End,
    /// No value of the name at a place begins.
    Fault(usize, Reason),
    /// The definition of the name at a place is ambiguous, or breaks a rule of widths.
    Undecided(usize),
}

// The mark of a name, unless it was opened where other bytes were left.
fn look_up(marks: &Vec<Option<Mark>>, at: usize, left: usize) -> Option<Mark>
    requires { at < length marks.now.items }
    ensures { KnownAs (get_or marks.now.items at None) left result }
{
    match marks[at] {
        Some(Mark::Open(start)) if start != left => None,
        mark => mark,
    }
}

fn set_mark(marks: &mut Vec<Option<Mark>>, at: usize, mark: Mark)
    requires { at < length marks.old.items }
    ensures { marks.new.items ≡ slice_set marks.old.items at (Some mark) }
{
    marks[at] = Some(mark);
}

// No marks for so many names.
fn unmarked(alloc: Global, count: usize) -> Result<Vec<Option<Mark>>, AllocError>
    ensures { IfOk result (λ v. v.items ≡ replicate count None) }
{
    vec![in alloc; None; count]
}

/// The first bytes.
pub fn front(bytes: &[u8], taken: usize) -> &[u8]
    requires { taken ≤ length bytes.now }
    ensures { result.now ≡ take taken bytes.now }
{
    &bytes[..taken]
}

/// The bytes behind the first ones.
pub fn after(bytes: &[u8], taken: usize) -> &[u8]
    requires { taken ≤ length bytes.now }
    ensures { result.now ≡ drop taken bytes.now }
{
    &bytes[taken..]
}

impl<'a, 'p, 'b> Cursor<'a, 'p, 'b> {
    /// In front of a value of the root.
    pub fn new(
        alloc: Global,
        plan: &'p Plan<'a>,
        bytes: &'b [u8],
    ) -> Result<Cursor<'a, 'p, 'b>, AllocError>
        ensures cursor { IfOk result (λ c. IsCursor c) }
        ensures plan { IfOk result (λ c. c.plan ≡ plan.entry) }
        ensures bytes { IfOk result (λ c. c.bytes ≡ bytes.entry) }
        ensures left { IfOk result (λ c. c.left ≡ bytes.entry) }
        ensures begins { let start = length bytes.now + 1 in
            let first : Frame = record { at = 0; start = start; rest = Copies 0 1 } in
            IfOk result (λ c. frames c ≡ first ∷ []) }
    {
        let marks = unmarked(alloc, plan.len())?;
        Ok(Cursor {
            alloc,
            plan,
            bytes,
            left: bytes,
            marks,
            tables: BTreeMap::new(alloc),
            stack: Vec::new(alloc),
            frame: Frame {
                at: 0,
                start: bytes.len() + 1,
                rest: Rest::Copies(0, 1),
            },
            idle: 0,
        })
    }

    /// How many bytes come before those that are left.
    pub fn offset(&self) -> usize
        requires { length self.now.left.now ≤ length self.now.bytes.now }
        ensures { result ≡ length self.now.bytes.now - length self.now.left.now }
    {
        self.bytes.len() - self.left.len()
    }

    /// How many values the next one is in.
    pub fn depth(&self) -> usize
        ensures { result ≡ length self.now.stack.items }
    {
        self.stack.len()
    }

    /// The path of the next value.
    pub fn path(&self) -> Result<Path<'a>, AllocError> {
        path_to(self.alloc, self.plan, self.bytes, &self.stack, self.frame)
    }

    /// The value that the next one is a part of.
    pub fn around(&self) -> Frame
        ensures { result ≡ self.now.frame }
    {
        self.frame
    }

    /// Passes names of free size, or a run of values of one, if they come next; whether it did.
    pub fn pass(&mut self) -> bool
        requires { IsCursor self.old }
        ensures cursor { IsCursor self.new }
        ensures stays { Stays self.old self.new }
        ensures moves { result ≡ true → Moves self.old self.new }
        ensures same { result ≡ false → self.new ≡ self.old }
    {
        match free_front(self.plan, self.frame.rest, self.left) {
            Some(passed) => {
                self.frame.rest = passed.rest;
                self.left = after(self.left, passed.taken);
                self.idle = 0;
                true
            }
            None => false,
        }
    }

    /// The next step.
    pub fn step(&mut self) -> Result<Event<'a, 'b>, AllocError>
        requires { ∥ IsCursor self.old ∥₁ }
        ensures cursor { IsCursor self.old → IsCursor self.new }
        ensures stays { Stays self.old self.new }
        ensures happens { IfOk result (λ e. Happens self.old self.new e) }
        ensures shows { IsCursor self.old → IfOk result (λ e. Shows self.old e) }
    {
        match next_part(self.plan, self.frame.rest) {
            Some(step) => self.begin(step),
            None => Ok(self.close()),
        }
    }

    /// The next step in a value: names of zero size are passed, and aren't opened.
    pub fn step_inside(&mut self) -> Result<Event<'a, 'b>, AllocError>
        requires { ∥ IsInValue self.old ∥₁ }
        ensures inside { ∥ IsInValue self.new ∥₁ }
        ensures stays { Stays self.old self.new }
        ensures happens { IfOk result (λ e. Happens self.old self.new e) }
        ensures shows { IsInValue self.old → IfOk result (λ e. Shows self.old e) }
        ensures full { IfOk result (λ e. OpensFull self.old e) }
    {
        let Some(step) = next_part(self.plan, self.frame.rest) else {
            return Ok(self.close());
        };
        if self.plan.is_zero(step.at) {
            self.frame.rest = after_copies(self.frame.rest, step);
            return Ok(Event::Pass(step.at));
        }
        self.begin(step)
    }

    // Goes back to the value around.
    fn close(&mut self) -> Event<'a, 'b>
        requires cursor { ∥ IsCursor self.old ∥₁ }
        requires none { remaining (names_of self.old.plan.now) self.old.frame.rest ≡ [] }
        ensures cursor { IsCursor self.old → IsCursor self.new }
        ensures stays { Stays self.old self.new }
        ensures happens { Happens self.old self.new result }
        ensures shows { Shows self.old result }
    {
        match self.stack.pop() {
            Some(above) => {
                if self.frame.start == self.left.len() {
                    set_mark(&mut self.marks, self.frame.at, Mark::Empty);
                }
                self.frame = above;
                Event::Close
            }
            None => Event::End,
        }
    }

    // Begins a value of the next name.
    fn begin(&mut self, step: Step) -> Result<Event<'a, 'b>, AllocError>
        requires cursor { ∥ IsCursor self.old ∥₁ }
        requires step { StepsOn (names_of self.old.plan.now) self.old.frame.rest step }
        ensures cursor { IsCursor self.old → IsCursor self.new }
        ensures stays { Stays self.old self.new }
        ensures happens { IfOk result (λ e. Happens self.old self.new e) }
        ensures shows { IsCursor self.old → IfOk result (λ e. Shows self.old e) }
    {
        let plan = self.plan;
        let Some(definition) = plan.definition(step.at) else {
            return Ok(Event::Fault(step.at, Reason::MissingDefinition));
        };
        let name = plan.name(step.at);
        match open_definition(
            self.alloc,
            plan,
            &mut self.tables,
            name,
            step.at,
            definition,
            self.left,
        )? {
            Opened::Undecided => Ok(Event::Undecided(step.at)),
            Opened::Refused(why) => Ok(Event::Fault(step.at, why)),
            Opened::Taken(own, parts) => {
                if own == 0 {
                    self.open_empty(step, definition, parts)
                } else {
                    self.open(step, definition, own, parts)
                }
            }
        }
    }

    // Opens a value whose definition takes no byte of its own.
    fn open_empty(
        &mut self,
        step: Step,
        definition: &'a Definition,
        parts: Rest,
    ) -> Result<Event<'a, 'b>, AllocError>
        requires cursor { ∥ IsCursor self.old ∥₁ }
        requires step { StepsOn (names_of self.old.plan.now) self.old.frame.rest step }
        requires opens { IsOpenable self.old step.at definition.now 0 parts }
        ensures cursor { IsCursor self.old → IsCursor self.new }
        ensures stays { Stays self.old self.new }
        ensures happens { IfOk result (λ e. Happens self.old self.new e) }
        ensures shows { IsCursor self.old → IfOk result (λ e. Shows self.old e) }
    {
        // For the prover: no more names are begun without a byte than there are definitions.
        let _definitions = self.plan.map().len();
        match look_up(&self.marks, step.at, self.left.len()) {
            Some(Mark::Empty) => {
                self.frame.rest = after_copies(self.frame.rest, step);
                Ok(Event::Pass(step.at))
            }
            Some(Mark::Open(_)) => Ok(Event::Fault(step.at, Reason::Recursive)),
            None => {
                self.stack.push(Frame {
                    rest: step.others,
                    ..self.frame
                })?;
                self.frame = Frame {
                    at: step.at,
                    start: self.left.len(),
                    rest: parts,
                };
                set_mark(&mut self.marks, step.at, Mark::Open(self.left.len()));
                self.idle += 1;
                Ok(Event::Open(step.at, definition, front(self.left, 0)))
            }
        }
    }

    // Opens a value whose definition takes some bytes.
    fn open(
        &mut self,
        step: Step,
        definition: &'a Definition,
        own: usize,
        parts: Rest,
    ) -> Result<Event<'a, 'b>, AllocError>
        requires cursor { ∥ IsCursor self.old ∥₁ }
        requires step { StepsOn (names_of self.old.plan.now) self.old.frame.rest step }
        requires some { 0 < own }
        requires opens { IsOpenable self.old step.at definition.now own parts }
        ensures cursor { IsCursor self.old → IsCursor self.new }
        ensures stays { Stays self.old self.new }
        ensures happens { IfOk result (λ e. Happens self.old self.new e) }
        ensures shows { IfOk result (λ e. Shows self.old e) }
    {
        let start = self.left.len();
        let bytes = front(self.left, own);
        let left = after(self.left, own);
        let around = Frame {
            rest: step.others,
            ..self.frame
        };
        if next_part(self.plan, parts).is_some() {
            self.stack.push(around)?;
            self.frame = Frame {
                at: step.at,
                start,
                rest: parts,
            };
        } else {
            self.frame = around;
        }
        self.idle = 0;
        self.left = left;
        Ok(Event::Open(step.at, definition, bytes))
    }
}
