// Values of a root, one after another, from a reader.
ghost use Rattle.borsh_plan.specs.Plan.{definitions_of, root_of};
ghost use Rattle.borsh_values.specs.declared.records.RecordError.TheVariants.{OutOfMemory};
ghost use Rattle.borsh_walks.specs.Container.{Member};
ghost use Rattle.borsh_values.specs.Records.{Advances, AdvancesHeld, TurnsFall, IsFirstOf, IsRecordError, IsRootError, SameRoot, ahead, plan_of, limit_of, next_offset, source_of, value_of};
ghost use Rattle.std.specs.Prelude.{IfErr, IfOk, IfSome, None, OnOk, [], ⊤, ◌-◌, ◌≡◌, ◌≤◌, length, take, true};

use crate::faults::Fault;
use crate::fronts::{Front, front_of};
use borsh_io::{Buffered, Error, Read};
use borsh_plan::Plan;
use std::alloc::{AllocError, Global};
use std::fmt;

/// How many bytes a value has at most, unless another limit is set.
pub const MOST_BYTES: usize = 67108864;

/// Values of the root of a plan, one after another, as a reader gives them: each call of [`Records::advance`] goes on to the
/// next one.
///
/// However many there are, the memory is that of the longest one, and at least 64 KiB. Each value is read from its beginning at
/// most about twice.
///
/// ```
/// let plan = Plan::new(alloc, "Vec<u8>", &definitions)?;
/// let mut records = Records::new(alloc, &plan, StdReader::new(file, 1000), MOST_BYTES)?;
/// while records.advance(alloc)? {
///     let nodes = Preorder::new(alloc, &plan, records.value());
/// }
/// ```
#[derive(Drop)]
pub struct Records<'a, 'l, R> {
    plan: &'l Plan<'a>,
    input: Buffered<R>,
    // Where the next value begins.
    next: u64,
    // How many bytes a value has at most.
    limit: usize,
    // How many bytes have to be held before they are tried.
    wanted: usize,
}

/// Why there is no next value.
#[derive(Drop)]
pub enum RecordError<'a> {
    /// No value begins at this offset, whatever bytes follow: where in it the bytes stop being one, and why.
    NoMember(u64, Fault<'a>),
    /// The bytes end within the value that begins at this offset.
    CutShort(u64, Fault<'a>),
    /// The value that begins at this offset has more bytes than the limit, if it is one.
    TooLong(u64),
    /// The root has the empty value, so that any bytes may be any number of values.
    EmptyValue,
    /// As [`crate::Membership::Ambiguous`].
    Ambiguous(&'a str),
    /// The reader failed, or, if the kind is `OutOfMemory`, perhaps an allocation for more of its bytes.
    Reader(Error),
    /// An allocation failed.
    OutOfMemory,
}

/// [`RecordError::OutOfMemory`]. Left open: none.
impl<'a> From<AllocError> for RecordError<'a> {
    ghost from_gives = { λ _ e. e ≡ OutOfMemory };

    fn from(_: AllocError) -> RecordError<'a> {
        RecordError::OutOfMemory
    }
}

/// One line; an offset is in bytes. Left open: any text: tested.
impl<'a> fmt::Display for RecordError<'a> {
    fn fmt<W: fmt::Write>(&self, f: &mut fmt::Formatter<W>) -> fmt::Result {
        match self {
            RecordError::NoMember(offset, fault) => write!(f, "value at byte {offset}: {fault}"),
            RecordError::CutShort(offset, fault) => write!(
                f,
                "value at byte {offset}: cut short: {fault}"
            ),
            RecordError::TooLong(offset) => write!(
                f,
                "value at byte {offset}: longer than the limit"
            ),
            RecordError::EmptyValue => write!(
                f,
                "the type has a value without bytes, so that any bytes are any number of values"
            ),
            RecordError::Ambiguous(name) => write!(f, "`{name}` is ambiguous"),
            RecordError::Reader(error) => write!(f, "{error}"),
            RecordError::OutOfMemory => write!(f, "out of memory"),
        }
    }
}

impl<'a, 'l, R: Read + Drop> Records<'a, 'l, R> {
    /// The values of the root, from the reader's next byte on. A value has at most `limit` bytes.
    ///
    /// Returns `EmptyValue` if the root has the empty value, `Ambiguous` as [`crate::front_of`], and `OutOfMemory` if an allocation
    /// fails. Nothing is read. Left open: memory; `Ambiguous` as there.
    ///
    /// ```
    /// let mut records = Records::new(alloc, &plan, b"\x01\x02".as_slice(), MOST_BYTES)?;
    /// ```
    pub fn new(
        alloc: Global,
        plan: &'l Plan<'a>,
        reader: R,
        limit: usize,
    ) -> Result<Records<'a, 'l, R>, RecordError<'a>>
        ensures first { IfOk result (λ r. (source_of r ≡ reader) × (ahead r ≡ []) × (next_offset r ≡ 0)) }
        ensures same { IfOk result (λ r. (plan_of r ≡ plan.entry) × (limit_of r ≡ limit)) }
        ensures nonempty { let C = definitions_of plan.now in
            OnOk result (Member C (root_of plan.now) [] → ⊥) }
        ensures err { let C = definitions_of plan.now in
            IfErr result (λ e. IsRootError C (root_of plan.now) e) }
    {
        match front_of(alloc, plan, b"")? {
            Front::Value(_) => return Err(RecordError::EmptyValue),
            Front::Ambiguous(name) => return Err(RecordError::Ambiguous(name)),
            Front::TooShort(_) | Front::NoMember(_) => (),
        }
        Ok(Records {
            plan,
            input: Buffered::new(alloc, reader),
            next: 0,
            limit,
            wanted: 1,
        })
    }

    /// The bytes of the value that was gone on to last; after `false` or an error they may be any. Left open: none.
    ///
    /// ```
    /// assert!(rt; records.advance(alloc)?);
    /// let bytes = records.value();
    /// ```
    pub fn value(&self) -> &[u8]
        ensures { result.now ≡ value_of self.now }
    {
        self.input.piece()
    }

    /// Where that value begins, in bytes from the first one's beginning. Left open: any number where that is 2^64 or more.
    ///
    /// ```
    /// println!(rt; "{}: {} bytes", records.offset(), records.value().len())?;
    /// ```
    pub fn offset(&self) -> u64
        ensures { result ≡ next_offset self.now - length (value_of self.now) }
    {
        self.next.saturating_sub(self.value().len() as u64)
    }

    /// Goes on to the next value, and returns whether there is one: no other bytes at the front of those to come are one, whatever
    /// values they are.
    ///
    /// `false` means that the reader is at its end, and all its bytes were values. After an error all bytes are kept, and a later
    /// call begins at the same value. The reader's bytes are lost to it as they are read, and it may have lost bytes of values that
    /// are still to come. Left open: memory; how much is read; as of [`crate::front_of`].
    ///
    /// ```
    /// let mut count = 0;
    /// while records.advance(alloc)? {
    ///     count += 1;
    /// }
    /// ```
    pub fn advance(&mut self, alloc: Global) -> Result<bool, RecordError<'a>>
        ensures same { SameRoot self.old self.new }
        ensures falls { TurnsFall R.stream self.old self.new result }
        ensures advances { let plan = (plan_of self.old).now in
            Advances (definitions_of plan) (root_of plan) R.stream self.old self.new result }
    {
        let mut at_end = false;
        loop {
            if self.find(alloc, at_end)? {
                return Ok(true);
            }
            if at_end {
                return Ok(false);
            }
            match self.input.read_more() {
                Ok(length) => at_end = length == 0,
                Err(error) => return Err(RecordError::Reader(error)),
            }
        }
    }

    /// The same without reading: `false` means that more bytes have to be read, or that there are none. So a caller can write what
    /// it made before it waits for more. Left open: `false` each time, which is tested; otherwise as of [`Records::advance`].
    ///
    /// ```
    /// if !records.advance_held(alloc)? {
    ///     out.flush()?;
    /// }
    /// ```
    pub fn advance_held(&mut self, alloc: Global) -> Result<bool, RecordError<'a>>
        ensures same { SameRoot self.old self.new }
        ensures advances { let plan = (plan_of self.old).now in
            AdvancesHeld (definitions_of plan) (root_of plan) self.old self.new ⊤ ⊥ result }
        ensures falls { TurnsFall R.stream self.old self.new result }
    {
        self.find(alloc, false)
    }

    // Goes on to the next value among the bytes that were read; `at_end` says that no others follow.
    fn find(&mut self, alloc: Global, at_end: bool) -> Result<bool, RecordError<'a>>
        ensures same { SameRoot self.old self.new }
        ensures advances { let plan = (plan_of self.old).now in
            AdvancesHeld (definitions_of plan) (root_of plan) self.old self.new
            (at_end ≡ true → ahead self.old ≡ []) (at_end ≡ true) result }
    {
        let held = self.input.held().len();
        if held == 0 || held < self.wanted && !at_end {
            return Ok(false);
        }
        match self.look(alloc, at_end)? {
            Some(length) => {
                self.input.take(length);
                self.next = self.next.saturating_add(length as u64);
                self.wanted = 1;
                Ok(true)
            }
            None => {
                self.wanted = held.saturating_mul(2);
                Ok(false)
            }
        }
    }

    // How many bytes the next value has; none if more bytes have to be read.
    fn look(&self, alloc: Global, at_end: bool) -> Result<Option<usize>, RecordError<'a>>
        requires some { ahead self.now ≡ [] → ⊥ }
        ensures found { let plan = self.now.plan.now in let limit = limit_of self.now in
            IfOk result (λ o. IfSome o (λ n. (n ≤ limit) × IsFirstOf (definitions_of plan) (root_of plan) n (ahead self.now))) }
        ensures none { IfOk result (λ o. o ≡ None → at_end ≡ true → ⊥) }
        ensures error { let plan = self.now.plan.now in
            IfErr result (λ e. IsRecordError (definitions_of plan) (root_of plan) (ahead self.now)
            (next_offset self.now) (limit_of self.now) (at_end ≡ true) (λ _. ⊥) e) }
    {
        let tried = self.tried();
        match front_of(alloc, self.plan, tried)? {
            Front::Value(0) => Err(RecordError::EmptyValue),
            Front::Value(length) => Ok(Some(length)),
            Front::TooShort(_) if self.limit <= tried.len() => Err(RecordError::TooLong(self.next)),
            Front::TooShort(fault) if at_end => Err(RecordError::CutShort(self.next, fault)),
            Front::TooShort(_) => Ok(None),
            Front::NoMember(fault) => Err(RecordError::NoMember(self.next, fault)),
            Front::Ambiguous(name) => Err(RecordError::Ambiguous(name)),
        }
    }

    // As many of the bytes that were read as a value has at most.
    fn tried(&self) -> &[u8]
        ensures { result.now ≡ take (limit_of self.now) (ahead self.now) }
    {
        let held = self.input.held();
        &held[..self.limit.min(held.len())]
    }
}
