// The table of the names of a plan, and how the values of each are written as JSON.
ghost use Rattle.borsh_json.specs.Words.{Form, HasNoBytes, HasOrderAt, IsAt, IsKindAt, IsPartAt, KindTellsOrder, NeedNotAscend, NeedsNoCheck, OrderedBy, definitions_of, forms_in, forms_of, map_of, names_of, plan_names, references, root_of, shape_of_form};
ghost use Rattle.borsh_values.specs.Membership.{IsAnswer};
ghost use Rattle.std.specs.Prelude.{◌≡◌, ◌+◌, ◌<◌, ◌^◌, ℕ, false, List, Decides, IfOk, IfSome, Some, slice_get};

use crate::definitions::Definitions;
use crate::kinds::Kind;
use crate::order::Ordered;
use crate::variants::{Indexes, indexes_of};
use borsh_values::{Membership, Plan, is_member_of};
use borsh_walks::Definition;
use std::alloc::{AllocError, Global};
use std::marker::Model;

/// A plan, and how the values of its names are written as JSON. The functions [`to_json`](crate::to_json) and
/// [`from_json`](crate::from_json) make one for each call; a caller with many values of one type makes it once.
///
/// In contracts it is its plan.
#[derive(Drop)]
pub struct Table<'a, 'l> {
    definitions: Definitions<'a, 'l>,
    /// Of each name its definition, if it has one, and how its values are written.
    kinds: Vec<Option<(&'a Definition, Kind<'a>)>>,
    /// Of each name how its values are ordered; empty where there is no set or map.
    orders: Vec<Ordered>,
    /// Whether a list has to ascend.
    ascends: bool,
    indexes: Indexes<'a>,
}

impl<'a, 'l> Model for Table<'a, 'l> {
    ghost use Rattle.borsh_json.specs.contracts.definitions.Definitions.{the_row};
    ghost use Rattle.borsh_json.specs.declared.definitions.Definitions.{Definitions};
    ghost use Rattle.std.specs.Prelude.{[]};
    ghost use mir.Syntax.{named};

    ghost Value = { Definitions };

    ghost coded = { (the_row (record { mir = named 0; lft = [] }) (record { mir = named 0; lft = [] })).coded };

    ghost use Rattle.borsh_json.specs.Orders.{HasKinds};

    ghost view = { λ j. j.definitions };

    ghost invariant = { λ j. HasKinds j.definitions j.kinds.items j.orders.items j.ascends };
}

impl<'a, 'l> Table<'a, 'l> {
    /// The JSON of values of the plan's root. The only error is that an allocation failed. Left open: memory.
    ///
    /// ```
    /// let plan = Plan::new(alloc, "(u8, bool)", &definitions)?;
    /// let json = Json::new(alloc, &plan)?;
    /// for record in records {
    ///     let text = json.to_json(record, Style::COMPACT)?;
    ///     assert_eq!(rt; json.from_json(text.as_str())?.as_slice(), record);
    /// }
    /// ```
    pub fn new(alloc: Global, plan: &'l Plan<'a>) -> Result<Table<'a, 'l>, AllocError>
        ensures { IfOk result (λ j. j.plan.now ≡ plan.now) }
    {
        let definitions = Definitions::new(alloc, plan);
        let count = plan.len();
        let mut kinds = Vec::with_capacity(alloc, count)?;
        let mut ascends = false;
        for at in 0..count {
            let kind = definitions.find_kind(at)?;
            ascends = ascends_with(ascends, kind);
            kinds.push(kind)?;
        }
        let orders = if have_order(kinds.as_slice()) {
            definitions.orders()?
        } else {
            Vec::new(alloc)
        };
        let indexes = indexes_of(alloc, kinds.as_slice())?;
        Ok(Table {
            definitions,
            kinds,
            orders,
            ascends,
            indexes,
        })
    }

    /// The plan. Left open: none.
    pub fn plan(&self) -> &'l Plan<'a>
        ensures { result ≡ self.now.plan }
    {
        self.definitions.plan
    }

    /// Whether bytes are a member of the root.
    pub(crate) fn membership(&self, bytes: &[u8]) -> Result<Membership<'a>, AllocError>
        ensures { let plan = self.now.plan.now in
            IfOk result (λ a. IsAnswer (definitions_of plan) (root_of plan) bytes.now a) }
    {
        is_member_of(self.alloc(), self.definitions.plan, bytes)
    }

    pub(crate) fn alloc(&self) -> Global {
        self.definitions.alloc
    }

    /// The name at a place.
    pub(crate) fn name(&self, at: usize) -> &'a str
        ensures { (x : List ℕ) → IsAt (plan_names self.now.plan.now) at x → result.now ≡ x }
    {
        self.definitions.name(at)
    }

    /// The place of a part of the definition at a place; past its parts a place that no name has.
    pub(crate) fn part(&self, at: usize, index: usize) -> usize
        ensures { let ns = plan_names self.now.plan.now in let F = forms_in (map_of self.now.plan.now) in
            (x y : List ℕ) (f : Form) → IsAt ns at x → F x ≡ Some f →
            slice_get (references (shape_of_form f)) index ≡ Some y → IsAt ns result y }
    {
        self.definitions.part(at, index)
    }

    /// The place of a part of the definition at a place, if there is that part.
    pub(crate) fn part_at(&self, at: usize, index: usize) -> Option<usize>
        ensures part { (x : List ℕ) (f : Form) → IsAt (names_of self.now) at x → forms_of self.now x ≡ Some f →
            IsPartAt (names_of self.now) (references (shape_of_form f)) index result }
        ensures more { IfSome result (λ _. index + 1 < 2 ^ 64) }
    {
        self.definitions.part_at(at, index)
    }

    /// Whether the values of the name at a place have no bytes. Left open: none.
    pub fn is_zero_size(&self, at: usize) -> bool
        ensures { (x : List ℕ) → IsAt (plan_names self.now.plan.now) at x →
            Decides result (HasNoBytes (forms_in (map_of self.now.plan.now)) x) }
    {
        self.definitions.is_zero_size(at)
    }

    /// The definition of the name at a place, if it has one, and how its values are written. Left open: none.
    pub fn kind(&self, at: usize) -> Option<(&'a Definition, Kind<'a>)>
        ensures kind { let ns = plan_names self.now.plan.now in let F = forms_in (map_of self.now.plan.now) in
            IsKindAt F ns at result }
        ensures order { (x : List ℕ) → IsAt (names_of self.now) at x → HasOrderAt self.now x result }
        ensures telling { (x : List ℕ) → IsAt (names_of self.now) at x →
            IfSome result (λ r. KindTellsOrder (forms_of self.now) x r.1) }
    {
        match self.kinds.as_slice().get(at).copied() {
            Some(found) => found,
            None => None,
        }
    }

    /// Whether a list has to ascend; else all that a text says is in order.
    pub(crate) fn ascends(&self) -> bool
        ensures { let plan = self.now.plan.now in result ≡ false → NeedsNoCheck (forms_in (map_of plan)) (root_of plan) }
    {
        self.ascends
    }

    /// Where the variant of a name may be in an enum of many.
    pub(crate) fn variant_index(&self, at: usize, name: &str) -> Option<usize> {
        self.indexes.get(&at)?.get(name).copied()
    }

    /// How the values of the name at a place are ordered.
    pub(crate) fn known_order(&self, at: usize) -> Ordered
        ensures { (x : List ℕ) → IsAt (names_of self.now) at x → OrderedBy self.now x result }
    {
        match self.orders.as_slice().get(at).copied() {
            Some(order) => order,
            None => self.definitions.order_of(at),
        }
    }
}

/// Whether a list of the kind has to ascend that was found, or one before it has.
fn ascends_with(before: bool, found: Option<(&Definition, Kind<'_>)>) -> bool
    ensures { result ≡ false → (before ≡ false) × IfSome found.entry (λ r. NeedNotAscend r.1) }
{
    match found {
        Some((_, kind)) => before || is_ordered(kind),
        None => before,
    }
}

/// Whether a list of the kind has to ascend.
fn is_ordered(kind: Kind<'_>) -> bool
    ensures { result ≡ false → NeedNotAscend kind.entry }
{
    match kind {
        Kind::ByteList(elements) | Kind::Numbers(elements) | Kind::List(elements) => {
            elements.order.is_some()
        }
        _ => false,
    }
}

/// Whether one of the kinds is that of a set or map.
fn have_order(kinds: &[Option<(&Definition, Kind<'_>)>]) -> bool {
    for kind in kinds {
        let Some((_, kind)) = kind else {
            continue;
        };
        if matches!(kind, Kind::Map(_, _)) || is_ordered(*kind) {
            return true;
        }
    }
    false
}
