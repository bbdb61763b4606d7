// The definitions of a plan's names, and the orders of their values. Names are known by their places.
ghost use Rattle.borsh_json.specs.Words.{AreOrders, FindsKindAt, FindsOrder, Form, HasNoBytes, IsAt, IsKindAt, IsNamed, IsPartAt, OrderedBy, TellsOther, form_of, forms_in, forms_of, map_of, names_of, plan_names, references, shape_of_form};
ghost use Rattle.std.specs.Prelude.{◌≡◌, ◌+◌, ◌<◌, ◌^◌, ℕ, List, Decides, IfOk, IfSome, None, Some, option_map, slice_get};

use crate::kinds::{Kind, kind_of};
use crate::order::{Ordered, ordered_as};
use borsh_values::Plan;
use borsh_walks::Definition;
use std::alloc::{AllocError, Global};

/// A plan, by the places of its names.
#[derive(Drop)]
pub struct Definitions<'a, 'l> {
    pub alloc: Global,
    pub plan: &'l Plan<'a>,
}

impl<'a, 'l> Definitions<'a, 'l> {
    pub(crate) fn new(alloc: Global, plan: &'l Plan<'a>) -> Definitions<'a, 'l>
        ensures { result.plan.now ≡ plan.now }
    {
        Definitions { alloc, plan }
    }

    /// Finds the definition of the name at a place, if it has one, and how its values are written.
    pub(crate) fn find_kind(
        &self,
        at: usize,
    ) -> Result<Option<(&'a Definition, Kind<'a>)>, AllocError>
        ensures kind { let ns = plan_names self.now.plan.now in let F = forms_in (map_of self.now.plan.now) in
            IfOk result (λ kind. IsKindAt F ns at kind) }
        ensures orders { FindsKindAt self.now at result }
    {
        match self.get(at) {
            Some(definition) => {
                let kind = kind_of(self, at, definition)?;
                Ok(Some((definition, kind)))
            }
            None => Ok(None),
        }
    }

    /// The definition of the name at a place, if it has one.
    pub(crate) fn get(&self, at: usize) -> Option<&'a Definition>
        ensures { (x : List ℕ) → IsAt (plan_names self.now.plan.now) at x →
            option_map (λ d. form_of d.now) result ≡ forms_in (map_of self.now.plan.now) x }
    {
        self.plan.definition(at)
    }

    /// The name at a place.
    pub(crate) fn name(&self, at: usize) -> &'a str
        ensures { (x : List ℕ) → IsAt (plan_names self.now.plan.now) at x →
            result.now ≡ x }
    {
        self.plan.name(at)
    }

    /// The place of a part of the definition at a place; past its parts a place that no name has.
    pub(crate) fn part(&self, at: usize, index: usize) -> usize
        ensures { let ns = plan_names self.now.plan.now in let F = forms_in (map_of self.now.plan.now) in
            (x y : List ℕ) (f : Form) → IsAt ns at x → F x ≡ Some f →
            slice_get (references (shape_of_form f)) index ≡ Some y → IsAt ns result y }
    {
        self.plan.part(at, index).unwrap_or(usize::MAX)
    }

    /// Whether the values of the name at a place have no bytes.
    pub(crate) fn is_zero_size(&self, at: usize) -> bool
        ensures { (x : List ℕ) → IsAt (plan_names self.now.plan.now) at x →
            Decides result (HasNoBytes (forms_in (map_of self.now.plan.now)) x) }
    {
        self.plan.is_zero(at)
    }

    /// The place of a part of the definition at a place, if there is that part.
    pub(crate) fn part_at(&self, at: usize, index: usize) -> Option<usize>
        ensures part { (x : List ℕ) (f : Form) → IsNamed self.now at x → forms_of self.now x ≡ Some f →
            IsPartAt (names_of self.now) (references (shape_of_form f)) index result }
        ensures more { IfSome result (λ _. index + 1 < 2 ^ 64) }
    {
        self.plan.part(at, index)
    }

    /// How the values of the name at a place are ordered.
    pub(crate) fn order_of(&self, at: usize) -> Ordered
        ensures { (x : List ℕ) → IsNamed self.now at x → OrderedBy self.now x result }
    {
        match self.order_by_parts(at) {
            Some(order) => order,
            None => Ordered::Other(at),
        }
    }

    /// So it is of each name.
    pub(crate) fn orders(&self) -> Result<Vec<Ordered>, AllocError>
        ensures { IfOk result (λ orders. AreOrders (forms_of self.now) (names_of self.now) orders.items) }
    {
        let count = self.plan.len();
        let mut orders = Vec::with_capacity(self.alloc, count)?;
        for at in 0..count {
            let order = self.order_of(at);
            orders.push(order)?;
        }
        Ok(orders)
    }

    /// How the values of the name at a place are ordered, where that or its definition tells it.
    fn order_by_parts(&self, at: usize) -> Option<Ordered>
        ensures order { (x : List ℕ) → IsNamed self.now at x →
            IfSome result (FindsOrder (forms_of self.now) (names_of self.now) x) }
        ensures none { (x : List ℕ) → IsNamed self.now at x → result ≡ None → TellsOther (forms_of self.now) x }
    {
        if self.is_zero_size(at) {
            return Some(Ordered::Single);
        }
        ordered_as(self, at, self.get(at)?)
    }
}
