// What a plan says of a place.
ghost use Rattle.borsh_plan.specs.Names.{AreParts, IsPlaceOf, name_at, found_definition, parts_in, shape_at};
ghost use Rattle.borsh_plan.specs.Plan.{IsPlanOf, IsZeroAt, SizeAt, map_of, names_of, root_of};
ghost use Rattle.borsh_walks.specs.Definitions.{shape_of};
ghost use Rattle.std.specs.Prelude.{IfOk, OnSome, ◌<◌, ◌≡◌, length, option_map, slice_get};

use crate::names::Names;
use crate::plan::Plan;
use crate::sizes::{free_sizes, size_at};
use crate::zeros::zero_sizes;
use borsh_walks::Definition;
use std::alloc::{AllocError, Global};
use std::collections::BTreeMap;

impl<'a> Plan<'a> {
    /// The plan of the root, by any definitions. The only error is that an allocation failed. Left open: memory.
    ///
    /// ```
    /// let plan = Plan::new(alloc, "Vec<u8>", &definitions)?;
    /// ```
    pub fn new(
        alloc: Global,
        root: &'a str,
        map: &'a BTreeMap<String, Definition>,
    ) -> Result<Plan<'a>, AllocError>
        ensures { IfOk result (IsPlanOf map.now root.now) }
    {
        let names = Names::new(alloc, root, map)?;
        let sizes = free_sizes(alloc, &names)?;
        let zeros = zero_sizes(alloc, &names)?;
        Ok(Plan {
            names,
            sizes,
            zeros,
        })
    }

    /// The root. Left open: none.
    pub fn root(&self) -> &'a str
        ensures { result.now ≡ root_of self.now }
    {
        self.names.root
    }

    /// The definitions. Left open: none.
    pub fn map(&self) -> &'a BTreeMap<String, Definition>
        ensures { result.now ≡ map_of self.now }
    {
        self.names.map
    }

    /// The number of names. Left open: none.
    pub fn len(&self) -> usize
        ensures { result ≡ length (names_of self.now) }
    {
        self.names.len()
    }

    /// The name at a place, or the empty name. Left open: none.
    pub fn name(&self, at: usize) -> &'a str
        ensures { result.now ≡ name_at (names_of self.now) at }
    {
        self.names.name(at)
    }

    /// The definition of the name at a place, if it has one. Left open: none.
    pub fn definition(&self, at: usize) -> Option<&'a Definition>
        ensures shape { option_map (λ d. shape_of d.now) result ≡ shape_at (names_of self.now) at }
        ensures definition { let named = slice_get (names_of self.now) at in
            option_map (λ d. d.now) result ≡ found_definition named }
    {
        self.names.definition(at)
    }

    /// The places of the names in the definition at a place, in order. Left open: none.
    pub fn parts(&self, at: usize) -> &[usize]
        ensures { let ns = names_of self.now in AreParts ns result.now (parts_in (shape_at ns at)) }
    {
        self.names.parts(at)
    }

    /// The one at an index, if there is one. Left open: none.
    pub fn part(&self, at: usize, index: usize) -> Option<usize>
        ensures place { IsPlaceOf (names_of self.now) at index result }
        ensures small { OnSome result (index < 18446744073709551615) }
    {
        self.names.part(at, index)
    }

    /// How many bytes all values of the name at a place have, where any so many bytes are one; 0 where eight definitions in one
    /// another don't tell that. Left open: past the last name.
    pub fn size(&self, at: usize) -> u64
        ensures { SizeAt self.now at result }
    {
        size_at(&self.sizes, at)
    }

    /// Whether its values have no bytes. Left open: past the last name.
    pub fn is_zero(&self, at: usize) -> bool
        ensures { IsZeroAt self.now at result }
    {
        self.zeros.as_slice().get(at).copied().unwrap_or(false)
    }
}
