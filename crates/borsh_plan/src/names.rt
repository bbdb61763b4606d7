// The names that a root leads to, by their places.
ghost use Rattle.borsh_plan.specs.Names.{AreParts, Grows, IsAdded, IsIndex, IsPartOf, IsPlaceOf, IsPlanned, IsPlanned-prop, name_at, name_of, found_definition, parts_in, places_in, shape_at};
ghost use Rattle.borsh_walks.specs.Container.{references};
ghost use Rattle.borsh_walks.specs.Definitions.{shape_of};
ghost use Rattle.borsh_walks.specs.Tables.{mark_of};
ghost use Rattle.std.specs.BTreeMap.{get_by_text};
ghost use Rattle.std.specs.Prelude.{IfOk, OnOk, OnSome, Some, ◌≡◌, ◌<◌, length, option_map, slice_get};

use crate::named::Named;
use borsh_walks::Definition;
use borsh_walks::parts::referenced_part;
use std::alloc::{AllocError, Global};
use std::collections::BTreeMap;

// Room for at most so many names is made at once.
const FIRST_ROOM: usize = 32;

/// The names that a root leads to, that of the root first, with their definitions and the places of the names in each.
#[derive(Drop)]
pub struct Names<'a> {
    pub(crate) root: &'a str,
    pub(crate) map: &'a BTreeMap<String, Definition>,
    names: Vec<Named<'a>>,
    // Of each name the places of the names in its definition.
    parts: Vec<Vec<usize>>,
    pub ghost planned: { IsPlanned map.now root.now names.items parts.items } by { IsPlanned-prop map.now root.now names.items parts.items },
}

// The name at a place.
fn named_at<'a>(names: &Vec<Named<'a>>, at: usize) -> Option<Named<'a>>
    ensures { result ≡ slice_get names.now.items at }
{
    names.as_slice().get(at).copied()
}

// The definition of a name.
fn definition_of<'a>(map: &'a BTreeMap<String, Definition>, name: &str) -> Option<&'a Definition>
    ensures { option_map (λ d. d.now) result ≡ get_by_text map.now name.now }
{
    map.get(name)
}

// The place of a name, which is added if it has none, as this part of the name at that place.
fn place_of<'a>(
    map: &'a BTreeMap<String, Definition>,
    names: &mut Vec<Named<'a>>,
    places: &mut BTreeMap<&'a str, usize>,
    name: &'a str,
    from: usize,
    index: usize,
) -> Result<usize, AllocError>
    requires { IsIndex map.now names.old.items (mark_of places.old) }
    ensures index { OnOk result (IsIndex map.now names.new.items (mark_of places.new)) }
    ensures place { IfOk result (λ p. name_of names.new.items p ≡ Some name.now) }
    ensures grown { OnOk result (Grows (IsAdded name.now from index) 1 names.old.items names.new.items) }
{
    if let Some(place) = places.get(name) {
        return Ok(*place);
    }
    let place = names.len();
    let definition = definition_of(map, name);
    names.push(Named {
        name,
        definition,
        from,
        index,
    })?;
    places.insert(name, place)?;
    Ok(place)
}

// The places of the names in a definition, which is that of the name at `from`.
fn parts_of<'a>(
    alloc: Global,
    map: &'a BTreeMap<String, Definition>,
    names: &mut Vec<Named<'a>>,
    places: &mut BTreeMap<&'a str, usize>,
    definition: &'a Definition,
    from: usize,
) -> Result<Vec<usize>, AllocError>
    requires { IsIndex map.now names.old.items (mark_of places.old) }
    ensures index { OnOk result (IsIndex map.now names.new.items (mark_of places.new)) }
    ensures parts { let refs = references (shape_of definition.now) in
        IfOk result (λ v. AreParts names.new.items v.items refs) }
    ensures grown { let refs = references (shape_of definition.now) in
        OnOk result (Grows (IsPartOf refs from) (length refs) names.old.items names.new.items) }
{
    let mut parts: Vec<usize> = Vec::new(alloc);
    let mut next: usize = 0;
    while let Some(part) = referenced_part(definition, next) {
        let place = place_of(map, names, places, part, from, next)?;
        parts.push(place)?;
        next += 1;
    }
    Ok(parts)
}

// The places that are listed.
fn list_at(parts: &[Vec<usize>], at: usize) -> &[usize]
    ensures { result.now ≡ places_in (slice_get parts.now at) }
{
    match parts.get(at) {
        Some(list) => list.as_slice(),
        None => &[],
    }
}

// The one that is listed at an index.
fn listed_at(parts: &[Vec<usize>], at: usize, index: usize) -> Option<usize>
    ensures place { result ≡ slice_get (places_in (slice_get parts.now at)) index }
    ensures small { OnSome result (index < 18446744073709551615) }
{
    parts.get(at)?.get(index).copied()
}

impl<'a> Names<'a> {
    /// The names that the root leads to, by the definitions of the map, which may be any. The only error is that an allocation
    /// failed.
    pub fn new(
        alloc: Global,
        root: &'a str,
        map: &'a BTreeMap<String, Definition>,
    ) -> Result<Names<'a>, AllocError>
        ensures { IfOk result (λ l. (l.root ≡ root.entry) × (l.map ≡ map.entry)) }
    {
        // At most so many of the names have definitions.
        let definitions = map.len();
        let room = definitions.min(FIRST_ROOM);
        let mut names: Vec<Named<'a>> = Vec::with_capacity(alloc, room)?;
        let mut places: BTreeMap<&'a str, usize> = BTreeMap::new(alloc);
        let mut parts: Vec<Vec<usize>> = Vec::with_capacity(alloc, room)?;
        let _first = place_of(map, &mut names, &mut places, root, 0, 0)?;
        let mut defined: usize = 0;
        while let Some(named) = named_at(&names, parts.len()) {
            match named.definition {
                Some(definition) => {
                    let from = parts.len();
                    let own = parts_of(alloc, map, &mut names, &mut places, definition, from)?;
                    parts.push(own)?;
                    defined += 1;
                }
                None => parts.push(Vec::new(alloc))?,
            }
        }
        Ok(Names {
            root,
            map,
            names,
            parts,
        })
    }

    /// How many names there are.
    pub fn len(&self) -> usize
        ensures { result ≡ length self.now.names.items }
    {
        self.names.len()
    }

    /// The name at a place; past the last one the empty name.
    pub fn name(&self, at: usize) -> &'a str
        ensures { result.now ≡ name_at self.now.names.items at }
    {
        match named_at(&self.names, at) {
            Some(named) => named.name,
            None => "",
        }
    }

    /// The definition of the name at a place, if it has one.
    pub fn definition(&self, at: usize) -> Option<&'a Definition>
        ensures shape { option_map (λ d. shape_of d.now) result ≡ shape_at self.now.names.items at }
        ensures definition { let named = slice_get self.now.names.items at in
            option_map (λ d. d.now) result ≡ found_definition named }
    {
        named_at(&self.names, at)?.definition
    }

    /// The places of the names in the definition at a place.
    pub fn parts(&self, at: usize) -> &[usize]
        ensures { let ns = self.now.names.items in AreParts ns result.now (parts_in (shape_at ns at)) }
    {
        list_at(self.parts.as_slice(), at)
    }

    /// The place of a part of the definition at a place, if there is that part.
    pub fn part(&self, at: usize, index: usize) -> Option<usize>
        ensures place { IsPlaceOf self.now.names.items at index result }
        ensures small { OnSome result (index < 18446744073709551615) }
    {
        listed_at(self.parts.as_slice(), at, index)
    }
}
