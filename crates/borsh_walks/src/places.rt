// The names of definitions by their places, and what is marked there.
ghost use Rattle.borsh_walks.specs.Places.{AreListed, place_in};
ghost use Rattle.std.specs.BTreeMap.{get_by_text};
ghost use Rattle.std.specs.Prelude.{◌<◌, ◌≡◌, IfOk, None, Some, length, option_map, replicate, slice_get, slice_set};

use crate::definition::Definition;
use std::alloc::{AllocError, Global};
use std::collections::BTreeMap;

/// The names of a map in order, with their definitions. The place of a name is its index here, so what a walk knows of
/// names stands in a list by place.
#[derive(Drop)]
pub struct Places<'a> {
    map: &'a BTreeMap<String, Definition>,
    entries: Vec<(&'a str, &'a Definition)>,
}

impl<'a> Places<'a> {
    pub fn new(
        alloc: Global,
        map: &'a BTreeMap<String, Definition>,
    ) -> Result<Places<'a>, AllocError>
        ensures { IfOk result (λ p. (p.map ≡ map.entry) × AreListed p) }
    {
        let entries = map
            .iter()
            .map(|(name, definition)| (name.as_str(), definition))
            .collect(alloc)?;
        Ok(Places { map, entries })
    }

    // The place of the name, and its definition.
    pub fn find(&self, name: &str) -> Option<(usize, &'a Definition)>
        requires { AreListed self.now }
        ensures place { option_map (λ f. f.0) result ≡ place_in self.now.map.now.entries name.now }
        ensures definition { option_map (λ f. f.1.now) result ≡ get_by_text self.now.map.now name.now }
    {
        let entries = self.entries.as_slice();
        match entries.binary_search_by(|entry| entry.0.cmp(name)) {
            Ok(place) => Some((place, entries[place].1)),
            Err(_) => None,
        }
    }
}

// No name of so many has a mark.
pub fn no_marks<M: Copy>(alloc: Global, count: usize) -> Result<Vec<Option<M>>, AllocError>
    ensures { IfOk result (λ v. v.items ≡ replicate count None) }
{
    vec![in alloc; None; count]
}

// The mark at a place.
pub fn mark_at<M: Copy>(marks: &Vec<Option<M>>, place: usize) -> Option<M>
    requires { place < length marks.now.items }
    ensures { slice_get marks.now.items place ≡ Some result }
{
    marks.as_slice()[place]
}

// Marks the name at a place.
pub fn set_mark<M: Copy>(marks: &mut Vec<Option<M>>, place: usize, mark: M)
    requires { place < length marks.old.items }
    ensures { marks.new.items ≡ slice_set marks.old.items place (Some mark) }
{
    marks.as_mut_slice()[place] = Some(mark);
}
