// What changed, in words.

use crate::alike::Written;
use crate::definitions::{Both, Variants, indexes_of, is_product};
use crate::pairs::{Pair, Pairs};
use crate::paths::{path_to, written};
use borsh_values::{Name, Path};
use borsh_walks::{
    Declaration, Definition, DiscriminantValue, FieldName, Fields, LengthRange, VariantName,
};
use std::alloc::{AllocError, Global};
use std::fmt;

/// At most so many changes are listed.
const MOST_CHANGES: usize = 1000;

/// What changed of a name.
#[derive(Clone, Copy, Debug, PartialEq, Eq)]
pub enum What<'a> {
    /// Another definition, of another kind or size: the two names.
    Becomes(Name<'a>, Name<'a>),
    /// How many parts a struct or a tuple has, and now.
    Parts(usize, usize),
    VariantAdded(Name<'a>),
    VariantRemoved(Name<'a>),
    VariantRenamed(Name<'a>, Name<'a>),
    FieldRenamed(Name<'a>, Name<'a>),
    /// How many elements a sequence may have, and may have now.
    Counts(&'a LengthRange, &'a LengthRange),
}

/// What changed of the part of the old root that the path leads to. An element of a sequence is written as its first.
#[derive(Drop)]
pub struct Change<'a> {
    pub path: Path<'a>,
    pub what: What<'a>,
}

impl<'a> fmt::Display for Change<'a> {
    fn fmt<W: fmt::Write>(&self, f: &mut fmt::Formatter<W>) -> fmt::Result {
        let path = &self.path;
        match self.what {
            What::Becomes(old, new) if old == new => write!(f, "{path} has another definition"),
            What::Becomes(old, new) => write!(f, "{path} is {old} and becomes {new}"),
            What::Parts(old, new) => write!(f, "{path} has {old} parts and now {new}"),
            What::VariantAdded(name) => write!(f, "{path}: variant {name} is new"),
            What::VariantRemoved(name) => write!(f, "{path}: variant {name} is gone"),
            What::VariantRenamed(old, new) => write!(f, "{path}: variant {old} is now {new}"),
            What::FieldRenamed(old, new) => write!(f, "{path}.{old} is now {path}.{new}"),
            What::Counts(old, new) => write!(
                f,
                "{path} has {} to {} elements and may now have {} to {}",
                old.start, old.end, new.start, new.end
            ),
        }
    }
}

// What changed of the variants of an enum.
fn of_variants<'a>(
    alloc: Global,
    old: &'a Variants,
    new: &'a Variants,
    found: &mut Vec<What<'a>>,
) -> Result<(), AllocError> {
    let old_indexes = indexes_of(alloc, old)?;
    let new_indexes = indexes_of(alloc, new)?;
    for (discriminant, name, _) in new.as_slice() {
        match old_indexes.get(discriminant) {
            Some(index) => {
                if let Some((_, before, _)) = old.get(*index)
                    && before.as_str() != name.as_str()
                {
                    found.push(What::VariantRenamed(Name(before), Name(name)))?;
                }
            }
            None => found.push(What::VariantAdded(Name(name)))?,
        }
    }
    for (discriminant, name, _) in old.as_slice() {
        if new_indexes.get(discriminant).is_none() {
            found.push(What::VariantRemoved(Name(name)))?;
        }
    }
    Ok(())
}

// What changed of the names of fields.
fn of_fields<'a>(
    old: &'a Vec<(FieldName, Declaration)>,
    new: &'a Vec<(FieldName, Declaration)>,
    found: &mut Vec<What<'a>>,
) -> Result<(), AllocError> {
    for (index, (before, _)) in old.as_slice().iter().enumerate() {
        if let Some((name, _)) = new.get(index)
            && before.as_str() != name.as_str()
        {
            found.push(What::FieldRenamed(Name(before), Name(name)))?;
        }
    }
    Ok(())
}

// That a name became another.
fn becomes<'a>(both: Both<'_, 'a>, pair: Pair) -> What<'a> {
    What::Becomes(Name(both.old.name(pair.old)), Name(both.new.name(pair.new)))
}

// What changed of a pair of names.
fn of_pair<'a>(alloc: Global, both: Both<'_, 'a>, pair: Pair) -> Result<Vec<What<'a>>, AllocError> {
    let mut found: Vec<What<'a>> = Vec::new(alloc);
    let becomes = becomes(both, pair);
    let old = both.old.definition(pair.old);
    let new = both.new.definition(pair.new);
    let (Some(old), Some(new)) = (old, new) else {
        if old.is_some() != new.is_some() {
            found.push(becomes)?;
        }
        return Ok(found);
    };
    match (old, new) {
        (
            Definition::Sequence {
                length_range: old,
                ..
            },
            Definition::Sequence {
                length_range: new,
                ..
            },
        ) => {
            if *old != *new {
                found.push(What::Counts(old, new))?;
            }
        }
        (Definition::Enum { variants: old, .. }, Definition::Enum { variants: new, .. }) => {
            of_variants(alloc, old, new, &mut found)?;
        }
        (
            Definition::Struct {
                fields: Fields::NamedFields(old),
            },
            Definition::Struct {
                fields: Fields::NamedFields(new),
            },
        ) if old.len() == new.len() => of_fields(old, new, &mut found)?,
        (Definition::Primitive(old), Definition::Primitive(new)) if *old == *new => {}
        _ => {
            let parts = both.old.parts(pair.old).len();
            let count = both.new.parts(pair.new).len();
            if !is_product(old) || !is_product(new) {
                found.push(becomes)?;
            } else if parts != count {
                found.push(What::Parts(parts, count))?;
            }
        }
    }
    Ok(found)
}

/// Lists what changed of the pair at an index; of one that doesn't go together for another reason, the two names.
pub fn push_changes<'a>(
    alloc: Global,
    both: Both<'_, 'a>,
    pairs: &Pairs,
    index: usize,
    is_apart: bool,
    changes: &mut Vec<Change<'a>>,
) -> Result<(), AllocError> {
    let Some(pair) = pairs.get(index) else {
        return Ok(());
    };
    let mut found = of_pair(alloc, both, pair)?;
    if found.is_empty() && is_apart {
        found.push(becomes(both, pair))?;
    }
    if found.is_empty() {
        return Ok(());
    }
    let way = match path_to(alloc, both.old, pairs, index)? {
        Some(way) => way,
        None => Vec::new(alloc),
    };
    for what in found.as_slice() {
        if changes.len() >= MOST_CHANGES {
            return Ok(());
        }
        changes.push(Change {
            path: written(alloc, both.old, way.as_slice())?,
            what: *what,
        })?;
    }
    Ok(())
}

/// Lists what changed of all pairs, and those that are written as other JSON.
pub fn all_changes<'a>(
    alloc: Global,
    both: Both<'_, 'a>,
    pairs: &Pairs,
    json: &Written,
) -> Result<Vec<Change<'a>>, AllocError> {
    let mut changes: Vec<Change<'a>> = Vec::new(alloc);
    for index in 0..json.pairs.len() {
        let is_apart = json.apart.as_slice().binary_search(&index).is_ok();
        push_changes(alloc, both, &json.pairs, index, is_apart, &mut changes)?;
    }
    for index in 0..pairs.len() {
        if let Some(pair) = pairs.get(index)
            && !json.pairs.has(pair.old, pair.new)
        {
            push_changes(alloc, both, pairs, index, false, &mut changes)?;
        }
    }
    Ok(changes)
}
