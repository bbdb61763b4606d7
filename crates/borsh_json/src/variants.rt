// Variants by their names.

use crate::kinds::Kind;
use borsh_walks::Definition;
use std::alloc::{AllocError, Global};
use std::collections::BTreeMap;

/// An enum with at most so many variants has no index.
const FEW: usize = 16;

/// Of enums, by their places, the index of each variant by its name. It says where to look first: what is found by it is compared.
pub type Indexes<'a> = BTreeMap<usize, BTreeMap<&'a str, usize>>;

/// The indexes of those of the kinds that are enums of many variants.
pub fn indexes_of<'a>(
    alloc: Global,
    kinds: &[Option<(&'a Definition, Kind<'a>)>],
) -> Result<Indexes<'a>, AllocError> {
    let mut indexes: Indexes<'a> = BTreeMap::new(alloc);
    for (at, kind) in kinds.iter().enumerate() {
        if let Some((_, Kind::Choice(_, variants))) = kind
            && variants.len() > FEW
        {
            let mut index: BTreeMap<&'a str, usize> = BTreeMap::new(alloc);
            for (place, (_, name, _)) in variants.iter().enumerate() {
                index.insert(name.as_str(), place)?;
            }
            indexes.insert(at, index)?;
        }
    }
    Ok(indexes)
}
