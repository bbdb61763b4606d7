// The tree, and its items by their names.
ghost use Rattle.std.specs.Prelude.{◌≡◌, ◌+◌, ⊤, IfOk, option_map, slice_get};
ghost use Rattle.borsh_source.specs.Errors.{Answers, IsTold};
ghost use Rattle.borsh_source.specs.Views.{IsFirst, IsFound, IsIndexed, index_of, source_of};

use crate::error::{Cause, CompileError, refused};
use crate::tree::{Item, Place, Source};
use std::alloc::{AllocError, Global};
use std::collections::HashMap;

/// A tree, and the index of each item by its name; none of a name that comes twice.
#[derive(Drop)]
pub struct Context<'a> {
    pub alloc: Global,
    pub source: &'a Source,
    pub index: HashMap<&'a str, Option<usize>>,
}

impl<'a> Context<'a> {
    /// The tree with an index of its items.
    pub fn new(alloc: Global, source: &'a Source) -> Result<Context<'a>, AllocError>
        ensures { IfOk result (λ c. IsIndexed c × (source_of c ≡ source.now)) }
    {
        let mut index: HashMap<&'a str, Option<usize>> = HashMap::new(alloc);
        for (at, item) in source.items.iter().enumerate() {
            let name = item.name.as_str();
            let first = first_place(&index, name, at);
            index.insert(name, first)?;
        }
        Ok(Context {
            alloc,
            source,
            index,
        })
    }

    /// The item of the name, and its index. A name that two items have is refused.
    pub fn item(&self, name: &str, place: Place) -> Result<Option<(usize, &'a Item)>, CompileError>
        requires { IsIndexed self.now }
        ensures { Answers (source_of self.now) result (IsFound (source_of self.now) name.now) }
    {
        let Some(entry) = self.index.get(name) else {
            return Ok(None);
        };
        let Some(at) = entry else {
            return Err(refused(self.alloc, place, Cause::TwoItems, name));
        };
        let Some(item) = element(&self.source.items, *at) else {
            return Ok(None);
        };
        Ok(Some((*at, item)))
    }
}

// The place of a name that is not there yet.
fn first_place(index: &HashMap<&str, Option<usize>>, name: &str, at: usize) -> Option<usize>
    ensures { IsFirst (index_of index.now) name.now at result }
{
    match index.get(name) {
        Some(_) => None,
        None => Some(at),
    }
}

/// The element at an index.
pub fn element<'a, T>(list: &'a Vec<T>, index: usize) -> Option<&'a T>
    ensures { option_map (λ e. e.now) result ≡ slice_get list.now.items index }
{
    list.as_slice().get(index)
}

/// How many types and expressions may contain one another.
pub const DEEPEST: u32 = 128;

/// How many types, expressions and bytes of names are read and written at most.
pub const MOST: u64 = 1 << 26;

/// Takes so much from what may still be read and written.
pub fn spend(
    context: &Context<'_>,
    place: Place,
    amount: u64,
    left: &mut u64,
) -> Result<(), CompileError>
    ensures { Answers (source_of context.now) result (λ _. ⊤) }
{
    match left.checked_sub(amount) {
        Some(rest) => {
            *left = rest;
            Ok(())
        }
        None => Err(refused(context.alloc, place, Cause::TooLarge, "")),
    }
}

/// The depth within, unless that is too deep.
pub fn within(context: &Context<'_>, place: Place, depth: u32) -> Result<u32, CompileError>
    ensures { Answers (source_of context.now) result (λ less. depth ≡ less + 1) }
{
    match depth.checked_sub(1) {
        Some(less) => Ok(less),
        None => Err(refused(context.alloc, place, Cause::TooDeep, "")),
    }
}

/// The refusal of a tree that names what it doesn't have.
pub fn nowhere(context: &Context<'_>) -> CompileError
    ensures { IsTold (source_of context.now) result }
{
    refused(
        context.alloc,
        Place { line: 0, column: 0 },
        Cause::Nowhere,
        "",
    )
}
