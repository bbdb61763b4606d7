// Items with what their parameters stand for.
ghost use Rattle.std.specs.Prelude.{◌≡◌, ◌++◌, ◌∷◌, [], IfOk, map, option_map};
ghost use Rattle.borsh_source.specs.Views.{given_in, given_of, named, parameters_of, stands, used};

use crate::tree::Parameter;
use borsh_walks::Declaration;
use std::alloc::{AllocError, Global};

/// What a parameter stands for.
#[derive(PartialEq, Eq, Drop)]
pub enum Given {
    /// The item doesn't read the parameter.
    Unread,
    /// The type of this name.
    Named(Declaration),
    Number(u64),
}

/// An item that is used, by its index, with what its parameters stand for.
#[derive(PartialEq, Eq, Drop)]
pub struct Use {
    pub item: usize,
    pub given: Vec<Given>,
}

/// What the parameters stand for where a type is read.
#[derive(Clone, Copy)]
pub struct Scope<'a> {
    pub parameters: &'a [Parameter],
    pub given: &'a [Given],
}

/// What the parameter of the name stands for, if there is one; `Self` stands for what is behind those of the parameters.
pub fn given_as<'a>(parameters: &[Parameter], given: &'a [Given], name: &str) -> Option<&'a Given>
    ensures { option_map (λ g. stands g.now) result
        ≡ given_of parameters.now (map stands given.now) name.now }
{
    match parameters {
        [] => match given {
            [] => None,
            [own, ..] => if name == "Self" { Some(own) } else { None },
        },
        [parameter, parameters @ ..] => match given {
            [] => None,
            [first, others @ ..] => {
                if parameter.name.as_str() == name {
                    Some(first)
                } else {
                    given_as(parameters, others, name)
                }
            }
        },
    }
}

/// No parameters.
pub fn outside() -> Scope<'static>
    ensures parameters { parameters_of result ≡ [] }
    ensures given { given_in result ≡ [] }
{
    Scope {
        parameters: &[],
        given: &[],
    }
}

/// The same again.
pub fn copy_given(alloc: Global, given: &Given) -> Result<Given, AllocError>
    ensures { IfOk result (λ g. stands g ≡ stands given.now) }
{
    match given {
        Given::Unread => Ok(Given::Unread),
        Given::Named(name) => Ok(Given::Named(String::from_str(alloc, name.as_str())?)),
        Given::Number(number) => Ok(Given::Number(*number)),
    }
}

/// The same again.
pub fn copy_all(alloc: Global, given: &[Given]) -> Result<Vec<Given>, AllocError>
    ensures { IfOk result (λ gs. map stands gs.items ≡ map stands given.now) }
{
    let mut copies = Vec::new(alloc);
    for stands in given {
        copies.push(copy_given(alloc, stands)?)?;
    }
    Ok(copies)
}

/// The same again.
pub fn copy_use(alloc: Global, one: &Use) -> Result<Use, AllocError>
    ensures { IfOk result (λ u. used u ≡ used one.now) }
{
    Ok(Use {
        item: one.item,
        given: copy_all(alloc, one.given.as_slice())?,
    })
}

/// What the parameters of an item stand for within it, and behind that its name, for which `Self` stands.
pub fn given_within(alloc: Global, given: &[Given], name: &str) -> Result<Vec<Given>, AllocError>
    ensures { IfOk result (λ gs. map stands gs.items ≡ map stands given.now ++ named name.now ∷ []) }
{
    let mut within = copy_all(alloc, given)?;
    within.push(Given::Named(String::from_str(alloc, name)?))?;
    Ok(within)
}
