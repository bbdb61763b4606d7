// The names of written types, and what they bring.
ghost use Rattle.std.specs.Prelude.{◌≡◌, ◌++◌, ◌∷◌, [], IfOk, OnOk, map, string_bytes};
ghost use Rattle.borsh_source.specs.Container.{AreThese, Brings};
ghost use Rattle.borsh_source.specs.Errors.{Answers, IsTold};
ghost use Rattle.borsh_source.specs.Heads.{ArrayMeans, FormBrings, IsForm, IsHead, IsOther, IsPathHead, use_of};
ghost use Rattle.borsh_source.specs.Meaning.{Gives, GivesOne, IsNumberAt, ItemMeans, Means, MeansAll, name_given, parameter_names};
ghost use Rattle.borsh_source.specs.Views.{IsIndexed, given_in, named, parameters_of, source_of, stands, texts_of};

use crate::adding::{Output, add_all, add_use};
use crate::context::{Context, element, nowhere, spend, within};
use crate::error::{Cause, CompileError, refused};
use crate::formats::{Kind, format_of, most_arguments, read_arguments};
use crate::forms::{form, push_following};
use crate::numbers::{number_named, value_of};
use crate::reading::reads;
use crate::tree::{Item, ItemKind, Parameter, Place, Type, TypeKind};
use crate::uses::{Given, Scope, Use, given_as};
use borsh_walks::Declaration;
use std::alloc::{AllocError, Global};

// What a written type is at its outside.
enum Head<'a, 'b> {
    // What a parameter stands for.
    Given(&'b Given),
    // A type of the format, with the indices of its arguments.
    Format(&'a str, Kind, Vec<usize>),
    // An array: the indices of its element, and of its length.
    Array(usize, usize),
    // An item, with the indices of its arguments.
    Item(usize, &'a Item, &'a [usize]),
}

// A type of the format with one argument.
fn head_of_one<'a, 'b>(
    context: &Context<'_>,
    stem: &'static str,
    kind: Kind,
    argument: usize,
) -> Result<Head<'a, 'b>, CompileError>
    ensures { Answers (source_of context.now) result (IsForm stem.now kind (argument ∷ [])) }
{
    Ok(Head::Format(stem, kind, vec![in context.alloc; argument]?))
}

// What a path is: a parameter, an item, or a type of the format.
fn head_of_path<'a, 'b>(
    context: &Context<'a>,
    scope: Scope<'b>,
    name: &'a str,
    arguments: &'a [usize],
    place: Place,
) -> Result<Head<'a, 'b>, CompileError>
    requires { IsIndexed context.now }
    ensures { Answers (source_of context.now) result (IsPathHead (source_of context.now)
        (parameters_of scope.entry) (given_in scope.entry) name.now arguments.now) }
{
    if let Some(given) = given_as(scope.parameters, scope.given, name) {
        return match arguments {
            [] => Ok(Head::Given(given)),
            _ => Err(other_number(context, place, name, 0, arguments.len())),
        };
    }
    if let Some((at, item)) = context.item(name, place)? {
        return Ok(Head::Item(at, item, arguments));
    }
    let Some((stem, kind)) = format_of(name) else {
        return Err(refused(context.alloc, place, Cause::UnknownType, name));
    };
    let count = read_arguments(kind);
    if arguments.len() > most_arguments(kind) {
        return Err(other_number(context, place, name, count, arguments.len()));
    }
    let Some(read) = arguments.get(..count) else {
        return Err(other_number(context, place, name, count, arguments.len()));
    };
    Ok(Head::Format(stem, kind, Vec::from_slice(context.alloc, read)?))
}

// The refusal of a type with another number of arguments.
fn other_number(
    context: &Context<'_>,
    place: Place,
    name: &str,
    expected: usize,
    found: usize,
) -> CompileError
    ensures { IsTold (source_of context.now) result }
{
    refused(
        context.alloc,
        place,
        Cause::Arguments { expected, found },
        name,
    )
}

// What a written type is at its outside.
fn head_of<'a, 'b>(
    context: &Context<'a>,
    scope: Scope<'b>,
    written: &'a Type,
) -> Result<Head<'a, 'b>, CompileError>
    requires { IsIndexed context.now }
    ensures { Answers (source_of context.now) result (IsHead (source_of context.now)
        (parameters_of scope.entry) (given_in scope.entry) written.now.kind) }
{
    if let TypeKind::Path { name, arguments } = &written.kind {
        return head_of_path(
            context,
            scope,
            name.as_str(),
            arguments.as_slice(),
            written.place,
        );
    }
    head_of_other(context, written)
}

// What isn't a path is a type of the format.
fn head_of_other<'a, 'b>(
    context: &Context<'_>,
    written: &Type,
) -> Result<Head<'a, 'b>, CompileError>
    ensures { Answers (source_of context.now) result (IsOther written.now.kind) }
{
    if let TypeKind::Reference(to) = &written.kind {
        return head_of_one(context, "", Kind::Through, *to);
    }
    if let TypeKind::Slice(element) = &written.kind {
        return head_of_one(context, "Vec", Kind::List, *element);
    }
    if let TypeKind::Array { element, length } = &written.kind {
        return Ok(Head::Array(*element, *length));
    }
    if let TypeKind::Tuple(parts) = &written.kind {
        return head_of_tuple(context, parts.as_slice());
    }
    Err(refused(context.alloc, written.place, Cause::NoType, ""))
}

// A tuple.
fn head_of_tuple<'a, 'b>(
    context: &Context<'_>,
    parts: &[usize],
) -> Result<Head<'a, 'b>, CompileError>
    ensures { Answers (source_of context.now) result (IsForm [] Kind.Tuple parts.now) }
{
    Ok(Head::Format("", Kind::Tuple, Vec::from_slice(context.alloc, parts)?))
}

// What a type of the format brings beside its arguments, whose names these are.
fn add_form(
    context: &Context<'_>,
    place: Place,
    stem: &str,
    kind: Kind,
    names: &[Declaration],
    output: &mut Output<'_>,
) -> Result<Declaration, CompileError>
    ensures { Answers (source_of context.now) result (λ n. Brings
        (FormBrings stem.now kind (texts_of names.now) (string_bytes n)) output.old output.new) }
{
    let mut entries = Vec::new(context.alloc);
    let Some(name) = form(context.alloc, stem, kind, names, &mut entries)? else {
        let count = read_arguments(kind);
        return Err(other_number(context, place, stem, count, names.len()));
    };
    spend(context, place, name.len() as u64, &mut output.left)?;
    add_all(context, place, entries, output)?;
    Ok(name)
}

// The names that parameters stand for, without numbers and what isn't read.
fn names_given(alloc: Global, given: &[Given]) -> Result<Vec<Declaration>, AllocError>
    ensures { IfOk result (λ ds. texts_of ds.items ≡ parameter_names (map stands given.now)) }
{
    let mut names = Vec::new(alloc);
    for given in given {
        push_given(alloc, &mut names, given)?;
    }
    Ok(names)
}

// The name that a parameter stands for, if it stands for a type.
fn push_given(alloc: Global, names: &mut Vec<Declaration>, given: &Given) -> Result<(), AllocError>
    ensures { OnOk result (texts_of names.new.items
        ≡ texts_of names.old.items ++ parameter_names (stands given.now ∷ [])) }
{
    match given {
        Given::Named(name) => {
            let name = String::from_str(alloc, name.as_str())?;
            names.push(name)?;
            Ok(())
        }
        Given::Unread => Ok(()),
        Given::Number(_) => Ok(()),
    }
}

/// The name of an item, or of a variant's fields, with the names that its parameters stand for.
pub fn name_given(alloc: Global, name: &str, given: &[Given]) -> Result<Declaration, AllocError>
    ensures { IfOk result (λ d. string_bytes d ≡ name_given name.now (map stands given.now)) }
{
    let names = names_given(alloc, given)?;
    let mut text = String::from_str(alloc, name)?;
    if let [first, others @ ..] = names.as_slice() {
        text.push_str("<")?;
        text.push_str(first.as_str())?;
        push_following(&mut text, others)?;
        text.push_str(">")?;
    }
    Ok(text)
}

/// The name of the type at an index. What it brings is put out: the definitions of types of the format, and the items that
/// are used.
#[cycle(types)]
pub fn named(
    context: &Context<'_>,
    scope: Scope<'_>,
    at: usize,
    depth: u32,
    output: &mut Output<'_>,
) -> Result<Declaration, CompileError>
    requires { IsIndexed context.now }
    ensures { Answers (source_of context.now) result (λ n. Brings (Means (source_of context.now)
        (parameters_of scope.entry) (given_in scope.entry) at (string_bytes n)) output.old output.new) }
{
    let Some(written) = element(&context.source.types, at) else {
        return Err(nowhere(context));
    };
    let place = written.place;
    spend(context, place, 1, &mut output.left)?;
    let less = within(context, place, depth)?;
    match head_of(context, scope, written)? {
        Head::Given(given) => given_name(context, given, place),
        Head::Format(stem, kind, parts) => {
            let names = all_named(context, scope, parts.as_slice(), less, output)?;
            add_form(context, place, stem, kind, names.as_slice(), output)
        }
        Head::Array(element, length) => {
            array_named(context, scope, element, length, place, less, output)
        }
        Head::Item(at, item, arguments) => {
            let given = all_given(context, scope, item, arguments, place, less, output)?;
            item_named(context, at, item, given, place, less, output)
        }
    }
}

// The name of an array, whose length is the value of an expression.
#[cycle(types)]
fn array_named(
    context: &Context<'_>,
    scope: Scope<'_>,
    element: usize,
    length: usize,
    place: Place,
    depth: u32,
    output: &mut Output<'_>,
) -> Result<Declaration, CompileError>
    requires { IsIndexed context.now }
    ensures { Answers (source_of context.now) result (λ n. Brings (ArrayMeans (source_of context.now)
        (parameters_of scope.entry) (given_in scope.entry) element length (string_bytes n))
        output.old output.new) }
{
    let count = value_of(context, scope, length, depth, &mut output.left)?;
    let parts = [element];
    let names = all_named(context, scope, &parts, depth, output)?;
    add_form(
        context,
        place,
        "",
        Kind::Array(count as usize),
        names.as_slice(),
        output,
    )
}

// The name of a parameter that stands for a type.
fn given_name(
    context: &Context<'_>,
    given: &Given,
    place: Place,
) -> Result<Declaration, CompileError>
    ensures { Answers (source_of context.now) result (λ n. stands given.now ≡ named (string_bytes n)) }
{
    match given {
        Given::Named(name) => Ok(String::from_str(context.alloc, name.as_str())?),
        _ => Err(refused(context.alloc, place, Cause::NoType, "")),
    }
}

// The name of a struct or an enum, which is used.
fn used_named(
    context: &Context<'_>,
    at: usize,
    item: &Item,
    given: Vec<Given>,
    place: Place,
    output: &mut Output<'_>,
) -> Result<Declaration, CompileError>
    ensures { let hs = map stands given.items in Answers (source_of context.now) result (λ n. (string_bytes n
        ≡ name_given (string_bytes item.now.name) hs)
        × Brings (AreThese [] (use_of at hs ∷ [])) output.old output.new) }
{
    let name = name_given(context.alloc, item.name.as_str(), given.as_slice())?;
    spend(context, place, name.len() as u64, &mut output.left)?;
    add_use(Use { item: at, given }, output)?;
    Ok(name)
}

// The name of an item whose parameters stand for these.
#[cycle(types)]
fn item_named(
    context: &Context<'_>,
    at: usize,
    item: &Item,
    given: Vec<Given>,
    place: Place,
    depth: u32,
    output: &mut Output<'_>,
) -> Result<Declaration, CompileError>
    requires { IsIndexed context.now }
    ensures { let hs = map stands given.items in Answers (source_of context.now) result (λ n. Brings
        (ItemMeans (source_of context.now) at item.now hs (string_bytes n)) output.old output.new) }
{
    match &item.kind {
        ItemKind::Alias(to) => {
            let scope = Scope {
                parameters: item.parameters.as_slice(),
                given: given.as_slice(),
            };
            named(context, scope, *to, depth, output)
        }
        ItemKind::Constant(_) => {
            Err(refused(context.alloc, place, Cause::NoType, item.name.as_str()))
        }
        ItemKind::Struct(_) => used_named(context, at, item, given, place, output),
        ItemKind::Enum { .. } => used_named(context, at, item, given, place, output),
    }
}

/// The names of the types at these indices.
#[cycle(types)]
pub fn all_named(
    context: &Context<'_>,
    scope: Scope<'_>,
    types: &[usize],
    depth: u32,
    output: &mut Output<'_>,
) -> Result<Vec<Declaration>, CompileError>
    requires { IsIndexed context.now }
    ensures { Answers (source_of context.now) result (λ ns. Brings (MeansAll (source_of context.now)
        (parameters_of scope.entry) (given_in scope.entry) types.now (texts_of ns.items))
        output.old output.new) }
{
    let mut names = Vec::new(context.alloc);
    'names: for at in types {
        let name = named(context, scope, *at, depth, output)?;
        names.push(name)?;
    }
    Ok(names)
}

// The number that an argument of a path is.
fn number_given(
    context: &Context<'_>,
    scope: Scope<'_>,
    at: usize,
    depth: u32,
    left: &mut u64,
) -> Result<u64, CompileError>
    requires { IsIndexed context.now }
    ensures { Answers (source_of context.now) result (IsNumberAt (source_of context.now)
        (parameters_of scope.entry) (given_in scope.entry) at) }
{
    let Some(written) = element(&context.source.types, at) else {
        return Err(nowhere(context));
    };
    match &written.kind {
        TypeKind::Constant(expression) => value_of(context, scope, *expression, depth, left),
        TypeKind::Path { name, arguments } if arguments.is_empty() => {
            number_named(context, scope, name.as_str(), written.place, depth, left)
        }
        _ => Err(refused(context.alloc, written.place, Cause::NoNumber, "")),
    }
}

// What a parameter of an item stands for, if this is its argument.
#[cycle(types)]
fn one_given(
    context: &Context<'_>,
    scope: Scope<'_>,
    item: &Item,
    parameter: &Parameter,
    at: usize,
    depth: u32,
    output: &mut Output<'_>,
) -> Result<Given, CompileError>
    requires { IsIndexed context.now }
    ensures { Answers (source_of context.now) result (λ h. Brings (GivesOne (source_of context.now)
        (parameters_of scope.entry) (given_in scope.entry) item.now.kind parameter.now at (stands h))
        output.old output.new) }
{
    if parameter.constant {
        let number = number_given(context, scope, at, depth, &mut output.left)?;
        return Ok(Given::Number(number));
    }
    if reads(
        context,
        &item.kind,
        parameter.name.as_str(),
        &mut output.left,
    )? {
        Ok(Given::Named(named(context, scope, at, depth, output)?))
    } else {
        Ok(Given::Unread)
    }
}

// What the parameters of an item stand for, if these are its arguments.
#[cycle(types)]
fn all_given(
    context: &Context<'_>,
    scope: Scope<'_>,
    item: &Item,
    arguments: &[usize],
    place: Place,
    depth: u32,
    output: &mut Output<'_>,
) -> Result<Vec<Given>, CompileError>
    requires { IsIndexed context.now }
    ensures { Answers (source_of context.now) result (λ hs. Brings (Gives (source_of context.now)
        (parameters_of scope.entry) (given_in scope.entry) item.now.kind
        item.now.parameters.items arguments.now (map stands hs.items)) output.old output.new) }
{
    if item.parameters.len() != arguments.len() {
        let count = item.parameters.len();
        return Err(other_number(context, place, item.name.as_str(), count, arguments.len()));
    }
    let mut given = Vec::new(context.alloc);
    'arguments: for (at, parameter) in item.parameters.iter().enumerate() {
        let argument = arguments[at];
        let stands = one_given(context, scope, item, parameter, argument, depth, output)?;
        given.push(stands)?;
    }
    Ok(given)
}
