// A tree and a type are compiled.
ghost use Rattle.std.specs.Prelude.{◌⊎◌, ⊤, IfErr, IfOk, string_bytes};
ghost use Rattle.borsh_definitions.specs.Described.{forms_in};
ghost use Rattle.borsh_walks.specs.Container.{IsValid};
ghost use Rattle.borsh_walks.specs.Definitions.{definitions_in as shapes_in};
ghost use Rattle.borsh_walks.specs.RulesAnswer.{JudgesRules};
ghost use Rattle.borsh_source.specs.Errors.{Answers, IsTold};
ghost use Rattle.borsh_source.specs.Container.{IsBroken, IsMeaning, SaysFault, definitions_so_far};
ghost use Rattle.borsh_source.specs.Views.{IsIndexed, source_of};

use crate::adding::Output;
use crate::context::{Context, DEEPEST, MOST, element};
use crate::error::{Cause, CompileError, refused};
use crate::items::add_item;
use crate::tree::{Place, Source};
use crate::types::named;
use crate::uses::{copy_use, outside};
use borsh_walks::{
    Counted, Declaration, Definition, Expansions, SchemaContainerValidateError, check_rules,
};
use std::alloc::Global;
use std::collections::BTreeMap;

/// The parts of a container: the name of its root, and its definitions. Left open of each field: none.
#[derive(Drop)]
pub struct Compiled {
    pub declaration: Declaration,
    pub definitions: BTreeMap<Declaration, Definition>,
}

// So many items are used at most, each with all that its parameters stand for.
const MOST_USES: usize = 65536;

// What a type of the tree brings.
fn collected<'b>(
    context: &Context<'_>,
    root: usize,
    wanted: Option<&'b str>,
) -> Result<(Declaration, Output<'b>), CompileError>
    requires { IsIndexed context.now }
    ensures { Answers (source_of context.now) result (λ p. IsMeaning (source_of context.now) root (string_bytes p.0) (definitions_so_far p.1)) }
{
    let definitions = BTreeMap::new(context.alloc);
    let uses = Vec::new(context.alloc);
    let places = BTreeMap::new(context.alloc);
    let mut output = Output {
        definitions,
        uses,
        places,
        left: MOST,
        wanted,
        found: None,
    };
    let scope = outside();
    let declaration = named(context, scope, root, DEEPEST, &mut output)?;
    for next in 0..MOST_USES {
        let Some(used) = element(&output.uses, next) else {
            return Ok((declaration, output));
        };
        let used = copy_use(context.alloc, used)?;
        add_item(context, &used, &mut output)?;
    }
    Err(refused(
        context.alloc,
        Place { line: 0, column: 0 },
        Cause::TooLarge,
        "",
    ))
}

// The place of the type that first gave the name its definition.
fn place_of(context: &Context<'_>, root: usize, name: &str) -> Result<Place, CompileError>
    requires { IsIndexed context.now }
    ensures { Answers (source_of context.now) result (λ _. ⊤) }
{
    let (_, output) = collected(context, root, Some(name))?;
    Ok(output.found.unwrap_or(Place { line: 0, column: 0 }))
}

// Whether each name that the root leads to keeps the rules of the format.
fn check(
    alloc: Global,
    root: &str,
    definitions: &BTreeMap<Declaration, Definition>,
) -> Result<(), SchemaContainerValidateError>
    ensures { JudgesRules (shapes_in definitions.now) root.now result }
{
    let mut counts = Expansions::NONE;
    let mut counted = Counted::new(definitions, &mut counts);
    check_rules(alloc, root, &mut counted)
}

// The refusal of a definition that breaks a rule, at the place of the type that it is of.
fn broken(
    context: &Context<'_>,
    root: usize,
    error: &SchemaContainerValidateError,
) -> Result<CompileError, CompileError>
    requires { IsIndexed context.now }
    ensures { Answers (source_of context.now) result (SaysFault error.now) }
{
    let Some((rule, name)) = error.broken_rule() else {
        return Ok(CompileError::OutOfMemory);
    };
    let place = place_of(context, root, name)?;
    Ok(refused(context.alloc, place, Cause::Rule(rule), name))
}

/// The root and the definitions of the type at an index of the tree: those that its own schema has. They keep the rules of the
/// format (`borsh_walks::check_rules`).
///
/// A name is that of a parameter, else of an item, else of a type of the format, by the last segment of its path. An item has
/// definitions where the type leads to it, once for each choice of what its parameters stand for; those that it names only in a
/// `PhantomData` or in skipped fields are no part of its name, nor are constant ones.
///
/// An error says what is wrong, about which name, and where: [`Cause`] lists all. At most 128 types or expressions may contain
/// one another, 65,536 items be used and 67,108,864 types, expressions and bytes of names be read and written; beyond, the
/// cause is `TooDeep` or `TooLarge`. A name that is said to be unknown is that of no item, and as a type's of none of the format; an
/// enum that is refused for its discriminants has some, and doesn't say whether they are the tags; a rule that is said to be broken
/// is broken by the container of the type. Left open: memory; which refusal comes, and that the other causes are true.
///
/// ```
/// let compiled = compile(alloc, &source, root)?;
/// println!(rt; "{}", compiled.declaration.as_str())?;
/// ```
pub fn compile(alloc: Global, source: &Source, root: usize) -> Result<Compiled, CompileError>
    ensures meaning { IfOk result (λ c. IsMeaning source.now root (string_bytes c.declaration)
        (forms_in c.definitions)) }
    ensures valid { IfOk result (λ c. IsValid (shapes_in c.definitions) (string_bytes c.declaration)) }
    ensures told { IfErr result (λ e. IsTold source.now e ⊎ IsBroken source.now root e) }
{
    let context = Context::new(alloc, source)?;
    let (declaration, output) = collected(&context, root, None)?;
    let definitions = output.definitions;
    match check(alloc, declaration.as_str(), &definitions) {
        Ok(()) => Ok(Compiled {
            declaration,
            definitions,
        }),
        Err(error) => Err(broken(&context, root, &error)?),
    }
}
