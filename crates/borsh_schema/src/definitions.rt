// Maps of definitions.
ghost use Rattle.std.specs.Prelude.{◌≡◌, Decides, IfErr};
ghost use Rattle.std.specs.BTreeMap.{IsUnchanged};
ghost use Rattle.borsh_schema.specs.declared.definitions.SchemaBuildError.TheVariants.{OutOfMemory};
ghost use Rattle.borsh_definitions.specs.Described.{form_of, none};
ghost use Rattle.borsh_schema.specs.Errors.{size_error};
ghost use Rattle.borsh_schema.specs.Joined.{AddsDefinitions, AnswersKnown, definition_with};

use borsh_walks::{Declaration, Definition, SchemaMaxSerializedSizeError};
use std::alloc::{AllocError, AllocFailed};
use std::collections::BTreeMap;
use std::error::Error;
use std::fmt;

/// The definitions that a schema adds to.
pub type DefinitionMap = BTreeMap<Declaration, Definition>;

/// What a step of building a schema returns.
pub type SchemaResult<T> = Result<T, SchemaBuildError>;

/// Why the definitions of a type could not be collected.
#[derive(Clone, Debug, PartialEq, Eq, Drop)]
pub enum SchemaBuildError {
    /// Two different definitions have this name.
    Redefinition(Declaration),
    /// An allocation failed.
    OutOfMemory,
}

impl From<AllocError> for SchemaBuildError {
    ghost from_gives = { λ _ e. e ≡ OutOfMemory };

    fn from(_error: AllocError) -> SchemaBuildError {
        SchemaBuildError::OutOfMemory
    }
}

impl<T: Drop> From<AllocFailed<T>> for SchemaBuildError {
    ghost from_gives = { λ _ e. e ≡ OutOfMemory };

    fn from(_error: AllocFailed<T>) -> SchemaBuildError {
        SchemaBuildError::OutOfMemory
    }
}

impl fmt::Display for SchemaBuildError {
    fn fmt<W: fmt::Write>(&self, f: &mut fmt::Formatter<W>) -> fmt::Result {
        match self {
            SchemaBuildError::Redefinition(name) => {
                write!(f, "`{name}` has two different definitions")
            }
            SchemaBuildError::OutOfMemory => write!(f, "out of memory"),
        }
    }
}

impl Error for SchemaBuildError {}

impl From<SchemaBuildError> for SchemaMaxSerializedSizeError {
    ghost from_gives = { λ e made. made ≡ size_error e };

    fn from(error: SchemaBuildError) -> SchemaMaxSerializedSizeError {
        match error {
            SchemaBuildError::Redefinition(name) => SchemaMaxSerializedSizeError::Redefinition(
                name,
            ),
            SchemaBuildError::OutOfMemory => SchemaMaxSerializedSizeError::OutOfMemory,
        }
    }
}

// Whether two definitions are equal, names and all.
fn says_the_same(known: &Definition, given: &Definition) -> bool
    ensures { Decides result (form_of known.now ≡ form_of given.now) }
{
    known == given
}

/// Adds a definition to the map under its name. If the name has an equal definition, nothing changes; if
/// it has a different one, the error is `Redefinition`. After an error the map is unchanged, and the
/// definition that was given is dropped. Left open: memory.
///
/// ```
/// let name = String::from_str(alloc, "u8")?;
/// add_definition(name, Definition::Primitive(1), &mut definitions)?;
/// ```
pub fn add_definition(
    declaration: Declaration,
    definition: Definition,
    definitions: &mut DefinitionMap,
) -> SchemaResult<()>
    ensures outcome { AddsDefinitions definitions.old definitions.new
        (definition_with declaration definition none) result }
    ensures unchanged { IfErr result (λ _. IsUnchanged definitions.old definitions.new) }
    ensures known { AnswersKnown definitions.old declaration definition result }
{
    if let Some(known) = definitions.get(declaration.as_str()) {
        if says_the_same(known, &definition) {
            return Ok(());
        }
        return Err(SchemaBuildError::Redefinition(declaration));
    }
    definitions.insert(declaration, definition)?;
    Ok(())
}
