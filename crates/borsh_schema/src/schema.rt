// Types with a schema.
ghost use Rattle.std.specs.Prelude.{◌≡◌, IfOk, IfErr, List, ℕ, Option, string_bytes};
ghost use Rattle.borsh_walks.specs.Container.{Shape};
ghost use Rattle.borsh_schema.specs.declared.definitions.SchemaBuildError.TheVariants.{OutOfMemory};
ghost use Rattle.borsh_definitions.specs.Described.{DefinitionTree};
ghost use Rattle.borsh_schema.specs.Joined.{AddsDefinitions};
ghost use Rattle.borsh_definitions.specs.Language.{Holds, Describes, DescribedCodec};

use super::definitions::{DefinitionMap, SchemaResult};
use borsh_types::BorshType;
use borsh_walks::Declaration;
use std::alloc::Global;

/// A type with a schema. If your type has no implementation, put `// derive: borsh, schema` above it and run
/// derive/borsh_derive.py, or write one by hand, as docs/IMPLEMENTING.md shows.
///
/// An implementation says by ghost members the bytes of the type's name (`name`) and the definitions of the name and of all names
/// that it refers to (`parts`), and proves that in every container that has these definitions each encoding is a member of the
/// name (`describes`). `described` has the same for a codec of its own, so that other implementations can quote it.
pub trait BorshSchema: BorshType {
    ghost name: { List ℕ };

    ghost parts: { DefinitionTree };

    ghost described: { DescribedCodec Self name parts };

    /// The name of the type. The error is always `OutOfMemory`. Left open: memory.
    ///
    /// ```
    /// assert_eq!(rt; <Vec<u8>>::declaration(alloc)?.as_str(), "Vec<u8>");
    /// ```
    fn declaration(alloc: Global) -> SchemaResult<Declaration>
        ensures ok { IfOk result (λ d. string_bytes d ≡ name) }
        ensures err { IfErr result (λ e. e ≡ OutOfMemory) };

    /// Adds the type's definition and those of its parts to the map. The error is `Redefinition` of a name that has two different
    /// definitions, or `OutOfMemory` if an allocation fails. After an error the map has what it had, and perhaps some of the
    /// type's definitions. Left open: memory; which of these it has; which of several such names is reported.
    ///
    /// ```
    /// let mut definitions = BTreeMap::new(alloc);
    /// <Vec<u8>>::add_definitions_recursively(alloc, &mut definitions)?;
    /// assert_eq!(rt; definitions.len(), 2);
    /// ```
    fn add_definitions_recursively(alloc: Global, map: &mut DefinitionMap) -> SchemaResult<()>
        ensures { AddsDefinitions map.old map.new parts result };

    ghost describes: { (C : List ℕ → Option Shape) → Holds C parts → Describes Self C Self.codec name };
}
