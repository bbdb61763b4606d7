// Pointers, which are what they point to.
ghost use Rattle.std.specs.Cow.{cow_value};
ghost use Rattle.borsh_definitions.proofs.Laws.Members.{describes_contramap, describes_stored};
ghost use Rattle.borsh_definitions.proofs.Laws.Quoted.{allocated_described, contramap_described};

use super::definitions::{DefinitionMap, SchemaResult};
use super::schema::BorshSchema;
use borsh_walks::Declaration;
use std::alloc::Global;
use std::borrow::Cow;
use std::rc::Rc;
use std::sync::Arc;

impl<T: BorshSchema> BorshSchema for Box<T> {
    ghost name = { T.name };

    ghost parts = { T.parts };

    ghost described = { contramap_described (λ b. b.value) (allocated_described T.described) };

    fn declaration(alloc: Global) -> SchemaResult<Declaration> {
        T::declaration(alloc)
    }

    fn add_definitions_recursively(alloc: Global, map: &mut DefinitionMap) -> SchemaResult<()> {
        T::add_definitions_recursively(alloc, map)
    }

    ghost describes = { λ C h. describes_contramap (λ b. b.value) (describes_stored (T.describes C h)) };
}

impl<T: BorshSchema> BorshSchema for Rc<T> {
    ghost name = { T.name };

    ghost parts = { T.parts };

    ghost described = { contramap_described (λ b. b.value) (allocated_described T.described) };

    fn declaration(alloc: Global) -> SchemaResult<Declaration> {
        T::declaration(alloc)
    }

    fn add_definitions_recursively(alloc: Global, map: &mut DefinitionMap) -> SchemaResult<()> {
        T::add_definitions_recursively(alloc, map)
    }

    ghost describes = { λ C h. describes_contramap (λ b. b.value) (describes_stored (T.describes C h)) };
}

impl<T: BorshSchema> BorshSchema for Arc<T> {
    ghost name = { T.name };

    ghost parts = { T.parts };

    ghost described = { contramap_described (λ b. b.value) (allocated_described T.described) };

    fn declaration(alloc: Global) -> SchemaResult<Declaration> {
        T::declaration(alloc)
    }

    fn add_definitions_recursively(
        alloc: Global,
        definitions: &mut DefinitionMap,
    ) -> SchemaResult<()> {
        T::add_definitions_recursively(alloc, definitions)
    }

    ghost describes = { λ C h. describes_contramap (λ b. b.value)
        (describes_stored (T.describes C h)) };
}

impl<T: BorshSchema> BorshSchema for Cow<'_, T> {
    ghost name = { T.name };

    ghost parts = { T.parts };

    ghost described = { contramap_described cow_value T.described };

    fn declaration(alloc: Global) -> SchemaResult<Declaration> {
        T::declaration(alloc)
    }

    fn add_definitions_recursively(
        alloc: Global,
        definitions: &mut DefinitionMap,
    ) -> SchemaResult<()> {
        T::add_definitions_recursively(alloc, definitions)
    }

    ghost describes = { λ C h. describes_contramap cow_value (T.describes C h) };
}
