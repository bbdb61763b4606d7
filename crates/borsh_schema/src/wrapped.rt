// Types that are encoded as their parts.
ghost use Rattle.borsh_definitions.proofs.Laws.Members.{describes_contramap};
ghost use Rattle.borsh_definitions.proofs.Laws.Quoted.{contramap_described};

use super::definitions::{DefinitionMap, SchemaResult};
use super::schema::BorshSchema;
use borsh_walks::Declaration;
use std::alloc::Global;
use std::num::Wrapping;

impl<T: BorshSchema> BorshSchema for Wrapping<T> {
    ghost name = { T.name };

    ghost parts = { T.parts };

    ghost described = { contramap_described (λ w. w.0) T.described };

    fn declaration(alloc: Global) -> SchemaResult<Declaration> {
        T::declaration(alloc)
    }

    fn add_definitions_recursively(alloc: Global, map: &mut DefinitionMap) -> SchemaResult<()> {
        T::add_definitions_recursively(alloc, map)
    }

    ghost describes = { λ C h. describes_contramap (λ w. w.0) (T.describes C h) };
}
