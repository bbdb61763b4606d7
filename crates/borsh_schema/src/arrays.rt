// Arrays: their elements in order, with no count.
ghost use Rattle.borsh_definitions.specs.Described.{defined, sequence, both, none};
ghost use Rattle.borsh_definitions.proofs.Laws.Members.{describes_row};
ghost use Rattle.borsh_definitions.specs.Names.{array_name};
ghost use Rattle.borsh_definitions.proofs.Laws.Quoted.{array_described};

use super::definitions::{DefinitionMap, SchemaResult};
use super::parts::add_with_parts;
use super::schema::BorshSchema;
use borsh_walks::{Declaration, Definition, LengthRange};
use std::alloc::Global;

impl<T: BorshSchema, const N: usize> BorshSchema for [T; N] {
    ghost name = { array_name T.name N };

    ghost parts = { defined (array_name T.name N) (sequence 0 N N T.name) (both T.parts none) };

    ghost described = { array_described N T.described };

    fn declaration(alloc: Global) -> SchemaResult<Declaration> {
        let element = T::declaration(alloc)?;
        let length = N;
        Ok(format!(in alloc; "[{element}; {length}]")?)
    }

    fn add_definitions_recursively(alloc: Global, map: &mut DefinitionMap) -> SchemaResult<()> {
        let definition = Definition::Sequence {
            length_width: Definition::ARRAY_LENGTH_WIDTH,
            length_range: LengthRange {
                start: N as u64,
                end: N as u64,
            },
            elements: T::declaration(alloc)?,
        };
        add_with_parts::<(T, ())>(alloc, Self::declaration(alloc)?, definition, map)
    }

    ghost describes = { λ C h. describes_row N h.0 (T.describes C h.1.0) };
}
