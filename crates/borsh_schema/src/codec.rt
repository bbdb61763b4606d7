// Containers as bytes: the root's name, and then the definitions by ascending name.
ghost use Rattle.borsh_codec.proofs.Laws.Conditional.{always};
ghost use Rattle.borsh_codec.proofs.Laws.Exact.{contramap-lawful};
ghost use Rattle.borsh_definitions.proofs.Laws.Own.{root_and_map-lawful};
ghost use Rattle.borsh_schema.specs.Codecs.{container, container_pair};

use super::container::BorshSchemaContainer;
use super::definitions::DefinitionMap;
use borsh_de::BorshDeserialize;
use borsh_io::{Read, Result, Write};
use borsh_ser::{BorshSerialize, write_two};
use borsh_types::BorshType;
use borsh_walks::Declaration;
use std::alloc::Global;

impl BorshType for BorshSchemaContainer {
    ghost codec = { container };

    ghost lawful_if = { always (contramap-lawful container_pair root_and_map-lawful) };

    ghost premises = { tt };

    fn encodes_empty() -> bool {
        false
    }

    fn element_size() -> usize {
        size_of::<BorshSchemaContainer>()
    }
}

impl BorshSerialize for BorshSchemaContainer {
    fn serialize<W: Write>(&self, alloc: Global, writer: &mut W) -> Result<()> {
        write_two(&self.declaration, &self.definitions, alloc, writer)
    }
}

impl BorshDeserialize for BorshSchemaContainer {
    fn deserialize_reader<R: Read>(alloc: Global, reader: &mut R) -> Result<BorshSchemaContainer> {
        let (declaration, definitions) = <(Declaration, DefinitionMap)>::deserialize_reader(
            alloc, reader,
        )?;
        Ok(BorshSchemaContainer {
            declaration,
            definitions,
        })
    }
}
