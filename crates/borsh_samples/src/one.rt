// An enum of one variant.
ghost use Rattle.borsh.specs.Laws.Conditional.{always};
ghost use Rattle.borsh_samples.specs.One.{one, one-lawful};

use borsh::de::{invalid_data, read_tag};
use borsh::io::{Read, Result, Write};
use borsh::ser::write_bytes;
use borsh::{BorshDeserialize, BorshSerialize, BorshType, EnumExt};
use std::alloc::Global;

/// One byte, though the value takes no memory: so a list of it takes a byte for each element, and isn't refused.
#[derive(Drop)]
pub enum One {
    Only,
}

impl BorshType for One {
    ghost codec = { one };

    ghost lawful_if = { always one-lawful };

    ghost premises = { tt };

    fn encodes_empty() -> bool {
        false
    }

    fn element_size() -> usize {
        size_of::<One>()
    }
}

impl BorshSerialize for One {
    fn serialize<W: Write>(&self, _alloc: Global, writer: &mut W) -> Result<()> {
        write_bytes(&[0], writer)
    }
}

impl BorshDeserialize for One {
    fn deserialize_reader<R: Read>(alloc: Global, reader: &mut R) -> Result<One> {
        let tag = read_tag(reader)?;
        One::deserialize_variant(alloc, reader, tag)
    }
}

impl EnumExt for One {
    /// A tag of no variant is refused: `InvalidData`, "Unexpected variant tag: " and the tag.
    fn deserialize_variant<R: Read>(alloc: Global, _reader: &mut R, tag: u8) -> Result<One> {
        match tag {
            0 => Ok(One::Only),
            tag => Err(invalid_data(format!(in alloc; "Unexpected variant tag: {tag}"))),
        }
    }
}
