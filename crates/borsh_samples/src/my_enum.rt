// An enum of three variants.
ghost use Rattle.borsh.specs.Laws.Conditional.{always};
ghost use Rattle.borsh_samples.specs.MyEnum.{my_enum, my_enum-lawful};

use borsh::de::{invalid_data, read_tag};
use borsh::io::{Read, Result, Write};
use borsh::ser::{write_bytes, write_tagged};
use borsh::{BorshDeserialize, BorshSerialize, BorshType, EnumExt};
use std::alloc::Global;

/// A tag, one byte, and the part of the variant.
#[derive(Drop)]
pub enum MyEnum {
    Zero,
    One(u8),
    Many(Vec<u8>),
}

impl BorshType for MyEnum {
    ghost codec = { my_enum };

    ghost lawful_if = { always my_enum-lawful };

    ghost premises = { tt };

    fn encodes_empty() -> bool {
        false
    }

    fn element_size() -> usize {
        size_of::<MyEnum>()
    }
}

impl BorshSerialize for MyEnum {
    fn serialize<W: Write>(&self, alloc: Global, writer: &mut W) -> Result<()> {
        match self {
            MyEnum::Zero => write_bytes(&[0], writer),
            MyEnum::One(part) => write_tagged(1, part, alloc, writer),
            MyEnum::Many(part) => write_tagged(2, part, alloc, writer),
        }
    }
}

impl BorshDeserialize for MyEnum {
    fn deserialize_reader<R: Read>(alloc: Global, reader: &mut R) -> Result<MyEnum> {
        let tag = read_tag(reader)?;
        MyEnum::deserialize_variant(alloc, reader, tag)
    }
}

impl EnumExt for MyEnum {
    /// A tag of no variant is refused: `InvalidData`, "Unexpected variant tag: " and the tag.
    fn deserialize_variant<R: Read>(alloc: Global, reader: &mut R, tag: u8) -> Result<MyEnum> {
        match tag {
            0 => Ok(MyEnum::Zero),
            1 => Ok(MyEnum::One(u8::deserialize_reader(alloc, reader)?)),
            2 => Ok(MyEnum::Many(Vec::deserialize_reader(alloc, reader)?)),
            tag => Err(invalid_data(format!(in alloc; "Unexpected variant tag: {tag}"))),
        }
    }
}
