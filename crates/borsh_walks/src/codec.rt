// Definitions as bytes: the variant's place in the order, one byte, and its parts in order.
ghost use Rattle.borsh_codec.proofs.Laws.Conditional.{always};
ghost use Rattle.borsh_walks.specs.Codecs.{ends, length_range, length_range-lawful, fields, fields-lawful, definition, definition-lawful};

use crate::definition::{
    Declaration, Definition, DiscriminantValue, FieldName, Fields, LengthRange, VariantName,
};
use borsh_de::{BorshDeserialize, EnumExt, FromParts, invalid_data, read_parts, read_tag};
use borsh_io::{Read, Result, Write};
use borsh_ser::{
    BorshSerialize, put_bytes, put_tagged, put_three, put_two, write_bytes, write_tagged,
    write_three, write_two,
};
use borsh_types::BorshType;
use std::alloc::Global;

impl BorshType for LengthRange {
    ghost codec = { length_range };

    ghost lawful_if = { always length_range-lawful };

    ghost premises = { tt };

    fn encodes_empty() -> bool {
        false
    }

    fn element_size() -> usize {
        size_of::<LengthRange>()
    }
}

impl BorshSerialize for LengthRange {
    #[inline]
    fn serialize<W: Write>(&self, alloc: Global, writer: &mut W) -> Result<()> {
        write_two(&self.start, &self.end, alloc, writer)
    }

    #[inline]
    fn put(&self, room: &mut [u8]) -> Option<usize> {
        put_two(&self.start, &self.end, room)
    }
}

impl FromParts for LengthRange {
    type Parts = (u64, u64);

    ghost view = { ends };

    #[inline]
    fn from_parts((start, end): (u64, u64)) -> LengthRange {
        LengthRange { start, end }
    }
}

impl BorshDeserialize for LengthRange {
    #[inline]
    fn deserialize_reader<R: Read>(alloc: Global, reader: &mut R) -> Result<LengthRange> {
        read_parts(alloc, reader)
    }
}

impl BorshType for Fields {
    ghost codec = { fields };

    ghost lawful_if = { always fields-lawful };

    ghost premises = { tt };

    fn encodes_empty() -> bool {
        false
    }

    fn element_size() -> usize {
        size_of::<Fields>()
    }
}

impl BorshSerialize for Fields {
    #[inline]
    fn serialize<W: Write>(&self, alloc: Global, writer: &mut W) -> Result<()> {
        match self {
            Fields::NamedFields(fields) => write_tagged(0, fields, alloc, writer),
            Fields::UnnamedFields(fields) => write_tagged(1, fields, alloc, writer),
            Fields::Empty => write_bytes(&[2], writer),
        }
    }

    #[inline]
    fn put(&self, room: &mut [u8]) -> Option<usize> {
        match self {
            Fields::NamedFields(fields) => put_tagged(0, fields, room),
            Fields::UnnamedFields(fields) => put_tagged(1, fields, room),
            Fields::Empty => put_bytes(&[2], room),
        }
    }
}

impl BorshDeserialize for Fields {
    #[inline]
    fn deserialize_reader<R: Read>(alloc: Global, reader: &mut R) -> Result<Fields> {
        let tag = read_tag(reader)?;
        Fields::deserialize_variant(alloc, reader, tag)
    }
}

impl EnumExt for Fields {
    /// A tag of no variant is refused: `InvalidData`, "Unexpected variant tag: " and the tag.
    fn deserialize_variant<R: Read>(alloc: Global, reader: &mut R, tag: u8) -> Result<Fields> {
        match tag {
            0 => {
                let fields = Vec::<(FieldName, Declaration)>::deserialize_reader(alloc, reader)?;
                Ok(Fields::NamedFields(fields))
            }
            1 => {
                let names = Vec::<Declaration>::deserialize_reader(alloc, reader)?;
                Ok(Fields::UnnamedFields(names))
            }
            2 => Ok(Fields::Empty),
            tag => Err(invalid_data(format!(in alloc; "Unexpected variant tag: {tag}"))),
        }
    }
}

impl BorshType for Definition {
    ghost codec = { definition };

    ghost lawful_if = { always definition-lawful };

    ghost premises = { tt };

    fn encodes_empty() -> bool {
        false
    }

    fn element_size() -> usize {
        size_of::<Definition>()
    }
}

impl BorshSerialize for Definition {
    fn serialize<W: Write>(&self, alloc: Global, writer: &mut W) -> Result<()> {
        match self {
            Definition::Primitive(size) => write_tagged(0, size, alloc, writer),
            Definition::Sequence {
                length_width,
                length_range,
                elements,
            } => {
                write_bytes(&[1], writer)?;
                write_three(length_width, length_range, elements, alloc, writer)
            }
            Definition::Tuple { elements } => write_tagged(2, elements, alloc, writer),
            Definition::Enum {
                tag_width,
                variants,
            } => {
                write_bytes(&[3], writer)?;
                write_two(tag_width, variants, alloc, writer)
            }
            Definition::Struct { fields } => write_tagged(4, fields, alloc, writer),
        }
    }

    fn put(&self, room: &mut [u8]) -> Option<usize> {
        match self {
            Definition::Primitive(size) => put_tagged(0, size, room),
            Definition::Sequence {
                length_width,
                length_range,
                elements,
            } => {
                let first = put_bytes(&[1], room)?;
                let second = put_three(length_width, length_range, elements, &mut room[first..])?;
                Some(first + second)
            }
            Definition::Tuple { elements } => put_tagged(2, elements, room),
            Definition::Enum {
                tag_width,
                variants,
            } => {
                let first = put_bytes(&[3], room)?;
                let second = put_two(tag_width, variants, &mut room[first..])?;
                Some(first + second)
            }
            Definition::Struct { fields } => put_tagged(4, fields, room),
        }
    }
}

impl BorshDeserialize for Definition {
    #[inline]
    fn deserialize_reader<R: Read>(alloc: Global, reader: &mut R) -> Result<Definition> {
        let tag = read_tag(reader)?;
        Definition::deserialize_variant(alloc, reader, tag)
    }
}

impl EnumExt for Definition {
    /// A tag of no variant is refused: `InvalidData`, "Unexpected variant tag: " and the tag.
    fn deserialize_variant<R: Read>(alloc: Global, reader: &mut R, tag: u8) -> Result<Definition> {
        match tag {
            0 => {
                let size = u8::deserialize_reader(alloc, reader)?;
                Ok(Definition::Primitive(size))
            }
            1 => {
                let (length_width, length_range, elements) = <(
                    u8,
                    LengthRange,
                    Declaration,
                )>::deserialize_reader(alloc, reader)?;
                Ok(Definition::Sequence {
                    length_width,
                    length_range,
                    elements,
                })
            }
            2 => {
                let elements = Vec::<Declaration>::deserialize_reader(alloc, reader)?;
                Ok(Definition::Tuple { elements })
            }
            3 => {
                let (tag_width, variants) = <(
                    u8,
                    Vec<(DiscriminantValue, VariantName, Declaration)>,
                )>::deserialize_reader(alloc, reader)?;
                Ok(Definition::Enum {
                    tag_width,
                    variants,
                })
            }
            4 => {
                let fields = Fields::deserialize_reader(alloc, reader)?;
                Ok(Definition::Struct { fields })
            }
            tag => Err(invalid_data(format!(in alloc; "Unexpected variant tag: {tag}"))),
        }
    }
}
