// A type that has only some of another one's values.
ghost use Rattle.borsh.specs.Laws.Conditional.{always};
ghost use Rattle.borsh_samples.specs.OneOrZero.{one_or_zero, one_or_zero-lawful};

use crate::my_enum::MyEnum;
use borsh::de::read_tag;
use borsh::io::{Error, ErrorKind, Read, Result, Write};
use borsh::{BorshDeserialize, BorshSerialize, BorshType, EnumExt};
use std::alloc::Global;

/// A `MyEnum` that isn't `Many`. Encoding or decoding a `Many` is refused with `InvalidData`, "MyEnum::Many not allowed here".
#[derive(Drop)]
pub struct OneOrZero(pub MyEnum);

const MANY_NOT_ALLOWED: &str = "MyEnum::Many not allowed here";

impl BorshType for OneOrZero {
    ghost codec = { one_or_zero };

    ghost lawful_if = { always one_or_zero-lawful };

    ghost premises = { tt };

    fn encodes_empty() -> bool {
        false
    }

    fn element_size() -> usize {
        MyEnum::element_size()
    }
}

impl BorshSerialize for OneOrZero {
    fn serialize<W: Write>(&self, alloc: Global, writer: &mut W) -> Result<()> {
        if let MyEnum::Many(_) = &self.0 {
            return Err(Error::new(ErrorKind::InvalidData, MANY_NOT_ALLOWED));
        }
        self.0.serialize(alloc, writer)
    }
}

impl BorshDeserialize for OneOrZero {
    fn deserialize_reader<R: Read>(alloc: Global, reader: &mut R) -> Result<OneOrZero> {
        let tag = read_tag(reader)?;
        if tag == 2 {
            return Err(Error::new(ErrorKind::InvalidData, MANY_NOT_ALLOWED));
        }
        Ok(OneOrZero(MyEnum::deserialize_variant(alloc, reader, tag)?))
    }
}
