// Types with their containers, and values that are sent with them.
ghost use Rattle.std.specs.Prelude.{◌≡◌, true, Decides, IfOk, IfErr};
ghost use Rattle.borsh_io.specs.Errors.{error_kind};
ghost use Rattle.std.specs.String.{string_cmp};
ghost use Rattle.std.specs.BTreeMap.{IsOrdered};
ghost use Rattle.borsh_schema.specs.Containers.{IsContainerOf, DescribesRoot, map_of, language_of, root_of};
ghost use Rattle.borsh_definitions.specs.Described.{nothing_defined};
ghost use Rattle.borsh_schema.specs.Joined.{BuildFault};
ghost use Rattle.borsh_schema.specs.Sized.{AnswersTypeSize};
ghost use Rattle.borsh.specs.WellFormed.{are_well_formed, DecodesToMembers, IsWellFormed};
ghost use Rattle.borsh.specs.WithSchema.{DecodesWithSchema, EncodesWithSchema, IsBuildKind, WhyNoContainer};

use super::de::from_slice;
use super::ser::to_vec;
use borsh_de::{BorshDeserialize, invalid_data};
use borsh_io::{Error, ErrorKind};
use borsh_schema::{BorshSchema, BorshSchemaContainer, SchemaBuildError, SchemaResult};
use borsh_ser::BorshSerialize;
use borsh_walks::SchemaMaxSerializedSizeError;
use std::alloc::Global;

/// The schema container of a type: its name, and the definition of every type that it refers to. Each
/// encoding is a member of its root; of a canonical type all bytes that decode are. If the definitions are
/// well-formed (`are_well_formed`, which computes), the container is valid and unambiguous.
///
/// Returns `Redefinition` of a name that has two different definitions, and `OutOfMemory` if an
/// allocation fails. Left open: memory; which of several such names is reported.
///
/// ```
/// let container = schema_container_of::<Vec<u8>>(alloc)?;
/// assert_eq!(rt; container.declaration().as_str(), "Vec<u8>");
/// ```
pub fn schema_container_of<T: BorshSchema>(alloc: Global) -> SchemaResult<BorshSchemaContainer>
    ensures ok { IfOk result (λ c. IsContainerOf T.name T.parts c) }
    ensures err { IfErr result (λ e. BuildFault nothing_defined T.parts e) }
    ensures language { IfOk result (λ c. DescribesRoot T.codec c) }
    ensures decoded { IfOk result (λ c. T.codec.is_canonical ≡ true → DecodesToMembers T.codec c) }
    ensures well_formed { IfOk result
        (λ c. are_well_formed T.name T.parts ≡ true → IsWellFormed (language_of c) (root_of c)) }
    ensures ascending { IfOk result (λ c. IsOrdered string_cmp (map_of c)) }
{
    BorshSchemaContainer::for_type::<T>(alloc)
}

/// The greatest size of a type in bytes, as its schema container gives it. No encoding is longer.
///
/// The errors are those of [`BorshSchemaContainer::max_serialized_size`], and `Redefinition` of a name
/// that has two different definitions. Left open: memory; which of several causes is reported.
///
/// ```
/// assert_eq!(rt; max_serialized_size::<Option<u64>>(alloc)?, 9);
/// ```
pub fn max_serialized_size<T: BorshSchema>(
    alloc: Global,
) -> Result<usize, SchemaMaxSerializedSizeError>
    ensures { AnswersTypeSize T.codec T.name T.parts result }
{
    let container = schema_container_of::<T>(alloc)?;
    container.max_serialized_size(alloc)
}

/// Encodes the type's schema container and then the value.
///
/// Returns `InvalidData` if the value or the container has no encoding, or if a name of the type has two different definitions,
/// and `OutOfMemory` if an allocation fails. Left open: memory; which of several causes is reported.
///
/// ```
/// let bytes = try_to_vec_with_schema(alloc, &7u16)?;
/// let value: u16 = try_from_slice_with_schema(alloc, bytes.as_slice())?;
/// ```
pub fn try_to_vec_with_schema<T: BorshSerialize + BorshSchema>(
    alloc: Global,
    value: &T,
) -> borsh_io::Result<Vec<u8>>
    ensures { EncodesWithSchema T.name T.parts (T.codec.encoding value.now) result }
{
    let container = container_of::<T>(alloc)?;
    let mut out = to_vec(alloc, &container)?;
    value.serialize(alloc, &mut out)?;
    Ok(out)
}

/// Decodes a value that follows its type's schema container, from all of the bytes.
///
/// Container and value are decoded first, with the errors of [`from_slice`]. Then a container that isn't the type's is refused
/// with `InvalidData`, "Borsh schema does not match", and so is a type that has a name with two different definitions.
/// `OutOfMemory` is returned if an allocation fails. Left open: memory; what isn't encoded, but for `made` of the codec; which is
/// found first, malformed bytes or another container: tested by the texts.
///
/// ```
/// let bytes = try_to_vec_with_schema(alloc, &7u16)?;
/// let value: u16 = try_from_slice_with_schema(alloc, bytes.as_slice())?;
/// assert_eq!(rt; value, 7);
/// assert!(rt; try_from_slice_with_schema::<u32>(alloc, bytes.as_slice()).is_err());
/// ```
pub fn try_from_slice_with_schema<T: BorshDeserialize + BorshSchema>(
    alloc: Global,
    v: &[u8],
) -> borsh_io::Result<T>
    ensures { DecodesWithSchema T.name T.parts T.codec v.now result }
{
    let sent: (BorshSchemaContainer, T) = from_slice(alloc, v)?;
    if is_own::<T>(alloc, &sent.0)? {
        Ok(sent.1)
    } else {
        Err(other_schema())
    }
}

/// Whether a container is that of the type.
fn is_own<T: BorshSchema>(alloc: Global, sent: &BorshSchemaContainer) -> borsh_io::Result<bool>
    ensures ok { IfOk result (λ yes. Decides yes (IsContainerOf T.name T.parts sent.now)) }
    ensures err { IfErr result (λ e. WhyNoContainer T.parts (error_kind e)) }
{
    match sent.is_of_type::<T>(alloc) {
        Ok(yes) => Ok(yes),
        Err(e) => Err(not_built(alloc, e)),
    }
}

/// The container of a type.
fn container_of<T: BorshSchema>(alloc: Global) -> borsh_io::Result<BorshSchemaContainer>
    ensures ok { IfOk result (λ c. IsContainerOf T.name T.parts c) }
    ensures ascending { IfOk result (λ c. IsOrdered string_cmp (map_of c)) }
    ensures err { IfErr result (λ e. WhyNoContainer T.parts (error_kind e)) }
{
    match schema_container_of::<T>(alloc) {
        Ok(container) => Ok(container),
        Err(e) => Err(not_built(alloc, e)),
    }
}

/// The error for a container that could not be built.
fn not_built(alloc: Global, error: SchemaBuildError) -> Error
    ensures { IsBuildKind error (error_kind result) }
{
    match error {
        SchemaBuildError::Redefinition(name) => invalid_data(format!(in alloc;
            "Redefining type schema for {name}. Types with the same names are not supported."
        )),
        SchemaBuildError::OutOfMemory => Error::from(ErrorKind::OutOfMemory),
    }
}

fn other_schema() -> Error
    ensures { error_kind result ≡ ErrorKind.InvalidData }
{
    Error::new(ErrorKind::InvalidData, "Borsh schema does not match")
}
