// Values that are sent with their schema, and types of one name, which have none.
use super::support::{SHORT, check, check_value, owned_text};
use super::sweeps::{judge_read, judge_written, sweep};
use super::unwritten::judge_refused;
use borsh::schema::{BorshSchema, BorshSchemaContainer, SchemaMaxSerializedSizeError};
use borsh::{
    BorshDeserialize, BorshSerialize, from_slice, max_serialized_size, schema_container_of, to_vec,
    try_from_slice_with_schema, try_to_vec_with_schema,
};
use borsh_samples::{A, LongA, MyEnum, ShortA};
use std::collections::HashMap;
use std::test::Fail;

/// The container of `u8`, and 42.
const SENT: &[u8] = b"\x02\0\0\0u8\x01\0\0\0\x02\0\0\0u8\0\x01\x2a";

const OTHER: &str = "Borsh schema does not match";

const CLASH: &str = "Redefining type schema for A. Types with the same names are not supported.";

/// The value with this encoding is sent behind its container and received, each request for memory refused in turn.
fn goes_both_ways<T: BorshSerialize + BorshDeserialize + BorshSchema>(
    rt: HostRuntime,
    name: &str,
    bytes: &[u8],
) -> Result<(), Fail> {
    let alloc = rt.alloc();
    let value: T = from_slice(alloc, bytes)?;
    let mut sent = to_vec(alloc, &schema_container_of::<T>(alloc)?)?;
    sent.extend_from_slice(bytes)?;
    let sent = sent.as_slice();
    sweep(rt, "try_to_vec_with_schema", name, |refusal| {
        refusal.begin(alloc);
        let made = try_to_vec_with_schema(alloc, &value);
        let refused = refusal.end(alloc);
        Ok(judge_written(made, refused, sent))
    })?;
    sweep(rt, "try_from_slice_with_schema", name, |refusal| {
        refusal.begin(alloc);
        let made = try_from_slice_with_schema::<T>(alloc, sent);
        let refused = refusal.end(alloc);
        judge_read(alloc, &made, refused, bytes)
    })
}

/// The sent bytes are refused with this text, each request for memory refused in turn.
fn is_not_received<T: BorshDeserialize + BorshSchema>(
    rt: HostRuntime,
    name: &str,
    sent: &[u8],
    text: &str,
) -> Result<(), Fail> {
    let alloc = rt.alloc();
    sweep(rt, "try_from_slice_with_schema, refused", name, |refusal| {
        refusal.begin(alloc);
        let made = try_from_slice_with_schema::<T>(alloc, sent);
        let refused = refusal.end(alloc);
        Ok(judge_refused(made, refused, text))
    })
}

#[test]
fn a_value_is_sent_behind_its_container(rt: HostRuntime) -> Result<(), Fail> {
    let container: BorshSchemaContainer = schema_container_of::<u8>(rt.alloc())?;
    check_value(rt.alloc(), "pair", (container, 42u8), SENT)?;
    goes_both_ways::<u8>(rt, "u8", b"\x2a")?;
    goes_both_ways::<HashMap<u8, u8>>(rt, "HashMap", b"\x02\0\0\0\x01\x0a\x03\x1e")?;
    goes_both_ways::<A>(rt, "A", b"\xe5\x0c\0\0\0\0\0\0\x0c\0\0\0liber primus")?;
    goes_both_ways::<MyEnum>(rt, "MyEnum", b"\x02\x03\0\0\0\x01\x02\x03")
}

#[test]
fn other_bytes_are_not_received(rt: HostRuntime) -> Result<(), Fail> {
    is_not_received::<i8>(rt, "i8", SENT, OTHER)?;
    // The value is decoded before the containers are compared.
    is_not_received::<u16>(rt, "u16", SENT, SHORT)?;
    is_not_received::<bool>(rt, "bool", SENT, "Invalid bool representation: 42")?;
    is_not_received::<u8>(rt, "u8", b"\x02\0\0\0u", SHORT)
}

type Clashing = (ShortA, LongA);

#[test]
fn two_types_of_one_name_have_no_schema(rt: HostRuntime) -> Result<(), Fail> {
    let alloc = rt.alloc();
    let clash = SchemaMaxSerializedSizeError::Redefinition(owned_text(alloc, "A")?);
    let is_right = max_serialized_size::<Clashing>(alloc) == Err(clash);
    check(is_right, "the size", 0)?;
    let pair = (ShortA(1), LongA(2));
    sweep(rt, "try_to_vec_with_schema, refused", "(A, A)", |refusal| {
        refusal.begin(alloc);
        let made = try_to_vec_with_schema(alloc, &pair);
        let refused = refusal.end(alloc);
        Ok(judge_refused(made, refused, CLASH))
    })?;
    let other = try_to_vec_with_schema(alloc, &(1u8, 2u16))?;
    is_not_received::<Clashing>(rt, "(A, A)", other.as_slice(), CLASH)
}
