// The types of `example_generated`, by their names.
use super::definitions::text;
use super::wrong::Wrong;
use borsh::schema::BorshSchema;
use borsh::{BorshDeserialize, from_slice, schema_container_of, to_vec};
use example_generated::enums::{Level, Markers, Message, XY};
use example_generated::generics::{Hashed, Held};
use example_generated::keys::{Place, Visits};
use example_generated::library::Library;
use example_generated::readme::{Pair, Request, Stock};
use example_generated::records::{Block, Code, Marker, Session};
use std::alloc::Global;

/// The digits of the type's container; or of bytes, `ok` if it decodes them.
fn at<T: BorshDeserialize + BorshSchema>(
    alloc: Global,
    bytes: Option<&[u8]>,
) -> Result<String, Wrong> {
    if let Some(bytes) = bytes {
        let is_read = from_slice::<T>(alloc, bytes).is_ok();
        return text(alloc, if is_read { "ok" } else { "error" });
    }
    let Ok(container) = schema_container_of::<T>(alloc) else {
        return Err(Wrong::NoRow);
    };
    match to_vec(alloc, &container) {
        Ok(bytes) => Ok(hex::encode(alloc, bytes.as_slice())?),
        Err(_) => Err(Wrong::NoRow),
    }
}

/// The answer of the type of this name, as `borsh_check` gives it for its words; none if it is none of `example_generated`.
pub fn asked(alloc: Global, name: &str, bytes: Option<&[u8]>) -> Result<Option<String>, Wrong> {
    let answer = match name {
        "Marker" => at::<Marker>(alloc, bytes),
        "Code" => at::<Code>(alloc, bytes),
        "Session" => at::<Session>(alloc, bytes),
        "Block" => at::<Block>(alloc, bytes),
        "Library" => at::<Library>(alloc, bytes),
        "Place" => at::<Place>(alloc, bytes),
        "Visits" => at::<Visits>(alloc, bytes),
        "Held<u16, u8>" => at::<Held<u16, u8>>(alloc, bytes),
        "Hashed<u8, String>" => at::<Hashed<u8, String>>(alloc, bytes),
        "Markers<u8, u16>" => at::<Markers<u8, u16>>(alloc, bytes),
        "Pair<u8, Option<bool>>" => at::<Pair<u8, Option<bool>>>(alloc, bytes),
        "Message" => at::<Message>(alloc, bytes),
        "Level" => at::<Level>(alloc, bytes),
        "XY" => at::<XY>(alloc, bytes),
        "Request" => at::<Request>(alloc, bytes),
        "Stock" => at::<Stock>(alloc, bytes),
        _ => return Ok(None),
    };
    Ok(Some(answer?))
}
