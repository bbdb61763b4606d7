// The bytes of counts and tags.
ghost use Rattle.borsh_json.specs.Words.{tag};
ghost use Rattle.std.specs.Prelude.{◌≡◌, ◌++◌, ◌-◌, OnOk, min, pos, replicate, take};

use std::alloc::AllocError;

/// Adds the number of elements of a list, in so many bytes.
pub fn put_count(out: &mut Vec<u8>, width: u8, count: u64) -> Result<(), AllocError>
    ensures { OnOk result (out.new.items ≡ out.old.items ++ tag width (pos count)) }
{
    put_wide(out, width, count.to_le_bytes(), 0)
}

/// Adds the tag of a variant, in so many bytes.
pub fn put_tag(out: &mut Vec<u8>, width: u8, discriminant: i64) -> Result<(), AllocError>
    ensures { OnOk result (out.new.items ≡ out.old.items ++ tag width discriminant) }
{
    let fill = if discriminant < 0 { 255 } else { 0 };
    put_wide(out, width, discriminant.to_le_bytes(), fill)
}

/// Adds the lowest bytes of a number, and above its own the same byte.
fn put_wide(out: &mut Vec<u8>, width: u8, bytes: [u8; 8], fill: u8) -> Result<(), AllocError>
    ensures { OnOk result (out.new.items ≡ out.old.items ++ take (min width 8) bytes ++ replicate (width - 8) fill) }
{
    let width = usize::from(width);
    out.extend_from_slice(&bytes[..width.min(8)])?;
    for _ in 8..width {
        out.push(fill)?;
    }
    Ok(())
}
