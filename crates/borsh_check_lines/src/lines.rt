// Pieces of answers.
ghost use Rattle.std.specs.Prelude.{◌≡◌, ◌++◌, ◌∷◌, [], IfOk, IfErr, OnOk};
ghost use Rattle.borsh_check_lines.specs.Digits.{digits_of};

use std::alloc::{AllocError, Global};

/// Bytes as an answer.
pub(crate) fn line_of(alloc: Global, text: &[u8]) -> Result<Vec<u8>, AllocError>
    ensures { IfOk result (λ out. out.items ≡ text.now) }
{
    let mut out = Vec::new(alloc);
    out.extend_from_slice(text)?;
    Ok(out)
}

/// Puts bytes as digits behind what there is; `-` for no bytes.
pub(crate) fn push_digits(alloc: Global, bytes: &[u8], out: &mut Vec<u8>) -> Result<(), AllocError>
    ensures { OnOk result (out.new.items ≡ out.old.items ++ digits_of bytes.now) }
{
    if bytes.is_empty() {
        out.push(b'-')?;
        return Ok(());
    }
    let digits = hex::encode(alloc, bytes)?;
    out.extend_from_slice(digits.as_bytes())?;
    Ok(())
}
