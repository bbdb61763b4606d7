// How a run ends.
ghost use Rattle.std.specs.Prelude.{◌≡◌, cond, ◌==◌, IfErr, OnOk};
ghost use Rattle.borsh.specs.Errors.{error_kind};
ghost use Rattle.borsh.specs.Sink.{WroteBytes, NotWrittenWhole};
ghost use Rattle.borsh_check_lines.specs.Runs.{error_line, spaced, Told};

use borsh::io::{Error, Result, Write};

/// The exit status after a run: 0, or 1 after an error, which is written as one line. An error of that
/// write is ignored. Left open: how much of the line is written if the writer fails.
///
/// ```
/// let outcome = run(rt.alloc(), &mut reader, &mut writer);
/// ExitCode::from(finish(&outcome, &mut errors))
/// ```
pub fn finish<W: Write>(outcome: &Result<()>, errors: &mut W) -> u8
    ensures ok { OnOk outcome.now ((result ≡ 0) × (errors.new ≡ errors.old)) }
    ensures err { IfErr outcome.now
        (λ e. (result ≡ 1) × Told W.writing errors.old errors.new (error_line e)) }
{
    match outcome {
        Ok(()) => 0,
        Err(e) => {
            let _written = write_error(e, errors);
            1
        }
    }
}

/// Writes what an error displays, as one line.
fn write_error<W: Write>(error: &Error, errors: &mut W) -> Result<()>
    ensures writes { OnOk result (WroteBytes W.writing errors.old errors.new (error_line error.now)) }
    ensures refused { IfErr result
        (λ e. NotWrittenWhole W.writing errors.old errors.new (error_line error.now) (error_kind e)) }
{
    errors.write_all(b"borsh_check: ")?;
    write_spaced(error.message().as_bytes(), errors)?;
    errors.write_all(b"\n")?;
    Ok(())
}

/// Writes a text with a space for each line feed.
fn write_spaced<W: Write>(text: &[u8], errors: &mut W) -> Result<()>
    ensures writes { OnOk result (WroteBytes W.writing errors.old errors.new (spaced text.now)) }
    ensures refused { IfErr result
        (λ e. NotWrittenWhole W.writing errors.old errors.new (spaced text.now) (error_kind e)) }
{
    for byte in text {
        errors.write_all(&[space_for_feed(*byte)])?;
    }
    Ok(())
}

/// A line feed becomes a space.
pub(crate) fn space_for_feed(byte: u8) -> u8
    ensures { result ≡ cond (byte == 10) 32 byte }
{
    if byte == b'\n' { b' ' } else { byte }
}
