//! Writes whole texts.

ghost use Rattle.std.specs.Prelude.{◌≡◌, ◌+◌, ◌<◌, ◌^◌, OnOk, OnErr, IfErr, option_map};
ghost use Rattle.coniks_lines.specs.declared.fault.LineFault.TheVariants.{Write};
ghost use Rattle.coniks_programs.specs.Telling.{TellsIf, TellsPart, TellsWhole};

use coniks_lines::{ByteOut, LineFault, write_all};

/// Writes a text to its end, then flushes.
///
/// # Errors
///
/// `Write` if a write or the flush failed or a write took 0 bytes. A prefix of the text was written.
pub fn tell<W: ByteOut>(writer: &mut W, text: &str) -> Result<(), LineFault>
    requires { (W.sink writer.old).failed + 1 < 2 ^ 64 }
    ensures ok { OnOk result (TellsWhole (W.sink writer.old) text.now (W.sink writer.new)) }
    ensures err { OnErr result (TellsPart (W.sink writer.old) text.now (W.sink writer.new)) }
    ensures fault { IfErr result (λ fault. fault ≡ Write) }
{
    write_all(writer, text.as_bytes())?;
    if writer.flush().is_err() {
        return Err(LineFault::Write);
    }
    Ok(())
}

/// Writes a text, if there is one, as far as the writer allows.
pub fn tell_if<W: ByteOut>(writer: &mut W, text: Option<&str>)
    requires { (W.sink writer.old).failed + 1 < 2 ^ 64 }
    ensures { TellsIf (option_map (λ t. t.now) text.entry) (W.sink writer.old) (W.sink writer.new) }
{
    if let Some(text) = text {
        let _ = tell(writer, text);
    }
}
