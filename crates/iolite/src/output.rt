//! Output of replies: their texts are buffered, and written in pieces.
//!
//! A `BufWriter` is not used: no contract states that it returns the writer that it was given.
ghost use Rattle.std.specs.Prelude.{◌≡◌, ◌++◌, IfErr, OnOk, false, true};
ghost use Rattle.std.specs.Io.KnownBytes.{Appends, Keeps};
ghost use Rattle.iolite.specs.Answers.{WritesSome, WritesTo};

use crate::failure::Failure;
use std::io::{ErrorKind, Write};

/// The maximum number of buffered bytes.
pub const BUFFER_BYTES: usize = 8192;

/// Appends a text to the pending bytes. If both are too long to buffer, or memory runs out, writes
/// all of them.
pub fn gather<W: Write>(text: &[u8], pending: &mut Vec<u8>, output: &mut W) -> Result<(), Failure>
    ensures some { WritesSome (W.contents output.old) (W.contents output.new)
        (pending.old.items ++ text.now) }
    ensures ok { OnOk result (WritesTo (W.contents output.old) (W.contents output.new)
        (pending.old.items ++ text.now) pending.new.items) }
    ensures error { IfErr result (λ failure. failure ≡ Failure.Output) }
{
    if keep(text, pending) {
        return Ok(());
    }
    write_out(pending.as_slice(), output)?;
    pending.clear();
    write_out(text, output)
}

/// Appends a text to the pending bytes if both can be buffered, and returns whether they can.
fn keep(text: &[u8], pending: &mut Vec<u8>) -> bool
    ensures kept { result ≡ true → pending.new.items ≡ pending.old.items ++ text.now }
    ensures same { result ≡ false → pending.new.items ≡ pending.old.items }
{
    if pending.len() + text.len() > BUFFER_BYTES {
        return false;
    }
    pending.extend_from_slice(text).is_ok()
}

/// Writes the last bytes and flushes the output. If the output fails, a prefix of them is written.
pub fn finish<W: Write>(bytes: &[u8], output: &mut W) -> Result<(), Failure>
    ensures some { WritesSome (W.contents output.old) (W.contents output.new) bytes.now }
    ensures all { OnOk result
        (Appends (W.contents output.old) (W.contents output.new) bytes.now) }
    ensures error { IfErr result (λ failure. failure ≡ Failure.Output) }
{
    write_out(bytes, output)?;
    flush(output)
}

/// Writes all bytes, or a prefix of them if the output fails.
fn write_out<W: Write>(bytes: &[u8], output: &mut W) -> Result<(), Failure>
    ensures some { WritesSome (W.contents output.old) (W.contents output.new) bytes.now }
    ensures all { OnOk result
        (Appends (W.contents output.old) (W.contents output.new) bytes.now) }
    ensures error { IfErr result (λ failure. failure ≡ Failure.Output) }
{
    let mut rest = bytes;
    for _turn in 0..u64::MAX {
        if rest.is_empty() {
            return Ok(());
        }
        match output.write(rest) {
            Ok(0) => return Err(Failure::Output),
            Ok(count) => rest = &rest[count..],
            Err(e) if e.kind() == ErrorKind::Interrupted => {}
            Err(_) => return Err(Failure::Output),
        }
    }
    Err(Failure::Output)
}

/// Flushes the output.
fn flush<W: Write>(output: &mut W) -> Result<(), Failure>
    ensures bytes { Keeps (W.contents output.old) (W.contents output.new) }
    ensures error { IfErr result (λ failure. failure ≡ Failure.Output) }
{
    match output.flush() {
        Ok(()) => Ok(()),
        Err(_) => Err(Failure::Output),
    }
}
