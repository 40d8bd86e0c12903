//! Writing bytes to the end, with a count of those that the writer took.
//!
//! One write call of the writer a piece that it takes; no memory is taken.

ghost use Rattle.std.specs.Prelude.{◌≡◌, ◌<◌, [], length, OnOk, IfErr};
ghost use Rattle.std.specs.Io.KnownBytes.{Appends};
ghost use Rattle.ti_pad.specs.Stops.{AppendsFirst};

use std::io::{ErrorKind, Write};
use ti_base::MOST_INTERRUPTIONS;

/// Writes the bytes to the end. An error is the number of bytes that the writer took, which is less than all.
///
/// Interrupted writes are tried again, at most [`MOST_INTERRUPTIONS`] of them; the next one, any other error, and a
/// write that takes no byte stop it. Nothing is written if there is no byte, and nothing is flushed.
pub fn write_out<W: Write>(writer: &mut W, bytes: &[u8]) -> Result<(), u64>
    ensures written { OnOk result
        (Appends (W.contents writer.old) (W.contents writer.new) bytes.now) }
    ensures short { IfErr result (λ gone. gone < length bytes.now) }
    ensures gone { IfErr result
        (AppendsFirst (W.contents writer.old) (W.contents writer.new) bytes.now) }
    ensures nothing { bytes.now ≡ [] → writer.new ≡ writer.old }
{
    let mut retries = MOST_INTERRUPTIONS;
    write_some(writer, bytes, &mut retries)
}

/// Writes the bytes to the end, as a part of a call that tries so many more interrupted writes again.
pub(crate) fn write_some<W: Write>(
    writer: &mut W,
    bytes: &[u8],
    retries: &mut u32,
) -> Result<(), u64>
    ensures written { OnOk result
        (Appends (W.contents writer.old) (W.contents writer.new) bytes.now) }
    ensures short { IfErr result (λ gone. gone < length bytes.now) }
    ensures gone { IfErr result
        (AppendsFirst (W.contents writer.old) (W.contents writer.new) bytes.now) }
    ensures nothing { bytes.now ≡ [] → writer.new ≡ writer.old }
{
    let mut written = 0;
    'writes: while written < bytes.len() {
        match writer.write(&bytes[written..]) {
            Ok(0) => return Err(written as u64),
            Ok(count) => written += count,
            Err(error) if error.kind() == ErrorKind::Interrupted && *retries > 0 => *retries -= 1,
            Err(_) => return Err(written as u64),
        }
    }
    Ok(())
}
