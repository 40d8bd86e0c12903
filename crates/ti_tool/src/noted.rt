//! Writing a result, with the reason if that fails.

ghost use Rattle.std.specs.Prelude.{◌≡◌, ◌<◌, [], length, take, OnOk, IfErr};
ghost use Rattle.std.specs.Io.KnownBytes.{Appends};

use std::io;
use std::io::{ErrorKind, Write};
use ti_base::MOST_INTERRUPTIONS;

/// How many bytes a writer took before it failed, and why, if it says so.
#[derive(Drop)]
pub struct Stop {
    pub gone: u64,
    pub error: Option<io::Error>,
}

impl Stop {
    /// After so many bytes.
    fn after(written: usize, error: Option<io::Error>) -> Stop
        ensures { result.gone ≡ written }
    {
        Stop {
            gone: written as u64,
            error,
        }
    }
}

/// Writes the bytes to the end, as `write_out` does.
pub fn write_noted<W: Write>(writer: &mut W, bytes: &[u8]) -> Result<(), Stop>
    ensures written { OnOk result (Appends (W.contents writer.old) (W.contents writer.new) bytes.now) }
    ensures short { IfErr result (λ stop. stop.gone < length bytes.now) }
    ensures gone { IfErr result
        (λ stop. Appends (W.contents writer.old) (W.contents writer.new) (take stop.gone bytes.now)) }
    ensures nothing { bytes.now ≡ [] → writer.new ≡ writer.old }
{
    let mut retries = MOST_INTERRUPTIONS;
    let mut written = 0;
    'writes: while written < bytes.len() {
        match writer.write(&bytes[written..]) {
            Ok(0) => return Err(Stop::after(written, None)),
            Ok(count) => written += count,
            Err(error) if error.kind() == ErrorKind::Interrupted && retries > 0 => retries -= 1,
            Err(error) => return Err(Stop::after(written, Some(error))),
        }
    }
    Ok(())
}
