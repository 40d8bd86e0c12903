//! One piece of a source at a time.

ghost use Rattle.std.specs.Io.KnownBytes.{ReadConsumes};
ghost use Rattle.std.specs.Io.{ReadsAtMost};

use std::io::{ErrorKind, Read};

/// A read that failed, or was interrupted too often.
#[derive(Clone, Copy, Debug, PartialEq, Eq)]
pub struct ReadFailed;

/// Reads once into `piece`, and returns how many bytes came; 0 is the end of the source.
///
/// An interrupted read is tried again and counted off `retries`. Where none are left, the next one is [`ReadFailed`] as
/// any other error is; nothing of the source is lost by it.
pub fn read_piece<R: Read>(
    source: &mut R,
    piece: &mut [u8],
    retries: &mut u32,
) -> Result<usize, ReadFailed>
    // At most as many bytes as the piece has.
    ensures bound { ReadsAtMost result piece.new }
    // The source lost the bytes that stand in the piece now, none only at its end, and nothing if reading failed.
    ensures bytes { ReadConsumes
        (R.remaining source.old) (R.remaining source.new) result piece.new }
{
    'tries: loop {
        match source.read(piece) {
            Ok(count) => return Ok(count),
            Err(error) if error.kind() == ErrorKind::Interrupted && *retries > 0 => *retries -= 1,
            Err(_) => return Err(ReadFailed),
        }
    }
}
