//! Reading what a call is to work on.
//!
//! At most 512 bytes are read at a time, and put into a buffer of a fixed size; no memory is taken.

ghost use Rattle.std.specs.Prelude.{◌≡◌, ◌⊎◌, IsOk, OnOk, length};
ghost use Rattle.std.specs.Io.KnownBytes.{IsAtEnd};
ghost use Rattle.ti_tool.specs.inner.ReadsInto.{ReadsInto};

use arrayvec::ArrayVec;
use std::io::Read;
use ti_base::{MOST_CAPABILITY_BYTES, MOST_INTERRUPTIONS, ReadFailed, read_piece};

/// The most bytes of an input that are kept: one more than a capability may have.
pub const MOST_BYTES: usize = MOST_CAPABILITY_BYTES + 1;

/// The most characters of a notation that are kept: four for each byte of a capability, a newline and one more.
pub const MOST_CHARACTERS: usize = 4 * MOST_CAPABILITY_BYTES + 2;

const PIECE: usize = 512;

/// Reads to the end of the source or until the buffer is full, up to 512 bytes at a time.
///
/// Interrupted reads are tried again, at most [`MOST_INTERRUPTIONS`] of them; the next one and any other error is
/// [`ReadFailed`].
pub fn read_up_to<R: Read, const MOST: usize>(
    bytes: &mut ArrayVec<u8, MOST>,
    source: &mut R,
) -> Result<(), ReadFailed>
    ensures taken { ReadsInto
        (R.remaining source.old) (R.remaining source.new) bytes.old.items bytes.new.items }
    ensures end { OnOk result ((length bytes.new.items ≡ MOST) ⊎ IsAtEnd (R.remaining source.new)) }
    // Nothing is read into a full buffer.
    ensures full { length bytes.old.items ≡ MOST → IsOk result × (source.new ≡ source.old) }
{
    let mut piece = [0; PIECE];
    let mut retries = MOST_INTERRUPTIONS;
    while !bytes.is_full() {
        let room = bytes.remaining_capacity().min(PIECE);
        let count = read_piece(source, &mut piece[..room], &mut retries)?;
        if count == 0 {
            return Ok(());
        }
        let _ = bytes.try_extend_from_slice(&piece[..count]);
    }
    Ok(())
}
