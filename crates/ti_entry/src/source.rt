//! Reading an entry from a source of bytes to its end.
//!
//! Pieces of up to 512 bytes are read into a buffer on the stack and fed. The reads that bring a byte are at most 32769,
//! and at most [`MOST_INTERRUPTIONS`] interrupted reads of a call are tried again.

ghost use Rattle.std.specs.Prelude.{◌≡◌, ◌≢◌, None, OnOk, IfErr};
ghost use Rattle.std.specs.Io.KnownBytes.{IsAtEnd};
ghost use Rattle.ti_entry.specs.Reading.{FeedsFrom, refusal_after};
ghost use Rattle.ti_entry.specs.declared.source.ReadStop.TheVariants as why;

use crate::reader::EntryReader;
use std::io::Read;
use thiserror::Error;
use ti_base::{MOST_INTERRUPTIONS, ReadFailed, read_piece};
use ti_layout::Refused;

/// Why reading from a source stopped before its end.
#[derive(Clone, Copy, Debug, PartialEq, Eq, Error)]
pub enum ReadStop {
    /// The bytes that came are refused.
    #[error("{0}")]
    Refused(Refused),
    /// A read failed, or was interrupted too often.
    #[error("Io")]
    Io,
}

impl From<Refused> for ReadStop {
    ghost from_gives = { λ refused stop. stop ≡ why.Refused refused };

    fn from(refused: Refused) -> ReadStop {
        ReadStop::Refused(refused)
    }
}

impl From<ReadFailed> for ReadStop {
    ghost from_gives = { λ _ stop. stop ≡ why.Io };

    fn from(_failed: ReadFailed) -> ReadStop {
        ReadStop::Io
    }
}

/// The most bytes of one read.
const PIECE: usize = 512;

/// Reads to the end of the source, and feeds what comes.
///
/// # Errors
///
/// `Refused` if a `feed` refuses; if one has refused before, nothing is read. `Io` if a read fails, or one
/// more than [`MOST_INTERRUPTIONS`] is interrupted; the bytes that came before are kept.
pub fn read_from<R: Read>(reader: &mut EntryReader, source: &mut R) -> Result<(), ReadStop>
    // All that the source lost was fed, in order, whatever is returned.
    ensures fed { FeedsFrom (R.remaining source.old)
        (R.remaining source.new) reader.old reader.new }
    // Ok leaves nothing unread, and no refusal.
    ensures end { OnOk result (IsAtEnd (R.remaining source.new)) }
    ensures accepted { OnOk result (reader.new.refusal ≡ None) }
    // Refused returns the refusal that the reader then holds; after Io it holds none.
    ensures refused { IfErr result (λ stop. reader.new.refusal ≡ refusal_after stop) }
    // After an earlier refusal nothing is read.
    ensures again { reader.old.refusal ≢ None → source.new ≡ source.old }
{
    if let Some(refused) = reader.refusal() {
        return Err(ReadStop::Refused(refused));
    }
    let mut piece = [0; PIECE];
    let mut retries = MOST_INTERRUPTIONS;
    'source: loop {
        let count = read_piece(source, &mut piece, &mut retries)?;
        if count == 0 {
            return Ok(());
        }
        reader.feed(&piece[..count])?;
    }
}
