//! Writing a padded text.
//!
//! Bytes that mean themselves are written as they lie in the text, pad bytes in blocks. No memory is taken.

ghost use Rattle.std.specs.Prelude.{◌≡◌, ◌≤◌, ◌<◌, ◌↔◌, [], length, replicate, Err, OnOk, IfErr};
ghost use Rattle.std.specs.Io.KnownBytes.{Appends};
ghost use Rattle.ti_base.specs.Limits.{most_padded_bytes};
ghost use Rattle.ti_pad.specs.Padded.{padded_text};
ghost use Rattle.ti_pad.specs.Stops.{AppendsFirst, StopsAt};
ghost use Rattle.ti_pad.specs.inner.Stretch.{stretch_bytes};
ghost use Rattle.ti_pad.specs.declared.writing.PadStop.TheVariants as stop;

use crate::length::padded_len;
use crate::output::write_some;
use crate::padding::Padding;
use crate::stretch::{Stretch, first_stretch};
use std::io::Write;
use thiserror::Error;
use ti_base::{MOST_INTERRUPTIONS, MOST_PADDED_BYTES};

/// The most pad bytes of one write.
const BLOCK: usize = 512;

/// Why a padded text is not written to its end. As an error it prints its name, and its number after a blank.
#[derive(Clone, Copy, Debug, PartialEq, Eq, Error)]
pub enum PadStop {
    /// The padded text would have this many bytes, more than [`MOST_PADDED_BYTES`]. Nothing was written.
    #[error("TooMuch {need}")]
    TooMuch { need: u128 },
    /// The writer took the first `gone` bytes of the padded text, and no more.
    #[error("Failed {gone}")]
    Failed { gone: u64 },
}

/// Writes the padded text to its end.
///
/// [`PadStop::TooMuch`] is returned exactly if it has more than [`MOST_PADDED_BYTES`], before anything is written.
/// Interrupted writes are tried again, at most [`MOST_INTERRUPTIONS`] of them; the next one, any other error, and a
/// write that takes no byte stop it. Nothing is written if the padded text has no byte, and nothing is flushed.
pub fn write_padded<W: Write>(
    writer: &mut W,
    bytes: &[u8],
    padding: &Padding,
) -> Result<(), PadStop>
    ensures written { OnOk result (Appends
        (W.contents writer.old) (W.contents writer.new) (padded_text bytes.now padding.now)) }
    ensures stops { IfErr result (StopsAt
        (W.contents writer.old) (W.contents writer.new) (padded_text bytes.now padding.now)) }
    ensures limit { (result ≡ Err (stop.TooMuch (length (padded_text bytes.now padding.now))))
        ↔ (most_padded_bytes < length (padded_text bytes.now padding.now)) }
    ensures untouched { most_padded_bytes < length (padded_text bytes.now padding.now)
        → writer.new ≡ writer.old }
    ensures nothing { padded_text bytes.now padding.now ≡ [] → writer.new ≡ writer.old }
{
    let need = padded_len(bytes, padding);
    if need > MOST_PADDED_BYTES {
        return Err(PadStop::TooMuch { need });
    }
    write_stretches(writer, bytes, padding).map_err(|gone| PadStop::Failed { gone })
}

/// Writes the padded text to its end. An error is the number of bytes that the writer took.
fn write_stretches<W: Write>(writer: &mut W, bytes: &[u8], padding: &Padding) -> Result<(), u64>
    requires { length (padded_text bytes.now padding.now) ≤ most_padded_bytes }
    ensures written { OnOk result (Appends
        (W.contents writer.old) (W.contents writer.new) (padded_text bytes.now padding.now)) }
    ensures short { IfErr result (λ gone. gone < length (padded_text bytes.now padding.now)) }
    ensures gone { IfErr result (AppendsFirst
        (W.contents writer.old) (W.contents writer.new) (padded_text bytes.now padding.now)) }
    ensures nothing { padded_text bytes.now padding.now ≡ [] → writer.new ≡ writer.old }
{
    let mut rest = bytes;
    let mut gone = 0;
    let mut retries = MOST_INTERRUPTIONS;
    'stretches: while !rest.is_empty() {
        let front = first_stretch(rest, padding);
        match write_stretch(writer, &front.stretch, padding, &mut retries) {
            Ok(()) => gone += front.stretch.len(),
            Err(more) => return Err(gone + more),
        }
        rest = front.rest;
    }
    Ok(())
}

/// Writes a stretch to its end, as [`write_some`] does.
fn write_stretch<W: Write>(
    writer: &mut W,
    stretch: &Stretch<'_>,
    padding: &Padding,
    retries: &mut u32,
) -> Result<(), u64>
    ensures written { OnOk result (Appends
        (W.contents writer.old) (W.contents writer.new)
        (stretch_bytes padding.now.pad stretch.now)) }
    ensures short { IfErr result
        (λ gone. gone < length (stretch_bytes padding.now.pad stretch.now)) }
    ensures gone { IfErr result (AppendsFirst
        (W.contents writer.old) (W.contents writer.new)
        (stretch_bytes padding.now.pad stretch.now)) }
    ensures nothing { stretch_bytes padding.now.pad stretch.now ≡ [] → writer.new ≡ writer.old }
{
    match stretch {
        Stretch::Literal(bytes) => write_some(writer, bytes, retries),
        Stretch::Pads(count) => write_pads(writer, padding.pad_byte(), *count, retries),
    }
}

/// Writes so many pad bytes, as [`write_some`] does.
fn write_pads<W: Write>(writer: &mut W, pad: u8, count: u64, retries: &mut u32) -> Result<(), u64>
    ensures written { OnOk result (Appends
        (W.contents writer.old) (W.contents writer.new) (replicate count pad)) }
    ensures short { IfErr result (λ gone. gone < count) }
    ensures gone { IfErr result (λ gone. Appends
        (W.contents writer.old) (W.contents writer.new) (replicate gone pad)) }
    ensures nothing { count ≡ 0 → writer.new ≡ writer.old }
{
    let mut gone = 0;
    'writes: while gone < count {
        let size = (count - gone).min(BLOCK as u64);
        match write_block(writer, pad, size as usize, retries) {
            Ok(()) => gone += size,
            Err(more) => return Err(gone + more),
        }
    }
    Ok(())
}

/// Writes a block of so many pad bytes, as [`write_some`] does.
fn write_block<W: Write>(writer: &mut W, pad: u8, size: usize, retries: &mut u32) -> Result<(), u64>
    requires { size ≤ BLOCK }
    ensures written { OnOk result (Appends
        (W.contents writer.old) (W.contents writer.new) (replicate size pad)) }
    ensures short { IfErr result (λ gone. gone < size) }
    ensures gone { IfErr result (AppendsFirst
        (W.contents writer.old) (W.contents writer.new) (replicate size pad)) }
{
    let block = [pad; BLOCK];
    write_some(writer, &block[..size], retries)
}
