//! The text whose notation an input is.

ghost use Rattle.std.specs.Prelude.{◌≡◌, ◌≤◌, Ok, Err, codes, length, take, IfErr, IfOk};
ghost use Rattle.ti_tool.specs.Sources.{notation_in, text_of};

use crate::fault::ToolFault;
use ti_base::MOST_CAPABILITY_BYTES;
use ti_cap::{CapFault, CapRefused};
use ti_escape::read_in_place;

/// The most characters of the notation of a capability.
const MOST_NOTATION: usize = 4 * MOST_CAPABILITY_BYTES;

/// How many characters the notation in an input has, of which a newline at the end is no part.
fn notation_len(input: &[u8]) -> usize
    ensures notation { notation_in input.now ≡ take result input.now }
    ensures within { result ≤ length input.now }
    ensures len { length (notation_in input.now) ≡ result }
{
    match input {
        [notation @ .., b'\n'] => notation.len(),
        _ => input.len(),
    }
}

/// Puts the text whose notation is in an input in its place, and returns how many bytes it has.
pub fn put_text(input: &mut [u8]) -> Result<usize, ToolFault>
    ensures text { IfOk result (λ len. text_of (notation_in input.old) ≡ Ok (take len input.new)) }
    ensures within { IfOk result (λ len. len ≤ length input.old) }
    ensures fault { IfErr result (λ e. text_of (notation_in input.old) ≡ Err e) }
{
    let len = notation_len(input);
    if len > MOST_NOTATION {
        return Err(ToolFault::Cap(CapRefused {
            fault: CapFault::TooLong,
            place: MOST_CAPABILITY_BYTES,
        }));
    }
    Ok(read_in_place(&mut input[..len])?)
}
