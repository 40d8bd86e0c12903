//! Sending a compiled capability for C: its output, padded, in one room.

ghost use Rattle.std.specs.Prelude.{◌≡◌, ◌≤◌, ◌⊎◌, ℕ, length, take};
ghost use Rattle.ti_cap.specs.Refusal.{IsFaultless};
ghost use Rattle.ti_expand.specs.Expands.{ForMeaning};
ghost use Rattle.ti_expand.specs.State.{values_of};
ghost use Rattle.ti_kept.specs.Kept.{IsKept, nine_of};
ghost use Rattle.ti_c.specs.Numbers.{bad_padding, done, out_too_small, too_many_parameters, too_much};
ghost use Rattle.ti_c.specs.Sending.{ForPadded, IsSendingFault};

use crate::faults::{BAD_PADDING, DONE, OUT_TOO_SMALL, TOO_MANY_PARAMETERS};
use crate::padding::padding_of;
use crate::sending::{Sent, Terminal, put_padded};
use ti_kept::{Kept, expand_kept};

/// Expands a compiled capability over numbers, pads the output if a `$` is in it, and returns 0 with the length of what is to be
/// sent, which stands at the front of the room; or the number of the first fault with the place, which are those of `ti_send`.
///
/// The room after the bytes to send may change. After a fault nothing is written but the place, and after 203 and
/// 302 in the room. No place is written after 0, a padding above its limits, or too many parameters.
#[unsafe(no_mangle)]
pub extern "C" fn ti_send_kept(
    kept: &Kept<'_>,
    parameters: &[i32],
    terminal: &mut Terminal,
    out: &mut [u8],
    sent: &mut Sent,
) -> u32
    ensures answer { IsKept kept.now → (result ≡ done) ⊎ IsSendingFault kept.now.bytes.now
        terminal.old.variables (values_of (nine_of parameters.now)) (length parameters.now)
        terminal.old.padding (length out.old) result sent.new.place }
    ensures only { IsKept kept.now → (number place : ℕ) → IsSendingFault kept.now.bytes.now
        terminal.old.variables (values_of (nine_of parameters.now)) (length parameters.now)
        terminal.old.padding (length out.old) number place
        → (result ≡ number) × ((number ≡ bad_padding)
        ⊎ ((number ≡ too_many_parameters) ⊎ (sent.new.place ≡ place))) }
    // After a fault nothing is written but the place, and after two of them in the room.
    ensures kept { (result ≡ done) ⊎ (terminal.new ≡ terminal.old) }
    ensures padding { terminal.new.padding ≡ terminal.old.padding }
    ensures room { (result ≡ done) ⊎ ((result ≡ out_too_small)
        ⊎ ((result ≡ too_much) ⊎ (out.new ≡ out.old))) }
    ensures place { (result ≡ done) ⊎ (sent.new ≡ record sent.old { place = sent.new.place }) }
    ensures untold { result ≡ done → sent.new.place ≡ sent.old.place }
    // Whatever the steps are, what is to be sent lies in the room.
    ensures within { result ≡ done → sent.new.length ≤ length out.new }
    // If they are those of a capability, it is the padded text of what its tree means, and its length is written.
    ensures accepted { result ≡ done → IsKept kept.now → IsFaultless kept.now.bytes.now }
    ensures text { result ≡ done → IsKept kept.now → ForPadded kept.now.bytes.now
        terminal.old.variables (values_of (nine_of parameters.now)) terminal.old.padding
        (λ padded. take sent.new.length out.new ≡ padded) }
    ensures len { result ≡ done → IsKept kept.now → ForPadded kept.now.bytes.now
        terminal.old.variables (values_of (nine_of parameters.now)) terminal.old.padding
        (λ padded. sent.new.length ≡ length padded) }
    ensures variables { result ≡ done → IsKept kept.now → ForMeaning kept.now.bytes.now
        terminal.old.variables (values_of (nine_of parameters.now))
        (λ end. terminal.new.variables ≡ end.variables) }
{
    let Some(padding) = padding_of(&terminal.padding) else {
        return BAD_PADDING;
    };
    if parameters.len() > 9 {
        return TOO_MANY_PARAMETERS;
    }
    let before = terminal.variables.copy();
    let Some(written) = expand_kept(kept, parameters, &mut terminal.variables, out) else {
        sent.place = kept.bound as usize;
        return OUT_TOO_SMALL;
    };
    let unsent = put_padded(out, written, &padding, sent);
    if unsent != DONE {
        terminal.variables = before;
    }
    unsent
}
