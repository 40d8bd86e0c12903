//! Sending a capability for C: its output, padded, in one room.
//!
//! The output is written at the front of the room, and padded after it; then the padded text takes its place.

ghost use Rattle.std.specs.Prelude.{◌≡◌, ◌≤◌, ◌<◌, ◌+◌, ◌-◌, ◌⊎◌, ◌↔◌, ℕ, Err, length, drop, take, IfOk, OnErr};
ghost use Rattle.std.specs.Bool.{OnTrue};
ghost use Rattle.ti_base.specs.Limits.{most_padded_bytes};
ghost use Rattle.ti_cap.specs.Refusal.{IsFaultless};
ghost use Rattle.ti_expand.specs.Expands.{ForMeaning};
ghost use Rattle.ti_pad.specs.Into.{IsPadIntoFault};
ghost use Rattle.ti_pad.specs.Padded.{padded_text};
ghost use Rattle.ti_pad.specs.Setting.{Setting};
ghost use Rattle.ti_c.specs.Numbers.{bad_padding, done, out_too_small, too_many_parameters, too_much};
ghost use Rattle.ti_c.specs.Given.{values_given};
ghost use Rattle.ti_c.specs.Sending.{ForPadded, IsSendingFault, IsUnsent};

use crate::expansion::{Parameter, PlacedRun, ti_expand};
use crate::faults::{BAD_PADDING, DONE, OUT_TOO_SMALL, TOO_MANY_PARAMETERS, TOO_MUCH};
use crate::padding::{GivenPadding, padding_of, told_length};
use memchr::memchr;
use std::simd::prelude::*;
use ti_base::MOST_PADDED_BYTES;
use ti_expand::{Run, Vars};
use ti_pad::{PadIntoFault, Padding, pad_into};

/// The state that lasts from one text to the next: how a terminal's line pads, and the variables.
#[repr(C)]
#[derive(Debug)]
pub struct Terminal {
    pub padding: GivenPadding,
    pub variables: Vars,
}

/// The bytes to send, or the place of the fault.
#[repr(C)]
#[derive(Clone, Copy, Debug)]
pub struct Sent {
    /// How many bytes at the front of the room are to be sent.
    pub length: usize,
    /// Of a fault of the capability or a parameter its place; else the room that is needed, or the length of the padded text
    /// if that is above its limit.
    pub place: usize,
}

/// A run of nothing, which an expansion overwrites.
fn no_run() -> PlacedRun {
    let counts = Run {
        written: 0,
        ran: 0,
        passed: 0,
        peak: 0,
    };
    PlacedRun { counts, place: 0 }
}

/// Moves bytes of a room to its front. The bytes after them there may change.
#[inline(always)]
fn move_to_front(out: &mut [u8], from: usize, count: usize)
    requires { from + count ≤ length out.old }
    ensures { take count out.new ≡ take count (drop from out.old) }
{
    if count <= 16 && out.len() - from >= 16 {
        let bytes = u8x16::from_slice(&out[from..]);
        bytes.copy_to_slice(out);
        return;
    }
    out.copy_within(from..from + count, 0);
}

/// Pads the text at the front of a room, which the padded text replaces. After a fault the room is as before.
fn pad_at_front(out: &mut [u8], written: usize, padding: &Padding) -> Result<usize, PadIntoFault>
    requires { written ≤ length out.old }
    ensures faults { (fault : PadIntoFault) → (result ≡ Err fault)
        ↔ IsPadIntoFault (padded_text (take written out.old) padding.now)
        (length out.old - written) fault }
    ensures kept { OnErr result (out.new ≡ out.old) }
    ensures len { IfOk result
        (λ n. n ≡ length (padded_text (take written out.old) padding.now)) }
    ensures text { IfOk result
        (λ n. take n out.new ≡ padded_text (take written out.old) padding.now) }
{
    let (text, rest) = out.split_at_mut(written);
    let length = match pad_into(text, padding, rest) {
        Ok(length) => length,
        Err(fault) => return Err(fault),
    };
    move_to_front(out, written, length);
    Ok(length)
}

/// Whether no mark is in a text for sure: there is no `$`, with which each mark starts.
#[inline(always)]
fn is_unmarked(text: &[u8]) -> bool
    ensures { OnTrue result ((setting : Setting) → padded_text text.now setting ≡ text.now) }
{
    match memchr(b'$', text) {
        Some(_) => false,
        None => true,
    }
}

/// The same of an output of at most 16 bytes, at which one look is enough. The bytes of the room after it may be any, and are not
/// tested: C need not have written them.
#[inline(always)]
fn is_short_unmarked(out: &[u8], written: usize) -> bool
    requires room { 16 ≤ length out.now }
    requires short { written ≤ 16 }
    ensures { OnTrue result ((setting : Setting)
        → padded_text (take written out.now) setting ≡ take written out.now) }
{
    let dollars = u8x16::from_slice(out)
        .simd_eq(u8x16::splat(b'$'))
        .to_bitmask();
    dollars & ((1 << written) - 1) == 0
}

/// Whether the output at the front of a room is what is sent, for sure: no mark is in it, and there is room for it once more.
/// Nearly all outputs have at most 16 bytes.
#[inline(always)]
fn is_sent_as_it_is(out: &[u8], written: usize) -> bool
    requires { written ≤ length out.now }
    ensures room { OnTrue result (written + written ≤ length out.now) }
    ensures few { OnTrue result (written ≤ most_padded_bytes) }
    ensures same { OnTrue result ((setting : Setting)
        → padded_text (take written out.now) setting ≡ take written out.now) }
{
    if written <= 16 && out.len() >= 32 {
        return is_short_unmarked(out, written);
    }
    if written > out.len() - written {
        return false;
    }
    if written as u128 > MOST_PADDED_BYTES {
        return false;
    }
    is_unmarked(&out[..written])
}

/// Pads the output at the front of a room, as `put_padded` does. It is a call, so that an output without a mark takes no step for it.
#[inline(never)]
fn put_marked(out: &mut [u8], written: usize, padding: &Padding, sent: &mut Sent) -> u32
    requires { written ≤ length out.old }
    ensures answer { (result ≡ done) ⊎ IsUnsent (take written out.old)
        (padded_text (take written out.old) padding.now) (length out.old)
        result sent.new.place }
    ensures only { (number need : ℕ) → IsUnsent (take written out.old)
        (padded_text (take written out.old) padding.now) (length out.old) number need
        → (result ≡ number) × (sent.new.place ≡ need) }
    ensures place { (result ≡ done) ⊎ (sent.new ≡ record sent.old { place = sent.new.place }) }
    ensures untold { result ≡ done → sent.new.place ≡ sent.old.place }
    ensures text { result ≡ done → take sent.new.length out.new
        ≡ padded_text (take written out.old) padding.now }
    ensures len { result ≡ done → sent.new.length
        ≡ length (padded_text (take written out.old) padding.now) }
{
    match pad_at_front(out, written, padding) {
        Ok(length) => {
            sent.length = length;
            DONE
        }
        Err(PadIntoFault::TooMuch { need }) => {
            sent.place = told_length(need);
            TOO_MUCH
        }
        Err(PadIntoFault::OutTooSmall { need }) => {
            sent.place = written + need as usize;
            OUT_TOO_SMALL
        }
    }
}

/// Pads the output at the front of a room, and returns 0 with the length of the padded text, which replaces it; or the number of
/// the first fault with the place, and the room is as before.
#[inline(always)]
pub(crate) fn put_padded(out: &mut [u8], written: usize, padding: &Padding, sent: &mut Sent) -> u32
    requires { written ≤ length out.old }
    ensures answer { (result ≡ done) ⊎ IsUnsent (take written out.old)
        (padded_text (take written out.old) padding.now) (length out.old)
        result sent.new.place }
    ensures only { (number need : ℕ) → IsUnsent (take written out.old)
        (padded_text (take written out.old) padding.now) (length out.old) number need
        → (result ≡ number) × (sent.new.place ≡ need) }
    ensures place { (result ≡ done) ⊎ (sent.new ≡ record sent.old { place = sent.new.place }) }
    ensures untold { result ≡ done → sent.new.place ≡ sent.old.place }
    ensures text { result ≡ done → take sent.new.length out.new
        ≡ padded_text (take written out.old) padding.now }
    ensures len { result ≡ done → sent.new.length
        ≡ length (padded_text (take written out.old) padding.now) }
{
    if is_sent_as_it_is(out, written) {
        sent.length = written;
        return DONE;
    }
    put_marked(out, written, padding, sent)
}

/// Expands a capability, pads the output, and returns 0 with the length of what is to be sent, which stands at the front of the
/// room; or the number of the first fault with the place: of the padding, of the parameters, of the capability, of the
/// expansion, of the padded text.
///
/// The room after the bytes to send may change. After a fault nothing is written but the place, and after 203 and
/// 302 in the room. No place is written after 0, a padding above its limits, or too many parameters.
#[unsafe(no_mangle)]
pub extern "C" fn ti_send<'a>(
    capability: &'a [u8],
    parameters: &[Parameter<'a>],
    terminal: &mut Terminal,
    out: &mut [u8],
    sent: &mut Sent,
) -> u32
    ensures answer { (result ≡ done) ⊎ IsSendingFault capability.now terminal.old.variables
        (values_given parameters.now) (length parameters.now) terminal.old.padding
        (length out.old) result sent.new.place }
    ensures only { (number place : ℕ) → IsSendingFault capability.now terminal.old.variables
        (values_given parameters.now) (length parameters.now) terminal.old.padding
        (length out.old) number place
        → (result ≡ number) × ((number ≡ bad_padding)
        ⊎ ((number ≡ too_many_parameters) ⊎ (sent.new.place ≡ place))) }
    // After a fault nothing is written but the place, and after two of them in the room.
    ensures kept { (result ≡ done) ⊎ (terminal.new ≡ terminal.old) }
    ensures padding { terminal.new.padding ≡ terminal.old.padding }
    ensures room { (result ≡ done) ⊎ ((result ≡ out_too_small)
        ⊎ ((result ≡ too_much) ⊎ (out.new ≡ out.old))) }
    ensures place { (result ≡ done) ⊎ (sent.new ≡ record sent.old { place = sent.new.place }) }
    ensures untold { result ≡ done → sent.new.place ≡ sent.old.place }
    // After 0 the padded text of what the tree of the bytes means is at the front, and its length is written.
    ensures accepted { result ≡ done → IsFaultless capability.now }
    ensures text { result ≡ done → ForPadded capability.now terminal.old.variables
        (values_given parameters.now) terminal.old.padding
        (λ padded. take sent.new.length out.new ≡ padded) }
    ensures len { result ≡ done → ForPadded capability.now terminal.old.variables
        (values_given parameters.now) terminal.old.padding
        (λ padded. sent.new.length ≡ length padded) }
    ensures variables { result ≡ done → ForMeaning capability.now terminal.old.variables
        (values_given parameters.now) (λ end. terminal.new.variables ≡ end.variables) }
{
    let Some(padding) = padding_of(&terminal.padding) else {
        return BAD_PADDING;
    };
    if parameters.len() > 9 {
        return TOO_MANY_PARAMETERS;
    }
    let before = terminal.variables.copy();
    let mut run = no_run();
    let fault = ti_expand(
        capability,
        parameters,
        &mut terminal.variables,
        out,
        &mut run,
    );
    if fault != DONE {
        sent.place = run.place;
        return fault;
    }
    let unsent = put_padded(out, run.counts.written, &padding, sent);
    if unsent != DONE {
        terminal.variables = before;
    }
    unsent
}
