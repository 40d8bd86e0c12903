//! Parsers that take text as text, so that one step is enough for all bytes of it.

ghost use Rattle.std.specs.Prelude.{◌≡◌, ◌∷◌, [], ℕ, List, true, IfOk, OnOk, if◌then◌else◌};
ghost use Rattle.ti_parser.specs.declared.function.Function.{Function};
ghost use Rattle.ti_parser.specs.declared.reading.Reception.{Reception};
ghost use Rattle.ti_parser.specs.inner.Colors.{LeadBut};
ghost use Rattle.ti_parser.specs.inner.Receivers.{CoverMore};
ghost use Rattle.ti_parser.specs.inner.Texts.{is_text_byte};

use crate::parsers::insert;
use crate::receiver::Receiver;
use std::alloc::{AllocError, Allocator};

/// Whether a byte is data that begins no padding mark.
fn is_text_byte(byte: u8) -> bool
    ensures { result ≡ is_text_byte byte }
{
    0x20 <= byte && byte <= 0x7e && byte != b'?' && byte != b'$'
}

/// The receivers that a byte has to be sent to, if the others take text in one step.
pub(crate) fn unless_text<'r>(
    all: &'r [Receiver],
    others: &'r [Receiver],
    byte: u8,
) -> &'r [Receiver]
    ensures { result.now ≡ (if is_text_byte byte then others.now else all.now) }
{
    if is_text_byte(byte) {
        return others;
    }
    all
}

/// Adds what a byte of text makes of a receiver that is in text. Another one is added to the others.
fn hear_text<A: Allocator>(
    receiver: &Receiver,
    others: &mut Vec<Receiver, A>,
    after: &mut Vec<Receiver, A>,
) -> Result<(), AllocError>
    ensures others { OnOk result (CoverMore others.old.items others.new.items) }
    ensures kept { OnOk result (CoverMore after.old.items after.new.items) }
    ensures leads { OnOk result ((reception : Reception) (byte : ℕ) (sent : List Function) → is_text_byte byte ≡ true
        → LeadBut reception (byte ∷ []) (receiver.now ∷ []) others.new.items sent after.new.items) }
{
    if receiver.is_in_text() {
        insert(after, receiver.after_text())?;
        Ok(())
    } else {
        insert(others, receiver.duplicate())?;
        Ok(())
    }
}

/// The receivers in text after any byte of it, and the other receivers as they are.
pub(crate) fn step_text<A: Allocator + Copy>(
    alloc: A,
    parsers: &[Receiver],
    others: &mut Vec<Receiver, A>,
) -> Result<Vec<Receiver, A>, AllocError>
    ensures leads { IfOk result (λ after. (reception : Reception) (byte : ℕ) (sent : List Function) → is_text_byte byte ≡ true
        → LeadBut reception (byte ∷ []) parsers.now others.new.items sent after.items) }
{
    let mut after = Vec::new(alloc);
    for parser in parsers {
        hear_text(parser, others, &mut after)?;
    }
    Ok(after)
}
