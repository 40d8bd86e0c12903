//! What a token writes, for the parsers of the paths that meet it.

ghost use Rattle.std.specs.Prelude.{◌≡◌, ◌≢◌, ◌∷◌, [], ℕ, true, IfOk, OnOk};
ghost use Rattle.ti_expand.specs.Effect.{char_byte};
ghost use Rattle.ti_expand.specs.Printed.{print_of_number};
ghost use Rattle.ti_expand.specs.State.{State, number_on};
ghost use Rattle.ti_parser.specs.Covers.{SendMore};
ghost use Rattle.ti_parser.specs.inner.Receivers.{Lead};
ghost use Rattle.ti_parser.specs.Given.{may_be};
ghost use Rattle.ti_parser.specs.inner.Forms.{characters};
ghost use Rattle.ti_parser.specs.Paths.{AreData, written};
ghost use Rattle.ti_parser.specs.Tops.{AreTops};

use crate::function::Function;
use crate::parsers::{Lost, follow, step_any};
use crate::point::Point;
use crate::print::{KnownNumber, data_bytes, print_known, print_number};
use crate::reading::{FirstCharacter, Reception};
use crate::receiver::Receiver;
use crate::text::print_text;
use crate::tops::Top;
use std::alloc::Allocator;
use ti_cap::{Conversion, Format, Token};
use ti_expand::byte_of;

/// The parsers after a number that a format prints, which lies on top of the stack.
fn write_number<A: Allocator + Copy>(
    alloc: A,
    reception: Reception,
    here: &Point<A>,
    format: &Format,
    sent: &mut Vec<Function, A>,
) -> Result<Vec<Receiver, A>, Lost>
    requires { format.now.conversion ≢ Conversion.Text }
    ensures kept { OnOk result (SendMore sent.old.items sent.new.items) }
    ensures leads { IfOk result (λ after. (s : State) → AreTops here.now.tops s
        → Lead reception (print_of_number format.now (number_on s.stack)) here.now.parsers.items sent.new.items after.items) }
{
    match here.tops.first() {
        Top::Number(number) => {
            let known = KnownNumber {
                format: *format,
                number,
            };
            let after = print_known(alloc, reception, &here.parsers, known, sent)?;
            Ok(after)
        }
        Top::Printed(_) => {
            let after = print_number(alloc, reception, &here.parsers, format, sent)?;
            Ok(after)
        }
    }
}

/// The bytes that a first parameter may be, unless it may be any.
fn characters(character: FirstCharacter) -> &'static [u8]
    ensures { result.now ≡ characters character }
{
    match character {
        FirstCharacter::Any => b"",
        FirstCharacter::Printable => data_bytes(),
        FirstCharacter::Designator => {
            b"0123456789:;<=>?@ABCDEFGHIJKLMNOPQRSTUVWXYZ[\\]^_`abcdefghijklmnopqrstuvwxyz{|}~"
        }
    }
}

/// The parsers after each byte that a first parameter may be, unless it may be any.
fn write_any<A: Allocator + Copy>(
    alloc: A,
    reception: Reception,
    here: &[Receiver],
    character: FirstCharacter,
    sent: &mut Vec<Function, A>,
) -> Result<Vec<Receiver, A>, Lost>
    ensures kept { OnOk result (SendMore sent.old.items sent.new.items) }
    ensures leads { IfOk result (λ after. (byte : ℕ) → may_be character byte ≡ true
        → Lead reception (byte ∷ []) here.now sent.new.items after.items) }
{
    match character {
        FirstCharacter::Any => Err(Lost::ComputedByte),
        _ => {
            let after = step_any(alloc, reception, here, characters(character), sent)?;
            Ok(after)
        }
    }
}

/// The parsers after the byte of a character, if it is known.
fn write_char<A: Allocator + Copy>(
    alloc: A,
    reception: Reception,
    here: &Point<A>,
    sent: &mut Vec<Function, A>,
) -> Result<Vec<Receiver, A>, Lost>
    ensures kept { OnOk result (SendMore sent.old.items sent.new.items) }
    ensures leads { IfOk result (λ after. (s : State) → AreTops here.now.tops s
        → Lead reception (char_byte (number_on s.stack) ∷ []) here.now.parsers.items sent.new.items after.items) }
{
    match here.tops.first() {
        Top::Number(number) => {
            let after = follow(alloc, reception, &here.parsers, &[byte_of(number)], sent)?;
            Ok(after)
        }
        Top::Printed(character) => {
            let after = write_any(alloc, reception, &here.parsers, character, sent)?;
            Ok(after)
        }
    }
}

/// The parsers after what a token writes that is no part of a conditional.
pub(crate) fn write<A: Allocator + Copy>(
    alloc: A,
    reception: Reception,
    here: &Point<A>,
    token: &Token,
    sent: &mut Vec<Function, A>,
) -> Result<Vec<Receiver, A>, Lost>
    ensures kept { OnOk result (SendMore sent.old.items sent.new.items) }
    ensures leads { IfOk result (λ after. (s : State) → AreData s → AreTops here.now.tops s
        → Lead reception (written token.now s) here.now.parsers.items sent.new.items after.items) }
{
    match token {
        Token::Byte(byte) => {
            let after = follow(alloc, reception, &here.parsers, &[*byte], sent)?;
            Ok(after)
        }
        Token::Char => {
            let after = write_char(alloc, reception, here, sent)?;
            Ok(after)
        }
        Token::Print(format) => match format.conversion {
            Conversion::Text => {
                let after = print_text(alloc, reception, &here.parsers)?;
                Ok(after)
            }
            _ => {
                let after = write_number(alloc, reception, here, format, sent)?;
                Ok(after)
            }
        },
        _ => {
            let after = follow(alloc, reception, &here.parsers, &[], sent)?;
            Ok(after)
        }
    }
}
