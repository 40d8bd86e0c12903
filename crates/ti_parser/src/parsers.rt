//! Sets of parsers, and the functions that they hand out.

ghost use Rattle.std.specs.Prelude.{◌≡◌, ◌≤◌, ℕ, List, [], ◌∷◌, IfOk, OnOk, length, true};
ghost use Rattle.std.specs.Bool.{OnTrue};
ghost use Rattle.ti_parser.specs.Covers.{IsOf, SendMore};
ghost use Rattle.ti_parser.specs.inner.Receivers.{CoverMore, EachLeads, IsMoved, Lead, begun, may_begin, move_of};
ghost use Rattle.ti_parser.specs.inner.Colors.{LeadBut};
ghost use Rattle.ti_parser.specs.Functions.{listed};
ghost use Rattle.ti_parser.specs.Numbers.{is_hex};
ghost use Rattle.ti_parser.specs.declared.reading.Reception.{Reception};
ghost use Rattle.ti_parser.specs.declared.parsers.Lost.TheVariants as lost;

use crate::configuration::Detail;
use crate::function::{Function, HandedOut};
use crate::number::count_hex;
use crate::padding::{Front, Marks, Part};
use crate::reading::Reception;
use crate::receiver::{Ahead, Move, Receiver, may_begin, move_of};
use crate::settled::{step_text, unless_text};
use std::alloc::{AllocError, Allocator};

/// Whether one of the parsers stands for another.
fn has(parsers: &[Receiver], parser: &Receiver) -> bool
    ensures { OnTrue result (CoverMore (parser.now ∷ []) parsers.now) }
{
    for known in parsers {
        if known.stands_for(parser) {
            return true;
        }
    }
    false
}

/// Whether one of the parsers stands for each of the others.
fn has_all(parsers: &[Receiver], others: &[Receiver]) -> bool
    ensures { OnTrue result (CoverMore others.now parsers.now) }
{
    for other in others {
        if !has(parsers, other) {
            return false;
        }
    }
    true
}

/// Adds a parser, if none stands for it.
pub(crate) fn insert<A: Allocator>(
    parsers: &mut Vec<Receiver, A>,
    parser: Receiver,
) -> Result<(), AllocError>
    ensures kept { OnOk result (CoverMore parsers.old.items parsers.new.items) }
    ensures held { OnOk result (CoverMore (parser ∷ []) parsers.new.items) }
{
    if !has(parsers, &parser) {
        parsers.push(parser)?;
    }
    Ok(())
}

/// Adds parsers with so much of their numbers.
pub(crate) fn insert_all<A: Allocator>(
    parsers: &mut Vec<Receiver, A>,
    others: &[Receiver],
    detail: Detail,
) -> Result<(), AllocError>
    ensures kept { OnOk result (CoverMore parsers.old.items parsers.new.items) }
    ensures held { OnOk result (CoverMore others.now parsers.new.items) }
{
    for other in others {
        let mut parser = other.duplicate();
        parser.reduce(detail);
        insert(parsers, parser)?;
    }
    Ok(())
}

/// Notes the place of a token for each parser that it takes out of the ground state.
pub(crate) fn note_places(parsers: &mut [Receiver], place: usize)
    ensures more { CoverMore parsers.old parsers.new }
    ensures len { length parsers.new ≡ length parsers.old }
{
    for parser in parsers.iter_mut() {
        parser.note_place(place);
    }
}

/// How many functions are looked at before one is added.
const RECENT: usize = 16;

/// Whether one of the functions that came last is the same.
fn is_recent(sent: &[Function], function: &Function) -> bool
    ensures { OnTrue result (SendMore (function.now ∷ []) sent.now) }
{
    let recent = &sent[sent.len().saturating_sub(RECENT)..];
    for known in recent {
        if known.letter == function.letter && known.is_same(function) {
            return true;
        }
    }
    false
}

/// Adds a function, if none of those that came last is the same.
fn send<A: Allocator>(sent: &mut Vec<Function, A>, function: Function) -> Result<(), AllocError>
    ensures kept { OnOk result (SendMore sent.old.items sent.new.items) }
    ensures held { OnOk result (SendMore (function ∷ []) sent.new.items) }
{
    if !is_recent(sent, &function) {
        sent.push(function)?;
    }
    Ok(())
}

/// Adds a function, if there is one.
fn send_one<A: Allocator>(
    sent: &mut Vec<Function, A>,
    function: Option<Function>,
) -> Result<(), AllocError>
    ensures kept { OnOk result (SendMore sent.old.items sent.new.items) }
    ensures held { OnOk result (SendMore (listed function) sent.new.items) }
{
    match function {
        None => Ok(()),
        Some(function) => send(sent, function),
    }
}

/// Adds what a byte hands out.
#[inline]
fn send_all<A: Allocator>(sent: &mut Vec<Function, A>, output: HandedOut) -> Result<(), AllocError>
    ensures kept { OnOk result (SendMore sent.old.items sent.new.items) }
    ensures ended { OnOk result (SendMore (listed output.ended) sent.new.items) }
    ensures function { OnOk result (SendMore (listed output.function) sent.new.items) }
{
    let HandedOut { ended, function } = output;
    send_one(sent, ended)?;
    send_one(sent, function)?;
    Ok(())
}

/// Adds the receiver for which a byte is the first of a mark, if it may be.
fn begin<A: Allocator>(
    marks: Marks,
    receiver: &Receiver,
    byte: u8,
    after: &mut Vec<Receiver, A>,
) -> Result<(), AllocError>
    ensures kept { OnOk result (CoverMore after.old.items after.new.items) }
    ensures begins { OnOk result (may_begin marks receiver.now.front byte ≡ true
        → CoverMore (begun receiver.now ∷ []) after.new.items) }
{
    if may_begin(marks, receiver.front, byte) {
        insert(
            after,
            receiver.placed(Front::Mark(Part::Dollar), Ahead::Unknown),
        )?;
        Ok(())
    } else {
        Ok(())
    }
}

/// Adds what a byte that begins no mark makes of a receiver.
fn go_on<A: Allocator>(
    reception: Reception,
    receiver: &Receiver,
    byte: u8,
    sent: &mut Vec<Function, A>,
    after: &mut Vec<Receiver, A>,
) -> Result<(), AllocError>
    ensures sent { OnOk result (SendMore sent.old.items sent.new.items) }
    ensures kept { OnOk result (CoverMore after.old.items after.new.items) }
    ensures moves { OnOk result (IsMoved reception.reading byte receiver.now
        (move_of reception.marks receiver.now.front receiver.now.ahead byte) sent.new.items after.new.items) }
{
    match move_of(reception.marks, receiver.front, receiver.ahead, byte) {
        Move::Gone => Ok(()),
        Move::Skips(front, ahead) => {
            insert(after, receiver.placed(front, ahead))?;
            Ok(())
        }
        Move::Sends(front, ahead) => {
            let mut next = receiver.placed(front, ahead);
            let output = next.parser.step(reception.reading, byte);
            send_all(sent, output)?;
            insert(after, next)?;
            Ok(())
        }
    }
}

/// Adds what a byte makes of a receiver.
fn hear<A: Allocator>(
    reception: Reception,
    receiver: &Receiver,
    byte: u8,
    sent: &mut Vec<Function, A>,
    after: &mut Vec<Receiver, A>,
) -> Result<(), AllocError>
    ensures sent { OnOk result (SendMore sent.old.items sent.new.items) }
    ensures kept { OnOk result (CoverMore after.old.items after.new.items) }
    ensures leads { OnOk result
        (Lead reception (byte ∷ []) (receiver.now ∷ []) sent.new.items after.new.items) }
{
    begin(reception.marks, receiver, byte, after)?;
    go_on(reception, receiver, byte, sent, after)?;
    Ok(())
}

/// The parsers after a byte.
fn step_all<A: Allocator>(
    alloc: A,
    reception: Reception,
    parsers: &[Receiver],
    byte: u8,
    sent: &mut Vec<Function, A>,
) -> Result<Vec<Receiver, A>, AllocError>
    ensures kept { OnOk result (SendMore sent.old.items sent.new.items) }
    ensures leads { IfOk result
        (λ after. Lead reception (byte ∷ []) parsers.now sent.new.items after.items) }
{
    let mut after = Vec::new(alloc);
    for parser in parsers {
        hear(reception, parser, byte, sent, &mut after)?;
    }
    Ok(after)
}

/// The parsers after some bytes.
pub(crate) fn follow<A: Allocator + Copy>(
    alloc: A,
    reception: Reception,
    parsers: &[Receiver],
    bytes: &[u8],
    sent: &mut Vec<Function, A>,
) -> Result<Vec<Receiver, A>, AllocError>
    ensures kept { OnOk result (SendMore sent.old.items sent.new.items) }
    ensures leads { IfOk result
        (λ after. Lead reception bytes.now parsers.now sent.new.items after.items) }
{
    let mut now = Vec::new(alloc);
    insert_all(&mut now, parsers, Detail::Whole)?;
    for byte in bytes {
        now = step_all(alloc, reception, &now, *byte, sent)?;
    }
    Ok(now)
}

/// The most parsers whose numbers are kept, and the most that are followed.
const MOST_WHOLE: usize = 16;

const MOST_PARSERS: usize = 64;

/// Why parsers are not followed.
pub(crate) enum Lost {
    /// A byte is computed.
    ComputedByte,
    /// They are too many.
    NotTried,
    /// An allocation was refused.
    Memory(AllocError),
}

impl From<AllocError> for Lost {
    ghost from_gives = { λ refused e. e ≡ lost.Memory refused };

    fn from(refused: AllocError) -> Lost {
        Lost::Memory(refused)
    }
}

/// The same parsers if they are few, else without the values of their numbers.
pub(crate) fn limit<A: Allocator>(
    alloc: A,
    parsers: Vec<Receiver, A>,
) -> Result<Vec<Receiver, A>, Lost>
    ensures { IfOk result (λ few. CoverMore parsers.items few.items) }
{
    if parsers.len() <= MOST_WHOLE {
        return Ok(parsers);
    }
    let mut few = Vec::new(alloc);
    insert_all(&mut few, &parsers, Detail::Shape)?;
    if few.len() > MOST_PARSERS {
        return Err(Lost::NotTried);
    }
    Ok(few)
}

/// The parsers of both sets.
pub(crate) fn unite<A: Allocator>(
    alloc: A,
    left: Vec<Receiver, A>,
    right: &[Receiver],
) -> Result<Vec<Receiver, A>, Lost>
    ensures left { IfOk result (λ both. CoverMore left.items both.items) }
    ensures right { IfOk result (λ both. CoverMore right.now both.items) }
{
    let mut both = left;
    insert_all(&mut both, right, Detail::Whole)?;
    let few = limit(alloc, both)?;
    Ok(few)
}

/// The parsers after each of these bytes, in turn. Of text one step is enough for a parser that takes it as text.
fn step_each<A: Allocator + Copy>(
    alloc: A,
    reception: Reception,
    parsers: &[Receiver],
    bytes: &[u8],
    sent: &mut Vec<Function, A>,
) -> Result<Vec<Receiver, A>, Lost>
    ensures kept { OnOk result (SendMore sent.old.items sent.new.items) }
    ensures leads { IfOk result
        (λ after. EachLeads reception bytes.now parsers.now sent.new.items after.items) }
{
    let mut others = Vec::new(alloc);
    let mut after = step_text(alloc, parsers, &mut others)?;
    for byte in bytes {
        let here = unless_text(parsers, &others, *byte);
        let next = step_all(alloc, reception, here, *byte, sent)?;
        insert_all(&mut after, &next, Detail::ButLast)?;
    }
    let few = limit(alloc, after)?;
    Ok(few)
}

/// Whether one of the parsers is in a color of the Linux console.
fn has_color(parsers: &[Receiver]) -> bool {
    parsers.iter().any(|parser| parser.is_color())
}

/// Adds what any hexadecimal digit makes of a receiver that is in a color. A receiver that is in none is added to the others.
fn hear_color<A: Allocator>(
    receiver: &Receiver,
    others: &mut Vec<Receiver, A>,
    sent: &mut Vec<Function, A>,
    after: &mut Vec<Receiver, A>,
) -> Result<(), AllocError>
    ensures others { OnOk result (CoverMore others.old.items others.new.items) }
    ensures sent { OnOk result (SendMore sent.old.items sent.new.items) }
    ensures kept { OnOk result (CoverMore after.old.items after.new.items) }
    ensures leads { OnOk result ((reception : Reception) (byte : ℕ) → is_hex byte ≡ true
        → LeadBut reception (byte ∷ []) (receiver.now ∷ []) others.new.items sent.new.items after.new.items) }
{
    if receiver.is_color() {
        let mut next = receiver.duplicate();
        let output = next.parser.take_any_digit();
        send_all(sent, output)?;
        insert(after, next)?;
        Ok(())
    } else {
        insert(others, receiver.duplicate())?;
        Ok(())
    }
}

/// The parsers in a color, after any hexadecimal digit, and the other parsers as they are.
fn step_colors<A: Allocator + Copy>(
    alloc: A,
    parsers: &[Receiver],
    others: &mut Vec<Receiver, A>,
    sent: &mut Vec<Function, A>,
) -> Result<Vec<Receiver, A>, AllocError>
    ensures kept { OnOk result (SendMore sent.old.items sent.new.items) }
    ensures leads { IfOk result (λ after. (reception : Reception) (byte : ℕ) → is_hex byte ≡ true
        → LeadBut reception (byte ∷ []) parsers.now others.new.items sent.new.items after.items) }
{
    let mut after = Vec::new(alloc);
    for parser in parsers {
        hear_color(parser, others, sent, &mut after)?;
    }
    Ok(after)
}

/// The parsers after any of these bytes. The hexadecimal digits at their start are one step for a parser in a color.
fn step_digits<A: Allocator + Copy>(
    alloc: A,
    reception: Reception,
    parsers: &[Receiver],
    bytes: &[u8],
    sent: &mut Vec<Function, A>,
) -> Result<Vec<Receiver, A>, Lost>
    ensures kept { OnOk result (SendMore sent.old.items sent.new.items) }
    ensures leads { IfOk result
        (λ after. EachLeads reception bytes.now parsers.now sent.new.items after.items) }
{
    let count = count_hex(bytes);
    let mut others = Vec::new(alloc);
    let colors = step_colors(alloc, parsers, &mut others, sent)?;
    let more = step_each(alloc, reception, &others, &bytes[..count], sent)?;
    let digits = unite(alloc, colors, &more)?;
    let rest = step_each(alloc, reception, parsers, &bytes[count..], sent)?;
    let after = unite(alloc, digits, &rest)?;
    Ok(after)
}

/// The parsers after any of these bytes.
pub(crate) fn step_any<A: Allocator + Copy>(
    alloc: A,
    reception: Reception,
    parsers: &[Receiver],
    bytes: &[u8],
    sent: &mut Vec<Function, A>,
) -> Result<Vec<Receiver, A>, Lost>
    ensures kept { OnOk result (SendMore sent.old.items sent.new.items) }
    ensures leads { IfOk result
        (λ after. EachLeads reception bytes.now parsers.now sent.new.items after.items) }
{
    if has_color(parsers) && 1 < count_hex(bytes) {
        let after = step_digits(alloc, reception, parsers, bytes, sent)?;
        Ok(after)
    } else {
        let after = step_each(alloc, reception, parsers, bytes, sent)?;
        Ok(after)
    }
}

/// How often bytes are tried, before they are taken for endless.
const ROUNDS: usize = 10;

/// The parsers after any number of these bytes.
pub(crate) fn step_on<A: Allocator + Copy>(
    alloc: A,
    reception: Reception,
    parsers: Vec<Receiver, A>,
    bytes: &[u8],
    sent: &mut Vec<Function, A>,
) -> Result<Vec<Receiver, A>, Lost>
    ensures kept { OnOk result (SendMore sent.old.items sent.new.items) }
    ensures leads { IfOk result (λ after. (text : List ℕ) → IsOf bytes.now text
        → Lead reception text parsers.items sent.new.items after.items) }
{
    let mut all = parsers;
    for _ in 0..ROUNDS {
        let more = step_any(alloc, reception, &all, bytes, sent)?;
        if has_all(&all, &more) {
            return Ok(all);
        }
        insert_all(&mut all, &more, Detail::Whole)?;
        all = limit(alloc, all)?;
    }
    Err(Lost::NotTried)
}

/// The parsers after so many of these bytes or more.
pub(crate) fn step_most<A: Allocator + Copy>(
    alloc: A,
    reception: Reception,
    parsers: Vec<Receiver, A>,
    digits: Digits<'_>,
    sent: &mut Vec<Function, A>,
) -> Result<Vec<Receiver, A>, Lost>
    ensures kept { OnOk result (SendMore sent.old.items sent.new.items) }
    ensures leads { IfOk result (λ after. (text : List ℕ) → IsOf digits.entry.bytes.now text
        → digits.entry.least ≤ length text → Lead reception text parsers.items sent.new.items after.items) }
{
    let mut now = parsers;
    for _ in 0..digits.least {
        now = step_any(alloc, reception, &now, digits.bytes, sent)?;
    }
    let after = step_on(alloc, reception, now, digits.bytes, sent)?;
    Ok(after)
}

/// Bytes of which so many or more come.
#[derive(Clone, Copy)]
pub(crate) struct Digits<'a> {
    /// The bytes.
    pub bytes: &'a [u8],
    /// How many come at least.
    pub least: u8,
}
