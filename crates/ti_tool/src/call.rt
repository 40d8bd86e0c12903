//! A request of what a reader gives: its output, and writing it.
//!
//! Nothing is written before the whole result is there: after a fault other than `Write` the writer is as it was.

ghost use Rattle.std.specs.Prelude.{◌⊎◌, ◌≡◌, IfErr, IfOk, MatchResult, None, OnOk, true};
ghost use Rattle.std.specs.Io.KnownBytes.{IsAtEnd};
ghost use Rattle.ti_line.specs.declared.request.Action.TheVariants.{Capability, Entry, Source};
ghost use Rattle.ti_tool.specs.Calls.{DidCheck, IsEnough, IsFailedWrite};
ghost use Rattle.ti_tool.specs.FileRuns.{IsInput, Supply};
ghost use Rattle.ti_tool.specs.Results.{Finds, IsAnswer};
ghost use Rattle.ti_tool.specs.inner.Answered.{HasFault, HasOutput, IsFed};
ghost use Rattle.ti_entry.specs.Reading.{new_reading, refusal_after};

use crate::command::{Answer, answer_of_capability, answer_of_entry, answer_of_source};
use crate::fault::ToolFault;
use crate::result::write_result;
use crate::source::{MOST_BYTES, MOST_CHARACTERS, read_up_to};
use crate::voice::MOST_FRONT;
use arrayvec::ArrayVec;
use std::alloc::Allocator;
use std::io::{Read, Write};
use ti_entry::{EntryReader, ReadStop, read_from};
use ti_line::{Action, CapabilityAction, EntryAction};
use ti_rules::Trials;

/// The most characters of an input that are kept for the advice: four for each column of a string that is shown, and a newline.
const MOST_KEPT: usize = 1025;

/// What is kept of an input for the advice on a fault: a capability or its notation, or the front of an entry.
pub type InputText = ArrayVec<u8, MOST_KEPT>;

/// Keeps an input, if it is short.
fn keep(text: &mut InputText, input: &[u8]) {
    let _ = text.try_extend_from_slice(input);
}

/// The output of a request on what the reader gives as one capability, each byte of it as it stands. At most 32768 bytes of the
/// input are kept, which is one more than a capability may have.
fn answer_of_bytes<A: Allocator + Copy, R: Read>(
    alloc: A,
    action: &CapabilityAction<'_>,
    text: &mut InputText,
    reader: &mut R,
) -> Result<Answer<A>, ToolFault>
    ensures finds { IfOk result (λ a. a.passed ≡ true) }
    ensures answered { (supply : Supply)
        × IsInput (Capability action.now) (R.remaining reader.old) (R.remaining reader.new) supply
        × MatchResult result
        (λ a. HasOutput (Capability action.now) supply a.passed a.bytes.items)
        (HasFault (Capability action.now) supply) }
{
    let mut input: ArrayVec<u8, MOST_BYTES> = ArrayVec::new();
    read_up_to(&mut input, reader)?;
    let input = input.as_slice();
    keep(text, input);
    let bytes = answer_of_capability(alloc, action.result, &action.parameters.values, input)?;
    Ok(Answer {
        bytes,
        passed: true,
    })
}

/// The output of a request on what the reader gives as the notation of one capability. At most 131070 characters of the input
/// are kept: those of the longest notation, a newline and one more.
fn answer_of_notation<A: Allocator + Copy, R: Read>(
    alloc: A,
    action: &CapabilityAction<'_>,
    text: &mut InputText,
    reader: &mut R,
) -> Result<Answer<A>, ToolFault>
    ensures finds { IfOk result (λ a. a.passed ≡ true) }
    ensures answered { (supply : Supply)
        × IsInput (Source action.now) (R.remaining reader.old) (R.remaining reader.new) supply
        × MatchResult result
        (λ a. HasOutput (Source action.now) supply a.passed a.bytes.items)
        (HasFault (Source action.now) supply) }
{
    let mut input: ArrayVec<u8, MOST_CHARACTERS> = ArrayVec::new();
    read_up_to(&mut input, reader)?;
    keep(text, input.as_slice());
    let bytes = answer_of_source(
        alloc,
        action.result,
        &action.parameters.values,
        input.as_mut_slice(),
    )?;
    Ok(Answer {
        bytes,
        passed: true,
    })
}

/// Reads an entry to its end, and keeps its front too, since a reader does not keep the byte that it refuses.
fn read_fronted<R: Read>(
    kept: &mut EntryReader,
    front: &mut InputText,
    reader: &mut R,
) -> Result<(), ReadStop>
    requires { kept.old ≡ new_reading }
    ensures fed { IsFed (R.remaining reader.old) (R.remaining reader.new) kept.new }
    ensures end { OnOk result (IsAtEnd (R.remaining reader.new)) }
    ensures accepted { OnOk result (kept.new.refusal ≡ None) }
    ensures refused { IfErr result (λ stop. kept.new.refusal ≡ refusal_after stop) }
{
    let mut first: ArrayVec<u8, MOST_FRONT> = ArrayVec::new();
    let came = read_up_to(&mut first, reader);
    let bytes = first.as_slice();
    keep(front, bytes);
    kept.feed(bytes)?;
    came?;
    if first.is_full() {
        read_from(kept, reader)
    } else {
        Ok(())
    }
}

/// The output of a request on what the reader gives as an entry, which is kept. Its front is kept too.
fn answer_of_kept<A: Allocator + Copy, R: Read>(
    alloc: A,
    action: &EntryAction<'_>,
    kept: &mut EntryReader,
    front: &mut InputText,
    reader: &mut R,
) -> Result<Answer<A>, ToolFault>
    requires { kept.old ≡ new_reading }
    ensures finds { IfOk result (λ a. Finds (Entry action.now) a.passed) }
    ensures answered { (supply : Supply)
        × IsInput (Entry action.now) (R.remaining reader.old) (R.remaining reader.new) supply
        × MatchResult result
        (λ a. HasOutput (Entry action.now) supply a.passed a.bytes.items)
        (HasFault (Entry action.now) supply) }
{
    read_fronted(kept, front, reader)?;
    let entry = kept.finish()?;
    let bytes = kept.bytes();
    let mut trials = Trials::new(alloc);
    answer_of_entry(alloc, &mut trials, action, b"", bytes, &entry)
}

/// The output of a request on what the reader gives, which is kept: a line on a fault may show some of it.
pub(crate) fn answer_of_input<A: Allocator + Copy, R: Read>(
    alloc: A,
    action: &Action<'_>,
    kept: &mut EntryReader,
    text: &mut InputText,
    reader: &mut R,
) -> Result<Answer<A>, ToolFault>
    requires { kept.old ≡ new_reading }
    ensures finds { IfOk result (λ a. Finds action.now a.passed) }
    ensures answered { (supply : Supply)
        × IsInput action.now (R.remaining reader.old) (R.remaining reader.new) supply
        × MatchResult result
        (λ a. HasOutput action.now supply a.passed a.bytes.items)
        (HasFault action.now supply) }
{
    match action {
        Action::Capability(action) => answer_of_bytes(alloc, action, text, reader),
        Action::Source(action) => answer_of_notation(alloc, action, text, reader),
        Action::Entry(action) => answer_of_kept(alloc, action, kept, text, reader),
        Action::Difference(_) => Err(ToolFault::Read),
    }
}

/// Carries out a request: what the reader gives is taken as one capability, as the notation of one or as an entry, and the
/// output for it is written. Each variable of a capability starts as 0. The result is false if `check` found a text with a fault,
/// `lint` something wrong, or `get` a flag that is not set.
///
/// Nothing is written before the whole result is there: after a fault other than `Write` the writer is as it was.
///
/// # Errors
///
/// In this order: `Read` if reading failed, or if two files are to be compared, which this call can't read, `HasName` if a
/// name stands before the notation, `Source` if the characters are no notation, `Entry` if the bytes are no entry,
/// `NoSuchName` if nothing has the name that `get` was given, `NoSuchText` if the text is not there, `OnlyNumbers` if a word
/// does not fit the value, `Cap` if the text is no capability, `TextTooLong`, `TooMuch` if the padded text has more than
/// 67108864 bytes, `Encode` if a number is above 32767 and the legacy format is requested, or else if the canonical bytes would
/// be more than 32768, which shared texts or wider numbers can lead to, `Write`; `Memory` if a growth is refused.
pub fn carry_out<A: Allocator + Copy, R: Read, W: Write>(
    alloc: A,
    action: &Action<'_>,
    reader: &mut R,
    writer: &mut W,
) -> Result<bool, ToolFault>
    ensures finds { IfOk result (Finds action.now) }
    ensures did { DidCheck (IsAnswer action.now) (IsEnough action.now)
        (R.remaining reader.old) (R.remaining reader.new)
        (W.contents writer.old) (W.contents writer.new) result }
    // After a fault other than `Write` the writer is as it was.
    ensures unwritten { IfErr result (λ e. IsFailedWrite e ⊎ (writer.new ≡ writer.old)) }
{
    let (mut kept, mut text) = (EntryReader::new(), ArrayVec::new());
    let answer = answer_of_input(alloc, action, &mut kept, &mut text, reader)?;
    write_result(writer, answer.bytes.as_slice())?;
    Ok(answer.passed)
}
