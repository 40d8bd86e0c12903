//! The lines on faults.
//!
//! A line is put together before any byte of it is written. No memory is taken.

ghost use Rattle.std.specs.Prelude.{◌≡◌, ◌≤◌, ◌+◌, ◌++◌, codes, decimal, flat_map, length};
ghost use Rattle.ti_tool.specs.FaultLines.{fault_line, names_capability as the_names_capability, place_line, words_line};
ghost use Rattle.ti_tool.specs.Voice.{IsAdvised, IsPage};

use crate::fault::ToolFault;
use arrayvec::ArrayVec;
use itoa::Buffer;
use ti_line::{EntryAction, WordFault};
use ti_sink::ShortPage;

/// The most bytes of a line.
const MOST_BYTES: usize = 256;

/// The most bytes of the words of a line. Its number, ` at ` and a newline come beside them.
const MOST_WORD_BYTES: usize = 30;

/// The most bytes of a line and of the page after it.
const MOST_ADVISED: usize = 2304;

/// A line on a fault.
pub type FaultLine = ArrayVec<u8, MOST_BYTES>;

/// A line on a fault with the advice after it, or a line for people.
pub type AdvisedLine = ArrayVec<u8, MOST_ADVISED>;

/// The pieces of a line one after another.
fn line_of(pieces: &[&[u8]]) -> FaultLine
    requires { length (flat_map (λ piece. piece.now) pieces.now) ≤ MOST_BYTES }
    ensures { result.items ≡ flat_map (λ piece. piece.now) pieces.now }
{
    let mut line = ArrayVec::new();
    for piece in pieces {
        let _ = line.try_extend_from_slice(piece);
    }
    line
}

/// The line on a fault at a place.
fn place_line(subject: &[u8], name: &str, place: usize) -> FaultLine
    requires { length subject.now + length name.now ≤ MOST_WORD_BYTES }
    ensures { result.items ≡ place_line subject.now name.now place }
{
    let mut digits = Buffer::new();
    line_of(&[
        subject,
        name.as_bytes(),
        b" at ",
        digits.format(place).as_bytes(),
        b"\n",
    ])
}

/// The line with a number, between what stands before and after it.
fn number_line(before: &[u8], number: u128, after: &[u8]) -> FaultLine
    requires { length before.now + length after.now ≤ MOST_WORD_BYTES }
    ensures { result.items ≡ before.now ++ decimal number ++ after.now }
{
    let mut digits = Buffer::new();
    line_of(&[before, digits.format(number).as_bytes(), after])
}

/// The line with the name of a fault, after what is at fault.
fn name_line(subject: &[u8], name: &str) -> FaultLine
    requires { length subject.now + length name.now ≤ MOST_WORD_BYTES }
    ensures { result.items ≡ subject.now ++ name.now ++ codes "\n" }
{
    line_of(&[subject, name.as_bytes(), b"\n"])
}

/// The line on the fault of a call.
pub fn fault_line(fault: &ToolFault) -> FaultLine
    ensures { result.items ≡ fault_line fault.now }
{
    match fault {
        ToolFault::Entry(refused) => place_line(b"entry: ", refused.fault.word(), refused.place),
        ToolFault::Encode(unfit) => name_line(b"entry: ", unfit.word()),
        ToolFault::Cap(refused) => place_line(b"capability: ", refused.fault.word(), refused.place),
        ToolFault::Source(refused) => place_line(b"source: ", refused.fault.word(), refused.place),
        ToolFault::HasName => place_line(b"source: ", "HasName", 0),
        ToolFault::NoSuchText | ToolFault::NoSuchName => line_of(&[b"capability: absent\n"]),
        ToolFault::OnlyNumbers(which) => {
            let number = u128::from(*which);
            number_line(b"parameter ", number, b": no 32-bit number\n")
        }
        ToolFault::TextTooLong(parameter) => {
            let number = u128::from(*parameter);
            number_line(b"capability: TextTooLong ", number, b"\n")
        }
        ToolFault::TooMuch(need) => number_line(b"capability: TooMuch ", *need, b"\n"),
        ToolFault::Read => line_of(&[b"input: failed\n"]),
        ToolFault::Write(_) => line_of(&[b"output: failed\n"]),
        ToolFault::Memory => line_of(&[b"memory\n"]),
    }
}

/// The line on words that are no parameters.
pub fn words_line(fault: WordFault) -> FaultLine
    ensures { result.items ≡ words_line fault }
{
    match fault {
        WordFault::TooMany => line_of(&[b"parameters: more than nine\n"]),
        WordFault::BadWord { which } => {
            number_line(b"parameter ", which as u128, b": bad word\n")
        }
    }
}

/// Whether the line on a fault of a request says the name of its capability.
pub fn names_capability(action: &EntryAction<'_>, fault: &ToolFault) -> bool
    ensures { result ≡ the_names_capability action.now fault.now }
{
    match (action, fault) {
        (
            EntryAction::Get(_) | EntryAction::Trace(_),
            ToolFault::NoSuchText | ToolFault::NoSuchName | ToolFault::OnlyNumbers(_),
        ) => true,
        _ => false,
    }
}

/// A line, and the page after it if advice is wanted.
pub fn advised(has_advice: bool, line: &FaultLine, page: &ShortPage) -> AdvisedLine
    ensures { IsAdvised has_advice line.now.items result.items }
{
    let mut lines = ArrayVec::new();
    let _ = lines.try_extend_from_slice(line.as_slice());
    if has_advice {
        let _ = lines.try_extend_from_slice(page.as_slice());
    }
    lines
}

/// A page alone.
pub fn said(page: &ShortPage) -> AdvisedLine
    ensures { IsPage result.items }
{
    let mut lines = ArrayVec::new();
    let _ = lines.try_extend_from_slice(page.as_slice());
    lines
}
