//! A text from its notation, as terminfo(5) has it and `tic` reads it.

ghost use Rattle.std.specs.Prelude.{◌≡◌, ◌≢◌, ◌≤◌, ◌+◌, ◌<◌, ◌++◌, ℕ, List, Ok, Err, length, take, vec_len, vec_capacity, OnOk, OnErr, IfOk, IfErr, IfSome};
ghost use Rattle.ti_escape.specs.FaultNames.{notation_fault_word};
ghost use Rattle.ti_escape.specs.declared.reading.ReadingFault.TheVariants as fault;
ghost use Rattle.ti_escape.specs.Reading.{IsReadingFault, after_backslash as the_after_backslash, after_caret as the_after_caret, first_octal_digit, letter_meaning as the_letter_meaning, meant_at, octal_digits, octal_meant, reading};

use std::alloc::{AllocError, Allocator};
use std::fmt;
use thiserror::Error;

/// Why characters are no notation.
#[derive(Clone, Copy, Debug, PartialEq, Eq)]
pub enum NotationFault {
    /// They end right after a `\` or a `^`.
    CutShort,
    /// No printable ASCII character follows a `^`.
    BadControl,
}

impl NotationFault {
    /// The fault's name, as the error prints it.
    pub fn word(self) -> &'static str
        ensures name { result.now ≡ notation_fault_word self }
    {
        match self {
            NotationFault::CutShort => "CutShort",
            NotationFault::BadControl => "BadControl",
        }
    }
}

impl fmt::Display for NotationFault {
    ghost use Rattle.std.specs.Prelude.{Some};

    ghost output = { λ fault. Some (notation_fault_word fault) };

    fn fmt<W: fmt::Write>(&self, f: &mut fmt::Formatter<W>) -> fmt::Result {
        f.write_str(self.word())
    }
}

impl std::error::Error for NotationFault {}

/// Why and where characters are no notation.
#[derive(Clone, Copy, Debug, PartialEq, Eq, Error)]
#[error("{fault} at {place}")]
pub struct NotationRefused {
    /// The fault.
    pub fault: NotationFault,
    /// The place of the `\` or the `^`.
    pub place: usize,
}

/// Why no text is read.
#[derive(Clone, Copy, Debug, PartialEq, Eq)]
pub enum ReadingFault {
    /// The characters are no notation.
    Refused(NotationRefused),
    /// Memory was refused.
    Memory,
}

impl From<AllocError> for ReadingFault {
    ghost from_gives = { λ _ e. e ≡ fault.Memory };

    fn from(_refused: AllocError) -> ReadingFault {
        ReadingFault::Memory
    }
}

/// The meaning of the first characters.
#[derive(Clone, Copy)]
pub struct Meant {
    pub(crate) byte: u8,
    /// How many characters follow the first of them.
    pub(crate) more: usize,
    /// Whether it is a `%`, as it is or after a `\`.
    pub(crate) percent: bool,
}

/// The value of an octal digit, if one is at the front.
fn octal_digit(text: &[u8]) -> Option<u16>
    ensures { result ≡ first_octal_digit text.now }
{
    match text {
        [digit @ b'0'..=b'7', ..] => Some(u16::from(*digit - b'0')),
        _ => None,
    }
}

/// Returns the meaning of one to three octal digits at the front, if there is one.
fn octal(text: &[u8]) -> Option<Meant>
    ensures meant { result ≡ octal_meant (octal_digits 3 text.now) }
    ensures within { IfSome result (λ m. m.more ≤ length text.now) }
{
    let first = octal_digit(text)?;
    let (number, more) = match octal_digit(&text[1..]) {
        None => (first, 1),
        Some(second) => match octal_digit(&text[2..]) {
            None => (8 * first + second, 2),
            Some(third) => (64 * first + 8 * second + third, 3),
        },
    };
    Some(Meant {
        byte: (number % 256) as u8,
        more,
        percent: false,
    })
}

/// The byte that a letter means after a `\`; any other character means itself.
fn letter_meaning(char: u8) -> u8
    ensures { result ≡ the_letter_meaning char }
{
    match char {
        b'E' | b'e' => 27,
        b'n' | b'l' => b'\n',
        b'r' => b'\r',
        b't' => b'\t',
        b'b' => 8,
        b'f' => 12,
        b's' => b' ',
        b'a' => 7,
        other => other,
    }
}

/// Reads the part after a `\`: one to three octal digits, or one character.
fn after_backslash(rest: &[u8]) -> Result<Meant, NotationFault>
    ensures meant { result ≡ the_after_backslash rest.now }
    ensures within { IfOk result (λ m. m.more ≤ length rest.now) }
{
    if let Some(meant) = octal(rest) {
        return Ok(meant);
    }
    match rest {
        [] => Err(NotationFault::CutShort),
        [char, ..] => Ok(Meant {
            byte: letter_meaning(*char),
            more: 1,
            percent: *char == b'%',
        }),
    }
}

/// Reads the part after a `^`: a printable character, of which the lowest five bits count, or a `?` for DEL.
fn after_caret(rest: &[u8]) -> Result<Meant, NotationFault>
    ensures meant { result ≡ the_after_caret rest.now }
    ensures within { IfOk result (λ m. m.more ≤ length rest.now) }
{
    let byte = match rest {
        [] => return Err(NotationFault::CutShort),
        [b'?', ..] => 127,
        [char @ b' '..=b'~', ..] => *char % 32,
        _ => return Err(NotationFault::BadControl),
    };
    Ok(Meant {
        byte,
        more: 1,
        percent: false,
    })
}

/// Returns the meaning of the first character with those after it. A `^` right after a `%` is the character itself, since `%^` is an
/// operator.
pub(crate) fn meaning(after_percent: bool, text: &[u8]) -> Result<Meant, NotationFault>
    ensures meant { result ≡ meant_at after_percent text.now }
    ensures within { IfOk result (λ m. m.more < length text.now) }
{
    match text {
        [] => Err(NotationFault::CutShort),
        [b'\\', rest @ ..] => after_backslash(rest),
        [b'^', rest @ ..] if !after_percent => after_caret(rest),
        [char, ..] => Ok(Meant {
            byte: *char,
            more: 0,
            percent: *char == b'%',
        }),
    }
}

/// Appends the bytes that a notation means, up to its first fault.
fn push_bytes<A: Allocator>(out: &mut Vec<u8, A>, notation: &[u8]) -> Result<(), ReadingFault>
    ensures text { OnOk result ((bytes : List ℕ) × (reading notation.now ≡ Ok bytes)
        × (out.new.items ≡ out.old.items ++ bytes)) }
    ensures refused { IfErr result (IsReadingFault notation.now) }
    ensures front { take (length out.old.items) out.new.items ≡ out.old.items }
    ensures room { vec_len out.old + length notation.now ≤ vec_capacity out.old
        → result ≢ Err fault.Memory }
{
    let mut left = notation;
    let mut after_percent = false;
    'characters: while !left.is_empty() {
        match meaning(after_percent, left) {
            Ok(meant) => {
                out.push(meant.byte).map_err(AllocError::from)?;
                after_percent = meant.percent;
                left = &left[meant.more + 1..];
            }
            Err(fault) => {
                return Err(ReadingFault::Refused(NotationRefused {
                    fault,
                    place: notation.len() - left.len(),
                }))
            }
        }
    }
    Ok(())
}

/// Appends the text that a notation means. All that [`push_notation`](crate::push_notation) and
/// [`push_label`](crate::push_label) write is read back; so are `\e`, `\n`, `\l`, `\r`, `\t`, `\b`, `\f`, `\a`, one to three
/// octal digits after a `\`, any other character after a `\` as itself, and a `^` with any printable character (terminfo(5)).
/// The vector grows as it needs to. If it has room for as many bytes as the notation has characters, no memory is taken.
/// After an error it holds what it held.
///
/// # Errors
///
/// [`ReadingFault::Refused`] with the first fault of the notation, and [`ReadingFault::Memory`] if a growth was refused.
///
/// # Examples
///
/// ```rust
/// let mut text = Vec::new(rt.alloc());
/// push_reading(&mut text, shown.as_slice())?;
/// assert!(rt; text.as_slice() == b"\x1b[%p1%dG\r\n".as_slice());
/// ```
pub fn push_reading<A: Allocator>(out: &mut Vec<u8, A>, notation: &[u8]) -> Result<(), ReadingFault>
    ensures text { OnOk result ((bytes : List ℕ) × (reading notation.now ≡ Ok bytes)
        × (out.new.items ≡ out.old.items ++ bytes)) }
    ensures refused { IfErr result (IsReadingFault notation.now) }
    ensures kept { OnErr result (out.new.items ≡ out.old.items) }
    ensures room { vec_len out.old + length notation.now ≤ vec_capacity out.old
        → result ≢ Err fault.Memory }
{
    let start = out.len();
    let read = push_bytes(out, notation);
    if read.is_err() {
        out.truncate(start);
    }
    read
}
