//! Padding marks, and how they are taken out of what a capability is expanded to.

ghost use Rattle.std.specs.Prelude.{◌≡◌};
ghost use Rattle.ti_parser.specs.Padding.{after_dollar, after_number, after_point, after_star, after_slash, in_open, in_whole, tputs_after, tputs_turn, pad_turn, turn_of};
ghost use Rattle.ti_parser.specs.Laws.{is_digit};

use crate::character::is_between;

/// How padding marks, such as `$<5*/>`, are taken out.
#[derive(Clone, Copy, Debug, PartialEq, Eq)]
pub enum Marks {
    /// They stay.
    Untouched,
    /// As `tputs` of ncurses does it: a `$<` and a digit or a point begin a mark if a `>` comes later. The mark has the digits, the
    /// point and the flags that follow, and one byte more, whatever it is.
    Tputs,
    /// As `ti_pad` does it: only well-formed marks are taken out.
    TiPad,
}

/// How far a mark has come.
#[derive(Clone, Copy, Debug, PartialEq, Eq)]
pub(crate) enum Part {
    /// `$`.
    Dollar,
    /// `$<`.
    Open,
    /// Digits before a point, so many of them, as far as they count.
    Whole(u8),
    /// A point that no digit precedes.
    Point,
    /// A point and a digit.
    Decimals,
    /// A number and `*`.
    Star,
    /// A number and `/`.
    Slash,
    /// A number and all its flags.
    Flags,
}

/// What a byte does to a mark.
#[derive(Clone, Copy, Debug, PartialEq, Eq)]
pub(crate) enum Turn {
    /// It goes on.
    Holds(Part),
    /// The byte is its last.
    Ends,
    /// It is none.
    Breaks,
}

/// Where a byte stands.
#[derive(Clone, Copy, Debug, PartialEq, Eq)]
pub(crate) enum Front {
    /// Outside of marks.
    Text,
    /// After a `$` that begins no mark, where `tputs` takes no byte for a `$`.
    Literal,
    /// In a mark.
    Mark(Part),
}

/// Whether a byte is a decimal digit.
fn is_digit(byte: u8) -> bool
    ensures { result ≡ is_digit byte }
{
    is_between(b'0', b'9', byte)
}

/// A byte after the number of a mark.
fn after_number(byte: u8) -> Turn
    ensures { result ≡ after_number byte }
{
    match byte {
        b'*' => Turn::Holds(Part::Star),
        b'/' => Turn::Holds(Part::Slash),
        b'>' => Turn::Ends,
        _ => Turn::Breaks,
    }
}

/// A byte after a digit before a point.
fn in_whole(count: u8, byte: u8) -> Turn
    ensures { result ≡ in_whole count byte }
{
    if is_digit(byte) {
        if count < 5 {
            Turn::Holds(Part::Whole(count + 1))
        } else {
            Turn::Breaks
        }
    } else if byte == b'.' {
        Turn::Holds(Part::Decimals)
    } else {
        after_number(byte)
    }
}

/// A byte after `$<`, with what a point leads to.
fn in_open(point: Part, byte: u8) -> Turn
    ensures { result ≡ in_open point byte }
{
    if is_digit(byte) {
        Turn::Holds(Part::Whole(1))
    } else if byte == b'.' {
        Turn::Holds(point)
    } else {
        Turn::Breaks
    }
}

/// A byte after a point that no digit precedes.
fn after_point(byte: u8) -> Turn
    ensures { result ≡ after_point byte }
{
    if is_digit(byte) {
        Turn::Holds(Part::Decimals)
    } else {
        Turn::Breaks
    }
}

/// A byte after `*`.
fn after_star(byte: u8) -> Turn
    ensures { result ≡ after_star byte }
{
    match byte {
        b'/' => Turn::Holds(Part::Flags),
        b'>' => Turn::Ends,
        _ => Turn::Breaks,
    }
}

/// A byte after `/`.
fn after_slash(byte: u8) -> Turn
    ensures { result ≡ after_slash byte }
{
    match byte {
        b'*' => Turn::Holds(Part::Flags),
        b'>' => Turn::Ends,
        _ => Turn::Breaks,
    }
}

/// A byte after `$`.
fn after_dollar(byte: u8) -> Turn
    ensures { result ≡ after_dollar byte }
{
    if byte == b'<' {
        Turn::Holds(Part::Open)
    } else {
        Turn::Breaks
    }
}

/// A byte after a number, for `tputs`.
fn tputs_after(byte: u8) -> Turn
    ensures { result ≡ tputs_after byte }
{
    match byte {
        b'*' => Turn::Holds(Part::Flags),
        b'/' => Turn::Holds(Part::Flags),
        _ => Turn::Ends,
    }
}

/// A byte of a mark, for `tputs`.
fn tputs_turn(part: Part, byte: u8) -> Turn
    ensures { result ≡ tputs_turn part byte }
{
    match part {
        Part::Dollar => after_dollar(byte),
        Part::Open => in_open(Part::Decimals, byte),
        Part::Whole(_) => {
            if is_digit(byte) {
                Turn::Holds(part)
            } else if byte == b'.' {
                Turn::Holds(Part::Decimals)
            } else {
                tputs_after(byte)
            }
        }
        Part::Decimals => {
            if is_digit(byte) {
                Turn::Holds(Part::Decimals)
            } else {
                tputs_after(byte)
            }
        }
        _ => tputs_after(byte),
    }
}

/// A byte of a mark, for `ti_pad`.
fn pad_turn(part: Part, byte: u8) -> Turn
    ensures { result ≡ pad_turn part byte }
{
    match part {
        Part::Dollar => after_dollar(byte),
        Part::Open => in_open(Part::Point, byte),
        Part::Whole(count) => in_whole(count, byte),
        Part::Point => after_point(byte),
        Part::Decimals => {
            if is_digit(byte) {
                Turn::Holds(Part::Decimals)
            } else {
                after_number(byte)
            }
        }
        Part::Star => after_star(byte),
        Part::Slash => after_slash(byte),
        Part::Flags => {
            if byte == b'>' {
                Turn::Ends
            } else {
                Turn::Breaks
            }
        }
    }
}

/// What a byte does to a mark.
#[tactic(auto, unfolding(crate::specs::Padding::turn_of))]
pub(crate) fn turn_of(marks: Marks, part: Part, byte: u8) -> Turn
    ensures { result ≡ turn_of marks part byte }
{
    match marks {
        Marks::Untouched => Turn::Breaks,
        Marks::Tputs => tputs_turn(part, byte),
        Marks::TiPad => pad_turn(part, byte),
    }
}
