//! The parts of a capability: its tokens, the formats in them, and the faults of bytes that are no capability.
//!
//! The language is that of terminfo(5), "Parameterized Strings", and of the Terminfo chapter of X/Open Curses.
//! All values here are small and are copied; no call takes memory, and each takes constant time.

ghost use Rattle.std.specs.Prelude.{◌≡◌, ◌≤◌};
ghost use Rattle.ti_cap.specs.Sizes.{format_size, token_size};
ghost use Rattle.ti_cap.specs.FaultNames.{cap_fault_word};

use std::fmt;
use thiserror::Error;

/// An operation on the numbers on top of the stack.
///
/// A binary one pops the right operand first, then the left one, and pushes what it makes of them.
#[derive(Clone, Copy, Debug, PartialEq, Eq)]
pub enum Op {
    /// `%+`, the sum.
    Add,
    /// `%-`, left minus right.
    Sub,
    /// `%*`, the product.
    Mul,
    /// `%/`, left by right, truncated toward zero; 0 if right is 0.
    Div,
    /// `%m`, the remainder of that division; 0 if right is 0.
    Rem,
    /// `%&`, bitwise and.
    BitAnd,
    /// `%|`, bitwise or.
    BitOr,
    /// `%^`, bitwise exclusive or.
    BitXor,
    /// `%=`, 1 if both are equal, else 0.
    Equal,
    /// `%>`, 1 if left is greater, else 0.
    Greater,
    /// `%<`, 1 if left is less, else 0.
    Less,
    /// `%A`, 1 if neither is 0, else 0.
    And,
    /// `%O`, 1 if not both are 0, else 0.
    Or,
    /// `%!`, of one operand: 1 if it is 0, else 0.
    Not,
    /// `%~`, of one operand: each bit turned.
    BitNot,
}

/// How a value is printed.
#[derive(Clone, Copy, Debug, PartialEq, Eq)]
pub enum Conversion {
    /// `d`, a number in decimal with its sign.
    Signed,
    /// `o`, the 32 bits of a number in octal.
    Octal,
    /// `x`, the 32 bits of a number in hexadecimal, with small letters.
    LowerHex,
    /// `X`, the same with capital letters.
    UpperHex,
    /// `s`, a text.
    Text,
}

/// How a value is printed: the flags, the width, the precision and the conversion of a format.
#[derive(Clone, Copy, Debug, PartialEq, Eq)]
pub struct Format {
    /// How the value is printed.
    pub conversion: Conversion,
    /// `-`, spaces fill on the right.
    pub left: bool,
    /// `+`, a number that is not negative has a `+` before it.
    pub plus: bool,
    /// A space stands before a number that has no sign.
    pub space: bool,
    /// `#`, octal digits begin with a `0`, and hexadecimal ones of a value other than 0 stand after `0x` or `0X`.
    pub alternate: bool,
    /// `0`, zeros fill between the sign or prefix and the digits.
    pub zero: bool,
    /// The least number of bytes, 0 if none is given.
    pub width: u8,
    /// The least number of digits, or the greatest number of a text's bytes.
    pub precision: Option<u8>,
}

/// One step of a capability: a byte, or an escape.
#[derive(Clone, Copy, Debug, PartialEq, Eq)]
pub enum Token {
    /// Writes the byte. It is spelled by itself; `%` is spelled `%%`.
    Byte(u8),
    /// `%p1` to `%p9`, pushes the parameter of this number, from 1 to 9.
    Param(u8),
    /// `%'c'` or `%{nn}`, pushes the number, from 0 to [`ti_base::GREATEST_CONSTANT`].
    Constant(i32),
    /// `%Pv`, pops a number into the variable of this letter, an ASCII letter.
    Store(u8),
    /// `%gv`, pushes the variable of this letter, an ASCII letter.
    Load(u8),
    /// `%l`, pops a text and pushes its length.
    Length,
    /// Works on the numbers on top of the stack.
    Compute(Op),
    /// `%i`, adds 1 to each of the first two parameters that is a number.
    Increment,
    /// `%c`, pops a number and writes its low byte, or the byte 128 if that is 0.
    Char,
    /// A format, as `%d` or `%:-5.3x`: pops a value and prints it.
    Print(Format),
    /// `%?`, opens a conditional and its first test.
    CondOpen,
    /// `%t`, ends a test: pops a number, and 0 passes the body over.
    CondThen,
    /// `%e`, ends a body; another test or the otherwise part follows.
    CondElse,
    /// `%;`, closes the innermost conditional.
    CondClose,
}

/// Why bytes are no capability. As an error it prints its name.
#[derive(Clone, Copy, Debug, PartialEq, Eq)]
pub enum CapFault {
    /// More bytes than [`ti_base::MOST_CAPABILITY_BYTES`].
    TooLong,
    /// The bytes end within an escape.
    CutShort,
    /// No escape begins with the byte after the `%`.
    UnknownEscape,
    /// `%p` without a digit from 1 to 9.
    BadParameter,
    /// `%P` or `%g` without an ASCII letter.
    BadVariable,
    /// Another fault of `%'` or `%{`, as a number above [`ti_base::GREATEST_CONSTANT`].
    BadConstant,
    /// Another fault of a format, as a width above [`ti_base::GREATEST_WIDTH`].
    BadFormat,
    /// `%t` if no conditional is open, or in a body.
    StrayThen,
    /// `%e` if no conditional is open, or in an otherwise part.
    StrayElse,
    /// `%;` if no conditional is open.
    StrayEnd,
    /// `%e`, `%;` or the end in a first test.
    NoThen,
    /// One open conditional more than [`ti_base::MOST_OPEN`].
    NestTooDeep,
    /// Some path has more values on the stack after this token than [`ti_base::MOST_VALUES`].
    StackTooDeep,
}

impl CapFault {
    /// The fault's name, as the error prints it.
    pub fn word(self) -> &'static str
        ensures name { result.now ≡ cap_fault_word self }
    {
        match self {
            CapFault::TooLong => "TooLong",
            CapFault::CutShort => "CutShort",
            CapFault::UnknownEscape => "UnknownEscape",
            CapFault::BadParameter => "BadParameter",
            CapFault::BadVariable => "BadVariable",
            CapFault::BadConstant => "BadConstant",
            CapFault::BadFormat => "BadFormat",
            CapFault::StrayThen => "StrayThen",
            CapFault::StrayElse => "StrayElse",
            CapFault::StrayEnd => "StrayEnd",
            CapFault::NoThen => "NoThen",
            CapFault::NestTooDeep => "NestTooDeep",
            CapFault::StackTooDeep => "StackTooDeep",
        }
    }
}

impl fmt::Display for CapFault {
    ghost use Rattle.std.specs.Prelude.{Some};

    ghost output = { λ fault. Some (cap_fault_word fault) };

    fn fmt<W: fmt::Write>(&self, f: &mut fmt::Formatter<W>) -> fmt::Result {
        f.write_str(self.word())
    }
}

impl std::error::Error for CapFault {}

/// A fault, and the number of bytes before it.
#[derive(Clone, Copy, Debug, PartialEq, Eq, Error)]
#[error("{fault} at {place}")]
pub struct CapRefused {
    /// The fault.
    pub fault: CapFault,
    /// How many bytes stand before the token at fault; the number of all bytes if the end is at fault.
    pub place: usize,
}

impl Format {
    /// The most bytes that a print by this format writes, if no text is longer than `longest` bytes.
    #[inline(always)]
    pub fn size(&self, longest: u16) -> u64
        ensures exact { result ≡ format_size self.now longest }
        ensures small { result ≤ u16.MAX }
    {
        let longest = u64::from(longest);
        let least = u64::from(self.precision.unwrap_or(0));
        let text = match self.conversion {
            Conversion::Signed => 1 + least.max(10),
            Conversion::Octal => least.max(if self.alternate { 12 } else { 11 }),
            Conversion::LowerHex | Conversion::UpperHex => {
                (if self.alternate { 2 } else { 0 }) + least.max(8)
            }
            Conversion::Text => match self.precision {
                None => longest,
                Some(most) => longest.min(u64::from(most)),
            },
        };
        text.max(u64::from(self.width))
    }
}

impl Token {
    /// The most bytes that it writes, if no text is longer than `longest`.
    pub(crate) fn size(&self, longest: u16) -> u64
        ensures exact { result ≡ token_size longest self.now }
        ensures small { result ≤ u16.MAX }
    {
        match self {
            Token::Byte(_) | Token::Char => 1,
            Token::Print(format) => format.size(longest),
            _ => 0,
        }
    }
}
