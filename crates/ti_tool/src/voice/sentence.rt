//! A sentence on each fault for a person, and what to do about it.

use ti_cap::CapFault;
use ti_entry::{Fault, Refused};
use ti_escape::NotationFault;

/// The most bytes by which a file that is no entry is known.
pub const MOST_FRONT: usize = 4;

/// Of a capability, in the words of terminfo(5).
pub fn cap_sentence(fault: CapFault) -> &'static str {
    match fault {
        CapFault::TooLong => "a string has at most 32767 bytes",
        CapFault::CutShort => "the string ends inside an escape; write %% for a percent sign",
        CapFault::UnknownEscape => {
            "this is no escape of terminfo(5); %d prints a number, %% a percent sign"
        }
        CapFault::BadParameter => "%p takes a digit from 1 to 9",
        CapFault::BadVariable => "%P and %g take a letter",
        CapFault::BadConstant => {
            "write %{5} with a number up to 2147483647, or %'c' with one character"
        }
        CapFault::BadFormat => {
            "a width or precision is above 255, or a flag does not go with the conversion"
        }
        CapFault::StrayThen => "%t needs a %? before it",
        CapFault::StrayElse => "%e needs a %t before it",
        CapFault::StrayEnd => "%; needs a %? before it",
        CapFault::NoThen => "the conditional has no %t before here",
        CapFault::NestTooDeep => "more than 32 conditionals are open",
        CapFault::StackTooDeep => "more than 32 values are on the stack",
    }
}

/// Of a notation.
pub fn notation_sentence(fault: NotationFault) -> &'static str {
    match fault {
        NotationFault::CutShort => {
            "nothing follows the last character; write \\\\ for a backslash, \\^ for a caret"
        }
        NotationFault::BadControl => {
            "^ takes a printable ASCII character; write \\^ for a caret"
        }
    }
}

/// Of a file that is no entry, by its first bytes.
fn front_sentence(bytes: &[u8]) -> &'static str {
    if bytes.starts_with(b"\x1f\x8b") {
        "this is compressed by gzip; decompress it"
    } else if bytes.starts_with(b"\x7fELF") {
        "this is a program or a library"
    } else if bytes.starts_with(b"<") {
        "this is HTML or XML"
    } else {
        "this is no compiled entry; compile a terminfo source with tic -x"
    }
}

/// Of the bytes of an entry.
pub fn entry_sentence(bytes: &[u8], refused: Refused) -> &'static str {
    match refused.fault {
        Fault::BadMagic => front_sentence(bytes),
        Fault::Truncated if refused.place == 0 => "the file is empty",
        Fault::Truncated => "the file ends before the entry does",
        Fault::Trailing => "bytes follow the end of the entry",
        Fault::HeaderTooBig | Fault::ExtendedTooBig => "an entry has at most 32768 bytes",
        Fault::BadHeader
        | Fault::BadNames
        | Fault::BadFlag
        | Fault::BadPad
        | Fault::BadNumber
        | Fault::BadOffset
        | Fault::Unterminated
        | Fault::BadExtendedHeader
        | Fault::BadExtendedName => "the file is damaged; compile the source again with tic -x",
    }
}
