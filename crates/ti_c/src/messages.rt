//! The messages on faults, for C: a sentence for each, without a full stop at its end.
//!
//! The sentences are data, of which tests say more than a clause can. After each stands a NUL, which is no part of it: C programs
//! may print it.

ghost use Rattle.std.specs.Prelude.{◌≡◌, ◌⊎◌, ℕ, List};
ghost use Rattle.ti_c.specs.Numbers.{done, not_named};
ghost use Rattle.ti_c.specs.Words.{IsWord};

use crate::faults::{DONE, NOT_NAMED};
use crate::names::Bytes;
use crate::words::{front_of, word_of};

/// The sentence of a fault of an entry, or of one that is none of these.
fn entry_sentence(number: u32) -> &'static str {
    match number {
        1 => "the bytes end before the entry does\0",
        2 => "the first two bytes are those of no compiled entry\0",
        3 => "a size or a count of the header is negative\0",
        4 => "by its header the entry has more than 32768 bytes\0",
        5 => "the names are empty, hold a NUL or do not end with one\0",
        6 => "a boolean is none of 0, 1, 254 and 255\0",
        7 => "a byte between two sections is not 0\0",
        8 => "a number is below -2\0",
        9 => "the offset of a string is not within the string table\0",
        10 => "a string or a user-defined name has no NUL at its end\0",
        11 => "a size or a count of the extended header is negative\0",
        12 => "with its extended part the entry has more than 32768 bytes\0",
        13 => "the offset of a user-defined name is not within its table\0",
        14 => "bytes follow the end of the entry\0",
        _ => capability_sentence(number),
    }
}

/// The sentence of a fault of a capability, or of one that is none of these.
fn capability_sentence(number: u32) -> &'static str {
    match number {
        101 => "the capability has more than 32767 bytes\0",
        102 => "the capability ends inside an escape\0",
        103 => "no escape starts with the byte after the %\0",
        104 => "%p is followed by no digit of 1 to 9\0",
        105 => "%P or %g is followed by no letter\0",
        106 => "%{ or %' is followed by no number up to 2147483647 and its end\0",
        107 => "a format has a width above 255, or flags that do not go with its conversion\0",
        108 => "%t stands where no conditional waits for it\0",
        109 => "%e stands where no conditional waits for it\0",
        110 => "%; stands where no conditional is open\0",
        111 => "a conditional ends before its %t\0",
        112 => "more than 32 conditionals are open at once\0",
        113 => "more than 32 values would stand on the stack\0",
        _ => call_sentence(number),
    }
}

/// The sentence of a fault of the other calls.
fn call_sentence(number: u32) -> &'static str {
    match number {
        201 => "there are more than nine parameters\0",
        202 => "a string among the parameters has more than 32767 bytes\0",
        203 => "there is less room than the output needs\0",
        204 => "the capability takes a string, or needs more steps or values than are kept\0",
        205 => "the capability has variables, and the call has none\0",
        301 => "the rate is above 1000000, or the affected lines are above 65535\0",
        302 => "the padded string would have more than 67108864 bytes\0",
        401 => "nothing has this name, this index or this number\0",
        402 => "an array has less room than the entry requires\0",
        501 => "the names are empty or hold a NUL, or a user-defined name holds one\0",
        502 => "a string holds a NUL\0",
        503 => "a number is below -2, or too great for the format\0",
        504 => "the entry would have more than 32768 bytes\0",
        _ => "\0",
    }
}

/// Finds the sentence of the fault with a number: 0 and the sentence, or 401 if no fault has the number, and the message is as
/// before.
#[unsafe(no_mangle)]
pub extern "C" fn ti_message(number: u32, message: &mut Bytes<'static>) -> u32
    ensures answer { (result ≡ done) ⊎ (result ≡ not_named) }
    ensures found { result ≡ done → (word : List ℕ) × IsWord number word }
    ensures only { (word : List ℕ) → IsWord number word → result ≡ done }
    ensures kept { result ≡ not_named → message.new ≡ message.old }
{
    match word_of(number) {
        Some(_) => {
            message.bytes = front_of(entry_sentence(number));
            DONE
        }
        None => NOT_NAMED,
    }
}
