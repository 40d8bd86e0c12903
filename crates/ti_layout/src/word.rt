//! Words of 16 bits, the lower byte first, at places of an input, and numbers, which are words of 16 or of 32 bits.

ghost use Rattle.std.specs.Prelude.{◌≡◌, ◌+◌, ◌*◌, ◌<◌, ◌≤◌, ◌^◌, length};
ghost use Rattle.ti_words.specs.Word.{unsigned_at as the_unsigned_at, word_at as the_word_at};
ghost use Rattle.ti_words.specs.Widths.{number_size as the_number_size};

use byteorder::{ByteOrder, LittleEndian};
use ti_words::{Width, number_size};

/// The word at a place.
pub(crate) fn word_at(bytes: &[u8], at: usize) -> i16
    requires { at + 2 ≤ length bytes.now }
    ensures { result ≡ the_word_at 2 bytes.now at }
{
    LittleEndian::read_i16(&bytes[at..])
}

/// The word at a place, read without a sign.
pub(crate) fn unsigned_at(bytes: &[u8], at: usize) -> u16
    requires { at + 2 ≤ length bytes.now }
    ensures { result ≡ the_unsigned_at 2 bytes.now at }
{
    LittleEndian::read_u16(&bytes[at..])
}

/// The count or size at a place, read without a sign.
pub(crate) fn count_at(bytes: &[u8], at: usize) -> usize
    requires { at + 2 ≤ length bytes.now }
    ensures value { result ≡ the_unsigned_at 2 bytes.now at }
    ensures fits { result < 2 ^ 16 }
{
    usize::from(unsigned_at(bytes, at))
}

/// The bytes of this many numbers.
pub(crate) fn numbers_size(width: Width, count: usize) -> usize
    requires { the_number_size width * count < 2 ^ 32 }
    ensures { result ≡ the_number_size width * count }
{
    number_size(width) * count
}

/// The word of the number at a place.
pub(crate) fn number_word_at(bytes: &[u8], width: Width, at: usize) -> i32
    requires { at + the_number_size width ≤ length bytes.now }
    ensures { result ≡ the_word_at (the_number_size width) bytes.now at }
{
    match number_size(width) {
        2 => i32::from(word_at(bytes, at)),
        _ => LittleEndian::read_i32(&bytes[at..]),
    }
}
