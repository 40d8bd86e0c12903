//! The words of faults for C.
//!
//! A call looks through the table of words, and takes no memory.

ghost use Rattle.std.specs.Prelude.{◌≡◌, ◌⊎◌, ℕ, List, map, nat_eq, option_map};
ghost use Rattle.std.specs.Map.{lookup};
ghost use Rattle.ti_names.specs.AllNames.{front};
ghost use Rattle.ti_c.specs.Numbers.{done, not_named};
ghost use Rattle.ti_c.specs.Words.{IsWord};
ghost use Rattle.ti_c.specs.inner.WordRows.{row_of, word_rows};

use crate::faults::{DONE, NOT_NAMED};
use crate::names::Bytes;
use crate::word_table::WORDS;

/// The numbers and words of all faults.
fn rows() -> &'static [(u32, &'static str)]
    ensures { map row_of result.now ≡ word_rows }
{
    &WORDS
}

/// A word as the table holds it, without the NUL after it.
pub(crate) fn front_of(word: &'static str) -> &'static [u8]
    ensures { result.now ≡ front word.now }
{
    let bytes = word.as_bytes();
    &bytes[..bytes.len().saturating_sub(1)]
}

/// The word of the fault with a number.
pub(crate) fn word_of(number: u32) -> Option<&'static [u8]>
    ensures { option_map (λ word. word.now) result ≡ lookup (nat_eq number) word_rows }
{
    for row in rows() {
        if number == row.0 {
            return Some(front_of(row.1));
        }
    }
    None
}

/// Finds the word of the fault with a number: 0 and the word, or 401 if no fault has the number, and the word is as
/// before.
#[unsafe(no_mangle)]
pub extern "C" fn ti_word(number: u32, word: &mut Bytes<'static>) -> u32
    ensures answer { (result ≡ done) ⊎ (result ≡ not_named) }
    ensures found { result ≡ done → IsWord number word.new.bytes.now }
    ensures only { (bytes : List ℕ) → IsWord number bytes
        → (result ≡ done) × (word.new.bytes.now ≡ bytes) }
    ensures kept { result ≡ not_named → word.new ≡ word.old }
{
    match word_of(number) {
        Some(found) => {
            word.bytes = found;
            DONE
        }
        None => NOT_NAMED,
    }
}
