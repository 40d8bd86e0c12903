//! Writing an entry for C, from arrays of the caller's into a room of the caller's.
//!
//! The bytes are those that `ti_draft` writes of the entry that the arrays hold. No memory is taken.

ghost use Rattle.std.specs.Prelude.{◌≡◌, ◌⊎◌, ℕ, List, length, take, drop};
ghost use Rattle.ti_words.specs.Spelling.{Spells};
ghost use Rattle.ti_draft.specs.Canonical.{canonical};
ghost use Rattle.ti_draft.specs.EncodeFaults.{IsEncodingOf};
ghost use Rattle.ti_c.specs.Numbers.{done, out_too_small};
ghost use Rattle.ti_c.specs.Entries.{ForEntry};
ghost use Rattle.ti_c.specs.Encoding.{AreItemsOf, HasItems, IsUnwritten, entry_given, width_given};

use crate::entry::{Arrays, EntryCounts};
use crate::faults::{DONE, OUT_TOO_SMALL, ROOM_TOO_SMALL, encode_number};
use crate::given_entry::{given_entry, has_items};
use ti_draft::{EncodeIntoFault, encode_into};

/// Writes the entry that arrays hold, with numbers of 32 bits if `number_bits` is 32 and else of 16, and returns 0 with its length,
/// or the number of its first fault.
///
/// The arrays hold the standard items by index, and after them the extended ones, as many as the counts say. First an array has
/// fewer items than these (402), then the entry has a fault (501 to 504), then the room is too small (203), and its length is
/// written. After a fault the room is as before.
#[unsafe(no_mangle)]
pub extern "C" fn ti_encode<'a>(
    arrays: &Arrays<'a, '_>,
    counts: &EntryCounts<'a>,
    number_bits: u32,
    out: &mut [u8],
    written: &mut usize,
) -> u32
    ensures answer { (result ≡ done)
        ⊎ IsUnwritten arrays.now counts.now number_bits (length out.old) result written.new }
    // Only what the arrays hold is written.
    ensures room { result ≡ done → HasItems arrays.now counts.now }
    ensures encoded { result ≡ done
        → IsEncodingOf (entry_given arrays.now counts.now number_bits) (take written.new out.new) }
    // What an entry was read into is written as that entry, so that it is read into the same again.
    ensures again { result ≡ done → (bytes : List ℕ) → ForEntry bytes (λ v.
        AreItemsOf arrays.now counts.now v → Spells (take written.new out.new)
        (record v { width = width_given number_bits })) }
    ensures len { result ≡ done
        → written.new ≡ length (canonical (entry_given arrays.now counts.now number_bits)) }
    ensures rest { result ≡ done → drop written.new out.new ≡ drop written.new out.old }
    ensures kept { (result ≡ done) ⊎ (out.new ≡ out.old) }
    ensures untold { (result ≡ done) ⊎ (result ≡ out_too_small) ⊎ (written.new ≡ written.old) }
{
    if !has_items(arrays, counts) {
        return ROOM_TOO_SMALL;
    }
    let entry = given_entry(arrays, counts, number_bits);
    match encode_into(&entry, out) {
        Ok(count) => {
            *written = count;
            DONE
        }
        Err(EncodeIntoFault::Refused(fault)) => encode_number(fault),
        Err(EncodeIntoFault::OutTooSmall { need }) => {
            *written = need;
            OUT_TOO_SMALL
        }
    }
}
