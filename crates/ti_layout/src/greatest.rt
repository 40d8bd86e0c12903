//! Whole sections tested at once, by their greatest item.
//!
//! The items are read without a sign and lifted, modulo the numbers of their size, so that those that may not stand in
//! the section become the greatest. The greatest is found by a fold that the compiler makes wide, and one comparison
//! tests it. Yes means that each check of the section passes; no leaves it open, and the items are gone over one by one.

ghost use Rattle.std.specs.Prelude.{◌≡◌, ℕ, ◌+◌, ◌*◌, ◌%◌, ◌^◌, ◌<◌, ◌≤◌, length, slice_index, IsTrue};
ghost use Rattle.ti_words.specs.Word.{unsigned_at, word_at};
ghost use Rattle.ti_layout.specs.Layout.{places};
ghost use Rattle.ti_layout.specs.Checks.{Passes, verdict, is_offset_below, all_name_place_checks};
ghost use Rattle.ti_layout.specs.LastNul.{IsAfterLastNul};

use crate::checks::Table;
use byteorder::{ByteOrder, LittleEndian};
use ti_base::{GREATEST_WIDE_WORD, GREATEST_WORD};

/// How many words of 16 bits are not negative.
pub(crate) const WORDS: u16 = GREATEST_WORD as u16 + 1;

/// How many words of 32 bits are not negative.
pub(crate) const WIDE_WORDS: u32 = GREATEST_WIDE_WORD as u32 + 1;

/// The greatest of the bytes of a section, lifted.
pub(crate) fn greatest_byte(bytes: &[u8], from: usize, count: usize, lift: u8) -> u8
    requires { from + count ≤ length bytes.now }
    ensures { (i : ℕ) → i < count → (slice_index bytes.now (from + 1 * i) + lift) % 256 ≤ result }
{
    let mut greatest = 0;
    for byte in &bytes[from..from + count] {
        greatest = greatest.max(byte.wrapping_add(lift));
    }
    greatest
}

/// The greatest of the words of a section, lifted.
pub(crate) fn greatest_word(bytes: &[u8], from: usize, count: usize, lift: u16) -> u16
    requires { from + 2 * count ≤ length bytes.now }
    ensures { (i : ℕ) → i < count
        → (unsigned_at 2 bytes.now (from + 2 * i) + lift) % 65536 ≤ result }
{
    let mut greatest = 0;
    let (words, _) = bytes[from..from + 2 * count].as_chunks::<2>();
    for word in words {
        greatest = greatest.max(LittleEndian::read_u16(word).wrapping_add(lift));
    }
    greatest
}

/// The greatest of the words of 32 bits of a section, lifted by 2.
pub(crate) fn greatest_wide_word(bytes: &[u8], from: usize, count: usize) -> u32
    requires { from + 4 * count ≤ length bytes.now }
    ensures { (i : ℕ) → i < count
        → (unsigned_at 4 bytes.now (from + 4 * i) + 2) % 4294967296 ≤ result }
{
    let mut greatest = 0;
    let (words, _) = bytes[from..from + 4 * count].as_chunks::<4>();
    for word in words {
        greatest = greatest.max(LittleEndian::read_u32(word).wrapping_add(2));
    }
    greatest
}

/// Whether each word of a section is a mark or below a limit.
pub(crate) fn are_below(bytes: &[u8], limit: usize, from: usize, count: usize) -> bool
    requires { from + 2 * count ≤ length bytes.now }
    ensures { IsTrue result → (i : ℕ) → i < count
        → IsTrue (is_offset_below limit (word_at 2 bytes.now (from + 2 * i))) }
{
    usize::from(greatest_word(bytes, from, count, 2)) < limit.min(usize::from(WORDS)) + 2
}

/// Whether each name of a section starts in the table, counted from the base, and before its last NUL or at it.
pub(crate) fn are_names(
    bytes: &[u8],
    table: &Table<'_>,
    base: usize,
    from: usize,
    count: usize,
) -> bool
    requires before { from + 2 * count ≤ table.now.end }
    requires there { table.now.end ≤ length bytes.now }
    requires last_nul { IsAfterLastNul table.now.bytes.now table.now.after_last_nul }
    requires small { base < 2 ^ 32 }
    ensures { IsTrue result → Passes ≡ verdict (length bytes.now) (all_name_place_checks bytes.now
        table.now.bytes.now base table.now.end (places from 2 count)) }
{
    let greatest = greatest_word(bytes, from, count, 0);
    base + usize::from(greatest) < table.bytes.len().min(table.after_last_nul)
}
