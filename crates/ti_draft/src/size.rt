//! How many bytes an entry takes.
//!
//! Each list is gone over once, and no memory is taken. Sums that 64 bits cannot hold stay at the greatest
//! number.

ghost use Rattle.std.specs.Prelude.{◌≡◌, ◌+◌, ◌*◌, ◌≤◌, [], length, min};
ghost use Rattle.ti_words.specs.Texts.{text_value};
ghost use Rattle.ti_words.specs.Widths.{number_size as the_number_size};
ghost use Rattle.ti_words.specs.Spelling.{join, standard_spelling};
ghost use Rattle.ti_draft.specs.Canonical.{canonical, text_bytes, texts_table, standard_strings, extended_strings};
ghost use Rattle.ti_draft.specs.Lengths.{capped_count};
ghost use Rattle.ti_draft.specs.Sizes.{AreSizes};
ghost use Rattle.ti_draft.specs.Sources.{listed};

use crate::draft::Draft;
use crate::source::{Part, Source};
use std::alloc::Allocator;
use ti_words::{Text, number_size};

/// The bytes of a text with its NUL, if it is there.
fn text_len(text: Text<'_>) -> u64
    ensures { result ≡ length (text_bytes (text_value text.entry)) }
{
    match text {
        Text::Absent | Text::Cancelled => 0,
        Text::Value(bytes) => bytes.len() as u64 + 1,
    }
}

/// The bytes of the texts of a part, each with its NUL.
pub(crate) fn texts_len<S: Source>(source: &S, part: Part) -> u64
    ensures { result
        ≡ capped_count (length (texts_table (listed (S.entry source.now) part).texts)) }
{
    let mut total = 0u64;
    for i in 0..source.text_count(part) {
        total = total.saturating_add(text_len(source.text(part, i)));
    }
    total
}

/// The bytes of this many items of a size.
fn items_len(count: usize, size: usize) -> u64
    ensures { result ≡ capped_count (count * size) }
{
    (count as u64).saturating_mul(size as u64)
}

/// The bytes of a part after its counts, without its table, with a pad of this length.
fn part_len<S: Source>(source: &S, part: Part, pad: u64) -> u64
    requires { pad ≤ 1 }
    ensures { result ≡ capped_count (pad + length (listed (S.entry source.now) part).flags
        + length (listed (S.entry source.now) part).numbers
        * the_number_size (S.entry source.now).width
        + length (listed (S.entry source.now) part).texts * 2) }
{
    let numbers = items_len(source.number_count(part), number_size(source.width()));
    pad.saturating_add(source.flag_count(part) as u64)
        .saturating_add(numbers)
        .saturating_add(items_len(source.text_count(part), 2))
}

/// The sizes of an entry that stand in its headers, and of the whole.
#[derive(Clone, Copy)]
pub(crate) struct Sizes {
    /// The string table.
    pub(crate) table: u64,
    /// The table of the extended part.
    pub(crate) extended_table: u64,
    /// All bytes.
    pub(crate) entry: u64,
}

/// The sizes of an entry, for which each of its lists is gone over once.
pub(crate) fn sizes_of<S: Source>(source: &S) -> Sizes
    ensures { AreSizes result (S.entry source.now) }
{
    let table = texts_len(source, Part::Standard);
    let extended_table = texts_len(source, Part::Extended).saturating_add(texts_len(
        source,
        Part::Names,
    ));
    Sizes {
        table,
        extended_table,
        entry: entry_len(source, table, extended_table),
    }
}

/// The bytes up to the end of a string table of this size.
fn standard_len<S: Source>(source: &S, table: u64) -> u64
    requires table { table ≡ capped_count (length (standard_strings (S.entry source.now)).table) }
    ensures { result ≡ capped_count (length (join (standard_spelling (S.entry source.now)
        (standard_strings (S.entry source.now))) [])) }
{
    let names = source.names().len() as u64;
    let odd = (names % 2 + source.flag_count(Part::Standard) as u64 % 2 + 1) % 2;
    part_len(source, Part::Standard, odd)
        .saturating_add(table)
        .saturating_add(names)
        .saturating_add(13)
}

/// All bytes, if the tables have these sizes.
fn entry_len<S: Source>(source: &S, table: u64, extended_table: u64) -> u64
    requires table { table ≡ capped_count (length (standard_strings (S.entry source.now)).table) }
    requires extended_table { extended_table
        ≡ capped_count (length (extended_strings (S.entry source.now)).table) }
    ensures { result ≡ capped_count (length (canonical (S.entry source.now))) }
{
    let standard = standard_len(source, table);
    let names = source.text_count(Part::Names);
    if names == 0 {
        return standard;
    }
    let pad = source.flag_count(Part::Extended) as u64 % 2;
    standard
        .saturating_add(table % 2)
        .saturating_add(10)
        .saturating_add(part_len(source, Part::Extended, pad))
        .saturating_add(items_len(names, 2))
        .saturating_add(extended_table)
}

/// The count of bytes that [`encode`](crate::encode) writes, or would write were there no limit; at most [`u64::MAX`].
pub fn encoded_len<A: Allocator>(draft: &Draft<'_, A>) -> u64
    ensures { result ≡ min (length (canonical draft.now)) u64.MAX }
{
    sizes_of(draft).entry
}
