//! The texts and names of a string table, checked.
//!
//! The base of the names is summed in one pass that stops at the size of the table: from there on no name can lie in it.
//! So it is linear even if texts share their bytes.

ghost use Rattle.std.specs.Prelude.{◌≡◌, ◌+◌, ◌*◌, ◌<◌, ◌≤◌, ◌^◌, length, min, IfOk, IsTrue};
ghost use Rattle.ti_base.specs.Limits.{most_entry_bytes};
ghost use Rattle.ti_layout.specs.Checks.{verdict, result_verdict};
ghost use Rattle.ti_layout.specs.LastNul.{HasOffsetsBelow};
ghost use Rattle.ti_layout.specs.Refusal.{text_checks};
ghost use Rattle.ti_layout.specs.Layout.{IsWithin, places, offsets_from, end_of};
ghost use Rattle.ti_layout.specs.Table.{sizes_at, names_base, table_of, end_at as the_end_at, last_end as the_last_end};
ghost use Rattle.ti_words.specs.Word.{word_at as the_word_at};

use crate::checks::{Table, after_last_nul, check_endings, check_name_places};
use crate::fault::Refused;
use crate::part::Part;
use crate::string_table::{size_at, text_from};
use crate::word::word_at;

/// The sum of the sizes of the texts that are there, or the size of the table if that is less.
fn base_of(bytes: &[u8], table: &[u8], from: usize, count: usize) -> usize
    requires small { length table.now ≤ most_entry_bytes }
    requires there { from + 2 * count ≤ length bytes.now }
    requires fits { from + 2 * count < 2 ^ 32 }
    ensures { result ≡ min (sizes_at bytes.now table.now (places from 2 count)) (length table.now) }
{
    let mut base = 0;
    for i in 0..count {
        if base >= table.len() {
            return table.len();
        }
        base += size_at(bytes, table, from + 2 * i);
    }
    base.min(table.len())
}

/// Where the text at the offset that stands at a place ends with its NUL, if it is there.
fn end_at(bytes: &[u8], table: &[u8], place: usize) -> usize
    requires room { place + 2 ≤ length bytes.now }
    requires small { length table.now ≤ most_entry_bytes }
    ensures { result ≡ the_end_at table.now (the_word_at 2 bytes.now place) }
{
    let offset = word_at(bytes, place);
    if offset < 0 {
        return 0;
    }
    let start = offset as usize;
    start + text_from(table, start).len() + 1
}

/// The end of the last text.
fn last_end(bytes: &[u8], table: &[u8], from: usize, count: usize) -> usize
    requires small { length table.now ≤ most_entry_bytes }
    requires there { from + 2 * count ≤ length bytes.now }
    requires fits { from + 2 * count ≤ most_entry_bytes }
    ensures { result ≡ the_last_end bytes.now table.now (places from 2 count) }
{
    let mut last = 0;
    'texts: for i in 0..count {
        last = last.max(end_at(bytes, table, from + 2 * i));
    }
    last
}

impl Part {
    /// Where the last of the texts ends with its NUL in the string table; 0 if there is none.
    pub fn last_text_end(&self, bytes: &[u8]) -> usize
        requires { IsWithin bytes.now self.now }
        ensures { result ≡ the_last_end bytes.now (table_of bytes.now self.now)
            (places (offsets_from self.now) 2 self.now.texts) }
    {
        last_end(bytes, self.table(bytes), self.offsets_from(), self.texts)
    }
}

/// The base of the names if there are any, once each text and each name has its NUL in the table. `below` is true only if
/// each offset of a text is known to be a mark or a place of the table.
#[tactic(auto, using(crate::proofs::VerdictLemmas::verdict_append))]
pub(crate) fn check_texts(bytes: &[u8], part: &Part, below: bool) -> Result<usize, Refused>
    requires fits { end_of part.now ≤ most_entry_bytes }
    requires there { end_of part.now ≤ length bytes.now }
    requires below { IsTrue below → HasOffsetsBelow bytes.now part.now }
    ensures verdict { result_verdict result
        ≡ verdict (length bytes.now) (text_checks bytes.now part.now) }
    ensures base { IfOk result (λ base. base ≡ names_base bytes.now part.now) }
{
    let end = part.end();
    let offsets_from = part.offsets_from();
    let texts = &bytes[part.table_from()..end];
    let table = Table {
        bytes: texts,
        end,
        after_last_nul: after_last_nul(texts),
    };
    check_endings(bytes, &table, offsets_from, part.texts, below)?;
    if part.names == 0 {
        return Ok(0);
    }
    let base = base_of(bytes, texts, offsets_from, part.texts);
    check_name_places(bytes, &table, base, part.names_from(), part.names)?;
    Ok(base)
}
