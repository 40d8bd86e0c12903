//! Whether readers find the names of an entry's extended capabilities from one base.
//!
//! Some readers sum the sizes of the texts, some go to the end of the last one, and some count the items that the header
//! says.

ghost use Rattle.std.specs.Prelude.{◌≡◌, ◌≤◌, count_by, length, take};
ghost use Rattle.ti_words.specs.Spelling.{Spells};
ghost use Rattle.ti_words.specs.Texts.{is_nul};
ghost use Rattle.ti_layout.specs.Layout.{IsWithin};
ghost use Rattle.ti_layout.specs.Table.{base_of};
ghost use Rattle.ti_entry.specs.Reading.{base_of_names};
ghost use Rattle.ti_rules.specs.Bases.{bases_agree, bases_differ};

use ti_entry::{Entry, read_with_base};
use ti_layout::Part;
use ti_words::Kind;

/// How many NULs there are in a front.
fn nul_count(table: &[u8], end: usize) -> usize
    ensures value { result ≡ count_by is_nul (take end table.now) }
    ensures most { result ≤ length table.now }
{
    let front = &table[..end.min(table.len())];
    front.iter().filter(|byte| **byte == 0).count()
}

/// Whether the base, which is the sum of the sizes of the texts, is that of the other readers too.
fn bases_agree(bytes: &[u8], part: &Part, base: usize, names: usize, items: usize) -> bool
    requires within { IsWithin bytes.now part.now }
    requires base { base ≡ base_of bytes.now part.now }
    requires names { names ≡ part.now.names }
    ensures { result ≡ bases_agree bytes.now part.now items }
{
    part.last_text_end(bytes) == base && nul_count(part.table(bytes), base) + names == items
}

/// Whether readers differ in the base of an entry that the bytes spell.
fn bases_of_entry_differ(bytes: &[u8], entry: &Entry<'_>, base: usize) -> bool
    requires spelled { Spells bytes.now entry.now }
    requires base { base ≡ base_of_names entry.now }
    ensures { result ≡ bases_differ bytes.now }
{
    let standard = Part::standard(bytes);
    if bytes.len() <= standard.end() {
        return false;
    }
    let part = standard.extended(bytes);
    let items = standard.items_after(bytes);
    let names = part.count(Kind::Flag) + part.count(Kind::Number) + part.count(Kind::Text);
    names != 0 && !bases_agree(bytes, &part, base, names, items)
}

/// Whether the bytes are an entry with an extended name that readers find from more than one base.
pub(crate) fn bases_differ(bytes: &[u8]) -> bool
    ensures { result ≡ bases_differ bytes.now }
{
    match read_with_base(bytes) {
        Ok((entry, base)) => bases_of_entry_differ(bytes, &entry, base),
        Err(_) => false,
    }
}
