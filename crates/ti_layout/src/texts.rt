//! The texts of one table, read one after another.
//!
//! The last text whose end was looked for is cached: a text that starts within it ends where it does. So texts that share
//! one long slice are read in time linear in their count.

ghost use Rattle.std.specs.Prelude.{◌≡◌, ◌+◌, ◌≤◌, length};
ghost use Rattle.ti_layout.specs.Layout.{IsWithin};
ghost use Rattle.ti_layout.specs.Table.{text_from as the_text_from};
ghost use Rattle.ti_layout.specs.Content.{texts_in};

use crate::part::Part;
use crate::string_table::{text_from, text_of};
use crate::word::word_at;
use std::marker::Model;
use ti_words::Text;

/// The texts whose offsets stand one after the other from a place on. Contracts see the list of them.
#[derive(Drop)]
pub struct Texts<'a> {
    table: &'a [u8],
    bytes: &'a [u8],
    from: usize,
    count: usize,
    /// Where the cached text starts in the table.
    start: usize,
    cached: &'a [u8],
}

impl<'a> Model for Texts<'a> {
    ghost use Rattle.std.specs.Prelude.{◌≡◌, ◌+◌, ◌*◌, ◌≤◌, List, length, map};
    ghost use Rattle.ti_words.specs.Texts.{TextValue};
    ghost use Rattle.ti_layout.specs.Layout.{places};
    ghost use Rattle.ti_layout.specs.Table.{text_from};
    ghost use Rattle.ti_layout.specs.Content.{text_at};

    ghost Value = { List TextValue };

    ghost view = { λ t. map (text_at t.table.now t.bytes.now) (places t.from 2 t.count) };

    ghost invariant = { λ t. (t.from + 2 * t.count ≤ length t.bytes.now)
        × (t.cached.now ≡ text_from t.table.now t.start) };
}

impl Part {
    /// Its texts, to be read one after another.
    pub fn texts<'a>(&self, bytes: &'a [u8]) -> Texts<'a>
        requires { IsWithin bytes.now self.now }
        ensures { result ≡ texts_in bytes.now self.now }
    {
        let table = self.table(bytes);
        Texts {
            table,
            bytes,
            from: self.offsets_from(),
            count: self.texts,
            start: 0,
            cached: text_from(table, 0),
        }
    }
}

impl<'a> Texts<'a> {
    ghost use Rattle.std.specs.Prelude.{get_or};
    ghost use Rattle.ti_words.specs.Texts.{AbsentText, text_value};

    /// The text at an index; at or above the count Absent.
    #[tactic(auto, using(crate::proofs::PlacesLemmas::item_at, crate::proofs::PlacesLemmas::no_item_at, crate::proofs::TextLemmas::tail_is))]
    pub fn text(&mut self, i: usize) -> Text<'a>
        ensures value { text_value result ≡ get_or self.old i AbsentText }
        ensures same { self.new ≡ self.old }
    {
        if i >= self.count {
            return Text::Absent;
        }
        let offset = word_at(self.bytes, self.from + 2 * i);
        if offset < 0 {
            return text_of(self.table, offset);
        }
        let place = offset as usize;
        let (start, cached) = cached_text(self.table, self.start, self.cached, place);
        self.start = start;
        self.cached = cached;
        Text::Value(&cached[place - start..])
    }
}

/// The cached text and where it starts, or the text at a place if it does not start within that one.
fn cached_text<'a>(
    table: &'a [u8],
    start: usize,
    cached: &'a [u8],
    place: usize,
) -> (usize, &'a [u8])
    requires { cached.now ≡ the_text_from table.now start }
    ensures text { result.1.now ≡ the_text_from table.now result.0 }
    ensures low { result.0 ≤ place }
    ensures high { place ≤ result.0 + length result.1.now }
{
    if start <= place && place - start <= cached.len() {
        return (start, cached);
    }
    (place, text_from(table, place))
}
