//! Capabilities of terminfo(5) by their names.

ghost use Rattle.std.specs.Prelude.{◌≡◌};
ghost use Rattle.ti_words.specs.Texts.{text_value};
ghost use Rattle.ti_rules.specs.Values.{is_ansi_entry, number_named, number_of, text_named};

use ti_entry::Entry;
use ti_names::NameTable;
use ti_values::is_ansi;
use ti_words::{Kind, Number, Text};

/// The text of terminfo(5) with a name.
#[tactic(auto, unfolding(crate::specs::Values::text_named))]
pub fn text_named<'a>(entry: &Entry<'a>, name: &str) -> Text<'a>
    ensures { text_value result ≡ text_named entry.now name.now }
{
    match NameTable::All.find(name) {
        Some((Kind::Text, index)) => entry.text(index),
        _ => Text::Absent,
    }
}

/// A number, and 0 if it is not there.
fn number_of(number: Number) -> i32
    ensures { result ≡ number_of number }
{
    match number {
        Number::Value(value) => value,
        Number::Absent | Number::Cancelled => 0,
    }
}

/// The number of terminfo(5) with a name, and 0 if it is not there.
#[tactic(auto, unfolding(crate::specs::Values::number_named))]
pub fn number_named(entry: &Entry<'_>, name: &str) -> i32
    ensures { result ≡ number_named entry.now name.now }
{
    match NameTable::All.find(name) {
        Some((Kind::Number, index)) => number_of(entry.number(index)),
        _ => 0,
    }
}

/// Whether the motions of an entry are those of a terminal of ECMA-48.
pub fn is_ansi_entry(entry: &Entry<'_>) -> bool
    ensures { result ≡ is_ansi_entry entry.now }
{
    match text_named(entry, "cup") {
        Text::Value(cup) => is_ansi(cup),
        Text::Absent | Text::Cancelled => false,
    }
}
