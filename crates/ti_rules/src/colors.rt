//! Whether the capabilities of color go together.

ghost use Rattle.std.specs.Prelude.{◌≡◌, OnOk};
ghost use Rattle.ti_words.specs.Texts.{text_value};
ghost use Rattle.ti_rules.specs.Whole.{color_remarks, colors_are_fixed, colors_stay, has, has_at, has_no_colors, is_above_0, is_there};
ghost use Rattle.ti_rules.specs.inner.Growing.{GainsThese};

use crate::finding::Finding;
use crate::report::Report;
use std::alloc::{AllocError, Allocator};
use ti_entry::Entry;
use ti_names::NameTable;
use ti_words::{Flag, Kind, Number, Text};

/// Whether a number is above 0.
fn is_above_0(number: Number) -> bool
    ensures { result ≡ is_above_0 number }
{
    match number {
        Number::Value(value) => value > 0,
        Number::Absent | Number::Cancelled => false,
    }
}

/// Whether a text is there.
fn is_there(text: Text<'_>) -> bool
    ensures { result ≡ is_there (text_value text.entry) }
{
    match text {
        Text::Value(_) => true,
        Text::Absent | Text::Cancelled => false,
    }
}

/// Whether at a place stands a flag that is set, a number above 0, or a text that is there.
fn has_at(entry: &Entry<'_>, kind: Kind, index: usize) -> bool
    ensures { result ≡ has_at entry.now (kind, index) }
{
    match kind {
        Kind::Flag => entry.flag(index) == Flag::Yes,
        Kind::Number => is_above_0(entry.number(index)),
        Kind::Text => is_there(entry.text(index)),
    }
}

/// The same of the capability of terminfo(5) with a name.
#[tactic(auto, unfolding(crate::specs::Whole::has))]
pub(crate) fn has(entry: &Entry<'_>, name: &str) -> bool
    ensures { result ≡ has entry.now name.now }
{
    match NameTable::All.find(name) {
        Some((kind, index)) => has_at(entry, kind, index),
        None => false,
    }
}

/// Whether there are colors, and nothing brings back those that there were before.
fn colors_stay(entry: &Entry<'_>) -> bool
    ensures { result ≡ colors_stay entry.now }
{
    has(entry, "colors") && !(has(entry, "op") || has(entry, "oc"))
}

/// Whether there are colors, and nothing selects one.
fn has_no_colors(entry: &Entry<'_>) -> bool
    ensures { result ≡ has_no_colors entry.now }
{
    has(entry, "colors") && !(has(entry, "setaf") || has(entry, "setf") || has(entry, "scp"))
}

/// Whether colors can be changed, and nothing changes one.
fn colors_are_fixed(entry: &Entry<'_>) -> bool
    ensures { result ≡ colors_are_fixed entry.now }
{
    has(entry, "ccc") && !(has(entry, "initc") || has(entry, "initp"))
}

impl<'r, 'a, A: Allocator + Copy> Report<'r, 'a, A> {
    /// Adds the remarks on the colors.
    pub(crate) fn push_colors(&mut self) -> Result<(), AllocError>
        ensures { OnOk result (GainsThese (color_remarks self.old.on.entry) self.old self.new) }
    {
        let entry = self.entry();
        self.push_if(colors_stay(entry), Finding::ColorsStay)?;
        self.push_if(has_no_colors(entry), Finding::NoColors)?;
        self.push_if(colors_are_fixed(entry), Finding::ColorsAreFixed)?;
        Ok(())
    }
}
