//! Uses of an entry by programs beside sending its texts: they run a command, send files, and keep a screen of its size.

ghost use Rattle.std.specs.Prelude.{◌≡◌, OnOk};
ghost use Rattle.ti_rules.specs.Actions.{action_remarks, has_many_colors, has_vast_screen, is_mir_alone, is_tabset, natural, on_command, on_file};
ghost use Rattle.ti_rules.specs.Values.{text_named};
ghost use Rattle.ti_rules.specs.inner.Growing.{GainsThese};

use crate::colors::has;
use crate::finding::Finding;
use crate::lookup::{number_named, text_named};
use crate::remark::{Evidence, NamedText};
use crate::report::Report;
use std::alloc::{AllocError, Allocator};
use ti_control::is_vast;
use ti_entry::Entry;
use ti_words::Text;

/// Whether a file is one of those that terminfo(5) has.
fn is_tabset(path: &[u8]) -> bool
    ensures { result ≡ is_tabset path.now }
{
    ti_control::is_tabset(path)
}

/// A number, and 0 if it is below 0.
fn natural(number: i32) -> u32
    ensures { result ≡ natural number }
{
    if number < 0 {
        return 0;
    }
    number as u32
}

/// Whether a screen has more characters than a program can hold.
fn has_vast_screen(entry: &Entry<'_>) -> bool
    ensures { result ≡ has_vast_screen entry.now }
{
    let lines = natural(number_named(entry, "lines"));
    let columns = natural(number_named(entry, "cols"));
    is_vast(lines, columns)
}

/// The most colors, or pairs of them, that a program can hold.
const MOST_COLORS: u32 = 0x100_0000;

/// Whether there are more colors, or pairs of them.
fn has_many_colors(entry: &Entry<'_>) -> bool
    ensures { result ≡ has_many_colors entry.now }
{
    let colors = natural(number_named(entry, "colors"));
    let pairs = natural(number_named(entry, "pairs"));
    colors > MOST_COLORS || pairs > MOST_COLORS
}

/// Whether the cursor may move in insert mode, and nothing inserts.
fn is_mir_alone(entry: &Entry<'_>) -> bool
    ensures { result ≡ is_mir_alone entry.now }
{
    has(entry, "mir") && !(has(entry, "smir") || has(entry, "ich") || has(entry, "ich1"))
}

impl<'r, 'a, A: Allocator + Copy> Report<'r, 'a, A> {
    /// Adds the remark on the command with a name, if it is there.
    fn push_command(&mut self, name: &'static str) -> Result<(), AllocError>
        ensures { OnOk result (GainsThese
            (on_command name.now (text_named self.old.on.entry name.now)) self.old self.new) }
    {
        let Text::Value(text) = text_named(self.entry(), name) else {
            return Ok(());
        };
        let name = name.as_bytes();
        self.push_on_values(&NamedText { name, text }, Finding::Runs, Evidence::None)
    }

    /// Adds the remark on a file with a name, if it is none of those that terminfo(5) has.
    fn push_file(&mut self, name: &'static str) -> Result<(), AllocError>
        ensures { OnOk result (GainsThese
            (on_file name.now (text_named self.old.on.entry name.now)) self.old self.new) }
    {
        let Text::Value(text) = text_named(self.entry(), name) else {
            return Ok(());
        };
        if is_tabset(text) {
            return Ok(());
        }
        let name = name.as_bytes();
        self.push_on_values(&NamedText { name, text }, Finding::Reads, Evidence::None)
    }

    /// Adds the remarks on what programs do.
    pub fn push_actions(&mut self) -> Result<(), AllocError>
        ensures { OnOk result (GainsThese (action_remarks self.old.on.entry) self.old self.new) }
    {
        let entry = self.entry();
        self.push_command("iprog")?;
        self.push_file("if")?;
        self.push_file("rf")?;
        self.push_if(has_vast_screen(entry), Finding::Size)?;
        self.push_if(has_many_colors(entry), Finding::ManyColors)?;
        self.push_if(is_mir_alone(entry), Finding::LoneMir)?;
        Ok(())
    }
}
