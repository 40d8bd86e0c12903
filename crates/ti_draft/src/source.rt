//! What an entry to be written is taken from: a draft, or a caller's own lists.
//!
//! A source lends its names and texts. The writer takes the items of each list in order, by their index.

ghost use Rattle.std.specs.Prelude.{◌≡◌, length, get_or};
ghost use Rattle.ti_words.specs.Texts.{text_value, AbsentText};
ghost use Rattle.ti_words.specs.Value.{EntryValue};
ghost use Rattle.ti_draft.specs.Sources.{listed};

use ti_words::{Flag, Number, Text, Width};

/// The lists of an entry that are written.
#[derive(Clone, Copy, Debug, PartialEq, Eq)]
pub enum Part {
    /// The capabilities without names.
    Standard,
    /// The capabilities that have names.
    Extended,
    /// Their names as texts that are there: of flags, then numbers, then texts. It has no flags and no numbers.
    Names,
}

/// What an entry is written from.
pub trait Source {
    /// The entry.
    ghost entry: { Self → EntryValue };

    /// How wide its numbers are.
    fn width(&self) -> Width
        ensures { result ≡ (entry self.now).width };

    /// The names, without a NUL after them.
    fn names(&self) -> &[u8]
        ensures { result.now ≡ (entry self.now).names };

    /// How many flags a part has.
    fn flag_count(&self, part: Part) -> usize
        ensures { result ≡ length (listed (entry self.now) part).flags };

    /// How many numbers a part has.
    fn number_count(&self, part: Part) -> usize
        ensures { result ≡ length (listed (entry self.now) part).numbers };

    /// How many texts a part has.
    fn text_count(&self, part: Part) -> usize
        ensures { result ≡ length (listed (entry self.now) part).texts };

    /// The flag at an index; at or above the count No.
    fn flag(&self, part: Part, index: usize) -> Flag
        ensures { result ≡ get_or (listed (entry self.now) part).flags index Flag.No };

    /// The number at an index; at or above the count Absent.
    fn number(&self, part: Part, index: usize) -> Number
        ensures { result ≡ get_or (listed (entry self.now) part).numbers index Number.Absent };

    /// The text at an index; at or above the count Absent.
    fn text(&self, part: Part, index: usize) -> Text<'_>
        ensures { text_value result
            ≡ get_or (listed (entry self.now) part).texts index AbsentText };
}
