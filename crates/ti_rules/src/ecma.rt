//! Whether an entry is one of a terminal of ECMA-48.

ghost use Rattle.std.specs.Prelude.{◌≡◌};
ghost use Rattle.ti_rules.specs.Controls.{has_introducer, is_ecma_entry, is_ecma_text};
ghost use Rattle.ti_rules.specs.Values.{text_named};
ghost use Rattle.ti_words.specs.Texts.{text_value};

use crate::lookup::text_named;
use ti_control::ecma_capabilities;
use ti_entry::Entry;
use ti_words::Text;

/// Whether some byte starts a `\E[`.
fn has_introducer(text: &[u8]) -> bool
    ensures { result ≡ has_introducer text.now }
{
    let mut rest = text;
    'text: while let Some((_byte, after)) = rest.split_first() {
        if rest.starts_with(b"\x1b[") {
            return true;
        }
        rest = after;
    }
    false
}

/// Whether a text has one.
fn is_ecma_text(text: Text<'_>) -> bool
    ensures { result ≡ is_ecma_text (text_value text.entry) }
{
    match text {
        Text::Value(text) => has_introducer(text),
        Text::Absent | Text::Cancelled => false,
    }
}

/// Whether an entry is one of a terminal of ECMA-48.
pub fn is_ecma_entry(entry: &Entry<'_>) -> bool
    ensures { result ≡ is_ecma_entry entry.now }
{
    'names: for name in ecma_capabilities() {
        if is_ecma_text(text_named(entry, name)) {
            return true;
        }
    }
    false
}
