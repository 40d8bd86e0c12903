//! A notation with the name of its capability before it, as in a source of terminfo.

ghost use Rattle.std.specs.Prelude.{◌≡◌, ◌<◌, IfSome, length, option_map};
ghost use Rattle.std.specs.List.{position};
ghost use Rattle.ti_tool.specs.Pasted.{has_name as the_has_name, is_equals, pasted_name as the_pasted_name, string_name as the_string_name};

use ti_names::find_short_or_long;
use ti_words::Kind;

/// The place of the first `=`.
fn equals_at(text: &[u8]) -> Option<usize>
    ensures value { result ≡ position is_equals text.now }
    ensures within { IfSome result (λ count. count < length text.now) }
{
    text.iter().position(|byte| *byte == b'=')
}

/// A name, if it is one of a string.
fn string_name(name: &[u8]) -> Option<&[u8]>
    ensures { option_map (λ name. name.now) result ≡ the_string_name name.now }
{
    match find_short_or_long(name) {
        Some((Kind::Text, _)) => Some(name),
        _ => None,
    }
}

/// Returns the name before the first `=`, if it is one of a string.
pub fn pasted_name(text: &[u8]) -> Option<&[u8]>
    ensures { option_map (λ name. name.now) result ≡ the_pasted_name text.now }
{
    match equals_at(text) {
        Some(count) => string_name(&text[..count]),
        None => None,
    }
}

/// Whether a name stands before a notation.
pub fn has_name(text: &[u8]) -> bool
    ensures { result ≡ the_has_name text.now }
{
    pasted_name(text).is_some()
}
