//! The words that do not fit the capability of a name that no table has.

ghost use Rattle.std.specs.Prelude.{◌≡◌, ◌↔◌, ℕ, IfNone, IfSome, IsTrue, Some, option_map};
ghost use Rattle.ti_line.specs.Fits.{first_word as the_first_word, is_word as the_is_word};
ghost use Rattle.ti_tool.specs.Unfit.{IsUnfit, TakesNumbers, is_unknown as the_is_unknown, word_given as the_word_given};
ghost use Rattle.ti_words.specs.Items.{TextItem, item_value};
ghost use Rattle.ti_words.specs.Texts.{TextOf};

use ti_cap::Capability;
use ti_line::{Given, Param};
use ti_lint::extended_class_of;
use ti_names::find_short_or_long;
use ti_words::{Item, Text};

/// Whether no table has a name.
fn is_unknown(name: &[u8]) -> bool
    ensures { result ≡ the_is_unknown name.now }
{
    find_short_or_long(name).is_none() && extended_class_of(name).is_none()
}

/// Whether a text takes numbers alone.
fn text_takes_numbers(text: &[u8]) -> bool
    ensures { IsTrue result ↔ TakesNumbers (Some (TextItem (TextOf text.now))) }
{
    match Capability::parse(text) {
        Ok(capability) => capability.parameters().texts.mask == 0,
        Err(_) => false,
    }
}

/// Whether a value takes numbers alone.
fn takes_numbers(item: Option<Item<'_>>) -> bool
    ensures { IsTrue result ↔ TakesNumbers (option_map item_value item.entry) }
{
    match item {
        Some(Item::Flag(_) | Item::Number(_)) => true,
        Some(Item::Text(Text::Value(text))) => text_takes_numbers(text),
        Some(Item::Text(Text::Absent | Text::Cancelled)) => false,
        None => false,
    }
}

/// Whether a parameter is a word without a mark that is no number.
fn is_word(param: Param<'_>) -> bool
    ensures { result ≡ the_is_word param.entry }
{
    matches!(param, Param::Word(_))
}

/// The place of the first word without a mark that is no number, counted from 1.
fn first_word(params: &[Param<'_>; 9]) -> Option<u8>
    ensures { result ≡ the_first_word params.now }
{
    for (i, param) in params.iter().enumerate() {
        if is_word(*param) {
            return Some(i as u8 + 1);
        }
    }
    None
}

/// The first such word among those that were given.
fn word_given(given: &Option<Given<'_>>) -> Option<u8>
    ensures { result ≡ the_word_given given.now }
{
    match given {
        Some(given) => first_word(&given.params),
        None => None,
    }
}

/// The place of the first word that does not fit the value that a name means, if no table has the name.
pub fn unfit_word(name: &str, given: &Option<Given<'_>>, item: Option<Item<'_>>) -> Option<u8>
    ensures some { IfSome result (IsUnfit name.now given.now (option_map item_value item.entry)) }
    ensures none { IfNone result ((which : ℕ) → ¬ IsUnfit name.now given.now (option_map item_value item.entry) which) }
{
    if is_unknown(name.as_bytes()) && takes_numbers(item) {
        word_given(given)
    } else {
        None
    }
}
