//! Whether two entries have a capability alike.

ghost use Rattle.std.specs.Prelude.{◌≡◌, ◌↔◌, IsTrue, OnOk, map};
ghost use Rattle.ti_words.specs.Items.{item_value, subject_value};
ghost use Rattle.ti_words.specs.Texts.{text_value};
ghost use Rattle.ti_listing.specs.Differences.{AreSameItems, AreSpelledAlike, IsChange, item_difference};
ghost use Rattle.ti_listing.specs.Values.{difference_value};
ghost use Rattle.ti_listing.specs.inner.Differences.{Adds};

use crate::difference::Difference;
use crate::tokens::have_same_tokens;
use std::alloc::{AllocError, Allocator};
use ti_json::{Content, Topic};
use ti_line::Likeness;
use ti_words::{Item, Subject, Text};

/// Whether two values are texts with the same tokens.
fn are_spelled_alike(one: Item<'_>, other: Item<'_>) -> bool
    ensures { IsTrue result ↔ AreSpelledAlike (item_value one.entry) (item_value other.entry) }
{
    match one {
        Item::Flag(_) | Item::Number(_) => false,
        Item::Text(Text::Absent) | Item::Text(Text::Cancelled) => false,
        Item::Text(Text::Value(text)) => match other {
            Item::Flag(_) | Item::Number(_) => false,
            Item::Text(Text::Absent) | Item::Text(Text::Cancelled) => false,
            Item::Text(Text::Value(of_other)) => have_same_tokens(text, of_other),
        },
    }
}

/// Whether two values are alike.
fn are_alike(likeness: Likeness, one: Item<'_>, other: Item<'_>) -> bool
    ensures { IsTrue result ↔ AreSameItems likeness (item_value one.entry) (item_value other.entry) }
{
    match likeness {
        Likeness::Bytes => one == other,
        Likeness::Tokens => one == other || are_spelled_alike(one, other),
    }
}

/// Adds what each entry has of a capability, if they do not have it alike.
pub fn push_change<'a, A: Allocator>(
    out: &mut Vec<Difference<'a>, A>,
    likeness: Likeness,
    subject: Subject<'a>,
    first: Item<'a>,
    other: Item<'a>,
) -> Result<(), AllocError>
    ensures { OnOk result (Adds
        (IsChange (AreSameItems likeness) (item_difference (subject_value subject.entry))
        (item_value first.entry) (item_value other.entry))
        (map difference_value out.old.items) (map difference_value out.new.items)) }
{
    if are_alike(likeness, first, other) {
        return Ok(());
    }
    out.push(Difference {
        topic: Topic::Capability(subject),
        first: Content::of(first),
        other: Content::of(other),
    })?;
    Ok(())
}
