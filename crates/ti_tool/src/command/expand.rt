//! `expand`: one text of an entry, expanded and padded.
//!
//! The memory grows once for the expansion, once for the padded text, and once more if it is written in a form.

ghost use Rattle.std.specs.Prelude.{◌≡◌, Ok, MatchResult, option_and_then, option_map};
ghost use Rattle.ti_words.specs.Items.{item_value, text_in};
ghost use Rattle.ti_tool.specs.Got.{IsPaddedAlone};
ghost use Rattle.ti_tool.specs.Results.{IsDue, IsDueFor, IsPadded};
ghost use Rattle.ti_tool.specs.Calls.{FailsAsDue};

use crate::expansion::expansion_of;
use crate::fault::ToolFault;
use crate::item_name::{Names, item_called};
use crate::result::output_bytes;
use std::alloc::Allocator;
use ti_entry::Entry;
use ti_expand::Value;
use ti_line::{Expand, Output};
use ti_pad::{PadFault, Padding, pad};
use ti_words::{Item, Text};

/// A text that is padded as it stands.
pub fn padded_output<A: Allocator + Copy>(
    alloc: A,
    text: &[u8],
    padding: &Padding,
    output: Output,
) -> Result<Vec<u8, A>, ToolFault>
    ensures { MatchResult result
        (λ v. IsPaddedAlone text.now padding.now output (Ok v.items))
        (FailsAsDue (IsPaddedAlone text.now padding.now output)) }
{
    match pad(alloc, text, padding) {
        Ok(padded) => output_bytes(alloc, padded, output),
        Err(PadFault::TooMuch { need }) => Err(ToolFault::TooMuch(need)),
        Err(PadFault::Memory) => Err(ToolFault::Memory),
    }
}

/// A text, expanded and then padded.
pub fn expand_and_pad<A: Allocator + Copy>(
    alloc: A,
    text: &[u8],
    parameters: &[Value<'_>; 9],
    padding: &Padding,
    output: Output,
) -> Result<Vec<u8, A>, ToolFault>
    ensures { MatchResult result
        (λ v. IsPadded text.now parameters.now padding.now output (Ok v.items))
        (FailsAsDue (IsPadded text.now parameters.now padding.now output)) }
{
    let plain = expansion_of(alloc, text, parameters)?;
    padded_output(alloc, plain.as_slice(), padding, output)
}

/// The expansion of a value, if it is a text that is there.
fn expand_value<A: Allocator + Copy>(
    alloc: A,
    item: Option<Item<'_>>,
    action: &Expand<'_>,
) -> Result<Vec<u8, A>, ToolFault>
    ensures { let IsDue = IsDue (option_and_then text_in (option_map item_value item.entry))
        action.now.parameters.values action.now.padding action.now.output in
        MatchResult result (λ v. IsDue (Ok v.items)) (FailsAsDue IsDue) }
{
    match item {
        Some(Item::Text(Text::Value(text))) => {
            let (padding, output) = (&action.padding, action.output);
            expand_and_pad(alloc, text, &action.parameters.values, padding, output)
        }
        _ => Err(ToolFault::NoSuchText),
    }
}

/// The result of `expand` for an entry. Padding marks are looked for in the expanded bytes, so one in a text parameter
/// counts too (terminfo(5), "Delays and Padding").
pub fn expand_result<A: Allocator + Copy>(
    alloc: A,
    entry: &Entry<'_>,
    action: &Expand<'_>,
) -> Result<Vec<u8, A>, ToolFault>
    ensures { let IsDueForIt = IsDueFor action.now.name.names action.now.name.name.now
        action.now.parameters.values action.now.padding action.now.output entry.now in
        MatchResult result (λ v. IsDueForIt (Ok v.items)) (FailsAsDue IsDueForIt) }
{
    let names = Names::Texts(action.name.names);
    expand_value(alloc, item_called(entry, action.name.name, names), action)
}
