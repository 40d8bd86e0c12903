//! `get`: the value of one capability, as tput writes it.
//!
//! A flag writes nothing; a number takes memory once; a text takes it as `expand` does, and without parameters once less.

ghost use Rattle.std.specs.Prelude.{◌≡◌, Ok, IfOk, MatchResult, option_map, true};
ghost use Rattle.ti_words.specs.Items.{item_value};
ghost use Rattle.ti_tool.specs.Got.{IsExpandedBy, IsGot, IsTextResult, IsValueResult, number_or_none as the_number_or_none, number_result as the_number_result};
ghost use Rattle.ti_tool.specs.Calls.{FailsAsDue};

use crate::command::Answer;
use crate::command::expand::{expand_and_pad, padded_output};
use crate::fault::ToolFault;
use crate::given_values::values_for;
use crate::item_name::{Names, item_called};
use crate::unfit::unfit_word;
use itoa::Buffer;
use std::alloc::{AllocError, Allocator};
use ti_cap::Capability;
use ti_entry::Entry;
use ti_line::{Get, Given, Output};
use ti_pad::Padding;
use ti_words::{Flag, Item, Number, Text};

/// A number, -1 if the entry has none.
fn number_or_none(number: Number) -> i32
    ensures { result ≡ the_number_or_none number }
{
    match number {
        Number::Value(value) => value,
        Number::Absent | Number::Cancelled => -1,
    }
}

/// The line of a number.
fn number_result<A: Allocator>(alloc: A, number: Number) -> Result<Vec<u8, A>, AllocError>
    ensures { IfOk result (λ v. v.items ≡ the_number_result number) }
{
    let mut digits = Buffer::new();
    let mut line = Vec::new(alloc);
    line.extend_from_slice(digits.format(number_or_none(number)).as_bytes())?;
    line.extend_from_slice(b"\n")?;
    Ok(line)
}

/// A text, expanded with the parameters that words gave, and padded.
fn expand_given<A: Allocator + Copy>(
    alloc: A,
    text: &[u8],
    given: &Given<'_>,
    padding: &Padding,
    output: Output,
) -> Result<Vec<u8, A>, ToolFault>
    ensures { MatchResult result
        (λ v. IsExpandedBy text.now given.now padding.now output (Ok v.items))
        (FailsAsDue (IsExpandedBy text.now given.now padding.now output)) }
{
    let capability = Capability::parse(text)?;
    let parameters = values_for(&capability, given.params);
    expand_and_pad(alloc, text, &parameters, padding, output)
}

/// The result of a text. With no parameters it is not expanded.
fn text_result<A: Allocator + Copy>(
    alloc: A,
    text: &[u8],
    action: &Get<'_>,
) -> Result<Vec<u8, A>, ToolFault>
    ensures { let IsDue = IsTextResult text.now action.now.given action.now.padding action.now.output in
        MatchResult result (λ v. IsDue (Ok v.items)) (FailsAsDue IsDue) }
{
    match &action.given {
        Some(given) => expand_given(alloc, text, given, &action.padding, action.output),
        None => padded_output(alloc, text, &action.padding, action.output),
    }
}

/// The result of a value, or of none if nothing has the name. It is not sound if it is of a flag that is not set.
fn value_result<A: Allocator + Copy>(
    alloc: A,
    item: Option<Item<'_>>,
    action: &Get<'_>,
) -> Result<Answer<A>, ToolFault>
    ensures { let value = option_map item_value item.entry in
        MatchResult result
        (λ a. IsValueResult value action.now a.passed (Ok a.bytes.items))
        (FailsAsDue (IsValueResult value action.now true)) }
{
    match item {
        Some(Item::Flag(flag)) => Ok(Answer {
            bytes: Vec::new(alloc),
            passed: flag == Flag::Yes,
        }),
        Some(Item::Number(number)) => Ok(Answer {
            bytes: number_result(alloc, number)?,
            passed: true,
        }),
        Some(Item::Text(Text::Value(text))) => Ok(Answer {
            bytes: text_result(alloc, text, action)?,
            passed: true,
        }),
        Some(Item::Text(Text::Absent | Text::Cancelled)) => Err(ToolFault::NoSuchText),
        None => Err(ToolFault::NoSuchName),
    }
}

/// The result of `get` for an entry. It is not sound if it is of a flag that is not set.
pub fn get_result<A: Allocator + Copy>(
    alloc: A,
    entry: &Entry<'_>,
    action: &Get<'_>,
) -> Result<Answer<A>, ToolFault>
    ensures { MatchResult result
        (λ a. IsGot action.now a.passed entry.now (Ok a.bytes.items))
        (FailsAsDue (IsGot action.now true entry.now)) }
{
    let item = item_called(entry, action.name, Names::All);
    match unfit_word(action.name, &action.given, item) {
        Some(which) => Err(ToolFault::OnlyNumbers(which)),
        None => value_result(alloc, item, action),
    }
}
