//! `trace`: what one capability does, token by token, also one of an entry.

ghost use Rattle.std.specs.Prelude.{Ok, MatchResult, option_map};
ghost use Rattle.ti_words.specs.Items.{item_value};
ghost use Rattle.ti_tool.specs.Got.{IsDueBy};
ghost use Rattle.ti_tool.specs.Traces.{IsTraced, IsTracedBy, IsTracedOf, IsTracedValue};
ghost use Rattle.ti_tool.specs.Calls.{FailsAsDue};

use crate::command::document::as_line;
use crate::fault::ToolFault;
use crate::given_values::values_for;
use crate::item_name::{Names, item_called};
use crate::unfit::unfit_word;
use std::alloc::Allocator;
use ti_cap::Capability;
use ti_entry::Entry;
use ti_expand::Value;
use ti_line::{Given, TraceForm, TraceOf};
use ti_trace::{trace, trace_json};
use ti_words::{Item, Text};

/// The parameters if no word gives one.
const NO_VALUES: [Value<'static>; 9] = [Value::Num(0); 9];

/// The result of `trace` for an input.
pub fn trace_result<A: Allocator + Copy>(
    alloc: A,
    input: &[u8],
    parameters: &[Value<'_>; 9],
    form: TraceForm,
) -> Result<Vec<u8, A>, ToolFault>
    ensures { MatchResult result
        (λ v. IsTraced parameters.now form input.now (Ok v.items))
        (FailsAsDue (IsTraced parameters.now form input.now)) }
{
    match form {
        TraceForm::Lines(options) => Ok(trace(alloc, input, parameters, &options)?),
        TraceForm::Json => Ok(as_line(trace_json(alloc, input, parameters)?)?),
    }
}

/// The trace of a text with the parameters that words gave.
fn trace_given<A: Allocator + Copy>(
    alloc: A,
    text: &[u8],
    given: &Given<'_>,
    form: TraceForm,
) -> Result<Vec<u8, A>, ToolFault>
    ensures { let IsDue = IsDueBy text.now given.now (λ parameters. IsTraced parameters form text.now) in
        MatchResult result (λ v. IsDue (Ok v.items)) (FailsAsDue IsDue) }
{
    let capability = Capability::parse(text)?;
    let parameters = values_for(&capability, given.params);
    trace_result(alloc, text, &parameters, form)
}

/// The trace of a text. With no parameter all are the number 0.
fn trace_text<A: Allocator + Copy>(
    alloc: A,
    text: &[u8],
    action: &TraceOf<'_>,
) -> Result<Vec<u8, A>, ToolFault>
    ensures { let IsDue = IsTracedBy text.now action.now.given action.now.form in
        MatchResult result (λ v. IsDue (Ok v.items)) (FailsAsDue IsDue) }
{
    match &action.given {
        Some(given) => trace_given(alloc, text, given, action.form),
        None => trace_result(alloc, text, &NO_VALUES, action.form),
    }
}

/// The trace of a value, if it is a text that is there.
fn trace_value<A: Allocator + Copy>(
    alloc: A,
    item: Option<Item<'_>>,
    action: &TraceOf<'_>,
) -> Result<Vec<u8, A>, ToolFault>
    ensures { let IsDue = IsTracedValue (option_map item_value item.entry) action.now in
        MatchResult result (λ v. IsDue (Ok v.items)) (FailsAsDue IsDue) }
{
    match item {
        Some(Item::Text(Text::Value(text))) => trace_text(alloc, text, action),
        Some(_) => Err(ToolFault::NoSuchText),
        None => Err(ToolFault::NoSuchName),
    }
}

/// The result of `trace` for a capability of an entry.
pub fn trace_of_result<A: Allocator + Copy>(
    alloc: A,
    entry: &Entry<'_>,
    action: &TraceOf<'_>,
) -> Result<Vec<u8, A>, ToolFault>
    ensures { MatchResult result
        (λ v. IsTracedOf action.now entry.now (Ok v.items))
        (FailsAsDue (IsTracedOf action.now entry.now)) }
{
    let item = item_called(entry, action.name, Names::All);
    match unfit_word(action.name, &action.given, item) {
        Some(which) => Err(ToolFault::OnlyNumbers(which)),
        None => trace_value(alloc, item, action),
    }
}
