//! The output for a request, from what was read, with a module for each subcommand: nothing here reads or writes.

ghost use Rattle.std.specs.Prelude.{Ok, IfErr, IfOk, MatchResult, true};
ghost use Rattle.ti_line.specs.declared.request.Action.TheVariants as asks;
ghost use Rattle.ti_tool.specs.Results.{Finds, IsDueIn, IsOutputOf};
ghost use Rattle.ti_tool.specs.Sources.{IsDueForSource};
ghost use Rattle.ti_tool.specs.Calls.{FailsAsDue};

pub mod cap;
pub mod check;
pub mod convert;
pub mod document;
pub mod expand;
pub mod get;
pub mod lint;
pub mod trace;

use crate::command::cap::cap_result;
use crate::command::check::verdicts_of;
use crate::command::convert::convert_result;
use crate::command::document::document_of;
use crate::command::expand::expand_result;
use crate::command::get::get_result;
use crate::command::lint::findings_of_entry;
use crate::command::trace::{trace_of_result, trace_result};
use crate::fault::ToolFault;
use crate::notation::put_text;
use crate::pasted::has_name;
use std::alloc::Allocator;
use ti_entry::Entry;
use ti_expand::Value;
use ti_line::{CapabilityResult, EntryAction};
use ti_listing::lines_of;
use ti_rules::Trials;

/// A result, and whether it is of nothing that `check` or `lint` found and of no flag that is not set.
#[derive(Drop)]
pub struct Answer<A: Allocator> {
    /// The bytes of the result.
    pub bytes: Vec<u8, A>,
    /// Whether nothing is wrong, and a flag is set; true for all requests but those of `check`, also as JSON, `lint` and `get`.
    pub passed: bool,
}

/// The output for a capability.
pub fn answer_of_capability<A: Allocator + Copy>(
    alloc: A,
    output: CapabilityResult,
    parameters: &[Value<'_>; 9],
    input: &[u8],
) -> Result<Vec<u8, A>, ToolFault>
    ensures { MatchResult result
        (λ v. IsOutputOf output parameters.now input.now (Ok v.items))
        (FailsAsDue (IsOutputOf output parameters.now input.now)) }
{
    match output {
        CapabilityResult::Cap(output) => cap_result(alloc, input, parameters, output),
        CapabilityResult::Trace(form) => trace_result(alloc, input, parameters, form),
    }
}

/// The output for the capability whose notation is in an input. Its text is put in the place of the notation.
pub fn answer_of_source<A: Allocator + Copy>(
    alloc: A,
    output: CapabilityResult,
    parameters: &[Value<'_>; 9],
    input: &mut [u8],
) -> Result<Vec<u8, A>, ToolFault>
    ensures { let IsDue = IsDueForSource (IsOutputOf output parameters.now) input.old in
        MatchResult result (λ v. IsDue (Ok v.items)) (FailsAsDue IsDue) }
{
    if has_name(input) {
        return Err(ToolFault::HasName);
    }
    let len = put_text(input)?;
    answer_of_capability(alloc, output, parameters, &input[..len])
}

/// The output for an entry that the bytes spell. Something stands before the first line of each finding of `lint`, for which
/// texts that were tried for earlier entries with the same trials are not tried again.
pub fn answer_of_entry<A: Allocator + Copy>(
    alloc: A,
    trials: &mut Trials<A>,
    action: &EntryAction<'_>,
    before: &[u8],
    bytes: &[u8],
    entry: &Entry<'_>,
) -> Result<Answer<A>, ToolFault>
    ensures finds { IfOk result (λ a. Finds (asks.Entry action.now) a.passed) }
    ensures due { IfOk result
        (λ a. IsDueIn before.now action.now a.passed bytes.now entry.now
        (Ok a.bytes.items)) }
    ensures fault { IfErr result
        (FailsAsDue (IsDueIn before.now action.now true bytes.now entry.now)) }
{
    let bytes = match action {
        EntryAction::Show(options) => lines_of(alloc, *options, entry)?,
        EntryAction::Json(document) => {
            return Ok(document_of(alloc, trials, *document, bytes, entry)?);
        }
        EntryAction::Check(which, naming) => {
            return Ok(verdicts_of(alloc, *which, *naming, entry)?);
        }
        EntryAction::Lint(options, color) => {
            return Ok(findings_of_entry(alloc, trials, *options, *color, before, bytes, entry)?);
        }
        EntryAction::Expand(expand) => expand_result(alloc, entry, expand)?,
        EntryAction::Convert(width) => convert_result(alloc, entry, *width)?,
        EntryAction::Get(get) => return get_result(alloc, entry, get),
        EntryAction::Trace(of) => trace_of_result(alloc, entry, of)?,
    };
    Ok(Answer {
        bytes,
        passed: true,
    })
}
