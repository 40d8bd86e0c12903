//! `lint`: what is wrong with an entry.

ghost use Rattle.std.specs.Prelude.{Ok, IfOk};
ghost use Rattle.ti_tool.specs.Results.{IsLinted};

use crate::command::Answer;
use std::alloc::{AllocError, Allocator};
use ti_entry::Entry;
use ti_escape::Color;
use ti_forms::report_lines;
use ti_lint::LintOptions;
use ti_rules::{Trials, remarks_of};

/// The lines on an entry that the bytes spell, with something before the first of each finding.
pub fn findings_of_entry<A: Allocator + Copy>(
    alloc: A,
    trials: &mut Trials<A>,
    options: LintOptions,
    color: Color,
    before: &[u8],
    input: &[u8],
    entry: &Entry<'_>,
) -> Result<Answer<A>, AllocError>
    ensures { IfOk result (λ a.
        IsLinted options color before.now a.passed input.now entry.now (Ok a.bytes.items)) }
{
    let remarks = remarks_of(alloc, trials, options, input, entry)?;
    let bytes = report_lines(alloc, color, before, remarks.as_slice())?;
    let passed = remarks.is_empty();
    Ok(Answer { bytes, passed })
}
