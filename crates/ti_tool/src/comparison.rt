//! A run of `diff`: two files are read, and what they do not have alike is written.
//!
//! The first file that can't be read, or is no entry, ends the run with the line on that.

ghost use Rattle.std.specs.Prelude.{◌≡◌, ◌≢◌, ◌≤◌, ◌⊎◌, IfOk};
ghost use Rattle.ti_tool.specs.Comparisons.{AreCompared, AreSupplied, IsCompared, IsComparison, IsComparisonText, IsRefusedFile, RanDifference};
ghost use Rattle.ti_layout.specs.Refusal.{refusal};
ghost use Rattle.ti_tool.specs.FileRuns.{Supply};
ghost use Rattle.ti_tool.specs.Runs.{MayHaveWritten};
ghost use Rattle.ti_tool.specs.Streams.{streams};
ghost use Rattle.ti_tool.specs.inner.Files.{EndsFile};

use crate::command::document::as_line;
use crate::delivery::deliver_outcome;
use crate::fault::ToolFault;
use crate::fault_line::{advised, fault_line};
use crate::file_answer::push_called;
use crate::outcome::{Outcome, contents_of, fault_outcome, refused_outcome};
use crate::store::Store;
use crate::voice::{Tally, write_refusal};
use std::alloc::{AllocError, Allocator};
use std::io::{Read, Write};
use ti_entry::{Entry, Refused, read};
use ti_line::{Comparison, Pair};
use ti_listing::{Difference, difference_of, differing_json, differing_lines, write_grouped};
use ti_sink::{Page, ShortPage};

/// Returns the outcome of contents that are no entry.
fn refusal_outcome<A: Allocator + Copy>(
    alloc: A,
    has_advice: bool,
    name: &str,
    contents: &[u8],
    refused: Refused,
) -> Result<Outcome<A>, AllocError>
    requires { refusal contents.now ≡ Some refused }
    ensures ends { IfOk result (λ o. EndsFile o.status o.bytes.items o.line.items) }
    ensures led { IfOk result (λ o. IsRefusedFile has_advice name.now contents.now
        o.bytes.items o.line.items o.status) }
{
    let mut page = ShortPage::new();
    write_refusal(&mut page, contents, refused);
    let lines = advised(has_advice, &fault_line(&ToolFault::Entry(refused)), &page);
    fault_outcome(alloc, name, lines.as_slice(), 3)
}

/// Writes the name of a file as it is called in lines.
fn write_called<A: Allocator + Copy>(page: &mut Page<A>, alloc: A, name: &str) {
    let mut called = Vec::new(alloc);
    if push_called(&mut called, name).is_err() {
        page.refuse();
    }
    page.bytes(called.as_slice())
}

/// Writes the lines for people, if there are any, after the names of the files, each after the sign of its lines.
fn write_headed<A: Allocator + Copy>(
    page: &mut Page<A>,
    alloc: A,
    pair: &Pair<'_>,
    differences: &[Difference<'_>],
) {
    if differences.is_empty() {
        return;
    }
    page.put("--- ");
    write_called(page, alloc, pair.file);
    page.put("\n+++ ");
    write_called(page, alloc, pair.other);
    page.put("\n");
    write_grouped(page, alloc, differences)
}

/// Returns the differences of the entries of two files, in the form that is requested.
fn comparison_text<A: Allocator + Copy>(
    alloc: A,
    pair: &Pair<'_>,
    differences: &[Difference<'_>],
) -> Result<Vec<u8, A>, AllocError>
    ensures { IfOk result (λ v. IsComparisonText pair.now.form v.items) }
{
    match pair.form {
        Comparison::Lines(color) => differing_lines(alloc, color, differences),
        Comparison::Headed(color) => {
            let mut page = Page::new(alloc, color);
            write_headed(&mut page, alloc, pair, differences);
            page.finish(color)
        }
        Comparison::Json => as_line(differing_json(alloc, differences)?),
    }
}

/// Returns the outcome of two entries: their differences.
fn difference_outcome<'a, A: Allocator + Copy>(
    alloc: A,
    pair: &Pair<'_>,
    one: &Entry<'a>,
    other: &Entry<'a>,
) -> Result<Outcome<A>, AllocError>
    ensures ends { IfOk result (λ o. EndsFile o.status o.bytes.items o.line.items) }
    ensures led { IfOk result (λ o. AreCompared pair.now.likeness pair.now.form
        one.now other.now o.bytes.items o.line.items o.status) }
{
    let differences = difference_of(alloc, pair.likeness, one, other)?;
    let status = if differences.is_empty() { 0 } else { 1 };
    let bytes = comparison_text(alloc, pair, differences.as_slice())?;
    Ok(Outcome {
        bytes,
        line: Vec::new(alloc),
        status,
        tally: Tally::NONE,
    })
}

/// Returns the outcome of the contents of two files.
fn outcome_of_both<A: Allocator + Copy>(
    alloc: A,
    has_advice: bool,
    pair: &Pair<'_>,
    contents: &[u8],
    of_other: &[u8],
) -> Result<Outcome<A>, AllocError>
    ensures ends { IfOk result (λ o. EndsFile o.status o.bytes.items o.line.items) }
    ensures led { IfOk result (λ o. IsCompared has_advice pair.now.likeness pair.now.form pair.now.file.now pair.now.other.now
        contents.now of_other.now o.bytes.items o.line.items o.status) }
{
    let one = match read(contents) {
        Ok(entry) => entry,
        Err(refused) => return refusal_outcome(alloc, has_advice, pair.file, contents, refused),
    };
    let other = match read(of_other) {
        Ok(entry) => entry,
        Err(refused) => return refusal_outcome(alloc, has_advice, pair.other, of_other, refused),
    };
    difference_outcome(alloc, pair, &one, &other)
}

/// Returns the outcome of two files.
fn outcome_of_pair<S: Store, A: Allocator + Copy, R: Read>(
    store: &S,
    alloc: A,
    has_advice: bool,
    pair: &Pair<'_>,
    input: &mut R,
) -> Result<Outcome<A>, AllocError>
    ensures ends { IfOk result (λ o. EndsFile o.status o.bytes.items o.line.items) }
    ensures led { IfOk result (λ o. (one : Supply) × (two : Supply)
        × AreSupplied (S.known store.now) pair.now (R.remaining input.old) (R.remaining input.new) one two
        × IsComparison has_advice pair.now.likeness pair.now.form pair.now.file.now pair.now.other.now one two
        o.bytes.items o.line.items o.status) }
{
    let contents = match contents_of(store, alloc, pair.file, input) {
        Ok(contents) => contents,
        Err(error) => return refused_outcome(alloc, pair.file, &error),
    };
    let of_other = match contents_of(store, alloc, pair.other, input) {
        Ok(contents) => contents,
        Err(error) => return refused_outcome(alloc, pair.other, &error),
    };
    outcome_of_both(
        alloc,
        has_advice,
        pair,
        contents.as_slice(),
        of_other.as_slice(),
    )
}

/// Compares two files, and writes what they do not have alike.
pub fn run_pair<S: Store, A: Allocator + Copy, R: Read, W: Write, E: Write>(
    store: &S,
    alloc: A,
    has_advice: bool,
    pair: &Pair<'_>,
    input: &mut R,
    output: &mut W,
    errors: &mut E,
) -> u8
    ensures known { result ≢ 2 }
    ensures silent { result ≤ 1 → errors.new ≡ errors.old }
    ensures ran { RanDifference (S.known store.now) has_advice pair.now (output.new ≡ output.old)
        (streams (R.remaining input.old) (W.contents output.old) (E.contents errors.old))
        (streams (R.remaining input.new) (W.contents output.new) (E.contents errors.new)) result }
    ensures unwritten { MayHaveWritten result ⊎ (output.new ≡ output.old) }
{
    let outcome = outcome_of_pair(store, alloc, has_advice, pair, input);
    deliver_outcome(alloc, has_advice, outcome, output, errors).unwrap_or(5)
}
