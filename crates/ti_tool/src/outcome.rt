//! The outcome of a file: a result or a line on its fault, and the status.
//!
//! The output for contents is made by `file_answer`. Here a file is read, and its outcome counted.

ghost use Rattle.std.specs.Prelude.{◌≡◌, ◌<◌, [], IfOk, is_some, string_bytes, false};
ghost use Rattle.ti_line.specs.CommandLine.{is_minus as the_is_minus};
ghost use Rattle.ti_tool.specs.FileRuns.{IsOutcome, IsOutcomeOfContents, IsReadFrom, IsSupplied, IsUnread, Supply};
ghost use Rattle.ti_tool.specs.Files.{file_line as the_file_line};
ghost use Rattle.ti_tool.specs.Streams.{file_name};
ghost use Rattle.ti_tool.specs.inner.Files.{EndsFile, job_of};

use crate::file_answer::{Named, answer_of_file, file_line};
use crate::program::entry_line;
use crate::status::status;
use crate::store::{FoundFile, Store, read_contents};
use crate::summary::look_at;
use crate::voice::{Tally, write_reason};
use std::alloc::{AllocError, Allocator};
use std::io;
use std::io::{ErrorKind, Read};
use ti_line::EntryAction;
use ti_lint::LintOptions;
use ti_rules::Trials;
use ti_sink::ShortPage;

/// The request on each file.
#[derive(Clone, Copy)]
pub struct Errand<'a> {
    /// The request.
    pub of_entry: &'a EntryAction<'a>,
    /// Whether results have the names of their files.
    pub are_several: bool,
    /// The options of `lint`, if a summary is wanted of it.
    pub summary: Option<LintOptions>,
    /// Whether a line on a fault is followed by advice.
    pub has_advice: bool,
}

/// The outcome of a file: a result or a line on its fault, and the status; and how much was looked at in it, if that is wanted.
#[derive(Drop)]
pub struct Outcome<A: Allocator> {
    pub bytes: Vec<u8, A>,
    pub line: Vec<u8, A>,
    pub status: u8,
    pub tally: Tally,
}

/// Returns the outcome of a fault.
pub fn fault_outcome<A: Allocator + Copy>(
    alloc: A,
    name: &str,
    line: &[u8],
    status: u8,
) -> Result<Outcome<A>, AllocError>
    requires { 2 < status }
    ensures ends { IfOk result (λ o. EndsFile o.status o.bytes.items o.line.items) }
    ensures led { IfOk result (λ o. (o.bytes.items ≡ [])
        × (o.line.items ≡ the_file_line name.now line.now) × (o.status ≡ status)) }
{
    Ok(Outcome {
        bytes: Vec::new(alloc),
        line: file_line(alloc, name, line)?,
        status,
        tally: Tally::NONE,
    })
}

/// Returns the outcome of a file that the system does not give.
pub fn refused_outcome<A: Allocator + Copy>(
    alloc: A,
    name: &str,
    error: &io::Error,
) -> Result<Outcome<A>, AllocError>
    ensures ends { IfOk result (λ o. EndsFile o.status o.bytes.items o.line.items) }
    ensures led { IfOk result (λ o. IsUnread name.now o.bytes.items o.line.items o.status) }
{
    if error.kind() == ErrorKind::OutOfMemory {
        return Err(AllocError);
    }
    let said = format!(in alloc; "{error}")?;
    let mut page = ShortPage::new();
    write_reason(
        &mut page,
        said.as_str(),
        name,
        error.kind() == ErrorKind::NotFound,
    );
    fault_outcome(alloc, name, page.as_slice(), 5)
}

/// Whether a name is that of standard input.
pub fn is_minus(name: &str) -> bool
    ensures { result ≡ the_is_minus name.now }
{
    name == "-"
}

/// Reads the contents of a file; `-` is standard input.
pub fn contents_of<S: Store, A: Allocator + Copy, R: Read>(
    store: &S,
    alloc: A,
    name: &str,
    input: &mut R,
) -> io::Result<Vec<u8, A>>
    ensures read { IfOk result (λ v. IsReadFrom (the_is_minus name.now)
        ((S.known store.now).contents name.now)
        (R.remaining input.old) (R.remaining input.new) v.items) }
    ensures kept { the_is_minus name.now ≡ false → input.new ≡ input.old }
{
    let mut contents = Vec::new(alloc);
    if is_minus(name) {
        read_contents(input, &mut contents)?;
    } else {
        store.read(name, &mut contents)?;
    }
    Ok(contents)
}

/// Returns the outcome of the contents of a file.
fn outcome_of<A: Allocator + Copy>(
    alloc: A,
    trials: &mut Trials<A>,
    errand: &Errand<'_>,
    name: &str,
    contents: &[u8],
) -> Result<Outcome<A>, AllocError>
    ensures ends { IfOk result (λ o. EndsFile o.status o.bytes.items o.line.items) }
    ensures led { IfOk result (λ o. IsOutcomeOfContents (job_of errand.now) name.now contents.now
        o.bytes.items o.line.items o.status) }
{
    let Errand {
        of_entry,
        are_several,
        summary,
        has_advice,
    } = *errand;
    let file = Named {
        name,
        is_one_of_several: are_several,
    };
    match answer_of_file(alloc, trials, of_entry, file, contents) {
        Ok(answer) => Ok(Outcome {
            bytes: answer.bytes,
            line: Vec::new(alloc),
            status: status(&Ok(answer.passed)),
            tally: look_at(alloc, trials, summary, contents)?,
        }),
        Err(fault) => {
            let line = entry_line(alloc, has_advice, contents, of_entry, contents, &fault);
            fault_outcome(alloc, name, line.as_slice(), status(&Err(fault)))
        }
    }
}

/// Reads a file that was found.
pub fn outcome_of_found<S: Store, A: Allocator + Copy, R: Read>(
    store: &S,
    alloc: A,
    trials: &mut Trials<A>,
    errand: &Errand<'_>,
    found: &FoundFile<A>,
    input: &mut R,
) -> Result<Outcome<A>, AllocError>
    ensures ends { IfOk result (λ o. EndsFile o.status o.bytes.items o.line.items) }
    ensures led { IfOk result (λ o. (supply : Supply)
        × IsSupplied (S.known store.now) (file_name (string_bytes found.now.name) (is_some found.now.fault))
        (R.remaining input.old) (R.remaining input.new) supply
        × IsOutcome (job_of errand.now) (string_bytes found.now.name) supply
        o.bytes.items o.line.items o.status) }
    ensures kept { the_is_minus (string_bytes found.now.name) ≡ false → input.new ≡ input.old }
{
    let name = found.name.as_str();
    if let Some(error) = &found.fault {
        return refused_outcome(alloc, name, error);
    }
    match contents_of(store, alloc, name, input) {
        Ok(contents) => outcome_of(alloc, trials, errand, name, contents.as_slice()),
        Err(error) => refused_outcome(alloc, name, &error),
    }
}
