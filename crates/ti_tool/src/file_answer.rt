//! The output for a file that was named, from its contents: nothing here reads or writes.

ghost use Rattle.std.specs.Prelude.{◌≡◌, ◌++◌, ℕ, List, codes, Ok, OnOk, IfErr, IfOk, true};
ghost use Rattle.ti_line.specs.declared.request.Action.TheVariants as asks;
ghost use Rattle.ti_line.specs.declared.request.EntryAction.TheVariants as of_entry;
ghost use Rattle.ti_listing.specs.Listing.{entry_lines};
ghost use Rattle.ti_tool.specs.Calls.{FailsAsDue};
ghost use Rattle.ti_tool.specs.Files.{IsDueOfFile, before_findings as the_before_findings, each_line, file_called, file_line as the_file_line, one_of_several as the_one_of_several, shown_file};
ghost use Rattle.ti_tool.specs.Results.{Finds, IsDueIn, IsDueOf, IsLinted};
ghost use Rattle.ti_tool.specs.Verdicts.{AreVerdicts};
ghost use Rattle.ti_tool.specs.inner.Several.{IsDueOfSeveral};

use crate::command::check::verdicts_of;
use crate::command::document::document_of_file;
use crate::command::lint::findings_of_entry;
use crate::command::{Answer, answer_of_entry};
use crate::fault::ToolFault;
use std::alloc::{AllocError, Allocator};
use ti_entry::{Entry, read};
use ti_escape::{Color, push_notation};
use ti_line::{EntryAction, ListOptions, NameForm, Naming, Verdicts};
use ti_lint::LintOptions;
use ti_listing::lines_of;
use ti_rules::Trials;

/// A file that was named.
#[derive(Clone, Copy, Debug)]
pub struct Named<'a> {
    /// Its name.
    pub name: &'a str,
    /// Whether it is one of several, or lies in a folder that was named: then its result has its name.
    pub is_one_of_several: bool,
}

/// Writes the name of a file.
fn push_name<A: Allocator>(
    out: &mut Vec<u8, A>,
    form: NameForm,
    name: &str,
) -> Result<(), AllocError>
    ensures { OnOk result (out.new.items ≡ out.old.items ++ shown_file form name.now) }
{
    match form {
        NameForm::Raw => out.extend_from_slice(name.as_bytes()),
        NameForm::Notation if name == "-" => out.extend_from_slice(b"-"),
        NameForm::Notation => push_notation(out, name.as_bytes()),
    }
}

/// Writes lines with something before each.
fn push_each_line<A: Allocator>(
    out: &mut Vec<u8, A>,
    before: &[u8],
    lines: &[u8],
) -> Result<(), AllocError>
    ensures { OnOk result
        (out.new.items ≡ out.old.items ++ each_line before.now true lines.now) }
{
    let mut at_start = true;
    for byte in lines {
        if at_start {
            out.extend_from_slice(before)?;
        }
        out.push(*byte)?;
        at_start = *byte == b'\n';
    }
    Ok(())
}

/// A listing after a line with the name of its file.
fn after_name<A: Allocator + Copy>(
    alloc: A,
    form: NameForm,
    name: &str,
    listing: &[u8],
) -> Result<Vec<u8, A>, AllocError>
    ensures { IfOk result (λ v. v.items
        ≡ codes "file: " ++ shown_file form name.now ++ codes "\n" ++ listing.now) }
{
    let mut out = Vec::new(alloc);
    out.extend_from_slice(b"file: ")?;
    push_name(&mut out, form, name)?;
    out.extend_from_slice(b"\n")?;
    out.extend_from_slice(listing)?;
    Ok(out)
}

/// Verdicts, each after the name of their file.
fn by_name<A: Allocator + Copy>(
    alloc: A,
    form: NameForm,
    name: &str,
    verdicts: &[u8],
) -> Result<Vec<u8, A>, AllocError>
    ensures { IfOk result (λ v. v.items
        ≡ each_line (shown_file form name.now ++ codes ": ") true verdicts.now) }
{
    let mut before = Vec::new(alloc);
    push_name(&mut before, form, name)?;
    before.extend_from_slice(b": ")?;
    let mut out = Vec::new(alloc);
    push_each_line(&mut out, before.as_slice(), verdicts)?;
    Ok(out)
}

/// Writes what a file is called before a line on it.
pub fn push_called<A: Allocator>(out: &mut Vec<u8, A>, name: &str) -> Result<(), AllocError>
    ensures { OnOk result (out.new.items ≡ out.old.items ++ file_called name.now) }
{
    if name == "-" {
        out.extend_from_slice(b"standard input")
    } else {
        push_notation(out, name.as_bytes())
    }
}

/// Returns the bytes before the first line of each finding in one of several files.
fn before_findings<A: Allocator + Copy>(alloc: A, name: &str) -> Result<Vec<u8, A>, AllocError>
    ensures { IfOk result (λ v. v.items ≡ the_before_findings true name.now) }
{
    let mut before = Vec::new(alloc);
    push_called(&mut before, name)?;
    before.extend_from_slice(b": ")?;
    Ok(before)
}

/// The lines of `show` on one of several files.
fn listing_of_file<A: Allocator + Copy>(
    alloc: A,
    options: ListOptions,
    name: &str,
    entry: &Entry<'_>,
) -> Result<Answer<A>, AllocError>
    ensures passed { IfOk result (λ a. a.passed ≡ true) }
    ensures due { IfOk result (λ a. a.bytes.items
        ≡ the_one_of_several (of_entry.Show options) name.now (entry_lines options entry.now)) }
{
    let listing = lines_of(alloc, options, entry)?;
    let bytes = after_name(alloc, options.naming.form, name, listing.as_slice())?;
    Ok(Answer {
        bytes,
        passed: true,
    })
}

/// The lines of `check` on one of several files.
fn verdicts_of_file<A: Allocator + Copy>(
    alloc: A,
    which: Verdicts,
    naming: Naming,
    name: &str,
    entry: &Entry<'_>,
) -> Result<Answer<A>, AllocError>
    ensures { IfOk result (λ a. (plain : List ℕ) × AreVerdicts which naming entry.now plain a.passed
        × (a.bytes.items ≡ the_one_of_several (of_entry.Check which naming) name.now plain)) }
{
    let Answer { bytes, passed } = verdicts_of(alloc, which, naming, entry)?;
    let bytes = by_name(alloc, naming.form, name, bytes.as_slice())?;
    Ok(Answer { bytes, passed })
}

/// The lines of `lint` on one of several files.
fn findings_of_file<A: Allocator + Copy>(
    alloc: A,
    trials: &mut Trials<A>,
    options: LintOptions,
    color: Color,
    name: &str,
    contents: &[u8],
    entry: &Entry<'_>,
) -> Result<Answer<A>, AllocError>
    ensures { IfOk result (λ a. IsLinted options color (the_before_findings true name.now) a.passed
        contents.now entry.now (Ok a.bytes.items)) }
{
    let before = before_findings(alloc, name)?;
    findings_of_entry(
        alloc,
        trials,
        options,
        color,
        before.as_slice(),
        contents,
        entry,
    )
}

/// The output of a request for one of several files.
fn answer_of_several<A: Allocator + Copy>(
    alloc: A,
    trials: &mut Trials<A>,
    action: &EntryAction<'_>,
    name: &str,
    contents: &[u8],
    entry: &Entry<'_>,
) -> Result<Answer<A>, ToolFault>
    ensures finds { IfOk result (λ a. Finds (asks.Entry action.now) a.passed) }
    ensures due { IfOk result (λ a. IsDueOfSeveral action.now name.now
        a.passed contents.now entry.now a.bytes.items) }
    ensures fault { IfErr result (FailsAsDue (IsDueIn (the_before_findings true name.now)
        action.now true contents.now entry.now)) }
{
    match action {
        EntryAction::Show(options) => Ok(listing_of_file(alloc, *options, name, entry)?),
        EntryAction::Json(document) => {
            Ok(document_of_file(alloc, trials, *document, name, contents, entry)?)
        }
        EntryAction::Check(which, naming) => {
            Ok(verdicts_of_file(alloc, *which, *naming, name, entry)?)
        }
        EntryAction::Lint(options, color) => {
            Ok(findings_of_file(alloc, trials, *options, *color, name, contents, entry)?)
        }
        EntryAction::Expand(_)
        | EntryAction::Convert(_)
        | EntryAction::Get(_)
        | EntryAction::Trace(_) => { answer_of_entry(alloc, trials, action, b"", contents, entry) }
    }
}

/// The output for the contents of a file: the output for an entry of these bytes, with the name of the file if it is one
/// of several. `lint` does not try again the texts that were tried for earlier files with the same trials.
///
/// # Errors
///
/// Those of the entry; [`ToolFault::Memory`] if a growth is refused, which no fault of the contents needs.
pub fn answer_of_file<A: Allocator + Copy>(
    alloc: A,
    trials: &mut Trials<A>,
    action: &EntryAction<'_>,
    file: Named<'_>,
    contents: &[u8],
) -> Result<Answer<A>, ToolFault>
    ensures finds { IfOk result (λ a. Finds (asks.Entry action.now) a.passed) }
    ensures due { IfOk result (λ a. IsDueOfFile file.entry.is_one_of_several action.now file.entry.name.now a.passed contents.now a.bytes.items) }
    ensures fault { IfErr result (FailsAsDue (IsDueOf
        (the_before_findings file.entry.is_one_of_several file.entry.name.now)
        action.now true contents.now)) }
{
    let entry = read(contents)?;
    if file.is_one_of_several {
        return answer_of_several(alloc, trials, action, file.name, contents, &entry);
    }
    answer_of_entry(alloc, trials, action, b"", contents, &entry)
}

/// The line on the fault of a file, after its name, of which each character can be printed.
pub fn file_line<A: Allocator + Copy>(
    alloc: A,
    name: &str,
    line: &[u8],
) -> Result<Vec<u8, A>, AllocError>
    ensures { IfOk result (λ v. v.items ≡ the_file_line name.now line.now) }
{
    let mut out = Vec::new(alloc);
    push_called(&mut out, name)?;
    out.extend_from_slice(b": ")?;
    out.extend_from_slice(line)?;
    Ok(out)
}
