//! `--json`: documents of JSON on an entry.

ghost use Rattle.std.specs.Prelude.{◌≡◌, ◌++◌, ℕ, List, codes, Ok, IfOk};
ghost use Rattle.ti_tool.specs.Documents.{FindsIn, IsDocument, IsDocumentOfFile, IsOfRows, IsVerdictOf};

use crate::command::Answer;
use crate::command::check::write_verdicts;
use std::alloc::{AllocError, Allocator};
use ti_entry::Entry;
use ti_forms::{print_remarks, report_json};
use ti_json::write_entry;
use ti_line::Document;
use ti_lint::LintOptions;
use ti_rules::{Trials, remarks_of};
use ti_sink::Printer;

/// A document with a newline after it.
pub fn as_line<A: Allocator>(document: Vec<u8, A>) -> Result<Vec<u8, A>, AllocError>
    ensures { IfOk result (λ line. line.items ≡ document.items ++ codes "\n") }
{
    let mut line = document;
    line.push(b'\n')?;
    Ok(line)
}

/// The findings on an entry that the bytes spell, in a line.
fn findings<A: Allocator + Copy>(
    alloc: A,
    trials: &mut Trials<A>,
    options: LintOptions,
    input: &[u8],
    entry: &Entry<'_>,
) -> Result<Answer<A>, AllocError>
    ensures { IfOk result (λ a. IsDocument (Document.Findings options) a.passed input.now entry.now (Ok a.bytes.items)) }
{
    let remarks = remarks_of(alloc, trials, options, input, entry)?;
    let bytes = as_line(report_json(alloc, remarks.as_slice())?)?;
    let passed = remarks.is_empty();
    Ok(Answer { bytes, passed })
}

/// The same of a file, in an object with its name.
fn findings_of_file<A: Allocator + Copy>(
    alloc: A,
    trials: &mut Trials<A>,
    options: LintOptions,
    name: &str,
    input: &[u8],
    entry: &Entry<'_>,
) -> Result<Answer<A>, AllocError>
    ensures { IfOk result (λ a.
        IsDocumentOfFile (Document.Findings options) name.now a.passed input.now entry.now a.bytes.items) }
{
    let remarks = remarks_of(alloc, trials, options, input, entry)?;
    let passed = remarks.is_empty();
    let mut sink = Printer::new(alloc);
    sink.begin_object();
    sink.text("file", name.as_bytes());
    sink.key(key_of(Document::Findings(options)));
    print_remarks(&mut sink, alloc, remarks.as_slice());
    sink.end();
    // Each call fits, as rows show.
    if sink.is_misused() {
        return Err(AllocError);
    }
    let bytes = as_line(sink.finish()?)?;
    Ok(Answer { bytes, passed })
}

/// Writes a document of rows on an entry, and returns whether nothing is wrong.
fn write_document<A: Allocator>(
    printer: &mut Printer<A>,
    document: Document,
    entry: &Entry<'_>,
) -> bool
    requires { IsOfRows document }
    ensures finds { FindsIn document result }
    ensures verdict { IsVerdictOf document result entry.now }
{
    match document {
        Document::Listing => {
            write_entry(printer, entry);
            true
        }
        Document::Verdicts(which) => write_verdicts(printer, which, entry),
        Document::Findings(_) => unreachable!(),
    }
}

/// A document on an entry that the bytes spell, in a line.
pub fn document_of<A: Allocator + Copy>(
    alloc: A,
    trials: &mut Trials<A>,
    document: Document,
    input: &[u8],
    entry: &Entry<'_>,
) -> Result<Answer<A>, AllocError>
    ensures finds { IfOk result (λ a. FindsIn document a.passed) }
    ensures due { IfOk result (λ a. IsDocument document a.passed input.now entry.now (Ok a.bytes.items)) }
{
    if let Document::Findings(options) = document {
        return findings(alloc, trials, options, input, entry);
    }
    let mut printer = Printer::new(alloc);
    let passed = write_document(&mut printer, document, entry);
    let bytes = as_line(printer.finish()?)?;
    Ok(Answer { bytes, passed })
}

/// Returns the key of a document in the object of its file.
fn key_of(document: Document) -> &'static str {
    match document {
        Document::Listing => "items",
        Document::Verdicts(_) => "verdicts",
        Document::Findings(_) => "findings",
    }
}

/// A document on an entry that the bytes of a file spell, in an object with the name of the file, in a line.
pub fn document_of_file<A: Allocator + Copy>(
    alloc: A,
    trials: &mut Trials<A>,
    document: Document,
    name: &str,
    input: &[u8],
    entry: &Entry<'_>,
) -> Result<Answer<A>, AllocError>
    ensures finds { IfOk result (λ a. FindsIn document a.passed) }
    ensures due { IfOk result (λ a. IsDocumentOfFile document name.now a.passed input.now entry.now a.bytes.items) }
{
    if let Document::Findings(options) = document {
        return findings_of_file(alloc, trials, options, name, input, entry);
    }
    let mut printer = Printer::new(alloc);
    printer.begin_object();
    printer.text("file", name.as_bytes());
    printer.key(key_of(document));
    let passed = write_document(&mut printer, document, entry);
    printer.end();
    let bytes = as_line(printer.finish()?)?;
    Ok(Answer { bytes, passed })
}
