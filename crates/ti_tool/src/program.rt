//! The program over its words, a reader and two writers.

ghost use Rattle.std.specs.Prelude.{◌≡◌, ◌≢◌, ◌≤◌, ◌⊎◌, [], List, None};
ghost use Rattle.ti_line.specs.CommandLine.{AreRead, Command, Reads, Row, files_of};
ghost use Rattle.ti_line.specs.Requests.{texts_of};
ghost use Rattle.ti_line.specs.declared.request.Action.TheVariants.{Entry};
ghost use Rattle.ti_tool.specs.FaultLines.{IsAnswerLine, IsRequestLine};
ghost use Rattle.ti_tool.specs.FileRuns.{RanInput};
ghost use Rattle.ti_tool.specs.Runs.{DidLine, DidNoLine, EndsWords, HasNoSummary, MayHaveWritten, RanRequest, no_terminals};
ghost use Rattle.ti_tool.specs.Streams.{Stream, streams, unknown_files};

use crate::call::answer_of_input;
use crate::comparison::run_pair;
use crate::delivery::{Ending, deliver_last, line_alone};
use crate::explained::run_explanation;
use crate::extras::{Extras, extras_of};
use crate::fault::ToolFault;
use crate::fault_line::{AdvisedLine, advised, fault_line, names_capability, said, words_line};
use crate::files::run_files;
use crate::status::status;
use crate::store::{NoStore, Store};
use crate::summary::report_contents;
use crate::terminals::Terminals;
use crate::voice::{write_item_line, write_on_entry, write_on_input, write_request_line};
use arrayvec::ArrayVec;
use std::alloc::{Allocator, Global};
use std::io::{Read, Write};
use ti_entry::EntryReader;
use ti_line::{Action, EntryAction, LineFault, NoRequest, Request, read_line};
use ti_sink::ShortPage;

/// The line on the fault of a request on an entry, of which these bytes were read, with the advice after it, if it is wanted.
pub(crate) fn entry_line<A: Allocator + Copy>(
    alloc: A,
    has_advice: bool,
    front: &[u8],
    action: &EntryAction<'_>,
    input: &[u8],
    fault: &ToolFault,
) -> AdvisedLine
    ensures { IsAnswerLine has_advice (Entry action.now) fault.now result.items }
{
    let mut page = ShortPage::new();
    if names_capability(action, fault) {
        write_item_line(&mut page, alloc, action, input, fault);
        return said(&page);
    }
    if has_advice {
        write_on_entry(&mut page, front, action, input, fault);
    }
    advised(has_advice, &fault_line(fault), &page)
}

/// The line on the fault of a request, and the advice. The bytes of an entry are kept, and `input` has its front; else it is the
/// input, which may change.
fn answer_line<A: Allocator + Copy>(
    alloc: A,
    has_advice: bool,
    action: &Action<'_>,
    kept: &[u8],
    input: &mut [u8],
    fault: &ToolFault,
) -> AdvisedLine
    ensures { IsAnswerLine has_advice action.now fault.now result.items }
{
    if let Action::Entry(action) = action {
        return entry_line(alloc, has_advice, input, action, kept, fault);
    }
    let mut page = ShortPage::new();
    if has_advice {
        write_on_input(&mut page, action, input, fault);
    }
    advised(has_advice, &fault_line(fault), &page)
}

/// Carries out a request of standard input, which no word names. A fault is reported, or what was looked at, if that is wanted.
fn run_input<A: Allocator + Copy, R: Read, W: Write, E: Write>(
    alloc: A,
    extras: Extras,
    action: &Action<'_>,
    input: &mut R,
    output: &mut W,
    errors: &mut E,
) -> u8
    ensures ran { RanInput extras action.now (output.new ≡ output.old)
        (streams (R.remaining input.old) (W.contents output.old) (E.contents errors.old))
        (streams (R.remaining input.new) (W.contents output.new) (E.contents errors.new)) result }
    ensures known { result ≢ 2 }
    ensures silent { extras.summary ≡ None → result ≤ 1 → errors.new ≡ errors.old }
    ensures unwritten { MayHaveWritten result ⊎ (output.new ≡ output.old) }
{
    let mut kept = EntryReader::new();
    let mut text = ArrayVec::new();
    let answer = answer_of_input(alloc, action, &mut kept, &mut text, input);
    match answer {
        Ok(answer) => {
            let status = status(&Ok(answer.passed));
            let ending = Ending {
                bytes: answer.bytes.as_slice(),
                line: b"",
                status,
            };
            let status = deliver_last(alloc, extras.has_advice, ending, output, errors);
            report_contents(alloc, extras.summary, kept.bytes(), status, errors);
            status
        }
        Err(fault) => {
            let (has_advice, text) = (extras.has_advice, text.as_mut_slice());
            let line = answer_line(alloc, has_advice, action, kept.bytes(), text, &fault);
            let ending = line_alone(line.as_slice(), status(&Err(fault)));
            deliver_last(alloc, has_advice, ending, output, errors)
        }
    }
}

/// Carries out a request of standard input or of files, or compares two.
fn run_request<S: Store, A: Allocator + Copy, R: Read, W: Write, E: Write>(
    store: &S,
    alloc: A,
    extras: Extras,
    action: &Action<'_>,
    files: &[&str],
    input: &mut R,
    output: &mut W,
    errors: &mut E,
) -> u8
    ensures ran { RanRequest (S.known store.now) extras action.now (texts_of files.now)
        (output.new ≡ output.old)
        (streams (R.remaining input.old) (W.contents output.old) (E.contents errors.old))
        (streams (R.remaining input.new) (W.contents output.new) (E.contents errors.new)) result }
    ensures known { result ≢ 2 }
    ensures silent { extras.summary ≡ None → result ≤ 1 → errors.new ≡ errors.old }
    ensures unwritten { texts_of files.now ≡ []
        → MayHaveWritten result ⊎ (output.new ≡ output.old) }
{
    match action {
        Action::Entry(of_entry) if !files.is_empty() => {
            run_files(store, alloc, extras, of_entry, files, input, output, errors)
        }
        Action::Difference(pair) => {
            let has_advice = extras.has_advice;
            run_pair(store, alloc, has_advice, pair, input, output, errors)
        }
        Action::Capability(_) => { run_input(alloc, extras, action, input, output, errors) }
        Action::Source(_) => { run_input(alloc, extras, action, input, output, errors) }
        Action::Entry(_) => { run_input(alloc, extras, action, input, output, errors) }
    }
}

/// The line on what a command line can't request.
fn request_line(fault: LineFault) -> AdvisedLine
    ensures { IsRequestLine fault result.items }
{
    let mut page = ShortPage::new();
    if let LineFault::Words(why) = fault {
        return advised(false, &words_line(why), &page);
    }
    write_request_line(&mut page, fault);
    said(&page)
}

/// Words that request nothing: the texts of help and of explanations go where results go, any other where faults go.
fn run_no_request<A: Allocator + Copy, W: Write, E: Write>(
    alloc: A,
    has_advice: bool,
    why: &NoRequest<'_>,
    output: &mut W,
    errors: &mut E,
) -> u8
    ensures ends { (left0 left1 : Stream) → EndsWords has_advice why.now (output.new ≡ output.old)
        (streams left0 (W.contents output.old) (E.contents errors.old))
        (streams left1 (W.contents output.new) (E.contents errors.new)) result }
    ensures silent { result ≤ 1 → errors.new ≡ errors.old }
    ensures unwritten { MayHaveWritten result ⊎ (output.new ≡ output.old) }
{
    match why {
        NoRequest::Help(message) => {
            let ending = Ending {
                bytes: message.as_str().as_bytes(),
                line: b"",
                status: 0,
            };
            deliver_last(alloc, has_advice, ending, output, errors)
        }
        NoRequest::Refused(message) => {
            let ending = line_alone(message.as_str().as_bytes(), 2);
            deliver_last(alloc, has_advice, ending, output, errors)
        }
        NoRequest::Fault(fault) => {
            let line = request_line(*fault);
            let ending = line_alone(line.as_slice(), 2);
            deliver_last(alloc, has_advice, ending, output, errors)
        }
        NoRequest::Memory => {
            let line = fault_line(&ToolFault::Memory);
            let ending = line_alone(line.as_slice(), 6);
            deliver_last(alloc, has_advice, ending, output, errors)
        }
        NoRequest::Explanation(words) => {
            run_explanation(alloc, has_advice, words.as_slice(), output, errors)
        }
    }
}

/// Runs the program: `words` start with its own name, results go to `output` and lines on faults to `errors`; `at` says
/// which of the streams are terminals. If the words name files, these are read from `store` in place of `input`, one after
/// another. The result is the exit status, of several files the greatest.
///
/// | Status | When | Line on `errors` |
/// |---|---|---|
/// | 0 | done, or help or explanations were requested | none, but a summary of `lint` that is wanted |
/// | 1 | `check` found a fault, `lint` something wrong, `diff` a difference, or the flag of `get` is not set | the same |
/// | 2 | the words are no command line or no parameters, or such as do not fit the capability, or request both widths, or both forms of an output, or an entry at a terminal, or to compare no file, more than two, or standard input with itself, or to explain a word that no finding has, or in JSON | what is wrong and the usage; `parameters: more than nine`; `parameters: NAME takes N, not K`; `parameter K: bad word`; `parameter K of NAME: no 32-bit number`; `parameter K: no 32-bit number; an entry is named by --entry FILE`; `convert: both widths`; `--hex and --escape exclude each other`; `--source and --of exclude each other`; `trace: --entry without --of`; `convert: not to a terminal without --force`; `diff: one file or two` and the usage; `diff: standard input cannot be compared with itself`; `lint: WORD: no such finding`; `--json and --explain exclude each other` |
/// | 3 | the entry is refused, or can't be encoded | `entry: WORD at PLACE`; `entry: WORD` |
/// | 4 | the capability or its notation is refused, or it is absent, takes no word, a text is too long for it, or its padding too much | `capability: WORD at PLACE`; `source: WORD at PLACE`; `capability: absent`; `get: NAME: absent`; `trace: NAME: no such string`; `get: NAME: no such capability`, `get: NAME: takes numbers; parameter K: no 32-bit number; an entry is named by --entry FILE`, and the same of `trace`; `capability: TextTooLong K`; `capability: TooMuch N` |
/// | 5 | reading or writing failed | `input: failed`; `output: failed` |
/// | 6 | out of memory | `memory` |
///
/// After a word that names a file a fault line starts with `FILE: `, but for a failed write, and status 5 has the system's
/// reason, such as `FILE: No such file or directory`. For a folder without a file the status is 5, and
/// the line is `FILE: no entry was read`.
///
/// A fault line that cannot be written changes no status. No byte of an entry or of a word goes to `errors` but printable
/// ASCII characters. If `output` is a terminal, `show` and `check` write names and labels in the notation of terminfo(5),
/// as with `--escape`, and `show` also strings, with all names. If `errors` is a terminal, or with `--source`, advice comes after
/// the line on a fault.
pub fn run_at<S: Store, A: Allocator + Copy, R: Read, W: Write, E: Write>(
    store: &S,
    global: Global,
    alloc: A,
    at: Terminals,
    words: &[&str],
    input: &mut R,
    output: &mut W,
    errors: &mut E,
) -> u8
    // If `clap` reads the words, the named call did its work, of each file that they name, unless memory was refused.
    ensures read { (command : Command) (rows : List Row) → Reads (texts_of words.now) command rows
        → DidLine at (S.known store.now) (texts_of words.now) command rows
        (input.new ≡ input.old) (output.new ≡ output.old)
        (streams (R.remaining input.old) (W.contents output.old) (E.contents errors.old))
        (streams (R.remaining input.new) (W.contents output.new) (E.contents errors.new)) result }
    // If it does not, help was written, or the words are refused, unless memory was refused.
    ensures unread { ¬ AreRead (texts_of words.now)
        → DidNoLine at (texts_of words.now)
        (input.new ≡ input.old) (output.new ≡ output.old)
        (streams (R.remaining input.old) (W.contents output.old) (E.contents errors.old))
        (streams (R.remaining input.new) (W.contents output.new) (E.contents errors.new)) result }
    // Words that are refused are refused before anything is read.
    ensures refused { result ≡ 2 → input.new ≡ input.old }
    // If the words are no line, nothing is read.
    ensures no_input { ¬ AreRead (texts_of words.now) → input.new ≡ input.old }
    // If the words name no file, the writer of results is what it was after any other status than 0, 1 and 5.
    ensures unwritten { files_of (texts_of words.now) ≡ []
        → MayHaveWritten result ⊎ (output.new ≡ output.old) }
    // Without a fault nothing is written to `errors`, but a summary.
    ensures silent { HasNoSummary at (texts_of words.now)
        → result ≤ 1 → errors.new ≡ errors.old }
{
    match read_line(global, at.output, &*words) {
        Ok(request) => {
            let Request {
                action,
                files,
                has_summary,
            } = request;
            let files = files.as_slice();
            let extras = extras_of(at, has_summary, &action);
            run_request(store, alloc, extras, &action, &files, input, output, errors)
        }
        Err(why) => run_no_request(alloc, at.errors, &why, output, errors),
    }
}

/// [`run_at`] with no stream that is a terminal, and with no file that can be read.
///
/// # Examples
///
/// ```rust
/// let status = run(global, global, &words, &mut input, &mut output, &mut errors);
/// assert!(rt; status == 0);
/// assert!(rt; output.as_slice() == b"\x1b[7G".as_slice());
/// ```
pub fn run<A: Allocator + Copy, R: Read, W: Write, E: Write>(
    global: Global,
    alloc: A,
    words: &[&str],
    input: &mut R,
    output: &mut W,
    errors: &mut E,
) -> u8
    // If `clap` reads the words, the named call did its work, of each file that they name, unless memory was refused.
    ensures read { (command : Command) (rows : List Row) → Reads (texts_of words.now) command rows
        → DidLine no_terminals unknown_files (texts_of words.now) command rows
        (input.new ≡ input.old) (output.new ≡ output.old)
        (streams (R.remaining input.old) (W.contents output.old) (E.contents errors.old))
        (streams (R.remaining input.new) (W.contents output.new) (E.contents errors.new)) result }
    // If it does not, help was written, or the words are refused, unless memory was refused.
    ensures unread { ¬ AreRead (texts_of words.now)
        → DidNoLine no_terminals (texts_of words.now)
        (input.new ≡ input.old) (output.new ≡ output.old)
        (streams (R.remaining input.old) (W.contents output.old) (E.contents errors.old))
        (streams (R.remaining input.new) (W.contents output.new) (E.contents errors.new)) result }
    // Words that are refused are refused before anything is read.
    ensures refused { result ≡ 2 → input.new ≡ input.old }
    // If the words are no line, nothing is read.
    ensures no_input { ¬ AreRead (texts_of words.now) → input.new ≡ input.old }
    // If the words name no file, the writer of results is what it was after any other status than 0, 1 and 5.
    ensures unwritten { files_of (texts_of words.now) ≡ []
        → MayHaveWritten result ⊎ (output.new ≡ output.old) }
    // Without a fault nothing is written to `errors`, but a summary.
    ensures silent { HasNoSummary no_terminals (texts_of words.now)
        → result ≤ 1 → errors.new ≡ errors.old }
{
    let at = Terminals::NONE;
    run_at(&NoStore, global, alloc, at, words, input, output, errors)
}
