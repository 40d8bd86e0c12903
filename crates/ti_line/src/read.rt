//! Words as a command line.

ghost use Rattle.std.specs.Prelude.{◌≡◌, ◌<◌, IfErr, IfOk, List, Some, length};
ghost use Rattle.clap.specs.Words.{FailsBy, Row, kind_of, subcommand_of};
ghost use Rattle.ti_line.specs.CommandLine.{Command, Reads, command_in, faults, ti_app};
ghost use Rattle.ti_line.specs.Requests.{Explains, HasText, IsReadAs, IsRequest, texts_of};
ghost use Rattle.ti_line.specs.inner.Matches.{IsSaidOf};
ghost use Rattle.ti_line.specs.Message.{message_text};
ghost use Rattle.ti_line.specs.inner.Errors.{TellsOf};

use crate::actions::action_of;
use crate::command::program;
use crate::destination::Destination;
use crate::matches::{explained, files, flag, has_summary};
use crate::message::Message;
use crate::no_request::NoRequest;
use crate::printable::printable_text;
use crate::request::Request;
use crate::tip::tipped_text;
use clap::Error;
use clap::error::ErrorKind;
use std::alloc::{AllocError, Global};

/// Reads the words by `clap`. Words in which it finds no fault make a line, which requests something, or explanations, or has a fault.
fn read_words<'a>(
    alloc: Global,
    to: Destination,
    words: &'a [&'a str],
) -> Result<Result<Request<'a>, NoRequest<'a>>, Error>
    ensures read { IfOk result (λ answer. IsSaidOf to (texts_of words.entry.now)
        (command_in (subcommand_of ti_app (texts_of words.entry.now))) answer) }
    ensures kinds { FailsBy (faults (texts_of words.entry.now)) result }
{
    let matches = program(alloc)?.try_get_matches_from(words)?;
    match matches.subcommand() {
        Some((command, given)) => {
            let files = files(alloc, given)?;
            let has_summary = has_summary(given);
            match action_of(to, command, given) {
                Ok(_) if flag(given, "explain") => {
                    Ok(Err(NoRequest::Explanation(explained(alloc, given)?)))
                }
                Ok(action) => Ok(Ok(Request {
                    action,
                    files,
                    has_summary,
                })),
                Err(fault) => Ok(Err(NoRequest::Fault(fault))),
            }
        }
        None => unreachable!(),
    }
}

/// Returns the message on words that are no line.
fn message_on<'a>(alloc: Global, words: &'a [&'a str], error: &Error) -> Result<Message, AllocError>
    ensures { IfOk result (λ message. 0 < length (message_text message)) }
{
    let text = printable_text(alloc, words, error)?;
    Message::new(alloc, tipped_text(alloc, words, error, text)?)
}

/// Returns why an error of `clap` leaves no request.
fn no_request<'a>(alloc: Global, words: &'a [&'a str], error: &Error) -> NoRequest<'a>
    ensures tells { TellsOf (kind_of error.now) result }
    ensures says { HasText result }
{
    let message = match message_on(alloc, words, error) {
        Ok(message) => message,
        Err(AllocError) => return NoRequest::Memory,
    };
    match error.kind() {
        ErrorKind::OutOfMemory => NoRequest::Memory,
        ErrorKind::DisplayHelp | ErrorKind::DisplayVersion => NoRequest::Help(message),
        _ => NoRequest::Refused(message),
    }
}

/// Reads `words`, of which the first is the program's own name, as a command line. `to` says where results go.
///
/// Options may stand before, between and after the parameters. After `--` each word is a parameter, or the name of
/// `expand`, also one that starts with a hyphen. Words are text, so what is no UTF-8 is the caller's to refuse.
///
/// # Errors
///
/// [`NoRequest::Help`] if help or the version is requested, [`NoRequest::Explanation`] if `lint` has `--explain`, [`NoRequest::Refused`] if the words are no command line,
/// [`NoRequest::Fault`] if the line requests both forms or both widths, or JSON in a form or as an explanation, or a trace of a notation and of a
/// name, or of an entry and no name, its parameters are none or do not fit the capability with the name, or an entry would go
/// to a terminal, and [`NoRequest::Memory`] if a growth was refused. A message shows no byte of a word but printable ASCII
/// characters: the others are in the notation of terminfo(5).
///
/// # Examples
///
/// ```rust
/// let request = read_line(rt.alloc(), Destination::File, &["ti", "cap", "n:7"])?;
/// assert!(rt; matches!(request.action, Action::Capability(_)));
/// ```
pub fn read_line<'a>(
    alloc: Global,
    to: Destination,
    words: &'a [&'a str],
) -> Result<Request<'a>, NoRequest<'a>>
    ensures read { IfOk result (λ request. (command : Command) × (rows : List Row)
        × Reads (texts_of words.entry.now) command rows
        × IsRequest to (texts_of words.entry.now) command rows request) }
    ensures only { (command : Command) (rows : List Row)
        → Reads (texts_of words.entry.now) command rows
        → IsReadAs to (texts_of words.entry.now) command rows result }
    ensures none { IfErr result (Explains to (texts_of words.entry.now)) }
    // A message is never empty.
    ensures says { IfErr result HasText }
{
    match read_words(alloc, to, words) {
        Ok(Ok(request)) => Ok(request),
        Ok(Err(why)) => Err(why),
        Err(error) => Err(no_request(alloc, words, &error)),
    }
}
