//! The request of each subcommand, by its values.

ghost use Rattle.std.specs.Prelude.{◌≡◌, IfSome, IsSome, MatchResult, Some, option_map};
ghost use Rattle.ti_line.specs.CommandLine as commands;
ghost use Rattle.ti_line.specs.CommandLine.{HasNameAndNumbers, IsComplete, command_of};
ghost use Rattle.ti_line.specs.Requests.{AsksToTrace, HasTraceFault, IsAnswered, compared, is_input_twice as the_is_input_twice, texts_of};
ghost use Rattle.ti_line.specs.declared.destination.Destination.{Destination};
ghost use Rattle.ti_line.specs.inner.Matches.{given_rows};

use crate::destination::Destination;
use crate::flags::{
    check_action, comparison_of, input_action, likeness_of, lint_action, lint_options,
    name_table_of, show_action, which_verdicts, width_of,
};
use crate::matches::{
    color, fitting_parameters, flag, json, name, output, padding, parameters, text, trace_form,
};
use crate::no_request::LineFault;
use crate::options::{Comparison, Likeness};
use crate::request::{
    Action, CapabilityAction, CapabilityResult, EntryAction, Expand, Get, Pair, ParameterValues,
    TextName, TraceOf,
};
use clap::ArgMatches;

/// Returns the request of `cap`.
fn cap<'a>(given: &ArgMatches<'a>) -> Result<Action<'a>, LineFault>
    ensures { (to : Destination) → IsAnswered to commands.Cap (given_rows given.now) result }
{
    let output = output(given)?;
    let action = CapabilityAction {
        parameters: ParameterValues {
            values: parameters(given)?,
        },
        result: CapabilityResult::Cap(output),
    };
    Ok(input_action(flag(given, "source"), action))
}

/// Returns the request of `trace` on the capability with a name, in place of which no notation is to be read.
fn trace_of<'a>(
    to: Destination,
    given: &ArgMatches<'a>,
    name: &'a str,
) -> Result<Action<'a>, LineFault>
    ensures { let rows = given_rows given.now in let name = Some name.entry.now in
        MatchResult result (AsksToTrace to rows name) (HasTraceFault to rows name) }
{
    if flag(given, "source") {
        return Err(LineFault::BothInputs);
    }
    let form = trace_form(to, given)?;
    Ok(Action::Entry(EntryAction::Trace(TraceOf {
        name,
        given: fitting_parameters(given, name)?,
        form,
    })))
}

/// Returns the request of `trace` on the capability that is read.
fn trace_input<'a>(to: Destination, given: &ArgMatches<'a>) -> Result<Action<'a>, LineFault>
    ensures { let rows = given_rows given.now in
        MatchResult result (AsksToTrace to rows None) (HasTraceFault to rows None) }
{
    if text(given, "ENTRY").is_some() {
        return Err(LineFault::EntryWithoutName);
    }
    let form = trace_form(to, given)?;
    let action = CapabilityAction {
        parameters: ParameterValues {
            values: parameters(given)?,
        },
        result: CapabilityResult::Trace(form),
    };
    Ok(input_action(flag(given, "source"), action))
}

/// Returns the request of `trace`.
fn trace<'a>(to: Destination, given: &ArgMatches<'a>) -> Result<Action<'a>, LineFault>
    ensures { IsAnswered to commands.Trace (given_rows given.now) result }
{
    match text(given, "NAME") {
        Some(name) => trace_of(to, given, name),
        None => trace_input(to, given),
    }
}

/// Returns the request of `show`.
fn show<'a>(to: Destination, given: &ArgMatches<'a>) -> Result<Action<'a>, LineFault>
    ensures { IsAnswered to commands.Show (given_rows given.now) result }
{
    let json = json(given)?;
    let (escape, all_names) = (flag(given, "escape"), flag(given, "all-names"));
    Ok(Action::Entry(show_action(json, all_names, escape, to.is_terminal())))
}

/// Returns the request of `check`.
fn check<'a>(to: Destination, given: &ArgMatches<'a>) -> Result<Action<'a>, LineFault>
    ensures { IsAnswered to commands.Check (given_rows given.now) result }
{
    let json = json(given)?;
    let (escape, all_names) = (flag(given, "escape"), flag(given, "all-names"));
    let which = which_verdicts(flag(given, "faults"));
    Ok(Action::Entry(check_action(which, json, all_names, escape, to.is_terminal())))
}

/// Returns the request of `expand`.
fn expand<'a>(given: &ArgMatches<'a>) -> Result<Action<'a>, LineFault>
    requires { HasNameAndNumbers (given_rows given.now) }
    ensures { (to : Destination) → IsAnswered to commands.Expand (given_rows given.now) result }
{
    let output = output(given)?;
    let name = TextName {
        name: name(given),
        names: name_table_of(flag(given, "all-names")),
    };
    Ok(Action::Entry(EntryAction::Expand(Expand {
        name,
        parameters: ParameterValues {
            values: parameters(given)?,
        },
        padding: padding(given),
        output,
    })))
}

/// Returns the request of `convert`.
fn convert<'a>(to: Destination, given: &ArgMatches<'a>) -> Result<Action<'a>, LineFault>
    ensures { IsAnswered to commands.Convert (given_rows given.now) result }
{
    let (wide, narrow) = (flag(given, "wide"), flag(given, "narrow"));
    if wide && narrow {
        return Err(LineFault::BothWidths);
    }
    if to.is_terminal() && !flag(given, "force") {
        return Err(LineFault::ToTerminal);
    }
    Ok(Action::Entry(EntryAction::Convert(width_of(wide, narrow))))
}

/// The files that words name to be compared.
fn pair<'a>(likeness: Likeness, form: Comparison, words: &[&'a str]) -> Option<Pair<'a>>
    ensures files { option_map (λ d. (d.file.now, d.other.now)) result
        ≡ compared (texts_of words.now) }
    ensures likeness { IfSome result (λ d. d.likeness ≡ likeness) }
    ensures form { IfSome result (λ d. d.form ≡ form) }
{
    match words {
        [other] => Some(Pair {
            file: "-",
            other: *other,
            likeness,
            form,
        }),
        [file, other] => Some(Pair {
            file: *file,
            other: *other,
            likeness,
            form,
        }),
        _ => None,
    }
}

/// Whether the files to compare are standard input and standard input.
fn is_input_twice(words: &[&str]) -> bool
    ensures { result ≡ the_is_input_twice (texts_of words.now) }
{
    match words {
        [other] => *other == "-",
        [file, other] => *file == "-" && *other == "-",
        _ => false,
    }
}

/// Returns the request of `diff`.
fn diff<'a>(to: Destination, given: &ArgMatches<'a>) -> Result<Action<'a>, LineFault>
    ensures { IsAnswered to commands.Diff (given_rows given.now) result }
{
    let form = comparison_of(flag(given, "json"), to.is_terminal(), color(to, given)?);
    let likeness = likeness_of(flag(given, "expand"));
    let words = given.get_strs("FILE").unwrap_or(&[]);
    if is_input_twice(words) {
        return Err(LineFault::InputTwice);
    }
    match pair(likeness, form, words) {
        Some(pair) => Ok(Action::Difference(pair)),
        None => Err(LineFault::FileCount),
    }
}

/// Returns the request of `lint`.
fn lint<'a>(to: Destination, given: &ArgMatches<'a>) -> Result<Action<'a>, LineFault>
    ensures { IsAnswered to commands.Lint (given_rows given.now) result }
{
    if flag(given, "json") && flag(given, "explain") {
        return Err(LineFault::JsonExplained);
    }
    let color = color(to, given)?;
    let options = lint_options(flag(given, "all"), flag(given, "untrusted"));
    Ok(Action::Entry(lint_action(flag(given, "json"), options, color)))
}

/// Returns the request of `get`.
fn get<'a>(given: &ArgMatches<'a>) -> Result<Action<'a>, LineFault>
    requires { HasNameAndNumbers (given_rows given.now) }
    ensures { (to : Destination) → IsAnswered to commands.Get (given_rows given.now) result }
{
    let output = output(given)?;
    let name = name(given);
    Ok(Action::Entry(EntryAction::Get(Get {
        name,
        given: fitting_parameters(given, name)?,
        padding: padding(given),
        output,
    })))
}

/// Returns the request of a subcommand, by its values and by where results go.
pub(crate) fn action_of<'a>(
    to: Destination,
    command: &str,
    given: &ArgMatches<'a>,
) -> Result<Action<'a>, LineFault>
    requires known { IsSome (command_of command.now) }
    requires complete { IfSome (command_of command.now) (λ c. IsComplete c (given_rows given.now)) }
    ensures { IfSome (command_of command.now) (λ c. IsAnswered to c (given_rows given.now) result) }
{
    match command {
        "cap" => cap(given),
        "trace" => trace(to, given),
        "show" => show(to, given),
        "check" => check(to, given),
        "lint" => lint(to, given),
        "expand" => expand(given),
        "convert" => convert(to, given),
        "diff" => diff(to, given),
        "get" => get(given),
        _ => unreachable!(),
    }
}
