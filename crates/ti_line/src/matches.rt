//! The values that `clap` found of a subcommand.

ghost use Rattle.std.specs.Prelude.{◌≡◌, true, false, IfOk, IsSome, MatchResult, Some, codes, option_map};
ghost use Rattle.clap.specs.Words.{first_of};
ghost use Rattle.ti_line.specs.CommandLine.{HasNameAndNumbers, files_in, flag_in, is_input as the_is_input, named_files, number_in, params_in, words_in};
ghost use Rattle.ti_line.specs.Fits.{IsGivenTo};
ghost use Rattle.ti_line.specs.Params.{AreGiven, AreParams, IsGiven, IsGivenBy, IsParam};
ghost use Rattle.ti_line.specs.Requests.{HasNoParameters, IsNoTraceForm, IsTraceForm, MeanNone, color_in, has_both_forms, has_json_form, is_json, output_in, setting_in, texts_of};
ghost use Rattle.ti_line.specs.declared.no_request.LineFault.TheVariants as fault;
ghost use Rattle.ti_line.specs.inner.Matches.{given_rows};

use crate::destination::Destination;
use crate::fit::fit;
use crate::flags::{output_of, trace_form_of};
use crate::given::{Given, read_given};
use crate::no_request::LineFault;
use crate::options::{Output, TraceForm};
use crate::params::{WordFault, read_params};
use clap::ArgMatches;
use std::alloc::{AllocError, Global};
use ti_escape::Color;
use ti_expand::Value;
use ti_pad::Padding;

/// Whether an option without a value was given.
pub(crate) fn flag(given: &ArgMatches<'_>, id: &str) -> bool
    ensures { result ≡ flag_in id.now (given_rows given.now) }
{
    given.get_one::<bool>(id).unwrap_or(false)
}

/// Whether `--summary` was given.
pub(crate) fn has_summary(given: &ArgMatches<'_>) -> bool
    ensures { result ≡ flag_in (codes "summary") (given_rows given.now) }
{
    flag(given, "summary")
}

/// The number of an option.
fn number(given: &ArgMatches<'_>, id: &str, default: u32) -> u32
    ensures { result ≡ number_in id.now default (given_rows given.now) }
{
    given.get_one::<u32>(id).unwrap_or(default)
}

/// The one text of an argument.
pub(crate) fn text<'a>(given: &ArgMatches<'a>, id: &str) -> Option<&'a str>
    ensures { option_map (λ t. t.now) result ≡ first_of id.now (given_rows given.now) }
{
    given.get_str(id)
}

/// Whether words name standard input alone.
fn is_input(words: &[&str]) -> bool
    ensures { result ≡ the_is_input (texts_of words.now) }
{
    match words {
        [name] => *name == "-",
        _ => false,
    }
}

/// The files that are named, none for standard input, which `-` alone names too.
pub(crate) fn files<'a>(alloc: Global, given: &ArgMatches<'a>) -> Result<Vec<&'a str>, AllocError>
    ensures { IfOk result (λ v. texts_of v.items
        ≡ named_files (files_in (given_rows given.now))) }
{
    let mut files = Vec::new(alloc);
    files.extend_from_slice(given.get_strs("ENTRY").unwrap_or(&[]))?;
    files.extend_from_slice(given.get_strs("FILE").unwrap_or(&[]))?;
    if is_input(files.as_slice()) {
        files.clear();
    }
    Ok(files)
}

/// The words whose findings are to be explained.
pub(crate) fn explained<'a>(
    alloc: Global,
    given: &ArgMatches<'a>,
) -> Result<Vec<&'a str>, AllocError>
    ensures { IfOk result (λ v. texts_of v.items ≡ words_in (codes "FILE") (given_rows given.now)) }
{
    let mut words = Vec::new(alloc);
    words.extend_from_slice(given.get_strs("FILE").unwrap_or(&[]))?;
    Ok(words)
}

/// The parameters.
pub(crate) fn parameters<'a>(given: &ArgMatches<'a>) -> Result<[Value<'a>; 9], WordFault>
    ensures { MatchResult result
        (AreParams (params_in (given_rows given.now)))
        (MeanNone IsParam AreParams (params_in (given_rows given.now))) }
{
    read_params(given.get_strs("PARAM").unwrap_or(&[]))
}

/// The parameters of `get`.
fn given_parameters<'a>(given: &ArgMatches<'a>) -> Result<Option<Given<'a>>, WordFault>
    ensures { MatchResult result
        (IsGivenBy (params_in (given_rows given.now)))
        (MeanNone IsGiven AreGiven (params_in (given_rows given.now))) }
{
    read_given(given.get_strs("PARAM").unwrap_or(&[]))
}

/// The parameters of `get`, or of `trace` with a name, which fit the capability with the name.
pub(crate) fn fitting_parameters<'a>(
    given: &ArgMatches<'a>,
    name: &str,
) -> Result<Option<Given<'a>>, LineFault>
    ensures { let words = params_in (given_rows given.now) in
        MatchResult result (IsGivenTo name.now words) (HasNoParameters name.now words) }
{
    let words = given.get_strs("PARAM").unwrap_or(&[]);
    match given_parameters(given)? {
        Some(parameters) => {
            fit(name, words.len(), &parameters.params)?;
            Ok(Some(parameters))
        }
        None => Ok(None),
    }
}

/// How an output is written, by `--hex` and `--escape`, which exclude each other.
pub(crate) fn output(given: &ArgMatches<'_>) -> Result<Output, LineFault>
    ensures { let rows = given_rows given.now in MatchResult result
        (λ output. (has_both_forms rows ≡ false) × (output ≡ output_in rows))
        (λ why. (has_both_forms rows ≡ true) × (why ≡ fault.BothForms)) }
{
    let (hex, escape) = (flag(given, "hex"), flag(given, "escape"));
    if hex && escape {
        return Err(LineFault::BothForms);
    }
    Ok(output_of(hex, escape))
}

/// Whether parts of lines stand out, by `--color` and by where results go.
pub(crate) fn color(to: Destination, given: &ArgMatches<'_>) -> Result<Color, LineFault>
    ensures { let action = color_in to (given_rows given.now) in MatchResult result
        (λ color. action ≡ Some color)
        (λ why. (action ≡ None) × (why ≡ fault.ColorWord)) }
{
    match text(given, "color") {
        None => Ok(to.color()),
        Some("auto") => Ok(to.color()),
        Some("always") => Ok(Color::Always),
        Some("never") => Ok(Color::Never),
        Some(_) => Err(LineFault::ColorWord),
    }
}

/// How a trace is written. `--json` excludes `--escape`.
pub(crate) fn trace_form(to: Destination, given: &ArgMatches<'_>) -> Result<TraceForm, LineFault>
    ensures { let rows = given_rows given.now in
        MatchResult result (IsTraceForm to rows) (IsNoTraceForm to rows) }
{
    let (json, escape) = (flag(given, "json"), flag(given, "escape"));
    if json && escape {
        return Err(LineFault::JsonForm);
    }
    Ok(trace_form_of(json, escape, to.is_terminal(), color(to, given)?))
}

/// Whether `--json` is given, which excludes the options that choose names and forms.
pub(crate) fn json(given: &ArgMatches<'_>) -> Result<bool, LineFault>
    ensures { let rows = given_rows given.now in MatchResult result
        (λ json. (has_json_form rows ≡ false) × (json ≡ is_json rows))
        (λ why. (has_json_form rows ≡ true) × (why ≡ fault.JsonForm)) }
{
    let json = flag(given, "json");
    if json && (flag(given, "escape") || flag(given, "all-names")) {
        return Err(LineFault::JsonForm);
    }
    Ok(json)
}

/// The padding of `expand` or `get`, whose numbers are within their ranges.
pub(crate) fn padding(given: &ArgMatches<'_>) -> Padding
    requires { HasNameAndNumbers (given_rows given.now) }
    ensures { result ≡ setting_in (given_rows given.now) }
{
    let (rate, lines) = (number(given, "rate", 0), number(given, "lines", 1));
    match Padding::new(rate, lines, flag(given, "xon"), 0) {
        Some(padding) => padding,
        None => unreachable!(),
    }
}

/// The name of a capability.
pub(crate) fn name<'a>(given: &ArgMatches<'a>) -> &'a str
    requires { IsSome (first_of (codes "NAME") (given_rows given.now)) }
    ensures { first_of (codes "NAME") (given_rows given.now) ≡ Some result.now }
{
    match text(given, "NAME") {
        Some(name) => name,
        None => unreachable!(),
    }
}
