//! The options that the flags of a line request.

ghost use Rattle.std.specs.Prelude.{◌≡◌};
ghost use Rattle.ti_line.specs.Requests.{width_of as the_width_of};
ghost use Rattle.ti_line.specs.Options.{check_action as the_check_action, comparison_of as the_comparison_of, form_of as the_form_of, input_action as the_input_action, likeness_of as the_likeness_of, lint_action as the_lint_action, lint_options as the_lint_options, list_options as the_list_options, name_table_of as the_name_table_of, names_all as the_names_all, naming_of as the_naming_of, output_of as the_output_of, level_of as the_level_of, show_action as the_show_action, trace_form_of as the_trace_form_of, trace_rows_at as the_trace_rows_at, which_verdicts as the_which_verdicts};

use crate::options::{
    Comparison, Document, Likeness, ListOptions, NameForm, Naming, Output, TraceForm, Verdicts,
};
use crate::request::{Action, CapabilityAction, EntryAction};
use ti_escape::{Color, Form};
use ti_lint::{Level, LintOptions};
use ti_names::NameTable;
use ti_trace::{TraceOptions, TraceRows};
use ti_words::Width;

/// Returns the work on an input by `--source`, which says that it is the notation of a capability.
pub fn input_action(source: bool, action: CapabilityAction<'_>) -> Action<'_>
    ensures { result ≡ the_input_action source action.entry }
{
    if source {
        Action::Source(action)
    } else {
        Action::Capability(action)
    }
}

/// Returns the form of an output by `--hex` and `--escape`, of which at most one is given.
pub fn output_of(hex: bool, escape: bool) -> Output
    ensures { result ≡ the_output_of hex escape }
{
    match (hex, escape) {
        (true, _) => Output::Line(Form::Hex),
        (false, true) => Output::Line(Form::Notation),
        (false, false) => Output::Raw,
    }
}

/// Returns the table of names by `--all-names`.
pub fn name_table_of(all_names: bool) -> NameTable
    ensures { result ≡ the_name_table_of all_names }
{
    if all_names {
        NameTable::All
    } else {
        NameTable::Common
    }
}

/// Returns the level of `lint` by `--all`.
pub fn level_of(all: bool) -> Level
    ensures { result ≡ the_level_of all }
{
    if all { Level::All } else { Level::Errors }
}

/// Returns the options of `lint` by `--all` and `--untrusted`.
pub fn lint_options(all: bool, untrusted: bool) -> LintOptions
    ensures { result ≡ the_lint_options all untrusted }
{
    LintOptions {
        level: level_of(all),
        untrusted,
    }
}

/// Returns the likeness of `diff` by `--expand`.
pub fn likeness_of(expand: bool) -> Likeness
    ensures { result ≡ the_likeness_of expand }
{
    if expand {
        Likeness::Tokens
    } else {
        Likeness::Bytes
    }
}

/// Returns the form of the texts of a listing, or of a trace, by `--escape`.
pub fn form_of(escape: bool) -> Form
    ensures { result ≡ the_form_of escape }
{
    if escape { Form::Notation } else { Form::Hex }
}

/// Returns the names of an entry and its capabilities in a listing, by its flags, and by whether it goes to a terminal.
pub fn naming_of(all_names: bool, escape: bool, terminal: bool) -> Naming
    ensures { result ≡ the_naming_of all_names escape terminal }
{
    Naming {
        table: name_table_of(all_names),
        form: if escape || terminal {
            NameForm::Notation
        } else {
            NameForm::Raw
        },
    }
}

/// The options of a listing by its flags.
pub fn list_options(all_names: bool, escape: bool) -> ListOptions
    ensures { result ≡ the_list_options all_names escape }
{
    ListOptions {
        naming: naming_of(all_names, escape, false),
        form: form_of(escape),
    }
}

/// Returns the request of `show`, which `--json` makes a document. At a terminal its lines are for people: as if
/// `--all-names` and `--escape` were given.
pub fn show_action<'a>(json: bool, all_names: bool, escape: bool, terminal: bool) -> EntryAction<'a>
    ensures { result ≡ the_show_action json all_names escape terminal }
{
    if json {
        EntryAction::Json(Document::Listing)
    } else {
        EntryAction::Show(list_options(all_names || terminal, escape || terminal))
    }
}

/// Returns the verdicts that `check` writes, by `--faults`.
pub fn which_verdicts(faults: bool) -> Verdicts
    ensures { result ≡ the_which_verdicts faults }
{
    if faults {
        Verdicts::Faults
    } else {
        Verdicts::All
    }
}

/// Whether `check` names all capabilities: at a terminal, and if it writes few lines.
fn names_all(which: Verdicts, terminal: bool) -> bool
    ensures { result ≡ the_names_all which terminal }
{
    match which {
        Verdicts::Faults => true,
        Verdicts::All => terminal,
    }
}

/// Returns the request of `check`, which `--json` makes a document.
pub fn check_action<'a>(
    which: Verdicts,
    json: bool,
    all_names: bool,
    escape: bool,
    terminal: bool,
) -> EntryAction<'a>
    ensures { result ≡ the_check_action which json all_names escape terminal }
{
    if json {
        EntryAction::Json(Document::Verdicts(which))
    } else {
        let all_names = all_names || names_all(which, terminal);
        EntryAction::Check(which, naming_of(all_names, escape, terminal))
    }
}

/// Returns the request of `lint`, which `--json` makes a document.
pub fn lint_action<'a>(json: bool, options: LintOptions, color: Color) -> EntryAction<'a>
    ensures { result ≡ the_lint_action json options color }
{
    if json {
        EntryAction::Json(Document::Findings(options))
    } else {
        EntryAction::Lint(options, color)
    }
}

/// The rows of a trace. At a terminal runs of bytes are joined.
fn trace_rows_at(terminal: bool) -> TraceRows
    ensures { result ≡ the_trace_rows_at terminal }
{
    if terminal {
        TraceRows::Joined
    } else {
        TraceRows::Each
    }
}

/// How `trace` writes, by `--json` and `--escape`, which exclude each other. At a terminal it is as if `--escape` were given.
pub fn trace_form_of(json: bool, escape: bool, terminal: bool, color: Color) -> TraceForm
    ensures { result ≡ the_trace_form_of json escape terminal color }
{
    if json {
        return TraceForm::Json;
    }
    TraceForm::Lines(TraceOptions {
        form: form_of(escape || terminal),
        color,
        rows: trace_rows_at(terminal),
    })
}

/// How `diff` writes. At a terminal its lines are for people.
pub fn comparison_of(json: bool, terminal: bool, color: Color) -> Comparison
    ensures { result ≡ the_comparison_of json terminal color }
{
    match (json, terminal) {
        (true, _) => Comparison::Json,
        (false, true) => Comparison::Headed(color),
        (false, false) => Comparison::Lines(color),
    }
}

/// The width that a flag of `convert` requests.
pub fn width_of(wide: bool, narrow: bool) -> Option<Width>
    ensures { result ≡ the_width_of wide narrow }
{
    match (wide, narrow) {
        (true, _) => Some(Width::Wide),
        (false, true) => Some(Width::Legacy),
        (false, false) => None,
    }
}
