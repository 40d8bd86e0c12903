//! The command that is handed to `clap`: subcommands of one level, options and positionals.

ghost use Rattle.std.specs.Prelude.{◌≡◌, [], ◌∷◌, IfOk, false};
ghost use Rattle.clap.specs.Words.{App, Rule, app_of, new_app, rule_of, with_rule};
ghost use Rattle.ti_line.specs.CommandLine.{all_names_rule, cap_app, check_app, color_rule, convert_app, diff_app, entry_rule, escape_rule, expand_app, file_rule, files_rule, flag_rule, get_app, hex_rule, json_rule, lint_app, name_rule, number_rule, of_rule, params_rule, show_app, source_rule, start_app, ti_app, trace_app, with_commands, with_rules};
ghost use Rattle.ti_line.specs.inner.Command.{Makes};

use crate::help::{
    ALL, ALL_NAMES, ANY_NAME, ANY_PARAMS, COLOR, ESCAPE, EXPAND, EXPLAIN, FAULTS, FILE, FILES,
    FORCE, HEX, JSON, LINES, NARROW, OF, PAIR, PARAMS, RATE, SOURCE, STATUSES, SUMMARY, TEXT_NAME,
    TRACE_PARAMS, UNTRUSTED, WIDE, XON,
};
use clap::{Arg, ArgAction, Command, value_parser};
use std::alloc::{AllocError, Global};
use ti_base::{GREATEST_RATE, MOST_LINES, VERSION};

/// An option without a value.
fn flag<'a>(alloc: Global, name: &'a str, help: &'a str) -> Arg<'a>
    ensures rule { rule_of result ≡ flag_rule name.entry.now }
    ensures local { result.global ≡ false }
{
    Arg::new(alloc, name)
        .long(name)
        .action(ArgAction::SetTrue)
        .help(help)
}

/// `--source`.
fn source<'a>(alloc: Global) -> Arg<'a>
    ensures rule { rule_of result ≡ source_rule }
    ensures local { result.global ≡ false }
{
    flag(alloc, "source", SOURCE)
}

/// `-x` or `--hex`.
fn hex<'a>(alloc: Global) -> Arg<'a>
    ensures rule { rule_of result ≡ hex_rule }
    ensures local { result.global ≡ false }
{
    flag(alloc, "hex", HEX).short('x')
}

/// `-e` or `--escape`.
fn escape<'a>(alloc: Global) -> Arg<'a>
    ensures rule { rule_of result ≡ escape_rule }
    ensures local { result.global ≡ false }
{
    flag(alloc, "escape", ESCAPE).short('e')
}

/// `--json`.
fn json<'a>(alloc: Global) -> Arg<'a>
    ensures rule { rule_of result ≡ json_rule }
    ensures local { result.global ≡ false }
{
    flag(alloc, "json", JSON)
}

/// `--color WHEN`.
fn color<'a>(alloc: Global) -> Arg<'a>
    ensures rule { rule_of result ≡ color_rule }
    ensures local { result.global ≡ false }
{
    Arg::new(alloc, "color")
        .long("color")
        .value_name("WHEN")
        .help(COLOR)
}

/// `-a` or `--all-names`.
fn all_names<'a>(alloc: Global) -> Arg<'a>
    ensures rule { rule_of result ≡ all_names_rule }
    ensures local { result.global ≡ false }
{
    flag(alloc, "all-names", ALL_NAMES).short('a')
}

/// An option with a number of at most `most`.
fn number<'a>(alloc: Global, name: &'a str, most: u32, help: &'a str) -> Arg<'a>
    ensures rule { rule_of result ≡ number_rule name.entry.now most }
    ensures local { result.global ≡ false }
{
    Arg::new(alloc, name)
        .long(name)
        .value_name("N")
        .value_parser(value_parser!(u32).range(0..=i64::from(most)))
        .help(help)
}

/// The argument of parameters, with what help says of them.
fn params<'a>(alloc: Global, help: &'a str) -> Arg<'a>
    ensures rule { rule_of result ≡ params_rule }
    ensures local { result.global ≡ false }
{
    Arg::new(alloc, "PARAM")
        .action(ArgAction::Append)
        .num_args(0..)
        .help(help)
}

/// `FILE..`: any number of files, with what help says of them.
fn files<'a>(alloc: Global, help: &'a str) -> Arg<'a>
    ensures rule { rule_of result ≡ files_rule }
    ensures local { result.global ≡ false }
{
    Arg::new(alloc, "FILE")
        .action(ArgAction::Append)
        .num_args(0..)
        .help(help)
}

/// `FILE`: at most one file.
fn file<'a>(alloc: Global) -> Arg<'a>
    ensures rule { rule_of result ≡ file_rule }
    ensures local { result.global ≡ false }
{
    Arg::new(alloc, "FILE").help(FILE)
}

/// `--entry FILE`.
fn entry<'a>(alloc: Global) -> Arg<'a>
    ensures rule { rule_of result ≡ entry_rule }
    ensures local { result.global ≡ false }
{
    Arg::new(alloc, "ENTRY")
        .long("entry")
        .value_name("FILE")
        .help(FILE)
}

/// `--of NAME`.
fn of<'a>(alloc: Global) -> Arg<'a>
    ensures rule { rule_of result ≡ of_rule }
    ensures local { result.global ≡ false }
{
    Arg::new(alloc, "NAME").long("of").help(OF)
}

/// The argument of a name, with what help says of it.
fn name<'a>(alloc: Global, help: &'a str) -> Arg<'a>
    ensures rule { rule_of result ≡ name_rule }
    ensures local { result.global ≡ false }
{
    Arg::new(alloc, "NAME").required(true).help(help)
}

/// A command with its name, its usage, a line on what it does, and what its long help has at its end.
fn new_command<'a>(
    alloc: Global,
    name: &'a str,
    usage: &'a str,
    about: &'a str,
    example: &'a str,
) -> Result<Command<'a>, AllocError>
    ensures { Makes (new_app name.entry.now) result }
{
    Ok(
        Command::new(alloc, name)
            .override_usage(usage)
            .about(about)
            .after_long_help(example),
    )
}

/// A command with one argument more, if it could be made.
fn with_one<'a>(
    command: Result<Command<'a>, AllocError>,
    arg: Arg<'a>,
) -> Result<Command<'a>, AllocError>
    requires local { arg.global ≡ false }
    ensures { (app : App) (rule : Rule) → Makes app command.entry → rule_of arg.entry ≡ rule
        → Makes (with_rule app rule) result }
{
    command?.arg(arg)
}

/// A command with two arguments more, in their order, if it could be made.
fn with_two<'a>(
    command: Result<Command<'a>, AllocError>,
    first: Arg<'a>,
    second: Arg<'a>,
) -> Result<Command<'a>, AllocError>
    requires first_local { first.global ≡ false }
    requires second_local { second.global ≡ false }
    ensures { (app : App) (rule other : Rule) → Makes app command.entry
        → rule_of first.entry ≡ rule → rule_of second.entry ≡ other
        → Makes (with_rules app (rule ∷ other ∷ [])) result }
{
    with_one(with_one(command, first), second)
}

fn show<'a>(alloc: Global) -> Result<Command<'a>, AllocError>
    ensures { Makes show_app result }
{
    let command = new_command(
        alloc,
        "show",
        "ti show [OPTIONS] [FILE]...",
        "Print an entry, one capability a line",
        "Example:\n  ti show /lib/terminfo/x/xterm\n\nFor an entry that a stranger wrote:\n  ti show --escape < entry",
    );
    let command = with_two(command, escape(alloc), all_names(alloc));
    let command = with_two(command, json(alloc), entry(alloc));
    with_one(command, files(alloc, FILES))
}

fn check<'a>(alloc: Global) -> Result<Command<'a>, AllocError>
    ensures { Makes check_app result }
{
    let command = new_command(
        alloc,
        "check",
        "ti check [OPTIONS] [FILE]...",
        "Check each string of an entry; status 1 if one has a fault",
        "Example, the faults of a directory of entries:\n  ti check --faults /lib/terminfo\n\nFor an entry that a stranger wrote:\n  ti check --escape < entry",
    );
    let command = with_two(command, escape(alloc), all_names(alloc));
    let command = with_two(command, flag(alloc, "faults", FAULTS), json(alloc));
    with_two(command, entry(alloc), files(alloc, FILES))
}

fn lint<'a>(alloc: Global) -> Result<Command<'a>, AllocError>
    ensures { Makes lint_app result }
{
    let command = new_command(
        alloc,
        "lint",
        "ti lint [OPTIONS] [FILE]...\n       ti lint --explain [WORD]...",
        "Report mistakes in entries; status 1 if there are any",
        "Example, all entries of a directory:\n  ti lint /lib/terminfo\n\nWhat the words of findings mean:\n  ti lint --explain stack-underflow",
    );
    let untrusted = flag(alloc, "untrusted", UNTRUSTED);
    let command = with_two(command, flag(alloc, "all", ALL), untrusted);
    let explain = flag(alloc, "explain", EXPLAIN);
    let command = with_two(command, flag(alloc, "summary", SUMMARY), explain);
    let command = with_two(command, json(alloc), color(alloc));
    with_two(command, entry(alloc), files(alloc, FILES))
}

fn get<'a>(alloc: Global) -> Result<Command<'a>, AllocError>
    ensures { Makes get_app result }
{
    let command = new_command(
        alloc,
        "get",
        "ti get [OPTIONS] <NAME> [PARAM]... < ENTRY",
        "Print the value of one capability, as tput does",
        "Example, which moves to line 5, column 10:\n  ti get cup 4 9 < /lib/terminfo/x/xterm\n\nThe value of a boolean is the exit status:\n  ti get am < /lib/terminfo/x/xterm && echo yes",
    );
    let command = with_one(command, name(alloc, ANY_NAME));
    let command = with_two(command, hex(alloc), escape(alloc));
    let command = with_two(
        command,
        number(alloc, "rate", GREATEST_RATE, RATE),
        number(alloc, "lines", MOST_LINES, LINES),
    );
    let command = with_two(command, flag(alloc, "xon", XON), entry(alloc));
    with_one(command, params(alloc, ANY_PARAMS))
}

fn expand<'a>(alloc: Global) -> Result<Command<'a>, AllocError>
    ensures { Makes expand_app result }
{
    let command = new_command(
        alloc,
        "expand",
        "ti expand [OPTIONS] <NAME> [PARAM]... < ENTRY",
        "Expand and pad one string of an entry",
        "Example, which moves to line 5, column 10:\n  ti expand cup n:4 n:9 < /lib/terminfo/x/xterm",
    );
    let command = with_two(command, name(alloc, TEXT_NAME), hex(alloc));
    let command = with_two(command, escape(alloc), all_names(alloc));
    let command = with_two(
        command,
        number(alloc, "rate", GREATEST_RATE, RATE),
        number(alloc, "lines", MOST_LINES, LINES),
    );
    let command = with_two(command, flag(alloc, "xon", XON), entry(alloc));
    with_one(command, params(alloc, PARAMS))
}

fn diff<'a>(alloc: Global) -> Result<Command<'a>, AllocError>
    ensures { Makes diff_app result }
{
    let command = new_command(
        alloc,
        "diff",
        "ti diff [OPTIONS] [FILE] <OTHER>",
        "Show the differences between two entries; status 1 if any",
        "Example; - marks a value of the first entry, + of the second:\n  ti diff /lib/terminfo/x/xterm /lib/terminfo/x/xterm-color",
    );
    let command = with_two(command, flag(alloc, "expand", EXPAND), json(alloc));
    with_two(command, color(alloc), files(alloc, PAIR))
}

fn convert<'a>(alloc: Global) -> Result<Command<'a>, AllocError>
    ensures { Makes convert_app result }
{
    let command = new_command(
        alloc,
        "convert",
        "ti convert [OPTIONS] [FILE]",
        "Write an entry in its canonical layout",
        "Example, to the format with numbers of 32 bits:\n  ti convert --wide entry > wide",
    );
    let command = with_two(
        command,
        flag(alloc, "wide", WIDE),
        flag(alloc, "narrow", NARROW),
    );
    with_two(command, flag(alloc, "force", FORCE), file(alloc))
}

fn cap<'a>(alloc: Global) -> Result<Command<'a>, AllocError>
    ensures { Makes cap_app result }
{
    let command = new_command(
        alloc,
        "cap",
        "ti cap [OPTIONS] [PARAM]... < CAPABILITY",
        "Expand a string from standard input; delays stay as they are",
        "Example, which writes ESC [ 7 G:\n  printf '\\033[%%p1%%dG' | ti cap n:7\n\nThe same, as terminfo(5) writes it:\n  echo '\\E[%p1%dG' | ti cap --source n:7",
    );
    let command = with_two(command, source(alloc), hex(alloc));
    with_two(command, escape(alloc), params(alloc, PARAMS))
}

fn trace<'a>(alloc: Global) -> Result<Command<'a>, AllocError>
    ensures { Makes trace_app result }
{
    let command = new_command(
        alloc,
        "trace",
        "ti trace [OPTIONS] [PARAM]... < CAPABILITY\n       ti trace --of <NAME> [OPTIONS] [PARAM]... < ENTRY",
        "Show what each token of a string does",
        "Example, with the stack and the output after each token:\n  echo '\\E[%p1%dG' | ti trace --source --escape n:7\n\nA string of an entry:\n  ti trace --escape --of cup 4 9 < /lib/terminfo/x/xterm",
    );
    let command = with_two(command, source(alloc), of(alloc));
    let command = with_two(command, escape(alloc), json(alloc));
    let command = with_two(command, color(alloc), entry(alloc));
    with_one(command, params(alloc, TRACE_PARAMS))
}

/// `ti` itself, before its subcommands.
fn start<'a>(alloc: Global) -> Result<Command<'a>, AllocError>
    ensures { Makes start_app result }
{
    Ok(
        Command::new(alloc, "ti")
            .about("Read, check, compare, expand and write compiled terminfo entries")
            .version(VERSION)
            .subcommand_required(true)
            .after_help(STATUSES),
    )
}

/// A program with one subcommand more, if both could be made.
fn with_made<'a>(
    program: Result<Command<'a>, AllocError>,
    made: Result<Command<'a>, AllocError>,
) -> Result<Command<'a>, AllocError>
    ensures { (before app : App) → Makes before program.entry → Makes app made.entry
        → Makes (with_commands before (app ∷ [])) result }
{
    let program = program?;
    program.subcommand(made?)
}

/// `ti` with its first four subcommands.
fn first_commands<'a>(alloc: Global) -> Result<Command<'a>, AllocError>
    ensures { Makes (with_commands start_app (show_app ∷ check_app ∷ lint_app ∷ get_app ∷ []))
        result }
{
    let shown = with_made(start(alloc), show(alloc));
    let checked = with_made(shown, check(alloc));
    let linted = with_made(checked, lint(alloc));
    with_made(linted, get(alloc))
}

/// `ti` whole.
pub(crate) fn program<'a>(alloc: Global) -> Result<Command<'a>, AllocError>
    ensures { IfOk result (λ c. app_of c ≡ ti_app) }
{
    let compared = with_made(first_commands(alloc), diff(alloc));
    let expanded = with_made(compared, expand(alloc));
    let converted = with_made(expanded, convert(alloc));
    let capped = with_made(converted, cap(alloc));
    with_made(capped, trace(alloc))
}
