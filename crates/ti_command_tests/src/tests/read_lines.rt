//! Words that are read as a command line, and what it requests.

use crate::tests::check_rows;
use std::alloc::Global;
use ti_escape::Color;
use ti_fixtures::{Finds, Given, Unfound, only_if, show, show_debug};
use ti_line::{Action, Destination, LineFault, NoRequest, Request, read_line};

/// A terminal on which parts of lines stand out.
const TERMINAL: Destination = Destination::Terminal(Color::Always);

/// Words, and what they request.
const READ: &str = r##"
ti cap n:7 => Capability(CapabilityAction { parameters: ParameterValues { values: [Num(7), Num(0), Num(0), Num(0), Num(0), Num(0), Num(0), Num(0), Num(0)] }, result: Cap(Raw) })
ti cap => Capability(CapabilityAction { parameters: ParameterValues { values: [Num(0), Num(0), Num(0), Num(0), Num(0), Num(0), Num(0), Num(0), Num(0)] }, result: Cap(Raw) })
ti show --json => Entry(Json(Listing))
ti check --json => Entry(Json(Verdicts(All)))
ti check --json --faults => Entry(Json(Verdicts(Faults)))
ti cap n:4 --hex n:9 => Capability(CapabilityAction { parameters: ParameterValues { values: [Num(4), Num(9), Num(0), Num(0), Num(0), Num(0), Num(0), Num(0), Num(0)] }, result: Cap(Line(Hex)) })
ti cap s:-x n:-5 s: s:\303\251^A => Capability(CapabilityAction { parameters: ParameterValues { values: [Text([45, 120]), Num(-5), Text([]), Text([195, 169, 1]), Num(0), Num(0), Num(0), Num(0), Num(0)] }, result: Cap(Raw) })
ti cap s: s:\303\251^A => Capability(CapabilityAction { parameters: ParameterValues { values: [Text([]), Text([195, 169, 1]), Num(0), Num(0), Num(0), Num(0), Num(0), Num(0), Num(0)] }, result: Cap(Raw) })
ti cap -- s:--hex n:-5 => Capability(CapabilityAction { parameters: ParameterValues { values: [Text([45, 45, 104, 101, 120]), Num(-5), Num(0), Num(0), Num(0), Num(0), Num(0), Num(0), Num(0)] }, result: Cap(Raw) })
ti cap n:7 --source => Source(CapabilityAction { parameters: ParameterValues { values: [Num(7), Num(0), Num(0), Num(0), Num(0), Num(0), Num(0), Num(0), Num(0)] }, result: Cap(Raw) })
ti trace --source -e => Source(CapabilityAction { parameters: ParameterValues { values: [Num(0), Num(0), Num(0), Num(0), Num(0), Num(0), Num(0), Num(0), Num(0)] }, result: Trace(Lines(TraceOptions { form: Notation, color: Never, rows: Each })) })
ti trace n:7 => Capability(CapabilityAction { parameters: ParameterValues { values: [Num(7), Num(0), Num(0), Num(0), Num(0), Num(0), Num(0), Num(0), Num(0)] }, result: Trace(Lines(TraceOptions { form: Hex, color: Never, rows: Each })) })
ti trace n:4 --escape s:-x => Capability(CapabilityAction { parameters: ParameterValues { values: [Num(4), Text([45, 120]), Num(0), Num(0), Num(0), Num(0), Num(0), Num(0), Num(0)] }, result: Trace(Lines(TraceOptions { form: Notation, color: Never, rows: Each })) })
ti trace --of cup -e => Entry(Trace(TraceOf { name: "cup", given: None, form: Lines(TraceOptions { form: Notation, color: Never, rows: Each }) }))
ti trace 4 --of=cursor_address --entry - => Entry(Trace(TraceOf { name: "cursor_address", given: Some(Given { params: [Either { number: 4, text: [52] }, Value(Num(0)), Value(Num(0)), Value(Num(0)), Value(Num(0)), Value(Num(0)), Value(Num(0)), Value(Num(0)), Value(Num(0))] }), form: Lines(TraceOptions { form: Hex, color: Never, rows: Each }) }))
ti trace --json --of=cup --color always => Entry(Trace(TraceOf { name: "cup", given: None, form: Json }))
ti trace --color=always => Capability(CapabilityAction { parameters: ParameterValues { values: [Num(0), Num(0), Num(0), Num(0), Num(0), Num(0), Num(0), Num(0), Num(0)] }, result: Trace(Lines(TraceOptions { form: Hex, color: Always, rows: Each })) })
ti lint --all => Entry(Lint(LintOptions { level: All, untrusted: false }, Never))
ti lint --json => Entry(Json(Findings(LintOptions { level: Errors, untrusted: false })))
ti lint --untrusted => Entry(Lint(LintOptions { level: Errors, untrusted: true }, Never))
ti lint --untrusted --json --all => Entry(Json(Findings(LintOptions { level: All, untrusted: true })))
ti diff b => Difference(Pair { file: "-", other: "b", likeness: Bytes, form: Lines(Never) })
ti diff a b --json --expand => Difference(Pair { file: "a", other: "b", likeness: Tokens, form: Json })
ti show => Entry(Show(ListOptions { naming: Naming { table: Common, form: Raw }, form: Hex }))
ti show --escape => Entry(Show(ListOptions { naming: Naming { table: Common, form: Notation }, form: Notation }))
ti show --all-names => Entry(Show(ListOptions { naming: Naming { table: All, form: Raw }, form: Hex }))
ti check => Entry(Check(All, Naming { table: Common, form: Raw }))
ti check --all-names => Entry(Check(All, Naming { table: All, form: Raw }))
ti check --escape => Entry(Check(All, Naming { table: Common, form: Notation }))
ti check --faults => Entry(Check(Faults, Naming { table: All, form: Raw }))
ti cap --escape n:1 => Capability(CapabilityAction { parameters: ParameterValues { values: [Num(1), Num(0), Num(0), Num(0), Num(0), Num(0), Num(0), Num(0), Num(0)] }, result: Cap(Line(Notation)) })
ti check -ea => Entry(Check(All, Naming { table: All, form: Notation }))
ti check -ea --faults => Entry(Check(Faults, Naming { table: All, form: Notation }))
ti cap -x n:1 => Capability(CapabilityAction { parameters: ParameterValues { values: [Num(1), Num(0), Num(0), Num(0), Num(0), Num(0), Num(0), Num(0), Num(0)] }, result: Cap(Line(Hex)) })
ti expand --all-names --escape acsc => Entry(Expand(Expand { name: TextName { name: "acsc", names: All }, parameters: ParameterValues { values: [Num(0), Num(0), Num(0), Num(0), Num(0), Num(0), Num(0), Num(0), Num(0)] }, padding: Padding { rate: 0, lines: 1, xon: false, pad: 0 }, output: Line(Notation) }))
ti convert => Entry(Convert(None))
ti convert --wide => Entry(Convert(Some(Wide)))
ti convert --narrow => Entry(Convert(Some(Legacy)))
ti expand cup => Entry(Expand(Expand { name: TextName { name: "cup", names: Common }, parameters: ParameterValues { values: [Num(0), Num(0), Num(0), Num(0), Num(0), Num(0), Num(0), Num(0), Num(0)] }, padding: Padding { rate: 0, lines: 1, xon: false, pad: 0 }, output: Raw }))
ti expand --hex --rate 1000000 --lines=65535 --xon #0 s:$<5> n:1 => Entry(Expand(Expand { name: TextName { name: "#0", names: Common }, parameters: ParameterValues { values: [Text([36, 60, 53, 62]), Num(1), Num(0), Num(0), Num(0), Num(0), Num(0), Num(0), Num(0)] }, padding: Padding { rate: 1000000, lines: 65535, xon: true, pad: 0 }, output: Line(Hex) }))
ti expand bel n:1 --lines 0 --rate=0 => Entry(Expand(Expand { name: TextName { name: "bel", names: Common }, parameters: ParameterValues { values: [Num(1), Num(0), Num(0), Num(0), Num(0), Num(0), Num(0), Num(0), Num(0)] }, padding: Padding { rate: 0, lines: 0, xon: false, pad: 0 }, output: Raw }))
ti get cup => Entry(Get(Get { name: "cup", given: None, padding: Padding { rate: 0, lines: 1, xon: false, pad: 0 }, output: Raw }))
ti get --escape --rate=960 cursor_address => Entry(Get(Get { name: "cursor_address", given: None, padding: Padding { rate: 960, lines: 1, xon: false, pad: 0 }, output: Line(Notation) }))
ti get bel 7 => Entry(Get(Get { name: "bel", given: Some(Given { params: [Either { number: 7, text: [55] }, Value(Num(0)), Value(Num(0)), Value(Num(0)), Value(Num(0)), Value(Num(0)), Value(Num(0)), Value(Num(0)), Value(Num(0))] }), padding: Padding { rate: 0, lines: 1, xon: false, pad: 0 }, output: Raw }))
ti expand -- -X => Entry(Expand(Expand { name: TextName { name: "-X", names: Common }, parameters: ParameterValues { values: [Num(0), Num(0), Num(0), Num(0), Num(0), Num(0), Num(0), Num(0), Num(0)] }, padding: Padding { rate: 0, lines: 1, xon: false, pad: 0 }, output: Raw }))
"##;

/// Words of which the line has a fault, and the fault.
const FAULTY: &str = r"
ti diff => FileCount
ti diff - => InputTwice
ti diff - - => InputTwice
ti cap help => BadWord 1
ti cap n:1  s: => BadWord 2
ti cap -- -5 --hex => BadWord 1
ti trace -- --escape => BadWord 1
ti trace --of cup 4 n:x => BadWord 2
ti trace --entry - x => EntryWithoutName
ti show --json --escape => JsonForm
ti check --json -e => JsonForm
ti show --all-names --json x => JsonForm
ti trace --json --escape x => JsonForm
ti lint --json --explain layout => JsonExplained
ti trace --color=red x => ColorWord
ti lint --color Always => ColorWord
ti diff --color= => ColorWord
ti cap --escape --hex x => BothForms
ti expand --escape --hex bel x => BothForms
ti expand bel s: s: s: s: s: s: s: s: s: s: => TooMany
ti convert --narrow --wide => BothWidths
ti convert --narrow --wide --force => BothWidths
ti get --escape --hex bel n:x => BothForms
ti get bel x n:x => BadWord 2
ti get bel 1 2 3 4 5 6 7 8 9 10 => TooMany
ti get cup 1 2 3 => Surplus
ti get cup red => NoNumber
ti get am linux => OnlyNumbers
ti get bel 1 linux => OnlyNumbers
ti get colors --entry A B => OnlyNumbers
ti get Ss 2 linux => OnlyNumbers
ti get kxyz linux => OnlyNumbers
ti trace --of clear linux => OnlyNumbers
ti get cup x 1 n:x => BadWord 3
ti trace --of cup 1 2 3 => Surplus
ti trace --of setaf red => NoNumber
ti trace --of setaf --json --escape red => JsonForm
";

/// Returns the request of some words. No file is named but by a difference.
struct Requests;

impl Finds for Requests {
    fn find(&self, given: &Given<'_, '_>, found: &mut Vec<u8>) -> Result<(), Unfound> {
        let alloc = *found.allocator();
        let Request { action, files, .. } = read_line(alloc, Destination::File, given.words)?;
        only_if(files.is_empty() || matches!(action, Action::Difference(_)))?;
        show_debug(found, &action)
    }
}

#[test]
fn words_are_read_as_requests(rt: HostRuntime) {
    check_rows(&rt, READ, &Requests);
}

/// The fault of the line that words are, at a terminal or not.
struct FaultAt(Destination);

impl Finds for FaultAt {
    fn find(&self, given: &Given<'_, '_>, found: &mut Vec<u8>) -> Result<(), Unfound> {
        match read_line(*found.allocator(), self.0, given.words) {
            Err(NoRequest::Fault(fault)) => show(found, &fault),
            _ => Err(Unfound),
        }
    }
}

#[test]
fn lines_have_faults(rt: HostRuntime) {
    check_rows(&rt, FAULTY, &FaultAt(Destination::File));
}

/// Words that ask to explain findings, and the words of these.
const EXPLAINED: &str = r#"
ti lint --explain => []
ti lint --explain layout %i-late => ["layout", "%i-late"]
ti lint --all - --explain => ["-"]
"#;

/// The words of the findings that are to be explained.
struct Explained;

impl Finds for Explained {
    fn find(&self, given: &Given<'_, '_>, found: &mut Vec<u8>) -> Result<(), Unfound> {
        match read_line(*found.allocator(), Destination::File, given.words) {
            Err(NoRequest::Explanation(words)) => show_debug(found, &words),
            _ => Err(Unfound),
        }
    }
}

#[test]
fn words_ask_for_explanations(rt: HostRuntime) {
    check_rows(&rt, EXPLAINED, &Explained);
}

/// Words, and what they ask for at a terminal that has color.
const AT_A_TERMINAL: &str = r#"
# Names go to a terminal in the notation alone.
ti check => Entry(Check(All, Naming { table: All, form: Notation }))
# Differences go to a terminal for people.
ti diff a b => Difference(Pair { file: "a", other: "b", likeness: Bytes, form: Headed(Always) })
ti diff --color never a b => Difference(Pair { file: "a", other: "b", likeness: Bytes, form: Headed(Never) })
ti diff --json a b => Difference(Pair { file: "a", other: "b", likeness: Bytes, form: Json })
# Runs of bytes of a trace are joined.
ti trace --of cup -e => Entry(Trace(TraceOf { name: "cup", given: None, form: Lines(TraceOptions { form: Notation, color: Always, rows: Joined }) }))
ti trace n:7 => Capability(CapabilityAction { parameters: ParameterValues { values: [Num(7), Num(0), Num(0), Num(0), Num(0), Num(0), Num(0), Num(0), Num(0)] }, result: Trace(Lines(TraceOptions { form: Notation, color: Always, rows: Joined })) })
ti trace --json --of cup => Entry(Trace(TraceOf { name: "cup", given: None, form: Json }))
# An entry goes to a terminal by force alone.
ti convert --force --wide => Entry(Convert(Some(Wide)))
ti convert --wide --force => Entry(Convert(Some(Wide)))
# Parts of lines stand out, unless a word says it.
ti lint => Entry(Lint(LintOptions { level: Errors, untrusted: false }, Always))
ti lint --color auto => Entry(Lint(LintOptions { level: Errors, untrusted: false }, Always))
ti lint --color=never => Entry(Lint(LintOptions { level: Errors, untrusted: false }, Never))
"#;

/// Returns the request of some words at a terminal.
struct RequestedAtTerminal;

impl Finds for RequestedAtTerminal {
    fn find(&self, given: &Given<'_, '_>, found: &mut Vec<u8>) -> Result<(), Unfound> {
        let Request { action, .. } = read_line(*found.allocator(), TERMINAL, given.words)?;
        show_debug(found, &action)
    }
}

#[test]
fn a_terminal_asks_for_the_notation_and_color(rt: HostRuntime) {
    check_rows(&rt, AT_A_TERMINAL, &RequestedAtTerminal);
}

#[test]
fn an_entry_goes_to_a_terminal_by_force_alone(rt: HostRuntime) {
    check_rows(&rt, "ti convert --wide => ToTerminal", &FaultAt(TERMINAL));
}

/// Words, and the files that they name.
const FILES: &str = r#"
ti show a => ["a"]
ti check a -e - a => ["a", "-", "a"]
ti check - => []
ti check -- -a -- => ["-a", "--"]
ti convert a --wide => ["a"]
ti get --entry a cup 4 => ["a"]
ti get cup 4 --entry=- => []
ti expand cup n:4 --entry\s => [""]
ti cap n:4 => []
"#;

/// The files that words name.
struct FilesOf;

impl Finds for FilesOf {
    fn find(&self, given: &Given<'_, '_>, found: &mut Vec<u8>) -> Result<(), Unfound> {
        let Request { files, .. } = read_line(*found.allocator(), Destination::File, given.words)?;
        show_debug(found, &files)
    }
}

#[test]
fn words_name_files(rt: HostRuntime) {
    check_rows(&rt, FILES, &FilesOf);
}
