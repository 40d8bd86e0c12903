//! The call that expands a capability: what it writes, and streams and memory that fail.

use super::calls::{AfterInterruptions, Calls, GrowthsOf, StreamsOf, add_written};
use crate::tests::check_rows;
use std::alloc::{Allocator, Global};
use ti_cap::{CapFault, CapRefused};
use ti_escape::Form;
use ti_expand::Value;
use ti_fixtures::capabilities::{
    COLORS, CONDITIONAL, FORMATS, OPERATIONS, SGR, STACK, TEXTS, values_of,
};
use ti_fixtures::{Endless, Finds, Given, Sink, Source, Unfound};
use ti_line::{Action, CapabilityAction, CapabilityResult, Output, ParameterValues};
use ti_tool::{ToolFault, cap_run, carry_out};

/// Expands a capability for these parameters, and writes as it stands or in hex.
#[derive(Clone, Copy)]
struct Expanded<'a> {
    parameters: [Value<'a>; 9],
    hex: bool,
}

impl Calls for Expanded<'_> {
    fn call<A: Allocator + Copy>(
        &self,
        alloc: A,
        source: &mut Source<'_>,
        writer: &mut Sink,
    ) -> Result<(), ToolFault> {
        cap_run(alloc, source, &self.parameters, self.hex, writer)
    }
}

/// The output of a capability for the parameters of a row, raw or in hex.
struct Written {
    hex: bool,
}

/// As it stands.
const PLAIN: Written = Written { hex: false };

impl Finds for Written {
    fn find(&self, given: &Given<'_, '_>, found: &mut Vec<u8>) -> Result<(), Unfound> {
        let parameters = values_of(given.fields()[1]);
        let hex = self.hex;
        let expanded = Expanded { parameters, hex };
        add_written(found, &expanded, &mut Source::new(given.bytes, 7))
    }
}

#[test]
fn capabilities_write_what_terminfo_says(rt: HostRuntime) {
    check_rows(&rt, STACK, &PLAIN);
    check_rows(&rt, OPERATIONS, &PLAIN);
    check_rows(&rt, FORMATS, &PLAIN);
    check_rows(&rt, TEXTS, &PLAIN);
    check_rows(&rt, CONDITIONAL, &PLAIN);
}

#[test]
fn capabilities_write_what_tput_prints(rt: HostRuntime) {
    check_rows(&rt, COLORS, &PLAIN);
    check_rows(&rt, SGR, &PLAIN);
}

/// The bytes that `tput -T tmux cup 23 79` prints.
#[test]
fn a_text_of_a_large_entry_is_expanded_by_itself(rt: HostRuntime) {
    check_rows(
        &rt,
        "@CUP | 23 79 => 1b5b32343b383048\\n",
        &Written { hex: true },
    );
}

/// Expands for the number 7 alone, and writes as it stands.
const SEVEN: Expanded<'static> = Expanded {
    parameters: [Value::Num(7); 9],
    hex: false,
};

/// The same in hex.
const SEVEN_IN_HEX: Expanded<'static> = Expanded { hex: true, ..SEVEN };

#[test]
fn streams_fail_at_each_read_and_byte(rt: HostRuntime) {
    check_rows(&rt, r"\E[%p1%dG => 9 4", &StreamsOf(SEVEN));
}

/// A capability, how many reads are interrupted, and what is written.
const INTERRUPTED: &str = r"
\E[%p1%dG | 1000 => 1b5b3747\n
\E[%p1%dG | 1001 => Read
";

#[test]
fn interrupted_reads_are_tried_again(rt: HostRuntime) {
    check_rows(&rt, INTERRUPTED, &AfterInterruptions(SEVEN_IN_HEX));
}

/// The refusal of more bytes than a capability has.
const TOO_LONG: CapRefused = CapRefused {
    fault: CapFault::TooLong,
    place: 32767,
};

/// Whether a call reads no more of a source without end than it may, writes nothing, and has this fault.
fn is_fault_of_endless(alloc: Global, fault: ToolFault) -> bool {
    let mut source = Endless { reads: 0 };
    let mut writer = Sink::new(alloc);
    let result = cap_run(alloc, &mut source, &SEVEN.parameters, false, &mut writer);
    result == Err(fault) && source.reads <= 32768 && writer.taken.is_empty()
}

#[test]
fn a_source_without_end_is_too_long(rt: HostRuntime) {
    assert_that!(rt; is_fault_of_endless(rt.alloc(), ToolFault::Cap(TOO_LONG)));
}

/// A capability whose output in hex has more than 60 bytes.
const GROWING: &str = r"
\E[%i%p1%d;%p2%dH, and some more bytes after it | 16 | 40 | 4 => true
";

#[test]
fn each_growth_of_a_call_is_refused_in_turn(rt: HostRuntime) {
    check_rows(&rt, GROWING, &GrowthsOf(SEVEN_IN_HEX));
}

/// Expands a capability for the number 7 alone, and writes in a form.
#[derive(Clone, Copy)]
struct Formed(Output);

impl Calls for Formed {
    fn call<A: Allocator + Copy>(
        &self,
        alloc: A,
        source: &mut Source<'_>,
        writer: &mut Sink,
    ) -> Result<(), ToolFault> {
        let action = Action::Capability(CapabilityAction {
            parameters: ParameterValues {
                values: SEVEN.parameters,
            },
            result: CapabilityResult::Cap(self.0),
        });
        carry_out(alloc, &action, source, writer).map(|_sound| ())
    }
}

/// The output of a capability in the form of a row.
struct InForm;

impl Finds for InForm {
    fn find(&self, given: &Given<'_, '_>, found: &mut Vec<u8>) -> Result<(), Unfound> {
        let output = match given.fields()[1] {
            "hex" => Output::Line(Form::Hex),
            "notation" => Output::Line(Form::Notation),
            _ => Output::Raw,
        };
        add_written(found, &Formed(output), &mut Source::new(given.bytes, 7))
    }
}

/// ESC, 7, ^, a comma and a space in each form of an output.
const FORMS: &str = r"
\E%p1%d\^,\s | raw => \E7\^,\s
\E%p1%d\^,\s | hex => 1b375e2c20\n
\E%p1%d\^,\s | notation => \\E7\\\^\\,\\s\n
";

#[test]
fn outputs_have_the_form_that_is_asked(rt: HostRuntime) {
    check_rows(&rt, FORMS, &InForm);
}
