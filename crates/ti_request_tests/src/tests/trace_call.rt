//! The call that traces a capability, over memory, readers and writers that fail.

use super::calls::{Calls, StreamsOf, WrittenBy};
use crate::tests::check_rows;
use linked_list_allocator::LocalHeap;
use std::alloc::{Allocator, Global};
use ti_escape::{Color, Form};
use ti_expand::Value;
use ti_fixtures::traces::{COLUMN, COLUMN_OF_7};
use ti_fixtures::{Sink, Source, Tries, Unfound, only_if, tally_of};
use ti_line::{Action, CapabilityAction, CapabilityResult, ParameterValues, TraceForm};
use ti_tool::{ToolFault, carry_out};
use ti_trace::{TraceOptions, TraceRows, trace};

/// How traces are written.
const OPTIONS: TraceOptions = TraceOptions {
    form: Form::Hex,
    color: Color::Never,
    rows: TraceRows::Each,
};

const NUMBERS: [Value<'static>; 9] = [Value::Num(7); 9];

/// Traces a capability for these parameters.
#[derive(Clone, Copy)]
struct Traced<'a>(&'a [Value<'a>; 9]);

impl Calls for Traced<'_> {
    fn call<A: Allocator + Copy>(
        &self,
        alloc: A,
        source: &mut Source<'_>,
        writer: &mut Sink,
    ) -> Result<(), ToolFault> {
        let action = Action::Capability(CapabilityAction {
            parameters: ParameterValues { values: *self.0 },
            result: CapabilityResult::Trace(TraceForm::Lines(OPTIONS)),
        });
        carry_out(alloc, &action, source, writer).map(|_sound| ())
    }
}

#[test]
fn a_capability_is_traced(rt: HostRuntime) {
    check_rows(
        &rt,
        r"\E[%p1%dG => @COLUMN_OF_7",
        &WrittenBy(Traced(&NUMBERS)),
    );
}

#[test]
fn streams_of_a_trace_fail_at_each_read_and_byte(rt: HostRuntime) {
    check_rows(&rt, r"\E[%p1%dG => 9 418", &StreamsOf(Traced(&NUMBERS)));
}

/// A trace that is written. It takes as much memory as the text alone does.
#[derive(Clone, Copy)]
struct Growing {
    alloc: Global,
}

impl Tries for Growing {
    fn is_given(&self, heap: &LocalHeap) -> Result<bool, Unfound> {
        let mut writer = Sink::new(self.alloc);
        let mut source = Source::new(COLUMN, 512);
        let is_given = match Traced(&NUMBERS).call(heap, &mut source, &mut writer) {
            Ok(()) if writer.taken.as_slice() == COLUMN_OF_7 => true,
            Err(ToolFault::Memory) if writer.taken.is_empty() => false,
            _ => return Err(Unfound),
        };
        let text = trace(heap, COLUMN, &NUMBERS, &OPTIONS);
        only_if(text.is_ok() == is_given)?;
        Ok(is_given)
    }
}

#[test]
fn each_growth_of_a_trace_is_refused_in_turn(rt: HostRuntime) {
    let growing = Growing { alloc: rt.alloc() };
    assert_that!(rt; tally_of(rt.alloc(), &growing, 0, 32, 80).is_refused_then_given(4));
}

/// Capabilities, and the first of their faults if parameters 1 and 9 are texts that are too long.
const FIRST: &str = r"
%p1%s => TextTooLong 1
%; => Cap StrayEnd at 0
";

#[test]
fn a_trace_reports_the_first_of_its_faults(rt: HostRuntime) {
    let long = [b'a'; 32768];
    let mut parameters = NUMBERS;
    parameters[0] = Value::Text(&long);
    parameters[8] = Value::Text(&long);
    check_rows(&rt, FIRST, &WrittenBy(Traced(&parameters)));
}
