//! Traces of capabilities, and their faults.

use crate::tests::check_rows;
use linked_list_allocator::LocalHeap;
use std::str::from_utf8;
use ti_cap::{CapFault, CapRefused};
use ti_escape::{Color, Form};
use ti_expand::Value;
use ti_fixtures::capabilities::{nine, values_of};
use ti_fixtures::traces::{COLUMN, COLUMN_OF_7};
use ti_fixtures::{Finds, Given, Tries, Unfound, are_shown, show, tally_of};
use ti_trace::{TraceFault, TraceOptions, TraceRows, trace, trace_json};

/// A row for each token, with bytes in hex and without color.
const PLAIN: TraceOptions = TraceOptions {
    form: Form::Hex,
    color: Color::Never,
    rows: TraceRows::Each,
};

/// Capabilities with their first parameters, and their traces.
const TRACED: &str = r"
- | 3 => @NOTHING
%p1%p2%d%s | 0123456789abcdef\E -5 => @TEXT_AND_NUMBER
";

/// The same with what is written in hex.
const TRACED_IN_HEX: &str = r"
@CHOICE | 3 => @CHOICE_OF_3
";

/// The same with runs of bytes joined.
const JOINED: &str = r"
abcd%p1%d | 7 => place^Itoken          ^Irun    ^Istack                  ^Iwrote\n    0^Iabcd           ^Iran    ^I-                      ^I61626364\n    4^I%p1            ^Iran    ^I7                      ^I-\n    7^I%d             ^Iran    ^I-                      ^I37\noutput: 6162636437\nwritten: 5\nran: 6\npassed: 0\nheight: 1\ndepth: 1\nbound: 15\n
\E[%p1%dG | 7 => place^Itoken          ^Irun    ^Istack                  ^Iwrote\n    0^I\\E[            ^Iran    ^I-                      ^I1b5b\n    2^I%p1            ^Iran    ^I7                      ^I-\n    5^I%d             ^Iran    ^I-                      ^I37\n    7^IG              ^Iran    ^I-                      ^I47\noutput: 1b5b3747\nwritten: 4\nran: 5\npassed: 0\nheight: 1\ndepth: 1\nbound: 14\n
a%%bc | 0 => place^Itoken          ^Irun    ^Istack                  ^Iwrote\n    0^Ia              ^Iran    ^I-                      ^I61\n    1^I%%             ^Iran    ^I-                      ^I25\n    3^Ibc             ^Iran    ^I-                      ^I6263\noutput: 61256263\nwritten: 4\nran: 4\npassed: 0\nheight: 0\ndepth: 0\nbound: 4\n
";

/// The trace of a capability with options.
#[derive(Drop)]
struct TraceWith(TraceOptions);

impl Finds for TraceWith {
    fn find(&self, given: &Given<'_, '_>, found: &mut Vec<u8>) -> Result<(), Unfound> {
        let values = values_of(from_utf8(given.second)?);
        let made = trace(*found.allocator(), given.bytes, &values, &self.0)?;
        Ok(found.extend_from_slice(made.as_slice())?)
    }
}

#[test]
fn capabilities_are_traced(rt: HostRuntime) {
    let escaped = TraceOptions {
        form: Form::Notation,
        ..PLAIN
    };
    check_rows(&rt, TRACED, &TraceWith(escaped));
}

#[test]
fn a_choice_is_traced(rt: HostRuntime) {
    check_rows(&rt, TRACED_IN_HEX, &TraceWith(PLAIN));
}

#[test]
fn runs_of_bytes_are_joined(rt: HostRuntime) {
    let joined = TraceOptions {
        rows: TraceRows::Joined,
        ..PLAIN
    };
    check_rows(&rt, JOINED, &TraceWith(joined));
}

/// Capabilities with their first parameters, and their traces for programs.
const FOR_PROGRAMS: &str = r#"
ab | 0 => [{"place":0,"run":"ran","stack":[],"token":"a","wrote":"a"},{"place":1,"run":"ran","stack":[],"token":"b","wrote":"b"},{"bound":2,"depth":0,"height":0,"output":"ab","passed":0,"ran":2,"written":2}]
%?%p1%t%p2%s%e9%; | 1 ^G0123456789abcdef => [{"place":0,"run":"ran","stack":[],"token":"%?","wrote":""},{"place":2,"run":"ran","stack":[1],"token":"%p1","wrote":""},{"place":5,"run":"ran","stack":[],"token":"%t","wrote":""},{"place":7,"run":"ran","stack":[{"length":17,"text":"\^G0123456789abcde"}],"token":"%p2","wrote":""},{"place":10,"run":"ran","stack":[],"token":"%s","wrote":"\^G0123456789abcdef"},{"place":12,"run":"ran","stack":[],"token":"%e","wrote":""},{"place":14,"run":"passed","stack":[],"token":"9","wrote":""},{"place":15,"run":"ran","stack":[],"token":"%;","wrote":""},{"bound":17,"depth":1,"height":1,"output":"\^G0123456789abcdef","passed":1,"ran":7,"written":17}]
"#;

/// The trace of a capability for programs.
struct TraceForPrograms;

impl Finds for TraceForPrograms {
    fn find(&self, given: &Given<'_, '_>, found: &mut Vec<u8>) -> Result<(), Unfound> {
        let values = values_of(from_utf8(given.second)?);
        let made = trace_json(*found.allocator(), given.bytes, &values)?;
        Ok(found.extend_from_slice(made.as_slice())?)
    }
}

#[test]
fn a_choice_is_traced_for_programs(rt: HostRuntime) {
    check_rows(&rt, FOR_PROGRAMS, &TraceForPrograms);
}

/// How much longer a trace is with color, by which a token that was passed over is faint.
struct Faint;

impl Finds for Faint {
    fn find(&self, given: &Given<'_, '_>, found: &mut Vec<u8>) -> Result<(), Unfound> {
        let (alloc, values) = (*found.allocator(), values_of(given.fields()[1]));
        let plain = trace(alloc, given.bytes, &values, &PLAIN)?.len();
        let color = Color::Always;
        let faint = trace(
            alloc,
            given.bytes,
            &values,
            &TraceOptions { color, ..PLAIN },
        )?
        .len();
        show(found, &faint.saturating_sub(plain))
    }
}

#[test]
fn a_token_that_was_passed_over_is_faint(rt: HostRuntime) {
    check_rows(&rt, "%?%p1%t%e9%; | 1 => 7", &Faint);
}

/// `%p` without a digit.
const CUT: CapRefused = CapRefused {
    fault: CapFault::CutShort,
    place: 1,
};

#[test]
fn bytes_that_are_no_capability_have_no_trace(rt: HostRuntime) {
    let fault = trace(rt.alloc(), b"a%p", &nine(&[]), &PLAIN).err();
    assert_that!(rt; fault == Some(TraceFault::Cap(CUT)));
}

#[test]
fn a_text_that_is_too_long_has_no_trace(rt: HostRuntime) {
    let long = [b'a'; 32768];
    let texts = nine(&[Value::Num(0), Value::Text(&long)]);
    let fault = trace(rt.alloc(), b"a", &texts, &PLAIN).err();
    assert_that!(rt; fault == Some(TraceFault::TextTooLong(2)));
}

#[test]
fn a_fault_of_a_trace_is_shown(rt: HostRuntime) {
    assert_that!(rt; are_shown(rt.alloc(), &[(TraceFault::Cap(CUT), "Cap CutShort at 1")]));
}

/// Traces a capability.
struct Traced;

impl Tries for Traced {
    fn is_given(&self, heap: &LocalHeap) -> Result<bool, Unfound> {
        let traced = trace(heap, COLUMN, &[Value::Num(7); 9], &PLAIN);
        match &traced {
            Ok(text) if text.as_slice() == COLUMN_OF_7 => Ok(true),
            Err(TraceFault::Memory) => Ok(false),
            _ => Err(Unfound),
        }
    }
}

#[test]
fn each_growth_of_a_trace_is_refused_in_turn(rt: HostRuntime) {
    assert_that!(rt; tally_of(rt.alloc(), &Traced, 0, 32, 80).is_refused_then_given(4));
}
