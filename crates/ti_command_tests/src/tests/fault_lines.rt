//! The lines on faults, and what is left of them if their writer fails.

use super::ending::{EndOf, add_outcome, end_of, end_over};
use crate::tests::check_rows;
use std::alloc::Global;
use ti_fixtures::{Finds, Given, Sink, Source, Unfound, only_if};

/// Words, what is read, the status, and the line on the fault.
const LINES: &str = r"
ti cap n:+1 | %d => 2 err parameter 1: bad word\n
ti cap n:1 n:2 n:3 n:4 n:5 n:6 n:7 n:8 n:9 n:0 | %d => 2 err parameters: more than nine\n
ti convert --wide --narrow | @SMALL => 2 err convert: both widths\n
ti cap --hex --escape | %d => 2 err --hex and --escape exclude each other\n
ti expand --hex --escape bel | @SMALL => 2 err --hex and --escape exclude each other\n
ti trace --source --of cup | @SMALL => 2 err --source and --of exclude each other\n
ti cap --source | %d\\E\^ => 4 err source: CutShort at 4\n  nothing follows the last character; write \\\\ for a backslash, \\\^ for a caret\n
ti trace --entry x | @SMALL => 2 err trace: --entry without --of\n
ti trace n:1 x | %d => 2 err parameter 2: bad word\n
ti trace | %; => 4 err capability: StrayEnd at 0\n
# the number is 32768
ti convert --narrow | ^^^B^B\000^A\000^A\000^B\000^B\000t\000^A\000\000\200\000\000\377\377\000\000^G\000 => 3 err entry: NumberOutOfRange\n
ti show | ^Z^A^B\000^A => 3 err entry: Truncated at 5\n
ti expand #1 | @QUESTION => 4 err capability: UnknownEscape at 3\n
ti expand cup | @SMALL => 4 err capability: absent\n
ti get cup | @SMALL => 4 err get: cup: absent\n
ti get \E | @SMALL => 4 err get: \\E: no such capability\n
ti expand --rate 1000000 --lines 65535 #0 s:$<99999*> | @TEXT => 4 err capability: TooMuch 6553434465000\n
";

/// Whether a run ends with a status and the front of a line, after which the writer of lines fails.
fn stops_after(alloc: Global, given: &Given<'_, '_>, status: u8, front: &[u8]) -> bool {
    let errors = Sink::failing_at(alloc, 1, front.len().saturating_add(1));
    let source = Source::new(given.second, 512);
    let end = end_over(alloc, alloc, given.words, source, Sink::new(alloc), errors);
    end.status == status && end.errors.as_slice() == front
}

/// Whether a line stops where its writer fails, and no other result changes.
fn stops(alloc: Global, given: &Given<'_, '_>, status: u8, line: &[u8]) -> bool {
    let mut is_each = true;
    for count in 0..line.len() {
        is_each &= stops_after(alloc, given, status, &line[..count]);
    }
    is_each
}

/// The line on the fault of a row, which stops where its writer fails.
struct LineOf;

impl Finds for LineOf {
    fn find(&self, given: &Given<'_, '_>, found: &mut Vec<u8>) -> Result<(), Unfound> {
        let alloc = *found.allocator();
        let end = end_of(alloc, given.words, given.second);
        let line = end.errors.as_slice();
        only_if(stops(alloc, given, end.status, line))?;
        add_outcome(found, end.status, b"", line)
    }
}

#[test]
fn a_line_stops_where_its_writer_fails(rt: HostRuntime) {
    check_rows(&rt, LINES, &LineOf);
}

/// A number of affected lines with a minus.
const NO_LINE: &str = r"
ti expand --hex --rate 960 --lines=-0 #0 s:a$<1*>b | @TEXT => 0 out 6162\n
";

#[test]
fn no_affected_line_may_have_a_minus(rt: HostRuntime) {
    check_rows(&rt, NO_LINE, &EndOf);
}
