//! Runs whose input or output fails, which end with status 5.

use super::ending::{add_end, end_of, end_over, end_with, is_end};
use crate::tests::check_rows;
use std::alloc::Global;
use ti_fixtures::{Finds, Given, Sink, Source, Unfound, only_if, place_of, show};

/// Words and what is read, the read, the write of results and the write of lines that fail, and how the run ends. A line that
/// cannot be written changes no status.
const ROWS: &str = r"
ti cap n:7 | %p1%d | 3 | - | - => 5 err input: failed\n
ti cap n:7 | %p1%d | - | 1 | - => 5 err output: failed\n
ti expand #1 | @SMALL | - | 1 | - => 5 err output: failed\n
# the reason follows, if advice is wanted
ti cap --source n:7 | %p1%d | - | 1 | - => 5 err output: failed\n  broken pipe\n
ti cap --source n:7 | %p1%d | - | 1 | 1 => 5
ti cap n:7 | % | - | - | 1 => 4
";

/// How the run of a row ends, whose streams fail.
struct EndOfFailing;

impl Finds for EndOfFailing {
    fn find(&self, given: &Given<'_, '_>, found: &mut Vec<u8>) -> Result<(), Unfound> {
        let [_, _, read, output, errors] = given.fields();
        let alloc = *found.allocator();
        let never = usize::MAX;
        let source = Source::failing_at(given.second, 1, place_of(read).unwrap_or(never));
        let output = Sink::failing_at(alloc, never, place_of(output).unwrap_or(never));
        let errors = Sink::failing_at(alloc, never, place_of(errors).unwrap_or(never));
        add_end(
            found,
            &end_over(alloc, alloc, given.words, source, output, errors),
        )
    }
}

#[test]
fn streams_that_fail_end_with_status_five(rt: HostRuntime) {
    check_rows(&rt, ROWS, &EndOfFailing);
}

/// Whether a run ends as it should if this read of one byte fails: with nothing written.
fn is_end_of_read(alloc: Global, words: &[&str], input: &[u8], read: usize) -> bool {
    let source = Source::failing_at(input, 1, read);
    let end = end_with(alloc, words, source, Sink::new(alloc));
    is_end(&end, 5, b"", b"input: failed\n")
}

/// How often the run of a row reads a byte. It fails at each read.
struct ReadsOf;

impl Finds for ReadsOf {
    fn find(&self, given: &Given<'_, '_>, found: &mut Vec<u8>) -> Result<(), Unfound> {
        let (alloc, words, input) = (*found.allocator(), given.words, given.second);
        let reads = end_with(alloc, words, Source::new(input, 1), Sink::new(alloc)).reads;
        let mut is_each = true;
        for read in 1..=reads {
            is_each &= is_end_of_read(alloc, words, input, read);
        }
        only_if(is_each)?;
        show(found, &reads)
    }
}

/// Words of commands that read an entry, and how often.
const COMMANDS: &str = r"
ti trace | @EXTENDED => 54
ti show | @EXTENDED => 54
ti check | @EXTENDED => 54
ti convert | @EXTENDED => 54
ti expand E3 | @EXTENDED => 54
";

#[test]
fn a_command_whose_source_fails_writes_nothing(rt: HostRuntime) {
    check_rows(&rt, COMMANDS, &ReadsOf);
}

/// Whether a run ends as it should if its output takes these bytes, one at a time, and then fails.
fn is_end_after(alloc: Global, words: &[&str], input: &[u8], front: &[u8]) -> bool {
    let output = Sink::failing_at(alloc, 1, front.len().saturating_add(1));
    let end = end_with(alloc, words, Source::new(input, 512), output);
    is_end(&end, 5, front, b"output: failed\n")
}

/// Whether a run that writes this fails at each of its bytes.
fn fails_at_each_byte(alloc: Global, words: &[&str], input: &[u8], output: &[u8]) -> bool {
    let mut is_each = true;
    for count in 0..output.len() {
        is_each &= is_end_after(alloc, words, input, &output[..count]);
    }
    is_each
}

/// How the run of a row ends, whose output may fail at each byte.
struct EndByBytes;

impl Finds for EndByBytes {
    fn find(&self, given: &Given<'_, '_>, found: &mut Vec<u8>) -> Result<(), Unfound> {
        let (alloc, words, input) = (*found.allocator(), given.words, given.second);
        let end = end_of(alloc, words, input);
        only_if(fails_at_each_byte(alloc, words, input, end.output.as_slice()))?;
        add_end(found, &end)
    }
}

/// An entry whose text 0 is `\E[H$<5*/>`, which is padded to three literal bytes and ten pad bytes.
const PADDED: &str = r"
ti expand --rate 960 --lines 2 --xon #0 | ^Z^A^B\000\000\000\000\000^A\000^J\000t\000\000\000\E[H$<5*/>\000 => 0 out \E[H\000\000\000\000\000\000\000\000\000\000
";

#[test]
fn padded_text_stops_where_the_writer_fails(rt: HostRuntime) {
    check_rows(&rt, PADDED, &EndByBytes);
}
