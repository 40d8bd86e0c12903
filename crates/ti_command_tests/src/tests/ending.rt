//! Runs of the program, and how they end.

use std::alloc::{Allocator, Global};
use ti_fixtures::{Finds, Given, Sink, Source, Unfound, only_if, show};
use ti_tool::{Color, Destination, run};

/// How a run ends: with its status, what its two writers took, and how often it read.
#[derive(Drop)]
pub struct End {
    pub status: u8,
    pub output: Vec<u8>,
    pub errors: Vec<u8>,
    pub reads: usize,
}

/// Where results go: to a terminal without color, or elsewhere.
pub fn destination(at_terminal: bool) -> Destination {
    if at_terminal {
        Destination::Terminal(Color::Never)
    } else {
        Destination::File
    }
}

/// Runs the program over a source and two writers, with an allocator for all but `clap`.
pub fn end_over<A: Allocator + Copy>(
    global: Global,
    alloc: A,
    words: &[&str],
    input: Source<'_>,
    output: Sink,
    errors: Sink,
) -> End {
    let mut input = input;
    let mut output = output;
    let mut errors = errors;
    let status = run(global, alloc, words, &mut input, &mut output, &mut errors);
    End {
        status,
        output: output.taken,
        errors: errors.taken,
        reads: input.calls,
    }
}

/// Runs the program over a source, with an output that fails at this write.
pub fn end_with(alloc: Global, words: &[&str], input: Source<'_>, output: Sink) -> End {
    end_over(alloc, alloc, words, input, output, Sink::new(alloc))
}

/// Runs the program over bytes that come five at a time.
pub fn end_of(alloc: Global, words: &[&str], input: &[u8]) -> End {
    end_with(alloc, words, Source::new(input, 5), Sink::new(alloc))
}

/// Adds a word and what a writer took, if it took anything.
fn add_part(found: &mut Vec<u8>, word: &str, part: &[u8]) -> Result<(), Unfound> {
    if part.is_empty() {
        return Ok(());
    }
    found.extend_from_slice(word.as_bytes())?;
    Ok(found.extend_from_slice(part)?)
}

/// Adds how a run ended: its status, and what its writers took.
pub fn add_outcome(
    found: &mut Vec<u8>,
    status: u8,
    output: &[u8],
    errors: &[u8],
) -> Result<(), Unfound> {
    show(found, &status)?;
    add_part(found, " out ", output)?;
    add_part(found, " err ", errors)
}

/// The same of a run that has ended.
pub fn add_end(found: &mut Vec<u8>, end: &End) -> Result<(), Unfound> {
    add_outcome(
        found,
        end.status,
        end.output.as_slice(),
        end.errors.as_slice(),
    )
}

/// How the run of a row ends: words and the input give a status, and what is written. Words that are refused read nothing.
pub struct EndOf;

impl Finds for EndOf {
    fn find(&self, given: &Given<'_, '_>, found: &mut Vec<u8>) -> Result<(), Unfound> {
        let end = end_of(*found.allocator(), given.words, given.second);
        only_if(end.status != 2 || end.reads == 0)?;
        add_end(found, &end)
    }
}

/// Returns the output of the run of a row, which ends well.
pub struct OutputOf;

impl Finds for OutputOf {
    fn find(&self, given: &Given<'_, '_>, found: &mut Vec<u8>) -> Result<(), Unfound> {
        let end = end_of(*found.allocator(), given.words, given.second);
        only_if(end.status == 0 && end.errors.is_empty())?;
        Ok(found.extend_from_slice(end.output.as_slice())?)
    }
}

/// Whether a run ends with this status, and its writers took this.
pub fn is_end(end: &End, status: u8, output: &[u8], errors: &[u8]) -> bool {
    end.status == status && end.output.as_slice() == output && end.errors.as_slice() == errors
}
