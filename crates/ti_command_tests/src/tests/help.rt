//! Words that ask for help, and the help.

use super::ending::{end_of, end_with, is_end};
use super::refused_lines::has_part;
use crate::tests::check_rows;
use std::alloc::Global;
use ti_fixtures::entries::SMALL;
use ti_fixtures::{Finds, Given, Sink, Source, Unfound, bytes_of, only_if};
use ti_line::{Destination, NoRequest, read_line};

/// Words that ask for help, and what the help has.
const HELP: &str = r"
ti --help | show | check | lint | get | diff | expand | convert | cap | trace | --version | Status | Example => -
ti -h | Usage: ti <COMMAND> => -
ti help | Usage: ti <COMMAND> => -
ti help show | Usage: ti show [OPTIONS] [FILE]... | --escape | --all-names | \\E[H => -
ti cap --help | --source | --hex | --escape | [PARAM]... | n:NUMBER | s:STRING | Example => -
ti trace --help | --source | --of <NAME> | --entry <FILE> | --escape | [PARAM]... | n:NUMBER | s:STRING | Example => -
ti expand --help | <NAME> | --rate <N> | 1000000 | --lines <N> | 65535 | --xon | Example => -
ti check --help | status 1 | Example => -
ti lint --help | Usage: ti lint [OPTIONS] [FILE]... | ti lint --explain [WORD]... | --explain | --all | --summary | Example => -
ti convert --help | canonical | --force | Example => -
ti diff --help | Usage: ti diff [OPTIONS] [FILE] <OTHER> | --expand | standard input | status 1 | Example => -
ti get --help | <NAME> | < ENTRY | --entry <FILE> | cursor_address | flag#N | as tput does | Example => -
ti --version | ti 0.4.0\n => -
";

/// Adds the help that words ask for.
fn add_help(help: &mut Vec<u8>, words: &[&str]) -> Result<(), Unfound> {
    match read_line(*help.allocator(), Destination::File, words) {
        Err(NoRequest::Help(message)) => Ok(help.extend_from_slice(message.as_str().as_bytes())?),
        _ => Err(Unfound),
    }
}

/// Whether each line has at most 80 bytes.
fn is_narrow(text: &[u8]) -> bool {
    let mut width = 0usize;
    for byte in text {
        width = if *byte == b'\n' {
            0
        } else {
            width.saturating_add(1)
        };
        if width > 80 {
            return false;
        }
    }
    true
}

/// Adds the part of a row if a text lacks it.
fn add_lacking(lacking: &mut Vec<u8>, text: &[u8], part: &str) -> Result<(), Unfound> {
    if has_part(text, bytes_of(*lacking.allocator(), part)?.as_slice()) {
        return Ok(());
    }
    Ok(lacking.extend_from_slice(part.as_bytes())?)
}

/// Adds the parts of a row that a text lacks.
fn add_all_lacking(lacking: &mut Vec<u8>, text: &[u8], row: &str) -> Result<(), Unfound> {
    for part in row.split(" | ").skip(1) {
        add_lacking(lacking, text, part)?;
    }
    Ok(())
}

/// The parts that the help lacks for which the words of a row ask. No line has more than 80 bytes.
struct Lacking;

impl Finds for Lacking {
    fn find(&self, given: &Given<'_, '_>, found: &mut Vec<u8>) -> Result<(), Unfound> {
        let mut help = Vec::new(*found.allocator());
        add_help(&mut help, given.words)?;
        only_if(is_narrow(help.as_slice()))?;
        add_all_lacking(found, help.as_slice(), given.text)
    }
}

#[test]
fn help_says_what_a_person_needs(rt: HostRuntime) {
    check_rows(&rt, HELP, &Lacking);
}

/// Words that ask for help or for the version, and what comes of it if it can be written, and if not.
const ASKING: &str = r"
ti --help => written
ti --version => written
ti cap --help => written
ti expand --help => written
";

/// Whether help goes where results go, and the run reads nothing; and fails if it cannot be written.
struct Action;

impl Finds for Action {
    fn find(&self, given: &Given<'_, '_>, found: &mut Vec<u8>) -> Result<(), Unfound> {
        let alloc = *found.allocator();
        let end = end_of(alloc, given.words, SMALL);
        let is_written = end.status == 0 && end.errors.is_empty() && end.reads == 0;
        only_if(is_written && !end.output.is_empty())?;
        only_if(stops_after(alloc, given.words, b""))?;
        Ok(found.extend_from_slice(b"written")?)
    }
}

#[test]
fn help_goes_where_results_go(rt: HostRuntime) {
    check_rows(&rt, ASKING, &Action);
}

/// The help of the whole command.
const WHOLE: &str = r"
ti --help | Read, check, compare, expand and write compiled terminfo entries\n | cap | trace | show | check | expand | convert | get => -
";

/// The parts of a row that the output of its words lacks, which starts with the first of them and ends a line.
struct LackingInOutput;

impl Finds for LackingInOutput {
    fn find(&self, given: &Given<'_, '_>, found: &mut Vec<u8>) -> Result<(), Unfound> {
        let end = end_of(*found.allocator(), given.words, SMALL);
        let text = end.output.as_slice();
        only_if(end.status == 0 && end.errors.is_empty())?;
        only_if(text.starts_with(given.second) && text.ends_with(b"\n"))?;
        add_all_lacking(found, text, given.text)
    }
}

#[test]
fn help_is_the_text_of_the_command(rt: HostRuntime) {
    check_rows(&rt, WHOLE, &LackingInOutput);
}

/// Whether help ends as it should after these bytes, if its writer takes 64 at a time and then fails.
fn stops_after(alloc: Global, words: &[&str], front: &[u8]) -> bool {
    let output = Sink::failing_at(alloc, 64, (front.len() / 64).saturating_add(1));
    let end = end_with(alloc, words, Source::new(SMALL, 512), output);
    is_end(&end, 5, front, b"output: failed\n")
}

/// Whether help stops wherever its writer of 64 bytes at a time fails.
fn stops_at_each(alloc: Global, words: &[&str], help: &[u8]) -> bool {
    let mut is_each = true;
    for count in 0..help.len().div_ceil(64) {
        is_each &= stops_after(alloc, words, &help[..64 * count]);
    }
    is_each
}

/// Whether the help that words ask for is written in full, and stops where its writer fails.
struct Stops;

impl Finds for Stops {
    fn find(&self, given: &Given<'_, '_>, found: &mut Vec<u8>) -> Result<(), Unfound> {
        let alloc = *found.allocator();
        let mut help = Vec::new(alloc);
        add_help(&mut help, given.words)?;
        let whole = end_of(alloc, given.words, SMALL);
        only_if(is_end(&whole, 0, help.as_slice(), b""))?;
        only_if(stops_at_each(alloc, given.words, help.as_slice()))?;
        Ok(found.extend_from_slice(b"written in full, or up to a failed write")?)
    }
}

#[test]
fn help_stops_where_the_writer_fails(rt: HostRuntime) {
    check_rows(
        &rt,
        "ti show --help => written in full, or up to a failed write",
        &Stops,
    );
}
