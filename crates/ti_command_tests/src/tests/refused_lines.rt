//! Words that are no command line, and what the user is reported of them.

use super::ending::{end_of, is_end};
use crate::tests::check_rows;
use std::alloc::Global;
use ti_fixtures::entries::SMALL;
use ti_fixtures::{Finds, Given, Unfound, only_if};
use ti_line::{Destination, NoRequest, read_line};

/// Words that are refused, and what the text on them has.
const REFUSED: &str = r"
 | subcommand => -
ti | subcommand => -
ti zap | 'zap' => -
# a word of other programs, not one that is spelled alike
ti list | 'list'\n\n  tip: a similar subcommand exists: 'show'\n\nUsage: => -
ti list \E | 'list'\n\n  tip: a similar subcommand exists: 'show'\n\nUsage: => -
ti info x | 'info'\n\n  tip: a similar subcommand exists: 'show'\n\nUsage: => -
ti explain | 'explain'\n\n  tip: some similar subcommands exist: 'trace', 'lint --explain'\n\nUsage: => -
ti lnt | 'lint' => -
ti cap --entry x | '--entry' => -
ti cap --xon | '--xon' => -
ti cap -5 | '-5' => -
ti cap --hex --hex | --hex => -
ti cap --all-names | '--all-names' => -
ti trace --hex | '--hex' => -
ti trace --escape --escape | --escape => -
ti check --hex | '--hex' => -
ti convert x \303\251\302\233^M | '\\303\\251\\302\\233\^M' => -
ti cap --\E[2K | '--\\E[2K' => -
ti expand --rate \n9 bel | '\^J9' for '--rate <N>' => -
ti expand | <NAME> => -
ti get | <NAME> => -
ti get cup -5 | '-5' => -
ti get --all-names cup | '--all-names' => -
ti expand bel --rate | --rate <N> => -
ti expand --rate 1000001 bel | 1000001 is not in 0..=1000000 => -
ti expand --rate -1 bel | '-1' => -
ti expand --lines 65536 bel | 65536 is not in 0..=65535 => -
ti expand --lines x bel | invalid value 'x' for '--lines <N>' => -
";

/// Adds the text on the refusal of words.
fn add_refusal(text: &mut Vec<u8>, words: &[&str]) -> Result<(), Unfound> {
    match read_line(*text.allocator(), Destination::File, words) {
        Err(NoRequest::Refused(message)) => Ok(text.extend_from_slice(
            message.as_str().as_bytes(),
        )?),
        _ => Err(Unfound),
    }
}

/// Whether a text has printable characters and newlines alone.
fn is_printable(text: &[u8]) -> bool {
    for byte in text {
        if *byte != b'\n' && !(b' '..=b'~').contains(byte) {
            return false;
        }
    }
    true
}

/// Whether a part stands in a text.
pub fn has_part(text: &[u8], part: &[u8]) -> bool {
    for start in 0..text.len() {
        if text[start..].starts_with(part) {
            return true;
        }
    }
    false
}

/// Whether the text on the refusal of words has a part, is printable and ends a line.
fn is_refused_with(alloc: Global, words: &[&str], part: &[u8]) -> bool {
    let mut text = Vec::new(alloc);
    let is_added = add_refusal(&mut text, words).is_ok();
    let is_line = is_printable(text.as_slice()) && text.as_slice().ends_with(b"\n");
    is_added && is_line && has_part(text.as_slice(), part)
}

/// Nothing, if the words of a row are refused with its part.
struct RefusedWith;

impl Finds for RefusedWith {
    fn find(&self, given: &Given<'_, '_>, found: &mut Vec<u8>) -> Result<(), Unfound> {
        only_if(is_refused_with(*found.allocator(), given.words, given.second))
    }
}

#[test]
fn other_words_are_refused_with_a_text(rt: HostRuntime) {
    check_rows(&rt, REFUSED, &RefusedWith);
}

/// No byte of a word is shown but printable ones.
#[test]
fn a_word_with_control_characters_is_shown_by_its_notation(rt: HostRuntime) {
    let words = ["ti", "a\x1b]0;b\x07\nentry: c"];
    assert_that!(rt; is_refused_with(rt.alloc(), &words, b"'a\\E]0;b^G^Jentry: c'"));
}

/// Words that are no command line.
const ENDED: &str = r"
 => refused
ti => refused
ti Cap => refused
ti cap --entry x => refused
ti convert x y => refused
ti show --hex => refused
ti expand => refused
ti expand --rate 1000001 bel => refused
ti expand --lines 65536 bel => refused
ti expand --rate -1 bel => refused
ti expand --rate bel => refused
ti cap --xon => refused
ti cap -y => refused
";

/// Whether a run is refused for its words, with the text on their refusal, and reads nothing.
struct EndOfRefused;

impl Finds for EndOfRefused {
    fn find(&self, given: &Given<'_, '_>, found: &mut Vec<u8>) -> Result<(), Unfound> {
        let alloc = *found.allocator();
        let mut text = Vec::new(alloc);
        add_refusal(&mut text, given.words)?;
        let end = end_of(alloc, given.words, SMALL);
        only_if(end.reads == 0 && !text.is_empty() && is_end(&end, 2, b"", text.as_slice()))?;
        Ok(found.extend_from_slice(b"refused")?)
    }
}

#[test]
fn words_that_are_no_line_end_with_status_two(rt: HostRuntime) {
    check_rows(&rt, ENDED, &EndOfRefused);
}
