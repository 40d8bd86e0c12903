//! Words that are parameters, and texts that are as long as they may be.

use super::ending::{End, add_end, end_of};
use crate::tests::check_rows;
use std::alloc::Global;
use ti_fixtures::{Finds, Given, Unfound, place_of, show_debug};
use ti_line::read_given;
use ti_tool::read_params;

/// Words, and the parameters that they are.
const READ: &str = r"
 => [Num(0), Num(0), Num(0), Num(0), Num(0), Num(0), Num(0), Num(0), Num(0)]
n:7 => [Num(7), Num(0), Num(0), Num(0), Num(0), Num(0), Num(0), Num(0), Num(0)]
n:-2147483648 => [Num(-2147483648), Num(0), Num(0), Num(0), Num(0), Num(0), Num(0), Num(0), Num(0)]
n:2147483647 => [Num(2147483647), Num(0), Num(0), Num(0), Num(0), Num(0), Num(0), Num(0), Num(0)]
s:abc => [Text([97, 98, 99]), Num(0), Num(0), Num(0), Num(0), Num(0), Num(0), Num(0), Num(0)]
s:a n:5 => [Text([97]), Num(5), Num(0), Num(0), Num(0), Num(0), Num(0), Num(0), Num(0)]
s: => [Text([]), Num(0), Num(0), Num(0), Num(0), Num(0), Num(0), Num(0), Num(0)]
n:0 n:1 s:$<5> => [Num(0), Num(1), Text([36, 60, 53, 62]), Num(0), Num(0), Num(0), Num(0), Num(0), Num(0)]
";

/// The parameters that words are.
struct Parameters;

impl Finds for Parameters {
    fn find(&self, given: &Given<'_, '_>, found: &mut Vec<u8>) -> Result<(), Unfound> {
        show_debug(found, &read_params(given.words)?)
    }
}

#[test]
fn words_are_read_as_parameters(rt: HostRuntime) {
    check_rows(&rt, READ, &Parameters);
}

/// Words of `get`, and the first two parameters that they give.
const GIVEN: &str = r"
7 -7 => [Either { number: 7, text: [55] }, Either { number: -7, text: [45, 55] }]
n:7 s:7 => [Value(Num(7)), Value(Text([55]))]
s:n:7 => [Value(Text([110, 58, 55])), Value(Num(0))]
\s+7 => [Word([]), Word([43, 55])]
# as many bits as a number has, and one more
2147483647 => [Either { number: 2147483647, text: [50, 49, 52, 55, 52, 56, 51, 54, 52, 55] }, Value(Num(0))]
2147483648 => [Word([50, 49, 52, 55, 52, 56, 51, 54, 52, 56]), Value(Num(0))]
# digits are decimal
010 0x1 => [Either { number: 10, text: [48, 49, 48] }, Word([48, 120, 49])]
n - => [Word([110]), Word([45])]
";

/// The first two parameters that words give to `get`.
struct GivenToGet;

impl Finds for GivenToGet {
    fn find(&self, given: &Given<'_, '_>, found: &mut Vec<u8>) -> Result<(), Unfound> {
        let read = read_given(given.words)?.ok_or("none")?;
        show_debug(found, &&read.params[..2])
    }
}

#[test]
fn words_give_parameters_to_get(rt: HostRuntime) {
    assert_that!(rt; matches!(read_given(&[]), Ok(None)));
    check_rows(&rt, GIVEN, &GivenToGet);
}

/// The run of `ti trace --escape`, of `ti trace --json` or of `ti cap n:1` with one word more.
fn end_with(alloc: Global, command: &str, word: &str, input: &[u8]) -> End {
    let words = match command {
        "trace" => ["ti", "trace", "--escape", word],
        "json" => ["ti", "trace", "--json", word],
        _ => ["ti", "cap", "n:1", word],
    };
    end_of(alloc, &words, input)
}

/// A word for a text of so many bytes `a`.
fn word_of(alloc: Global, len: usize) -> Result<String, Unfound> {
    let mut word = String::from_str(alloc, "s:")?;
    for _ in 0..len {
        word.push('a')?;
    }
    Ok(word)
}

/// How the run of a row ends, whose last word is for a text as long as the third field says.
struct EndWithText;

impl Finds for EndWithText {
    fn find(&self, given: &Given<'_, '_>, found: &mut Vec<u8>) -> Result<(), Unfound> {
        let [command, _, len, ..] = given.fields();
        let word = word_of(*found.allocator(), place_of(len)?)?;
        let end = end_with(*found.allocator(), command, word.as_str(), given.second);
        add_end(found, &end)
    }
}

/// Texts that are as long as they may be, or longer.
const LONG: &str = r"
cap | %p1%d | 32768 => 4 err capability: TextTooLong 2\n
trace | %p1%l%d | 32767 => 0 out place^Itoken          ^Irun    ^Istack                  ^Iwrote\n    0^I%p1            ^Iran    ^Is:aaaaaaaaaaaaaaaa,..32767^I-\n    3^I%l             ^Iran    ^I32767                  ^I-\n    5^I%d             ^Iran    ^I-                      ^I32767\noutput: 32767\nwritten: 5\nran: 3\npassed: 0\nheight: 1\ndepth: 1\nbound: 11\n
trace | %p1%l%d | 32768 => 4 err capability: TextTooLong 1\n
json | %p1%l%d | 32768 => 4 err capability: TextTooLong 1\n
";

#[test]
fn a_text_is_at_most_as_long_as_it_may_be(rt: HostRuntime) {
    check_rows(&rt, LONG, &EndWithText);
}
