//! The call that expands a text of an entry by name: which text, and with which padding.

use super::calls::{Calls, add_streams, add_written, growths_of};
use crate::tests::check_rows;
use std::alloc::Allocator;
use ti_expand::Value;
use ti_fixtures::capabilities::{nine, values_of};
use ti_fixtures::entries::TEXT;
use ti_fixtures::{Finds, Given, Sink, Source, Unfound, show};
use ti_pad::Padding;
use ti_tool::{ToolFault, expand_named};

/// Expands the text of a name for these parameters.
#[derive(Clone, Copy)]
struct Expanded<'a> {
    name: &'a str,
    parameters: &'a [Value<'a>; 9],
    padding: &'a Padding,
    hex: bool,
}

impl Calls for Expanded<'_> {
    fn call<A: Allocator + Copy>(
        &self,
        alloc: A,
        source: &mut Source<'_>,
        writer: &mut Sink,
    ) -> Result<(), ToolFault> {
        let (name, parameters, padding) = (self.name, self.parameters, self.padding);
        expand_named(alloc, source, name, parameters, padding, self.hex, writer)
    }
}

/// Padding within the limits.
fn padding_of(rate: u32, lines: u32, xon: bool) -> Result<Padding, Unfound> {
    Ok(Padding::new(rate, lines, xon, 0).ok_or("padding")?)
}

/// A name of the one text, the parameter that it writes, the bytes per second, the affected lines, and `xon` if the terminal has
/// it. Then the output, as a line of hexadecimal digits if `hex` stands after them.
const PADDED: &str = r"
#0 | $<5> | 960 | 1 | - => \000\000\000\000\000
#0 | $<5> | 960 | 1 | xon => -
#0 | $<5/> | 960 | 1 | xon => \000\000\000\000\000
#0 | \E[H$<5*/> | 960 | 2 | xon => \E[H\000\000\000\000\000\000\000\000\000\000
#00000 | a$<x> | 960 | 1 | - => a$<x>
#0 | $<5> | 960 | 1 | hex => 0000000000\n
#0 | $<5> | 960 | 1 | xon hex => \n
#0 | a$<x> | 960 | 1 | hex => 61243c783e\n
# too much padding
#0 | $<99999*> | 1000000 | 65535 | - => TooMuch 6553434465000
";

/// An aspect of an expansion: its output, its reads and writes, or whether it is refused memory and then given it.
#[derive(Clone, Copy)]
enum Aspect {
    Output,
    Streams,
    Growths,
}

/// Adds what is found of an expansion of the one text.
fn add_aspect(
    found: &mut Vec<u8>,
    aspect: Aspect,
    expansion: &Expanded<'_>,
) -> Result<(), Unfound> {
    match aspect {
        Aspect::Output => add_written(found, expansion, &mut Source::new(TEXT, 5)),
        Aspect::Streams => add_streams(found, expansion, TEXT),
        Aspect::Growths => {
            let tally = growths_of(*found.allocator(), expansion, TEXT, 16, 160)?;
            show(found, &tally.is_refused_then_given(4))
        }
    }
}

/// The same for the text of a row, which is expanded and padded.
struct PaddedText(Aspect);

impl Finds for PaddedText {
    fn find(&self, given: &Given<'_, '_>, found: &mut Vec<u8>) -> Result<(), Unfound> {
        let [name, _, rate, lines, form] = given.fields();
        let is_xon = form.starts_with("xon");
        let padding = padding_of(rate.parse::<u32>()?, lines.parse::<u32>()?, is_xon)?;
        let expansion = Expanded {
            name,
            parameters: &nine(&[Value::Text(given.second)]),
            padding: &padding,
            hex: form.ends_with("hex"),
        };
        add_aspect(found, self.0, &expansion)
    }
}

#[test]
fn named_texts_are_expanded_and_padded(rt: HostRuntime) {
    check_rows(&rt, PADDED, &PaddedText(Aspect::Output));
}

/// Three literal bytes, and a mark that becomes ten pad bytes for two lines.
const STREAMED: &str = r"
#0 | \E[H$<5*/> | 960 | 2 | xon => 23 13
";

#[test]
fn streams_of_padding_fail_at_each_read_and_byte(rt: HostRuntime) {
    check_rows(&rt, STREAMED, &PaddedText(Aspect::Streams));
}

/// A text whose output in hex is long.
const GROWING: &str = r"
#0 | \E[H$<9.5*> and some more bytes | 960 | 60 | hex => true
";

#[test]
fn each_growth_of_an_expansion_is_refused_in_turn(rt: HostRuntime) {
    check_rows(&rt, GROWING, &PaddedText(Aspect::Growths));
}

/// Entries, and names of their texts with parameters, if the text takes any, and the output; and names that no text of them has.
const NAMED: &str = r"
@SMALL | #1 => ^G
@SMALL | bel => ^G
@EXTENDED | E3 => \E[3J
@EXTENDED | bel => ^G
# what `tput -T tmux cup 23 79` prints
@TMUX | cup | 23 79 => \E[24;80H
@SMALL | #0 => NoSuchText
@SMALL | #99999 => NoSuchText
@SMALL | #100000 => NoSuchText
@SMALL | #+1 => NoSuchText
@SMALL | # => NoSuchText
@SMALL |  => NoSuchText
@SMALL | cbt => NoSuchText
@SMALL | cup => NoSuchText
@SMALL | bw => NoSuchText
@EXTENDED | AX => NoSuchText
@EXTENDED | E => NoSuchText
";

/// The expansion of the text of an entry with a name, or the fault.
struct NamedText;

impl Finds for NamedText {
    fn find(&self, given: &Given<'_, '_>, found: &mut Vec<u8>) -> Result<(), Unfound> {
        let [_, name, words, ..] = given.fields();
        let padding = padding_of(960, 1, false)?;
        let expansion = Expanded {
            name,
            parameters: &values_of(words),
            padding: &padding,
            hex: false,
        };
        add_written(found, &expansion, &mut Source::new(given.bytes, 7))
    }
}

#[test]
fn texts_are_found_by_their_names(rt: HostRuntime) {
    check_rows(&rt, NAMED, &NamedText);
}
