//! Runs of `ti diff` over files, worked by hand from what they hold.

use super::runs_of_files::{ShelfEnd, ShelfEndOfWrite};
use crate::tests::check_rows;
use linked_list_allocator::LocalHeap;
use std::alloc::{AllocError, Allocator};
use ti_entry::{Entry, read};
use ti_escape::Color;
use ti_fixtures::entries::{EXTENDED_BY_TIC, WIDE_BY_TIC};
use ti_fixtures::{Tries, Unfound, tally_of};
use ti_line::Likeness;
use ti_listing::{difference_of, differing_lines};

/// Words, whether results go to a terminal or to a file, and the status with what is written.
const ROWS: &str = r#"
ti diff tic tic | file => 0
ti diff more\E widened | file => 1 out - format: legacy\n+ format: wide\n
ti diff small more\E | file => 1 out + flag+ AX\n+ text+ E3 \\E[3J\n
ti diff more\E small | file => 1 out - flag+ AX\n- text+ E3 \\E[3J\n
ti diff tic wide | file => 1 out - format: legacy\n+ format: wide\n- names: mog|mogyarsu test terminal\n+ names: mogw|mogyarsu wide terminal\n- number lines 24\n+ number colors 16777216\n+ number pairs 65536\n- text clear \\E[H\\E[2J\n- text cup \\E[%i%p1%d;%p2%dH\n- flag+ XT\n- number+ U8 1\n+ number+ U8 70000\n- text+ Smulx \\E[4:%p1%dm\n- text+ kUP5 \\E[1;5A\n
# for people the files come first, and what both have before what one lacks
ti diff tic wide | terminal => 1 out --- tic\n+++ wide\n- format: legacy\n+ format: wide\n- names: mog|mogyarsu test terminal\n+ names: mogw|mogyarsu wide terminal\n- number+ U8 1\n+ number+ U8 70000\n- number lines 24\n+ number colors 16777216\n+ number pairs 65536\n- text clear \\E[H\\E[2J\n- text cup \\E[%i%p1%d;%p2%dH\n- flag+ XT\n- text+ Smulx \\E[4:%p1%dm\n- text+ kUP5 \\E[1;5A\n
ti diff more\E widened | terminal => 1 out --- more\\E\n+++ widened\n- format: legacy\n+ format: wide\n
ti diff small | terminal => 1 out --- standard input\n+++ small\n- text bel \\E[?%[;0123456789]c\n+ text bel \^G\n
ti diff twice once | terminal => 0
ti diff --json small more\E | terminal => 1 out [{"first":{"state":"absent"},"kind":"flag","name":"AX","other":{"value":true},"own":true},{"first":{"state":"absent"},"kind":"text","name":"E3","other":{"hex":"1b5b334a","value":"\\\\E[3J"},"own":true}]\n
ti diff twice once | file => 0
# in color the first is red, and the other green
ti diff --color=always small more\E | file => 1 out \E[32m+ flag+ AX\E[m\n\E[32m+ text+ E3 \\E[3J\E[m\n
ti diff --color=always more\E widened | file => 1 out \E[31m- format: legacy\E[m\n\E[32m+ format: wide\E[m\n
# the input has another text
ti diff small | file => 1 out - text bel \\E[?%[;0123456789]c\n+ text bel \^G\n
ti diff small - | file => 1 out - text bel \^G\n+ text bel \\E[?%[;0123456789]c\n
# a newline is the character 10
ti diff digits quoted | file => 1 out - text bel %{10}%c\n+ text bel %'\^J'%c\n
ti diff --expand digits quoted | file => 0
ti diff --expand small digits | file => 1 out - text bel \^G\n+ text bel %{10}%c\n
ti diff cut small | file => 3 err cut: entry: Truncated at 5\n
ti diff small cut | file => 3 err cut: entry: Truncated at 5\n
ti diff small none\E | file => 5 err none\\E: entity not found\n
ti diff none\E cut | file => 5 err none\\E: entity not found\n
ti diff | file => 2 err diff: one file or two; usage: ti diff [OPTIONS] [FILE] <OTHER>\n
ti diff - small | file => 1 out - text bel \\E[?%[;0123456789]c\n+ text bel \^G\n
ti diff - | file => 2 err diff: standard input cannot be compared with itself\n
ti diff - - | file => 2 err diff: standard input cannot be compared with itself\n
ti diff a b c | file => 2 err diff: one file or two; usage: ti diff [OPTIONS] [FILE] <OTHER>\n
"#;

#[test]
fn entries_are_told_apart(rt: HostRuntime) {
    check_rows(&rt, ROWS, &ShelfEnd);
}

#[test]
fn a_difference_that_cannot_be_written_is_told(rt: HostRuntime) {
    let row = r"ti diff more\E widened => 5 err output: failed\n";
    check_rows(&rt, row, &ShelfEndOfWrite(1));
}

/// The lines on what two entries do not have alike.
fn lines_on<'a, A: Allocator + Copy>(
    alloc: A,
    one: &Entry<'a>,
    other: &Entry<'a>,
) -> Result<Vec<u8, A>, AllocError> {
    let differences = difference_of(alloc, Likeness::Bytes, one, other)?;
    differing_lines(alloc, Color::Never, differences.as_slice())
}

/// Two entries that are reported apart.
struct ToldApart;

impl Tries for ToldApart {
    fn is_given(&self, heap: &LocalHeap) -> Result<bool, Unfound> {
        let (one, other) = (read(EXTENDED_BY_TIC)?, read(WIDE_BY_TIC)?);
        Ok(lines_on(heap, &one, &other).is_ok())
    }
}

#[test]
fn each_growth_of_a_difference_is_refused_in_turn(rt: HostRuntime) {
    assert_that!(rt; tally_of(rt.alloc(), &ToldApart, 64, 400, 60).is_refused_then_given(2));
}
