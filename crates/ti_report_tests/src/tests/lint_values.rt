//! The lines on texts by what they send for the values that they may be given.

use super::entries::add_lines;
use crate::tests::check_rows;
use std::alloc::Global;
use ti_fixtures::{Finds, Given, Unfound, only_if};
use ti_rules::Trials;

/// Texts that send what they should not for some value, with the first lines on the entry.
const MISTAKEN: &str = r"
# `setf` of gs6300.
mistakes | cols#5 | lines#4 | colors#8 | setf=\E[?%?%p1%{0}%=%t0%e%p1%{1}%=%t2%e%p1%{1}%-%d%;m => setf\n  \\E[?%?%p1%{0}%=%t0%e%p1%{1}%=%t2%e%p1%{1}%-%d%;m\n  same-output: for 1 and for 3 it sends \\E[?2m\n  do: send something else for each of the two\n
mistakes | cols#5 | lines#4 | colors#8 | cub=%?%p1%{3}%=%t%e\E[%p1%dD%; => cub\n  %?%p1%{3}%=%t%e\\E[%p1%dD%;\n  empty-output: for 3 it sends nothing\n  do: send something for each value, in an otherwise part if need be\n
# `sgr` of xterm-bold has a letter too many as well.
mistakes | cols#5 | lines#4 | colors#8 | sgr=\E[0mB => sgr\n  \\E[0mB\n  sgr-text: for no attribute it sends \\E[0mB, of which some is shown\n  do: leave out what is in no sequence\n
# A space before a number, which %2d writes, ends no sequence.
mistakes | cols#5 | lines#4 | colors#8 | cup=\E[%i%p1%d;%p2%dH | csr=\E[%i%p1%2d;%p2%2dr => csr\n  \\E[%i%p1%2d;%p2%2dr\n  control-sequence: for 0 1 it sends \\E[ 1; 2r, where a space stands among the numbers of a \\E[\n  do: write %d or %02d, and no space\n
# The minus of a number below 0 is reported once.
mistakes | cols#5 | lines#4 | colors#2 | cup=\E[%i%p1%d;%p2%dH | op=\E[m | setaf=\E[3%p1%{1}%-%dm => setaf\n  \\E[3%p1%{1}%-%dm\n  negative-number: for 0 it sends \\E[3-1m, with a number below 0\n  do: subtract in the %e of a test, as in %?%p1%{8}%<%t3%p1%d%e9%p1%{8}%-%d%;\n
";

/// A text that is not tried, which is reported if all is.
const NOT_TRIED: &str = r"
all | cols#5 | lines#4 | colors#8 | cub=%p1%200d%p1%200d => cub\n  %p1%200d%p1%200d\n  not-tried: it is too long, or may send too much\n  do: shorten the string\n
";

/// The same, of which nothing is reported among the mistakes: the first line is one on the entry.
const NO_MISTAKE: &str = r"
mistakes | cols#5 | lines#4 | colors#8 | cub=%p1%200d%p1%200d => entry\n
";

/// Adds so many of the first lines.
fn add_front(found: &mut Vec<u8>, lines: &[u8], count: usize) -> Result<(), Unfound> {
    let mut left = count;
    for byte in lines {
        if left > 0 {
            found.push(*byte)?;
            if *byte == b'\n' {
                left -= 1;
            }
        }
    }
    Ok(())
}

/// The lines on the entry of a row.
fn lines_in(alloc: Global, trials: &mut Trials, given: &str) -> Result<Vec<u8>, Unfound> {
    let mut lines = Vec::new(alloc);
    add_lines(&mut lines, trials, given)?;
    Ok(lines)
}

/// The lines on the entry of a row, which are the same if it was tried before.
fn lines_again(alloc: Global, trials: &mut Trials, given: &str) -> Result<Vec<u8>, Unfound> {
    let lines = lines_in(alloc, trials, given)?;
    let again = lines_in(alloc, trials, given)?;
    only_if(again.as_slice() == lines.as_slice())?;
    Ok(lines)
}

/// So many of the first lines on the entry of a row.
struct FirstLines(usize);

impl Finds for FirstLines {
    fn find(&self, given: &Given<'_, '_>, found: &mut Vec<u8>) -> Result<(), Unfound> {
        let mut trials = Trials::new(*found.allocator());
        let lines = lines_again(*found.allocator(), &mut trials, given.text)?;
        add_front(found, lines.as_slice(), self.0)
    }
}

#[test]
fn values_are_told(rt: HostRuntime) {
    check_rows(&rt, MISTAKEN, &FirstLines(4));
}

#[test]
fn what_is_not_tried_is_told_if_all_is(rt: HostRuntime) {
    check_rows(&rt, NOT_TRIED, &FirstLines(4));
    check_rows(&rt, NO_MISTAKE, &FirstLines(1));
}

/// Whether the same is reported of entries that are tried one after another, each twice.
fn are_told_again(alloc: Global, rows: &str) -> Result<bool, Unfound> {
    let mut trials = Trials::new(alloc);
    for row in rows.lines() {
        if let Some((given, _)) = row.split_once(" => ") {
            let _lines = lines_again(alloc, &mut trials, given)?;
        }
    }
    Ok(true)
}

/// A text of which nothing is reported.
const TOLD_NOTHING: &str = r"
mistakes | cols#5 | lines#4 | colors#8 | cub=\E[%p1%dD => -
";

#[test]
fn the_same_is_told_of_a_text_that_was_tried(rt: HostRuntime) {
    assert_that!(rt; are_told_again(rt.alloc(), MISTAKEN).unwrap_or(false));
    assert_that!(rt; are_told_again(rt.alloc(), TOLD_NOTHING).unwrap_or(false));
}
