//! The call that writes an entry in its canonical layout, in either format.

use super::calls::{Calls, GrowthsOf, StreamsOf, WrittenBy, add_written, is_written};
use crate::tests::check_rows;
use std::alloc::Allocator;
use ti_fixtures::entries::{longest, shared_by_many};
use ti_fixtures::{Finds, Given, Sink, Source, Unfound, only_if, show};
use ti_tool::{ToolFault, convert};
use ti_words::Width;

/// An entry that is canonical already.
const CANONICAL: &str = r"
@SMALL => @SMALL
@EXTENDED => @EXTENDED
@QUESTION => @QUESTION
@TEXT => @TEXT
# what tic and tic -x write
@DUMB => @DUMB
@ADM3A => @ADM3A
@EXTENDED_BY_TIC => @EXTENDED_BY_TIC
@WIDE_BY_TIC => @WIDE_BY_TIC
# an odd table
^Z^A^B\000^A\000^A\000^B\000^C\000t\000^A\000P\000\377\377\000\000^G^G\000 => ^Z^A^B\000^A\000^A\000^B\000^C\000t\000^A\000P\000\377\377\000\000^G^G\000
# an extended number alone
^Z^A^B\000\000\000\000\000\000\000\000\000t\000\000\000^A\000\000\000^A\000^C\000P\000\000\000U8\000 => ^Z^A^B\000\000\000\000\000\000\000\000\000t\000\000\000^A\000\000\000^A\000^C\000P\000\000\000U8\000
# the 32-bit format, with the number absent, cancelled and the greatest
@WIDE => @WIDE
@WIDE_EXTENDED => @WIDE_EXTENDED
^^^B^B\000^A\000^A\000^B\000^B\000t\000^A\000\377\377\377\377\377\377\000\000^G\000 => ^^^B^B\000^A\000^A\000^B\000^B\000t\000^A\000\377\377\377\377\377\377\000\000^G\000
^^^B^B\000^A\000^A\000^B\000^B\000t\000^A\000\376\377\377\377\377\377\000\000^G\000 => ^^^B^B\000^A\000^A\000^B\000^B\000t\000^A\000\376\377\377\377\377\377\000\000^G\000
^^^B^B\000^A\000^A\000^B\000^B\000t\000^A\000\377\377\377^?\377\377\000\000^G\000 => ^^^B^B\000^A\000^A\000^B\000^B\000t\000^A\000\377\377\377^?\377\377\000\000^G\000
";

/// An entry, and its canonical bytes.
const CONVERTED: &str = r"
# a shared text
@SHARED => ^Z^A^B\000\000\000\000\000^B\000^D\000t\000\000\000^B\000^G\000^G\000
# an extended part without a capability
^Z^A^B\000^A\000^A\000^B\000^B\000t\000^A\000P\000\377\377\000\000^G\000\000\000\000\000\000\000\000\000\000\000 => @SMALL
# texts that overlap
^Z^A^B\000\000\000\000\000^C\000^C\000t\000\000\000^A\000^B\000ab\000 => ^Z^A^B\000\000\000\000\000^C\000^F\000t\000\000\000^C\000^E\000ab\000b\000\000
";

/// Converts an entry to a format, or in its own.
#[derive(Clone, Copy)]
struct Converted(Option<Width>);

impl Calls for Converted {
    fn call<A: Allocator + Copy>(
        &self,
        alloc: A,
        source: &mut Source<'_>,
        writer: &mut Sink,
    ) -> Result<(), ToolFault> {
        convert(alloc, source, self.0, writer)
    }
}

#[test]
fn entries_are_written_in_one_layout(rt: HostRuntime) {
    check_rows(&rt, CANONICAL, &WrittenBy(Converted(None)));
    check_rows(&rt, CONVERTED, &WrittenBy(Converted(None)));
}

/// An entry, the width that is requested, and the bytes that are written.
const MOVED: &str = r"
@SMALL | wide => @WIDE
@WIDE | legacy => @SMALL
@EXTENDED | wide => @WIDENED
@WIDENED | legacy => @EXTENDED
@WIDE | wide => @WIDE
@SMALL | legacy => @SMALL
# the number is 32767
^^^B^B\000^A\000^A\000^B\000^B\000t\000^A\000\377^?\000\000\377\377\000\000^G\000 | legacy => ^Z^A^B\000^A\000^A\000^B\000^B\000t\000^A\000\377^?\377\377\000\000^G\000
# the number is cancelled
^^^B^B\000^A\000^A\000^B\000^B\000t\000^A\000\376\377\377\377\377\377\000\000^G\000 | legacy => ^Z^A^B\000^A\000^A\000^B\000^B\000t\000^A\000\376\377\377\377\000\000^G\000
";

/// The bytes of the entry of a row in a format, or the fault.
struct ConvertedTo;

impl Finds for ConvertedTo {
    fn find(&self, given: &Given<'_, '_>, found: &mut Vec<u8>) -> Result<(), Unfound> {
        let is_wide = given.fields()[1] == "wide";
        let width = if is_wide { Width::Wide } else { Width::Legacy };
        add_written(
            found,
            &Converted(Some(width)),
            &mut Source::new(given.bytes, 7),
        )
    }
}

#[test]
fn entries_are_moved_between_the_formats(rt: HostRuntime) {
    check_rows(&rt, MOVED, &ConvertedTo);
}

/// Entries with a number, or an extended number, above 32767.
const TOO_GREAT: &str = r"
^^^B^B\000^A\000^A\000^B\000^B\000t\000^A\000\000\200\000\000\377\377\000\000^G\000 | legacy => Encode NumberOutOfRange
@WIDE_EXTENDED | legacy => Encode NumberOutOfRange
";

#[test]
fn numbers_too_great_are_not_narrowed(rt: HostRuntime) {
    check_rows(&rt, TOO_GREAT, &ConvertedTo);
}

#[test]
fn texts_shared_by_many_are_too_long(rt: HostRuntime) {
    let bytes = shared_by_many();
    assert_that!(rt; is_written(rt.alloc(), &Converted(None), &bytes, b"Encode TooManyOrLong"));
}

#[test]
fn the_longest_entry_is_not_widened(rt: HostRuntime) {
    let (bytes, wide) = (longest(), Converted(Some(Width::Wide)));
    assert_that!(rt; is_written(rt.alloc(), &Converted(None), &bytes, &bytes));
    assert_that!(rt; is_written(rt.alloc(), &wide, &bytes, b"Encode TooManyOrLong"));
}

/// How long an entry is if it is widened. It is narrowed to the same.
struct LengthOfWidened;

impl Finds for LengthOfWidened {
    fn find(&self, given: &Given<'_, '_>, found: &mut Vec<u8>) -> Result<(), Unfound> {
        let alloc = *found.allocator();
        let mut wide = Vec::new(alloc);
        let (widens, narrows) = (Converted(Some(Width::Wide)), Converted(Some(Width::Legacy)));
        add_written(&mut wide, &widens, &mut Source::new(given.bytes, 512))?;
        only_if(is_written(alloc, &narrows, wide.as_slice(), given.bytes))?;
        show(found, &wide.len())
    }
}

// 15 numbers, and one of the extended part, have two bytes more.
#[test]
fn a_large_entry_is_widened_and_narrowed(rt: HostRuntime) {
    check_rows(&rt, "@TMUX => 3203", &LengthOfWidened);
}

#[test]
fn streams_of_an_entry_fail_at_each_read_and_byte(rt: HostRuntime) {
    check_rows(&rt, "@EXTENDED => 54 53", &StreamsOf(Converted(None)));
}

#[test]
fn each_growth_of_a_conversion_is_refused_in_turn(rt: HostRuntime) {
    let (wide, narrow) = (Converted(Some(Width::Wide)), Converted(Some(Width::Legacy)));
    check_rows(
        &rt,
        "@EXTENDED | 16 | 120 | 4 => true",
        &GrowthsOf(Converted(None)),
    );
    check_rows(&rt, "@EXTENDED | 16 | 120 | 4 => true", &GrowthsOf(wide));
    check_rows(&rt, "@WIDENED | 16 | 120 | 4 => true", &GrowthsOf(narrow));
}
