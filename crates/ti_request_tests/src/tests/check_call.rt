//! The call that checks the texts of an entry: its verdicts, and what it returns.

use super::calls::{Calls, GrowthsOf, StreamsOf};
use crate::tests::check_rows;
use std::alloc::Allocator;
use ti_fixtures::{Finds, Given, Sink, Source, Unfound, show};
use ti_tool::{ToolFault, check};

/// An entry, whether no text has a fault, and its verdicts.
const ROWS: &str = r"
@SMALL => true text bel ok depth 0 bound 1\n
@EXTENDED => true text bel ok depth 0 bound 1\ntext+ E3 ok depth 0 bound 4\n
@QUESTION => false text bel fault UnknownEscape at 3\n
@SHARED => true text cbt ok depth 0 bound 1\ntext bel ok depth 0 bound 1\n
@TEXT => true text cbt ok depth 1 bound 0\n
@DUMB => true text bel ok depth 0 bound 1\ntext cr ok depth 0 bound 1\ntext cud1 ok depth 0 bound 1\ntext ind ok depth 0 bound 1\n
@EXTENDED_BY_TIC => true text bel ok depth 0 bound 1\ntext cr ok depth 0 bound 1\ntext clear ok depth 0 bound 7\ntext cup ok depth 1 bound 26\ntext+ E3 ok depth 0 bound 4\ntext+ Smulx ok depth 1 bound 16\ntext+ kUP5 ok depth 0 bound 6\n
# a fault before a sound text, and an absent one between
^Z^A^B\000\000\000\000\000^C\000^F\000t\000\000\000\377\377^B\000%\000%t%\000 => false text cbt fault CutShort at 0\ntext cr fault StrayThen at 0\n
# equal texts in a row, another of the same length, and one that is its end
^Z^A^B\000\000\000\000\000^E\000^F\000t\000\000\000\000\000^C\000^C\000^D\000%t\000ab\000 => false text cbt fault StrayThen at 0\ntext bel fault StrayThen at 0\ntext cr ok depth 0 bound 2\ntext csr ok depth 0 bound 2\ntext tbc ok depth 0 bound 1\n
# an extended text with a fault
^Z^A^B\000\000\000\000\000\000\000\000\000t\000\000\000\000\000^A\000^B\000^F\000\000\000\000\000%p\000E3\000 => false text+ E3 fault CutShort at 0\n
# no text at all
^Z^A^B\000\000\000\000\000\000\000\000\000t\000 => true
";

/// Whether the texts of the entry of a row are sound, and its verdicts.
struct Verdicts;

impl Finds for Verdicts {
    fn find(&self, given: &Given<'_, '_>, found: &mut Vec<u8>) -> Result<(), Unfound> {
        let alloc = *found.allocator();
        let mut writer = Sink::new(alloc);
        show(
            found,
            &check(alloc, &mut Source::new(given.bytes, 7), &mut writer)?,
        )?;
        if !writer.taken.is_empty() {
            found.push(b' ')?;
        }
        Ok(found.extend_from_slice(writer.taken.as_slice())?)
    }
}

#[test]
fn texts_are_analysed(rt: HostRuntime) {
    check_rows(&rt, ROWS, &Verdicts);
}

/// Checks the texts of an entry, which have to be sound.
#[derive(Clone, Copy)]
struct Checked;

impl Calls for Checked {
    fn call<A: Allocator + Copy>(
        &self,
        alloc: A,
        source: &mut Source<'_>,
        writer: &mut Sink,
    ) -> Result<(), ToolFault> {
        match check(alloc, source, writer) {
            Ok(true) => Ok(()),
            Ok(false) => Err(ToolFault::NoSuchText),
            Err(fault) => Err(fault),
        }
    }
}

#[test]
fn streams_of_verdicts_fail_at_each_read_and_byte(rt: HostRuntime) {
    check_rows(&rt, "@SMALL => 25 28", &StreamsOf(Checked));
}

#[test]
fn each_growth_of_the_verdicts_is_refused_in_turn(rt: HostRuntime) {
    check_rows(&rt, "@DUMB | 16 | 60 | 2 => true", &GrowthsOf(Checked));
}
