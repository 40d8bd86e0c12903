//! Entries of the 32-bit format: what they say.

use super::entries_read::SaidIn;
use super::entry_refusals::RefusalIn;
use crate::tests::check_rows;

/// Entries of the 32-bit format and their numbers of four bytes, and what they say: see `entries_read`.
const SAID: &str = r"
@WIDE => (Wide, [116], [Yes, No], [Value(80), Absent], [Absent, Value([7]), Absent])([(None, No)], [(None, Absent)], [(None, Absent)])
@WIDE | 16 | P\000\000\000 => (Wide, [116], [Yes, No], [Value(80), Absent], [Absent, Value([7]), Absent])([(None, No)], [(None, Absent)], [(None, Absent)])
@WIDE | 16 | \377\377\377\377 => (Wide, [116], [Yes, No], [Absent, Absent], [Absent, Value([7]), Absent])([(None, No)], [(None, Absent)], [(None, Absent)])
@WIDE | 16 | \376\377\377\377 => (Wide, [116], [Yes, No], [Cancelled, Absent], [Absent, Value([7]), Absent])([(None, No)], [(None, Absent)], [(None, Absent)])
@WIDE | 16 | \377\377\377^? => (Wide, [116], [Yes, No], [Value(2147483647), Absent], [Absent, Value([7]), Absent])([(None, No)], [(None, Absent)], [(None, Absent)])
# an extended number is wide
@WIDE_EXTENDED => (Wide, [116], [Yes, No], [Value(80), Absent], [Absent, Value([7]), Absent])([(None, No)], [(Some([85, 56]), Value(70000)), (None, Absent)], [(None, Absent)])
# the same without its extended part
@WIDE_EXTENDED | - | - | 26 => (Wide, [116], [Yes, No], [Value(80), Absent], [Absent, Value([7]), Absent])([(None, No)], [(None, Absent)], [(None, Absent)])
";

#[test]
fn wide_entries_say_what_they_say(rt: HostRuntime) {
    check_rows(&rt, SAID, &SaidIn);
}

/// Bytes of the 32-bit format, and why they are refused.
const REFUSED: &str = r"
# a number below minus two, whole, without what comes after it, and without its last byte
@WIDE | 16 | \375\377\377\377 => BadNumber at 16
@WIDE | 16 | \375\377\377\377 | 20 => BadNumber at 16
@WIDE | 16 | \375\377\377\377 | 19 => Truncated at 19
# the magic numbers have two bytes
^^^A => BadMagic at 0
^Z^B => BadMagic at 0
";

#[test]
fn wide_bytes_are_refused(rt: HostRuntime) {
    check_rows(&rt, REFUSED, &RefusalIn);
}
