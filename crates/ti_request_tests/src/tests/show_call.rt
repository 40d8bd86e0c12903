//! The call that lists an entry: what it lists, and what it refuses.

use super::calls::{Calls, GrowthsOf, StreamsOf, WrittenBy};
use crate::tests::check_rows;
use std::alloc::Allocator;
use ti_fixtures::{Sink, Source};
use ti_tool::{ToolFault, show};

/// An entry, and its listing.
const ROWS: &str = r"
@SMALL => format: legacy\nnames: t\nflag bw\nnumber cols 80\ntext bel 07\n
@SHARED => format: legacy\nnames: t\ntext cbt 07\ntext bel 07\n
@QUESTION => format: legacy\nnames: t\nflag bw\nnumber cols 80\ntext bel 1b5b3f255b3b303132333435363738395d63\n
# the flag and the number cancelled
^Z^A^B\000^A\000^A\000^B\000^B\000t\000\376\000\376\377\377\377\000\000^G\000 => format: legacy\nnames: t\nflag bw cancelled\nnumber cols cancelled\ntext bel 07\n
# the flag missing, the number absent, a text cancelled, and one of no bytes
^Z^A^B\000^A\000^A\000^B\000^B\000t\000\377\000\377\377\376\377^A\000^G\000 => format: legacy\nnames: t\nflag bw missing\ntext cbt cancelled\ntext bel -\n
# texts that overlap
^Z^A^B\000\000\000\000\000^C\000^C\000t\000\000\000^A\000^B\000ab\000 => format: legacy\nnames: t\ntext cbt 6162\ntext bel 62\ntext cr -\n
@EXTENDED => format: legacy\nnames: t\nflag bw\nnumber cols 80\ntext bel 07\nflag+ AX\ntext+ E3 1b5b334a\n
# an extended part without a capability
^Z^A^B\000^A\000^A\000^B\000^B\000t\000^A\000P\000\377\377\000\000^G\000\000\000\000\000\000\000\000\000\000\000 => format: legacy\nnames: t\nflag bw\nnumber cols 80\ntext bel 07\n
# an extended number
^Z^A^B\000\000\000\000\000\000\000\000\000t\000\000\000^A\000\000\000^A\000^C\000P\000\000\000U8\000 => format: legacy\nnames: t\nnumber+ U8 80\n
# a name without a place in the table of names
^Z^A^B\000^D\000\000\000\000\000\000\000t\000\000\000^A\376 => format: legacy\nnames: t\nflag #2\nflag #3 cancelled\n
# the 32-bit format: the small entry, the greatest number, and an extended number
@WIDE => format: wide\nnames: t\nflag bw\nnumber cols 80\ntext bel 07\n
^^^B^B\000^A\000^A\000^B\000^B\000t\000^A\000\377\377\377^?\377\377\000\000^G\000 => format: wide\nnames: t\nflag bw\nnumber cols 2147483647\ntext bel 07\n
@WIDE_EXTENDED => format: wide\nnames: t\nflag bw\nnumber cols 80\ntext bel 07\nnumber+ U8 70000\n
# what infocmp -x prints of it, as bytes
@EXTENDED_BY_TIC => format: legacy\nnames: mog|mogyarsu test terminal\nflag am\nnumber cols 80\nnumber lines 24\ntext bel 07\ntext cr 0d\ntext clear 1b5b481b5b324a\ntext cup 1b5b256925703125643b257032256448\nflag+ AX\nflag+ XT\nnumber+ U8 1\ntext+ E3 1b5b334a\ntext+ Smulx 1b5b343a25703125646d\ntext+ kUP5 1b5b313b3541\n
# the same of an entry with numbers of 32 bits
@WIDE_BY_TIC => format: wide\nnames: mogw|mogyarsu wide terminal\nflag am\nnumber cols 80\nnumber colors 16777216\nnumber pairs 65536\ntext bel 07\ntext cr 0d\nflag+ AX\nnumber+ U8 70000\ntext+ E3 1b5b334a\n
# infocmp: am, cols#80, bel=^G, cr=\r, cud1=\n, ind=\n
@DUMB => format: legacy\nnames: dumb|80-column dumb tty\nflag am\nnumber cols 80\ntext bel 07\ntext cr 0d\ntext cud1 0a\ntext ind 0a\n
";

/// Lists an entry.
#[derive(Clone, Copy)]
pub struct Listed;

impl Calls for Listed {
    fn call<A: Allocator + Copy>(
        &self,
        alloc: A,
        source: &mut Source<'_>,
        writer: &mut Sink,
    ) -> Result<(), ToolFault> {
        show(alloc, source, writer)
    }
}

#[test]
fn entries_are_listed(rt: HostRuntime) {
    check_rows(&rt, ROWS, &WrittenBy(Listed));
}

#[test]
fn streams_of_a_listing_fail_at_each_read_and_byte(rt: HostRuntime) {
    check_rows(&rt, "@SMALL => 25 59", &StreamsOf(Listed));
}

#[test]
fn each_growth_of_a_listing_is_refused_in_turn(rt: HostRuntime) {
    check_rows(&rt, "@DUMB | 16 | 64 | 2 => true", &GrowthsOf(Listed));
}
