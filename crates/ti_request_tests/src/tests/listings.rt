//! Listings, verdicts and texts with the look that is requested, and of a large entry.

use super::calls::{Calls, add_written};
use super::show_call::Listed;
use crate::tests::check_rows;
use std::alloc::{Allocator, Global};
use ti_fixtures::entries::UNCOMMON;
use ti_fixtures::{Finds, Given, Sink, Source, TMUX, Unfound, show};
use ti_line::{Action, Destination, read_line};
use ti_tool::{ToolFault, carry_out, check};

/// Carries out an action.
#[derive(Clone, Copy)]
struct CarriedOut<'a> {
    action: &'a Action<'a>,
}

impl Calls for CarriedOut<'_> {
    fn call<A: Allocator + Copy>(
        &self,
        alloc: A,
        source: &mut Source<'_>,
        writer: &mut Sink,
    ) -> Result<(), ToolFault> {
        carry_out(alloc, self.action, source, writer).map(|_sound| ())
    }
}

/// The request of the words of a row on the uncommon entry, or the fault.
struct Requested;

impl Finds for Requested {
    fn find(&self, given: &Given<'_, '_>, found: &mut Vec<u8>) -> Result<(), Unfound> {
        let request = read_line(*found.allocator(), Destination::File, given.words)?;
        let carried = CarriedOut {
            action: &request.action,
        };
        add_written(found, &carried, &mut Source::new(UNCOMMON, 3))
    }
}

/// Words that request a listing or verdicts, and the lines.
const LISTED: &str = r"
ti show --escape --all-names => format: legacy\nnames: t\nflag xsb\ntext bel \^G\ntext cmdch \\E%p1%d\\\^\\,\\s\n
ti check --escape --all-names => text bel ok depth 0 bound 1\ntext cmdch ok depth 1 bound 15\n
";

#[test]
fn listings_have_the_look_that_is_asked(rt: HostRuntime) {
    check_rows(&rt, LISTED, &Requested);
}

/// Words that request an uncommon text, and what is written. It is not among the common names.
const FORMED: &str = r"
ti expand -a cmdch n:7 => \E7\^,\s
ti expand -a -x cmdch n:7 => 1b375e2c20\n
ti expand -a -e cmdch n:7 => \\E7\\\^\\,\\s\n
ti expand cmdch n:7 => NoSuchText
";

#[test]
fn expansions_have_the_form_that_is_asked(rt: HostRuntime) {
    check_rows(&rt, FORMED, &Requested);
}

/// Whether a listing of the large entry has its first lines and its last ones.
fn is_listed(alloc: Global) -> bool {
    let mut lines = Vec::new(alloc);
    let is_added = add_written(&mut lines, &Listed, &mut Source::new(TMUX, 512)).is_ok();
    let front =
        b"format: legacy\nnames: tmux|tmux terminal multiplexer\nflag am\nflag xenl\nflag km\nflag hs\nflag mir\nflag msgr\n";
    let end = b"\ntext+ rmxx 1b5b32396d\ntext+ smxx 1b5b396d\n";
    is_added && lines.as_slice().starts_with(front) && lines.as_slice().ends_with(end)
}

/// The listing, whose lines infocmp has in the same order; the flags OTbs and OTpt have no name in the table.
#[test]
fn a_large_entry_is_listed(rt: HostRuntime) {
    assert_that!(rt; is_listed(rt.alloc()));
}

/// How many lines the bytes have.
fn line_count(bytes: &[u8]) -> u32 {
    let mut count = 0u32;
    for byte in bytes {
        if *byte == b'\n' {
            count = count.saturating_add(1);
        }
    }
    count
}

/// How many lines the verdicts on an entry have, all of whose texts are sound.
struct VerdictCount;

impl Finds for VerdictCount {
    fn find(&self, given: &Given<'_, '_>, found: &mut Vec<u8>) -> Result<(), Unfound> {
        let alloc = *found.allocator();
        let mut writer = Sink::new(alloc);
        let is_sound = check(alloc, &mut Source::new(given.bytes, 512), &mut writer)?;
        show(found, &is_sound)?;
        found.push(b' ')?;
        show(found, &line_count(writer.taken.as_slice()))
    }
}

/// infocmp lists 230 texts, and each is a capability.
#[test]
fn a_large_entry_is_checked(rt: HostRuntime) {
    check_rows(&rt, "@TMUX => true 230", &VerdictCount);
}
