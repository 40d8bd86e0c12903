//! Bytes and padded texts to writers that go in small steps, are interrupted and fail.

use super::padding_rows::padding_of;
use crate::tests::check_rows;
use std::alloc::Global;
use ti_fixtures::{Finds, Flushed, Given, Sink, Unfound, place_of, show_debug, show_numbers};
use ti_pad::{Padding, write_out, write_padded};

/// The writer of a row: how many bytes it takes at a time, which write fails, and how many writes are interrupted before the
/// first, and before each if it says so. What is no number is more than there are, or no interruption.
fn sink_in(alloc: Global, given: &Given<'_, '_>) -> Sink {
    let [_, _, step, write, interrupted] = given.fields();
    let step = place_of(step).unwrap_or(usize::MAX);
    let write = place_of(write).unwrap_or(usize::MAX);
    let mut sink = Sink::failing_at(alloc, step, write);
    let each = interrupted.strip_suffix(" each").unwrap_or("0");
    let count = interrupted.split(' ').next().unwrap_or("0");
    sink.interruptions = count.parse::<u32>().unwrap_or(0);
    sink.interruptions_each = each.parse::<u32>().unwrap_or(0);
    sink
}

/// The padding of a row: the rate, the affected lines, and whether marks that xon makes needless vanish.
fn padding_in(field: &str) -> Result<Padding, Unfound> {
    match field {
        "960 2 true" => padding_of(960, 2, true),
        _ => padding_of(1000, 1, false),
    }
}

/// Ten pad bytes after three literal ones, to a writer that fails at each byte, or too late. Then what comes of it, how many
/// bytes the writer took and in how many writes, and how many interruptions are left.
const FAILING: &str = r"
\E[H$<5*/> | 960 2 true | 1 | 1 | - => Err(Failed { gone: 0 }) 0 1 0
\E[H$<5*/> | 960 2 true | 1 | 2 | - => Err(Failed { gone: 1 }) 1 2 0
\E[H$<5*/> | 960 2 true | 1 | 3 | - => Err(Failed { gone: 2 }) 2 3 0
\E[H$<5*/> | 960 2 true | 1 | 4 | - => Err(Failed { gone: 3 }) 3 4 0
\E[H$<5*/> | 960 2 true | 1 | 5 | - => Err(Failed { gone: 4 }) 4 5 0
\E[H$<5*/> | 960 2 true | 1 | 6 | - => Err(Failed { gone: 5 }) 5 6 0
\E[H$<5*/> | 960 2 true | 1 | 7 | - => Err(Failed { gone: 6 }) 6 7 0
\E[H$<5*/> | 960 2 true | 1 | 8 | - => Err(Failed { gone: 7 }) 7 8 0
\E[H$<5*/> | 960 2 true | 1 | 9 | - => Err(Failed { gone: 8 }) 8 9 0
\E[H$<5*/> | 960 2 true | 1 | 10 | - => Err(Failed { gone: 9 }) 9 10 0
\E[H$<5*/> | 960 2 true | 1 | 11 | - => Err(Failed { gone: 10 }) 10 11 0
\E[H$<5*/> | 960 2 true | 1 | 12 | - => Err(Failed { gone: 11 }) 11 12 0
\E[H$<5*/> | 960 2 true | 1 | 13 | - => Err(Failed { gone: 12 }) 12 13 0
\E[H$<5*/> | 960 2 true | 1 | 14 | - => Ok(()) 13 13 0
";

/// The same for a writer that fails at its second write, and for one that takes nothing.
const STOPPING: &str = r"
abc | 960 2 true | 2 | 2 | - => Err(Failed { gone: 2 }) 2 2 0
\E[H$<5*/> | 960 2 true | 0 | - | - => Err(Failed { gone: 0 }) 0 1 0
";

/// The same for writers that are interrupted. The limit is of the whole call: ten bytes use it up, three of them from the text
/// and seven pad bytes.
const INTERRUPTED: &str = r"
\E[H$<5*/> | 960 2 true | - | - | 1000 => Ok(()) 13 2 0
\E[H$<5*/> | 960 2 true | - | - | 1001 => Err(Failed { gone: 0 }) 0 0 0
\E[H$<5*/> | 960 2 true | 1 | - | 100 each => Err(Failed { gone: 10 }) 10 10 99
";

/// The same for pad bytes that go in blocks.
const BLOCKS: &str = r"
abc$<1025>def | 1000 1 false | - | - | - => Ok(()) 1031 5 0
";

/// The result of writing a padded text.
struct WrittenTo;

impl Finds for WrittenTo {
    fn find(&self, given: &Given<'_, '_>, found: &mut Vec<u8>) -> Result<(), Unfound> {
        let padding = padding_in(given.fields()[1])?;
        let mut sink = sink_in(*found.allocator(), given);
        show_debug(found, &write_padded(&mut sink, given.bytes, &padding))?;
        found.push(b' ')?;
        let left = sink.interruptions as u64;
        show_numbers(found, &[sink.taken.len() as u64, sink.writes as u64, left])
    }
}

#[test]
fn a_writer_of_padding_fails_at_each_byte(rt: HostRuntime) {
    check_rows(&rt, FAILING, &WrittenTo);
}

#[test]
fn a_writer_that_fails_or_takes_nothing_stops(rt: HostRuntime) {
    check_rows(&rt, STOPPING, &WrittenTo);
}

#[test]
fn interrupted_writes_of_padding_are_tried_again(rt: HostRuntime) {
    check_rows(&rt, INTERRUPTED, &WrittenTo);
}

#[test]
fn pad_bytes_go_in_blocks(rt: HostRuntime) {
    check_rows(&rt, BLOCKS, &WrittenTo);
}

/// Bytes to writers that fail at each byte or too late, are interrupted, or take nothing. Then what comes of it, and the bytes
/// that were taken.
const OUT: &str = r"
0123456789ab | - | 1 | 1 | - => Err(0) 
0123456789ab | - | 1 | 2 | - => Err(1) 0
0123456789ab | - | 1 | 3 | - => Err(2) 01
0123456789ab | - | 1 | 4 | - => Err(3) 012
0123456789ab | - | 1 | 5 | - => Err(4) 0123
0123456789ab | - | 1 | 6 | - => Err(5) 01234
0123456789ab | - | 1 | 7 | - => Err(6) 012345
0123456789ab | - | 1 | 8 | - => Err(7) 0123456
0123456789ab | - | 1 | 9 | - => Err(8) 01234567
0123456789ab | - | 1 | 10 | - => Err(9) 012345678
0123456789ab | - | 1 | 11 | - => Err(10) 0123456789
0123456789ab | - | 1 | 12 | - => Err(11) 0123456789a
0123456789ab | - | 1 | 13 | - => Ok(()) 0123456789ab
abc | - | - | - | 1000 => Ok(()) abc
abc | - | - | - | 1001 => Err(0)\s
abc | - | 0 | - | - => Err(0)\s
";

/// The result of writing bytes.
struct OutTo;

impl Finds for OutTo {
    fn find(&self, given: &Given<'_, '_>, found: &mut Vec<u8>) -> Result<(), Unfound> {
        let mut sink = sink_in(*found.allocator(), given);
        show_debug(found, &write_out(&mut sink, given.bytes))?;
        found.push(b' ')?;
        Ok(found.extend_from_slice(sink.taken.as_slice())?)
    }
}

#[test]
fn a_writer_that_fails_took_what_was_counted(rt: HostRuntime) {
    check_rows(&rt, OUT, &OutTo);
}

/// Whether a writer takes bytes and a padded text.
fn are_taken(writer: &mut Flushed) -> Result<bool, Unfound> {
    let padding = padding_of(1000, 1, false)?;
    let is_out = write_out(writer, b"abc").is_ok();
    Ok(is_out && write_padded(writer, b"d$<2>e", &padding).is_ok())
}

/// When bytes go on is the writer's own affair.
#[test]
fn what_writes_flushes_nothing(rt: HostRuntime) {
    let mut writer = Flushed::new(rt.alloc());
    let are_taken = are_taken(&mut writer).unwrap_or(false);
    assert_that!(rt; are_taken && writer.flushes == 0);
    assert_same!(rt; writer.taken.as_slice(), b"abcd\0\0e");
}
