//! Runs over a capability that is as deep or as long as it may be: each command goes through.

use super::ending::{End, add_end, end_of, end_with};
use crate::tests::check_rows;
use std::alloc::Global;
use ti_entry::{Draft, encode};
use ti_fixtures::capabilities::deep;
use ti_fixtures::entries::{longest, shared_by_many};
use ti_fixtures::{Finds, Given, Sink, Source, Unfound, bytes_of, only_if, show};
use ti_words::{Text, Width};

/// So many bytes, and others after them.
fn many(alloc: Global, byte: u8, count: usize, after: &[u8]) -> Result<Vec<u8>, Unfound> {
    let mut bytes = Vec::new(alloc);
    bytes.resize(count, byte)?;
    bytes.extend_from_slice(after)?;
    Ok(bytes)
}

/// The front of an entry whose texts from `cbt` on, of which `csr` is absent, are the same 4700 bytes.
const SHARING: &[u8] =
    b"\x1a\x01\x02\0\0\0\0\0\x08\0\x5d\x12t\0\0\0\0\0\0\0\xff\xff\0\0\0\0\0\0\0\0";

/// That entry, all of whose texts are the same bytes `a`.
fn sharing(alloc: Global) -> Result<Vec<u8>, Unfound> {
    let mut bytes = SHARING.to_vec(alloc)?;
    bytes.resize(4730, b'a')?;
    bytes.push(0)?;
    Ok(bytes)
}

/// The bytes of a draft with a text more.
fn encoded_with<'a>(
    alloc: Global,
    draft: &mut Draft<'a, Global>,
    text: &'a [u8],
) -> Result<Vec<u8>, Unfound> {
    draft.push_text(Text::Value(text))?;
    Ok(encode(alloc, &*draft)?)
}

/// An entry whose one text is this.
fn entry_of(alloc: Global, text: &[u8]) -> Result<Vec<u8>, Unfound> {
    let mut draft = Draft::new(alloc, b"t", Width::Legacy);
    encoded_with(alloc, &mut draft, text)
}

/// The bytes of a name: a capability of depth 32, one of 32000 bytes `a` and a number, and what it writes for the number 12; an
/// entry whose texts are the same bytes, and the longest; seven texts that are the same; 20000 bytes 128.
fn input_of(alloc: Global, name: &str) -> Result<Vec<u8>, Unfound> {
    match name {
        "deep" => Ok(deep(alloc)?),
        "large" => many(alloc, b'a', 32000, b"%p1%d"),
        "large output" => many(alloc, b'a', 32000, b"12"),
        "shared by many" => Ok(shared_by_many().to_vec(alloc)?),
        "longest" => Ok(longest().to_vec(alloc)?),
        "sharing" => sharing(alloc),
        "not ASCII" => many(alloc, 0x80, 20000, b""),
        _ => Err(Unfound),
    }
}

/// The bytes of a name, or the entry whose one text is these bytes.
fn named_of(alloc: Global, name: &str) -> Result<Vec<u8>, Unfound> {
    match name.strip_prefix("entry of ") {
        Some(text) => entry_of(alloc, input_of(alloc, text)?.as_slice()),
        None => input_of(alloc, name),
    }
}

/// The run of a row over what its second field names.
fn run_of(alloc: Global, given: &Given<'_, '_>) -> Result<End, Unfound> {
    let input = named_of(alloc, given.fields()[1])?;
    let source = Source::new(input.as_slice(), 512);
    Ok(end_with(alloc, given.words, source, Sink::new(alloc)))
}

/// How the run of a row ends.
struct EndOfLarge;

impl Finds for EndOfLarge {
    fn find(&self, given: &Given<'_, '_>, found: &mut Vec<u8>) -> Result<(), Unfound> {
        add_end(found, &run_of(*found.allocator(), given)?)
    }
}

/// Runs over what is large, and what they write.
const SHORT: &str = r"
ti cap n:12 | deep => 0 out 12121212121212121212121212121212121212121212121212121212121212
ti expand --rate 960 cbt n:12 | entry of deep => 0 out 12121212121212121212121212121212121212121212121212121212121212
ti check | entry of deep => 0 out text cbt ok depth 32 bound 341\n
ti check | entry of large => 0 out text cbt ok depth 1 bound 32011\n
ti convert | shared by many => 3 err entry: TooManyOrLong\n
ti convert --wide | longest => 3 err entry: TooManyOrLong\n
# six times 4700 bytes are 28200, and seven times 32900
ti lint --untrusted --summary | sharing => 1 out entry\n  layout: the bytes are not those that tic writes\n  do: write the entry anew with ti convert\nentry\n  not-tried: its strings share bytes, and have more than 32768 together, so not all are looked at; not at ed\n  do: leave out some of them\n err 2 findings in 1 entry: 6 strings looked at, 0 of them over 0 values, 1 not looked at\n
";

#[test]
fn large_inputs_are_run_and_checked(rt: HostRuntime) {
    check_rows(&rt, SHORT, &EndOfLarge);
}

/// Whether the run of a row writes what its third field names.
struct IsOutput;

impl Finds for IsOutput {
    fn find(&self, given: &Given<'_, '_>, found: &mut Vec<u8>) -> Result<(), Unfound> {
        let alloc = *found.allocator();
        let end = run_of(alloc, given)?;
        let wanted = named_of(alloc, given.fields()[2])?;
        show(
            found,
            &(end.status == 0 && end.output.as_slice() == wanted.as_slice()),
        )
    }
}

/// Runs that write what is large.
const LONG: &str = r"
ti convert | entry of deep | entry of deep => true
ti convert | entry of large | entry of large => true
ti cap n:12 | large | large output => true
ti expand --rate 960 cbt n:12 | entry of large | large output => true
";

#[test]
fn large_outputs_are_written(rt: HostRuntime) {
    check_rows(&rt, LONG, &IsOutput);
}

/// How many bytes the run of a row writes, the first and the last of which are those of its fields.
struct LengthOf;

impl Finds for LengthOf {
    fn find(&self, given: &Given<'_, '_>, found: &mut Vec<u8>) -> Result<(), Unfound> {
        let alloc = *found.allocator();
        let end = run_of(alloc, given)?;
        let last = bytes_of(alloc, given.fields()[3])?;
        let output = end.output.as_slice();
        only_if(end.status == 0)?;
        only_if(output.starts_with(given.third) && output.ends_with(last.as_slice()))?;
        show(found, &output.len())
    }
}

/// Runs with their first and last bytes, and how many there are. The trace of the large capability has a header of 60 bytes, 32000
/// lines of 57, one of 56 and one of 59, and 64081 after them.
const LENGTHS: &str = r"
ti trace n:12 | deep | place^Itoken | \nwritten: 62\nran: 190\npassed: 0\nheight: 32\ndepth: 32\nbound: 341\n => 19296
ti trace n:12 | large | place^Itoken | \nwritten: 32002\nran: 32002\npassed: 0\nheight: 1\ndepth: 1\nbound: 32011\n => 1888256
ti show | entry of deep | format: legacy\nnames: t\ntext cbt 257031257031 | \n => 920
ti show | entry of large | format: legacy\nnames: t\ntext cbt 6161 | 61612570312564\n => 64044
ti cap --escape | not ASCII | \\200\\200 | \\200\\200\n => 80001
";

#[test]
fn large_traces_and_listings_have_their_lengths(rt: HostRuntime) {
    check_rows(&rt, LENGTHS, &LengthOf);
}
