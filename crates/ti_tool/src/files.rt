//! A request of files, one after another: each is read, its result is written, and a fault is reported after its name.
//!
//! A file that can't be read does not keep the others from being read; results that can't be written do.

ghost use Rattle.std.specs.Prelude.{◌≡◌, ◌≢◌, ◌<◌, ◌≤◌, None, is_some, map, max, string_bytes};
ghost use Rattle.ti_line.specs.Requests.{texts_of};
ghost use Rattle.ti_tool.specs.FileRuns.{EndsWithNone, RanFiles, RanFound};
ghost use Rattle.ti_tool.specs.Streams.{Stream, file_name, streams};
ghost use Rattle.ti_tool.specs.inner.Files.{job_of};

use crate::delivery::{deliver_outcome, report_memory};
use crate::extras::Extras;
use crate::lookup::look_all_up;
use crate::outcome::{Errand, Outcome, outcome_of_found};
use crate::store::{FoundFile, Store};
use crate::summary::report_summary;
use crate::voice::Tally;
use std::alloc::{AllocError, Allocator};
use std::io::{Read, Write};
use ti_line::EntryAction;
use ti_pad::write_out;
use ti_rules::Trials;

/// The greater of two statuses.
fn greater(one: u8, other: u8) -> u8
    ensures known { one ≢ 2 → other ≢ 2 → result ≢ 2 }
    ensures value { result ≡ max one other }
{
    if one < other { other } else { one }
}

/// How much was looked at in a file.
fn tally_in<A: Allocator>(outcome: &Result<Outcome<A>, AllocError>) -> Tally {
    match outcome {
        Ok(outcome) => outcome.tally,
        Err(AllocError) => Tally::NONE,
    }
}

/// Does what is requested of files that were found, one after another, and writes a summary if one is wanted. The result is the
/// greatest status.
fn run_found<S: Store, A: Allocator + Copy, R: Read, W: Write, E: Write>(
    store: &S,
    alloc: A,
    errand: &Errand<'_>,
    files: &[FoundFile<A>],
    input: &mut R,
    output: &mut W,
    errors: &mut E,
) -> u8
    ensures known { result ≢ 2 }
    ensures silent { errand.now.summary ≡ None → result ≤ 1 → errors.new ≡ errors.old }
    ensures ran { RanFound (S.known store.now) (job_of errand.now)
        (map (λ f. file_name (string_bytes f.name) (is_some f.fault)) files.now)
        (streams (R.remaining input.old) (W.contents output.old) (E.contents errors.old))
        (streams (R.remaining input.new) (W.contents output.new) (E.contents errors.new)) result }
{
    let mut greatest = 0;
    let mut trials = Trials::new(alloc);
    let mut tally = Tally::NONE;
    for found in files {
        let outcome = outcome_of_found(store, alloc, &mut trials, errand, found, input);
        tally = tally.with(tally_in(&outcome));
        match deliver_outcome(alloc, errand.has_advice, outcome, output, errors) {
            Some(status) => greatest = greater(greatest, status),
            None => return greater(greatest, 5),
        }
    }
    report_summary(errand.summary, tally, errors);
    greatest
}

/// Writes the lines on folders in which no entry was found. The result is the status.
fn report_none<E: Write>(lines: &[u8], status: u8, errors: &mut E) -> u8
    ensures known { status ≢ 2 → result ≢ 2 }
    ensures silent { result ≤ 1 → (status ≤ 1) × (errors.new ≡ errors.old) }
    ensures told { (left held : Stream) → EndsWithNone lines.now status
        (streams left held (E.contents errors.old)) (streams left held (E.contents errors.new)) result }
{
    if lines.is_empty() {
        return status;
    }
    let _ = write_out(errors, lines);
    greater(status, 5)
}

/// Does what is requested of the files that words name, one after another. The result is the greatest status.
pub fn run_files<S: Store, A: Allocator + Copy, R: Read, W: Write, E: Write>(
    store: &S,
    alloc: A,
    extras: Extras,
    of_entry: &EntryAction<'_>,
    words: &[&str],
    input: &mut R,
    output: &mut W,
    errors: &mut E,
) -> u8
    ensures known { result ≢ 2 }
    ensures silent { extras.summary ≡ None → result ≤ 1 → errors.new ≡ errors.old }
    ensures ran { RanFiles (S.known store.now) extras of_entry.now (texts_of words.now)
        (streams (R.remaining input.old) (W.contents output.old) (E.contents errors.old))
        (streams (R.remaining input.new) (W.contents output.new) (E.contents errors.new)) result }
{
    match look_all_up(store, alloc, of_entry, words) {
        Ok(sought) => {
            let are_several = sought.are_several;
            let Extras {
                summary,
                has_advice,
            } = extras;
            let errand = Errand {
                of_entry,
                are_several,
                summary,
                has_advice,
            };
            let files = sought.files.as_slice();
            let status = run_found(store, alloc, &errand, files, input, output, errors);
            report_none(sought.lines.as_slice(), status, errors)
        }
        Err(AllocError) => {
            report_memory(errors);
            6
        }
    }
}
