//! Runs without memory, which end with status 6: each growth refused in turn.

use super::ending::{End, add_end, end_over, is_end};
use crate::tests::check_rows;
use linked_list_allocator::LocalHeap;
use std::alloc::Global;
use ti_fixtures::{Finds, Given, Sink, Source, Tries, Unfound, only_if, place_of, tally_of};

/// Runs the program with a heap for all but `clap`.
fn end_in(alloc: Global, heap: &LocalHeap, words: &[&str], input: &[u8]) -> End {
    let source = Source::new(input, 512);
    end_over(
        alloc,
        heap,
        words,
        source,
        Sink::new(alloc),
        Sink::new(alloc),
    )
}

/// How the run of a row with so much memory ends, all of which is given back.
struct EndWith;

impl Finds for EndWith {
    fn find(&self, given: &Given<'_, '_>, found: &mut Vec<u8>) -> Result<(), Unfound> {
        let alloc = *found.allocator();
        let heap = LocalHeap::new(alloc, place_of(given.fields()[2])?)?;
        let end = end_in(alloc, &heap, given.words, given.second);
        only_if(heap.used() == 0)?;
        add_end(found, &end)
    }
}

/// Words, what is read, how much memory there is, and how the run ends. A name that is missing is reported alone.
const WITHOUT: &str = r"
ti cap n:7 | %p1%255d | 64 => 6 err memory\n
ti expand #0 s:0123456789012345678901234567890123456789012345678901234567890123456789 | @TEXT | 0 => 6 err memory\n
ti get Smulxx | @EXTENDED_BY_TIC | 0 => 4 err get: Smulxx: no such capability\n
";

#[test]
fn the_program_without_memory_says_so(rt: HostRuntime) {
    check_rows(&rt, WITHOUT, &EndWith);
}

/// Words for each command, and what it reads.
const COMMANDS: &str = r"
ti cap --hex n:7 | \E[%p1%40dG => refused, then given
ti cap --escape n:7 | \E[%p1%40dG => refused, then given
ti trace n:7 | \E[%p1%dG => refused, then given
ti trace --escape n:7 | \E[%p1%dG => refused, then given
ti trace --json n:7 | \E[%p1%dG => refused, then given
ti show | @EXTENDED => refused, then given
ti show --escape --all-names | @EXTENDED => refused, then given
ti show --json | @EXTENDED => refused, then given
ti check | @EXTENDED => refused, then given
ti check --escape | @EXTENDED => refused, then given
ti check --json | @EXTENDED => refused, then given
ti expand --rate 960 #0 s:a$<9>_and_some_more_bytes_after_it,_as_many_as_sixty_or_so | @TEXT => refused, then given
ti convert | @EXTENDED => refused, then given
ti get --rate 960 text#0 s:a$<9>_and_some_more_bytes_after_it,_as_many_as_sixty_or_so | @TEXT => refused, then given
";

/// A run over an input, which may be refused memory.
#[derive(Clone, Copy)]
struct Run<'a, 'w> {
    alloc: Global,
    words: &'w [&'a str],
    input: &'a [u8],
}

impl Tries for Run<'_, '_> {
    fn is_given(&self, heap: &LocalHeap) -> Result<bool, Unfound> {
        let end = end_in(self.alloc, heap, self.words, self.input);
        if end.status == 0 {
            return Ok(true);
        }
        only_if(is_end(&end, 6, b"", b"memory\n"))?;
        Ok(false)
    }
}

/// How the runs of a row with more and more memory end.
struct Growths;

impl Finds for Growths {
    fn find(&self, given: &Given<'_, '_>, found: &mut Vec<u8>) -> Result<(), Unfound> {
        let alloc = *found.allocator();
        let (words, input) = (given.words, given.second);
        let run = Run {
            alloc,
            words,
            input,
        };
        only_if(tally_of(alloc, &run, 0, 32, 80).is_refused_then_given(2))?;
        Ok(found.extend_from_slice(b"refused, then given")?)
    }
}

#[test]
fn each_growth_of_the_program_is_refused_in_turn(rt: HostRuntime) {
    check_rows(&rt, COMMANDS, &Growths);
}
