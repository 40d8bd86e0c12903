//! The program does not flush its output: when bytes go on is the writer's own affair.

use super::ending::add_outcome;
use crate::tests::check_rows;
use ti_fixtures::{Finds, Flushed, Given, Source, Unfound, only_if};
use ti_tool::run;

/// A run, and one with a fault.
const ROWS: &str = r"
ti cap n:7 | %p1%d => 0 out 7
ti cap n:7 | %p0 => 4 err capability: BadParameter at 0\n
";

/// How the run of a row ends, which flushes nothing.
struct Unflushed;

impl Finds for Unflushed {
    fn find(&self, given: &Given<'_, '_>, found: &mut Vec<u8>) -> Result<(), Unfound> {
        let alloc = *found.allocator();
        let (mut output, mut errors) = (Flushed::new(alloc), Flushed::new(alloc));
        let mut input = Source::new(given.second, 512);
        let status = run(
            alloc,
            alloc,
            given.words,
            &mut input,
            &mut output,
            &mut errors,
        );
        only_if(output.flushes == 0 && errors.flushes == 0)?;
        add_outcome(
            found,
            status,
            output.taken.as_slice(),
            errors.taken.as_slice(),
        )
    }
}

#[test]
fn the_program_flushes_nothing(rt: HostRuntime) {
    check_rows(&rt, ROWS, &Unflushed);
}
