//! Times parsing, expanding and reading, for `bench/run`. Without words it does nothing.
//!
//! With the name of a kind of work, a number of rounds, a number of turns and the name of a group, it reads a list from
//! standard input, and prints `GROUP WORK ITEMS NANOSECONDS`, the time of all. In each round it does the work on each item of
//! that group so many turns in a row. The work `output` prints what each capability of the group writes, in hex, a line each.
#![tactic(auto)]

mod case;
mod work;

use anyhow::{Context, Result, bail};
use case::{Case, read_cases};
use std::alloc::Global;
use std::rt::Clock;
use std::time::Instant;
use ti_expand::Vars;
use work::{
    Ready, expand_all, expand_into_all, feed_all, output_of, parse_all, parse_and_expand_all,
    read_all, ready_cases,
};

/// The bytes of a piece, if an entry is fed in pieces.
const PIECE: usize = 512;

/// Does the work on each item so many times in a row.
fn work_on(
    alloc: Global,
    work: &str,
    turns: u32,
    cases: &[Case],
    ready: &[Ready<'_>],
) -> Result<usize> {
    Ok(match work {
        "parse" => parse_all(cases, turns),
        "expand_into" => expand_into_all(ready, turns),
        "parse+expand_into" => parse_and_expand_all(cases, turns),
        "expand" => expand_all(alloc, ready, turns)?,
        "read" => read_all(cases, turns),
        "feed512" => feed_all(cases, PIECE, turns),
        "feed1" => feed_all(cases, 1, turns),
        _ => bail!("no such work"),
    })
}

/// Does the rounds of the work, and returns how long they took, in nanoseconds.
fn timed<R: Clock + AllocGlobal>(
    rt: &R,
    work: &str,
    rounds: u32,
    turns: u32,
    cases: &[Case],
) -> Result<u128> {
    let ready = ready_cases(rt.alloc(), cases)?;
    let start = Instant::now(rt)?;
    for _ in 0..rounds {
        let total = work_on(rt.alloc(), work, turns, cases, ready.as_slice())?;
        let _ = std::hint::black_box(total);
    }
    Ok(start.elapsed(rt)?.as_nanos())
}

/// Prints what each capability writes. The variables last from one to the next, as those of `tiparm` do.
fn print_outputs<R: Print + AllocGlobal>(rt: &R, ready: &[Ready<'_>]) -> Result<()> {
    let mut vars = Vars::new();
    for case in ready.iter() {
        let output = output_of(rt.alloc(), case, &mut vars)?;
        rt.println(output)?;
    }
    Ok(())
}

/// Does what the words ask for.
fn run(rt: &HostRuntime, work: &str, rounds: &str, turns: &str, group: &str) -> Result<()> {
    let rounds = rounds.parse::<u32>().context("the rounds")?;
    let turns = turns.parse::<u32>().context("the turns")?;
    let cases = read_cases(rt, group)?;
    if work == "output" {
        let ready = ready_cases(rt.alloc(), cases.as_slice())?;
        return print_outputs(rt, ready.as_slice());
    }
    let nanoseconds = timed(rt, work, rounds, turns, cases.as_slice())?;
    let items = cases.len();
    println!(rt; "{group} {work} {items} {nanoseconds}")?;
    Ok(())
}

fn main(rt: HostRuntime) -> Result<()> {
    let mut words = Vec::new(rt.alloc());
    for word in std::env::args(&rt)? {
        words.push(word)?;
    }
    match words.as_slice() {
        [_, work, rounds, turns, group] => run(
            &rt,
            work.as_str(),
            rounds.as_str(),
            turns.as_str(),
            group.as_str(),
        ),
        _ => Ok(()),
    }
}
