//! Capabilities with the counts of their runs, expanded into slices of exactly the promised size.

use super::expanded::capability_of;
use super::expansion_rows::Written;
use crate::tests::check_rows;
use std::alloc::Global;
use ti_base::MOST_VALUES;
use ti_expand::Value::Num;
use ti_expand::{Run, Value, Vars, expand_into};
use ti_fixtures::capabilities::values_of;
use ti_fixtures::{Finds, Given, Unfound, show_numbers};

/// A capability, the first of its parameters, how many bytes it writes, how many tokens run and are passed over, and how high
/// the stack gets.
const RUNS: &str = r"
@CUP | 4 9 => 7 9 0 1
@SETAF | 1 => 5 13 17 2
@SETAF | 9 => 5 20 10 2
@SETAF | 200 => 11 22 8 2
%?%p1%t%?%p2%tA%eB%;%eC | 0 1 => 1 5 7 1
%?%p1%t%?%p2%tA%eB%;%eC | 1 => 1 10 2 1
@INNER_PARTS | - => 2 11 9 1
@INNER_PARTS | 1 => 3 13 7 1
%p1%#06x,%p2%:-5d| | 255 7 => 13 6 0 1
- | - => 0 0 0 0
";

/// The same, with what it writes.
const OUTPUTS: &str = r"
@CUP | 4 9 => \E[5;10H
@SETAF | 1 => \E[31m
@SETAF | 9 => \E[91m
@SETAF | 200 => \E[38;5;200m
%?%p1%t%?%p2%tA%eB%;%eC | 0 1 => C
%?%p1%t%?%p2%tA%eB%;%eC | 1 => B
@INNER_PARTS | - => ef
@INNER_PARTS | 1 => bcf
%p1%#06x,%p2%:-5d| | 255 7 => 0x00ff,7    |
- | - => -
";

/// The run of a capability in slices of exactly the size that it needs.
fn run_of(alloc: Global, bytes: &[u8], parameters: &[Value<'_>; 9]) -> Result<Run, Unfound> {
    let capability = capability_of(bytes)?;
    let mut stack = [Num(0); MOST_VALUES];
    let depth = capability.depth();
    let mut out = vec![in alloc; 0xee; capability.bound(0) as usize]?;
    let run = expand_into(
        capability.tape(),
        parameters,
        &mut Vars::new(),
        &mut stack[..depth],
        out.as_mut_slice(),
    );
    Ok(run?)
}

/// All counts of a run.
struct CountsOf;

impl Finds for CountsOf {
    fn find(&self, given: &Given<'_, '_>, found: &mut Vec<u8>) -> Result<(), Unfound> {
        let run = run_of(
            *found.allocator(),
            given.bytes,
            &values_of(given.fields()[1]),
        )?;
        let counts = [
            run.written as u64,
            run.ran as u64,
            run.passed as u64,
            run.peak as u64,
        ];
        show_numbers(found, &counts)
    }
}

/// The counts of tokens and of values.
struct TokensOf;

impl Finds for TokensOf {
    fn find(&self, given: &Given<'_, '_>, found: &mut Vec<u8>) -> Result<(), Unfound> {
        let run = run_of(
            *found.allocator(),
            given.bytes,
            &values_of(given.fields()[1]),
        )?;
        show_numbers(found, &[run.ran as u64, run.passed as u64, run.peak as u64])
    }
}

#[test]
fn runs_have_the_counts_of_the_tree(rt: HostRuntime) {
    check_rows(&rt, RUNS, &CountsOf);
}

#[test]
fn runs_write_what_the_tree_means(rt: HostRuntime) {
    check_rows(&rt, OUTPUTS, &Written);
}

/// A capability, the first of its parameters, how many tokens run and are passed over, and how high the stack gets.
const STRAIGHT: &str = r"
\E[%p1%dG | 7 => 5 0 1
%{65}%d%% | - => 3 0 1
%p1%p2%d%d | 1 2 => 4 0 2
%d | - => 1 0 0
@CUP | 4 9 => 9 0 1
- | - => 0 0 0
\E[%i%d;%dR | - => 7 0 0
@PUSHED_32 | - => 32 0 32
%p1%PA%gA%gA%*%d | 12 => 6 0 2
%d%p1%d | - => 3 0 1
%p1%05.3d | 7 => 2 0 1
";

/// The same with conditionals.
const CONDITIONAL: &str = r"
@SETAF | 1 => 13 17 2
@SETAF | 9 => 20 10 2
@SETAF | 200 => 22 8 2
%?%p1%t%?%p2%tA%eB%;%eC | 0 1 => 5 7 1
%?%p1%t%?%p2%tA%eB%;%eC | 1 0 => 10 2 1
%?%p1%t%'%'%c%%e%eX%; | 0 => 6 4 1
%?%p1%tabc%ed%; | 1 => 8 1 1
%?%p1%tabc%ed%; | 0 => 6 3 1
%?%p1%tA%e%p2%tB | 0 0 => 6 2 1
@INNER_PARTS | 0 0 0 => 11 9 1
@INNER_PARTS | 1 0 0 => 13 7 1
@OPEN_32 | 0 => 3 94 1
@OPEN_32 | 1 => 97 0 1
@CLOSED_32 | 0 => 4 125 1
";

#[test]
fn without_a_conditional_all_tokens_run(rt: HostRuntime) {
    check_rows(&rt, STRAIGHT, &TokensOf);
}

#[test]
fn counts_are_those_of_the_taken_path(rt: HostRuntime) {
    check_rows(&rt, CONDITIONAL, &TokensOf);
}
