//! The kinds of work that are timed: each is done on each item, a number of turns in a row, and returns a sum over the
//! results, so that no result can be left out.

ghost use Rattle.std.specs.Prelude.{◌<◌};

use crate::case::Case;
use anyhow::{Context, Result};
use std::alloc::{AllocError, Global};
use std::hint::black_box;
use ti_cap::Capability;
use ti_entry::{EntryReader, read};
use ti_expand::{Value, Vars, expand, expand_into};

/// The most bytes that a capability of the list may write.
const ROOM: usize = 4096;

/// A capability that was parsed, with its parameters.
#[derive(Drop)]
pub struct Ready<'a> {
    capability: Capability<'a>,
    parameters: [Value<'a>; 9],
}

fn parameters_of<'a>(case: &Case) -> [Value<'a>; 9] {
    let mut parameters = [Value::Num(0); 9];
    for i in 0..9usize {
        parameters[i] = Value::Num(case.numbers[i]);
    }
    parameters
}

/// The items that are capabilities.
pub fn ready_cases<'a>(alloc: Global, cases: &'a [Case]) -> Result<Vec<Ready<'a>>, AllocError> {
    let mut ready = Vec::new(alloc);
    for case in cases.iter() {
        if let Ok(capability) = Capability::parse(case.bytes.as_slice()) {
            let parameters = parameters_of(case);
            ready.push(Ready {
                capability,
                parameters,
            })?;
        }
    }
    Ok(ready)
}

pub fn parse_all(cases: &[Case], turns: u32) -> usize {
    let mut total = 0usize;
    for case in cases.iter() {
        for _ in 0..turns {
            if let Ok(capability) = Capability::parse(black_box(case.bytes.as_slice())) {
                total = total.wrapping_add(capability.depth());
            }
        }
    }
    total
}

pub fn expand_into_all(ready: &[Ready<'_>], turns: u32) -> usize {
    let mut stack = [Value::Num(0); 32];
    let mut out = [0u8; ROOM];
    let mut vars = Vars::new();
    let mut total = 0usize;
    for case in ready.iter() {
        for _ in 0..turns {
            let tape = black_box(&case.capability).tape();
            if let Ok(run) = expand_into(
                tape,
                black_box(&case.parameters),
                &mut vars,
                &mut stack,
                &mut out,
            ) {
                total = total.wrapping_add(run.written);
            }
        }
    }
    total
}

pub fn parse_and_expand_all(cases: &[Case], turns: u32) -> usize {
    let mut stack = [Value::Num(0); 32];
    let mut out = [0u8; ROOM];
    let mut vars = Vars::new();
    let mut total = 0usize;
    for case in cases.iter() {
        for _ in 0..turns {
            let parameters = parameters_of(case);
            if let Ok(capability) = Capability::parse(black_box(case.bytes.as_slice())) {
                let tape = capability.tape();
                if let Ok(run) = expand_into(tape, &parameters, &mut vars, &mut stack, &mut out) {
                    total = total.wrapping_add(run.written);
                }
            }
        }
    }
    total
}

pub fn expand_all(alloc: Global, ready: &[Ready<'_>], turns: u32) -> Result<usize> {
    let mut vars = Vars::new();
    let mut total = 0usize;
    for case in ready.iter() {
        for _ in 0..turns {
            let out = expand(
                alloc,
                black_box(&case.capability),
                black_box(&case.parameters),
                &mut vars,
            )?;
            total = total.wrapping_add(out.len());
        }
    }
    Ok(total)
}

/// Returns the output of a capability, in hex.
pub fn output_of(alloc: Global, case: &Ready<'_>, vars: &mut Vars) -> Result<String> {
    let out = expand(alloc, &case.capability, &case.parameters, vars)?;
    hex::encode(alloc, out.as_slice()).context("the output")
}

pub fn read_all(cases: &[Case], turns: u32) -> usize {
    let mut total = 0usize;
    for case in cases.iter() {
        for _ in 0..turns {
            if let Ok(entry) = read(black_box(case.bytes.as_slice())) {
                total = total.wrapping_add(entry.text_count());
            }
        }
    }
    total
}

/// Feeds each entry in pieces of so many bytes.
pub fn feed_all(cases: &[Case], piece: usize, turns: u32) -> usize
    requires { 0 < piece }
{
    let mut total = 0usize;
    for case in cases.iter() {
        for _ in 0..turns {
            let mut reader = EntryReader::new();
            for bytes in black_box(case.bytes.as_slice()).chunks(piece) {
                let _ = reader.feed(bytes);
            }
            if let Ok(entry) = reader.finish() {
                total = total.wrapping_add(entry.text_count());
            }
        }
    }
    total
}
