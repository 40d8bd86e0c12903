//! The list of what is timed: a line `GROUP NAME HEX` for each item, and after it the numbers that a capability is given.

use anyhow::{Context, Result};
use std::alloc::Global;
use std::io;
use std::str::SplitWhitespace;

/// A capability with nine numbers, or an entry.
#[derive(Drop)]
pub struct Case {
    pub bytes: Vec<u8>,
    pub numbers: [i32; 9],
}

/// The item of a line that follows its group.
fn read_case(alloc: Global, mut words: SplitWhitespace<'_>) -> Result<Case> {
    let _name = words.next();
    let hex = words.next().context("no bytes")?;
    let bytes = hex::decode(alloc, hex.as_bytes())?;
    let mut numbers = [0; 9];
    for number in numbers.iter_mut() {
        if let Some(word) = words.next() {
            *number = word.parse::<i32>().context("a number")?;
        }
    }
    Ok(Case { bytes, numbers })
}

/// The items of a group.
pub fn read_cases<R: Input + AllocGlobal>(rt: &R, group: &str) -> Result<Vec<Case>> {
    let text = io::read_to_string(rt.alloc(), rt.reader())?;
    let mut cases = Vec::new(rt.alloc());
    for line in text.as_str().lines() {
        let mut words = line.split_whitespace();
        if words.next() == Some(group) {
            cases.push(read_case(rt.alloc(), words)?)?;
        }
    }
    Ok(cases)
}
