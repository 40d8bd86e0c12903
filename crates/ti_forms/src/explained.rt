//! What `ti lint --explain` writes.

use crate::explanations::EXPLANATIONS;
use std::alloc::Allocator;
use ti_sink::Page;

/// The word of a line that starts an explanation, and its summary.
fn start_of(line: &str) -> Option<(&str, &str)> {
    if line.starts_with(' ') {
        return None;
    }
    line.split_once(": ")
}

/// Whether a finding has a word.
pub fn is_explained(word: &str) -> bool {
    EXPLANATIONS.lines().any(|line| start_of(line).is_some_and(|(start, _)| start == word))
}

/// Writes the explanation of the finding with a word: the word, and the lines below it; nothing if no finding has the word.
pub fn write_explanation<A: Allocator>(page: &mut Page<A>, word: &str) {
    let mut is_its = false;
    'lines: for line in EXPLANATIONS.lines() {
        match start_of(line) {
            Some((start, _)) => {
                is_its = start == word;
                if is_its {
                    page.put(word);
                    page.put("\n")
                }
            }
            None if is_its => {
                page.put(line);
                page.put("\n")
            }
            None => (),
        }
    }
}

/// Writes a line for each word, with its summary, in the order of ti-findings(7).
pub fn write_summaries<A: Allocator>(page: &mut Page<A>) {
    'lines: for line in EXPLANATIONS.lines() {
        if start_of(line).is_some() {
            page.put(line);
            page.put("\n");
        }
    }
}
