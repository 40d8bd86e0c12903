//! How much of an entry a report looks at.

use crate::looked::{known_fitting, unknown_fitting};
use crate::lookup::{number_named, text_named};
use crate::subject::{known_texts, unknown_texts};
use std::alloc::{AllocError, Allocator};
use ti_cap::Capability;
use ti_entry::Entry;
use ti_values::{Range, is_short, tried_texts, values_of};
use ti_words::Text;

/// How much of an entry a report looks at.
#[derive(Clone, Copy, Debug, PartialEq, Eq)]
pub struct Coverage {
    /// The strings.
    pub strings: u128,
    /// Those of them that are tried over values.
    pub tried: usize,
    /// Over how many values they are tried together.
    pub values: u128,
    /// The strings that are not looked at, since all share bytes.
    pub left: u128,
}

/// How many texts are tried over values, and over how many.
#[derive(Clone, Copy)]
struct Tries {
    texts: usize,
    values: u128,
    is_refused: bool,
}

impl Tries {
    /// Counts a text, if it is tried.
    fn add<A: Allocator + Copy>(&mut self, alloc: A, text: &[u8], range: Range) {
        let Ok(capability) = Capability::parse(text) else {
            return;
        };
        if !is_short(&capability) {
            return;
        }
        match values_of(alloc, range) {
            Ok(values) if values.is_empty() => (),
            Ok(values) => {
                self.texts = self.texts.saturating_add(1);
                self.values = self.values.saturating_add(values.len() as u128);
            }
            Err(_) => self.is_refused = true,
        }
    }
}

/// Counts the texts of an entry.
fn tries_of<A: Allocator + Copy>(alloc: A, entry: &Entry<'_>) -> Tries {
    let lines = number_named(entry, "lines");
    let columns = number_named(entry, "cols");
    let colors = number_named(entry, "colors");
    let mut tries = Tries {
        texts: 0,
        values: 0,
        is_refused: false,
    };
    'rows: for (name, range) in tried_texts(lines, columns, colors) {
        if let Text::Value(text) = text_named(entry, name) {
            tries.add(alloc, text, range);
        }
    }
    tries
}

/// How much a report on an entry looks at.
///
/// # Errors
///
/// Memory was refused.
pub fn coverage_of<A: Allocator + Copy>(
    alloc: A,
    entry: &Entry<'_>,
) -> Result<Coverage, AllocError> {
    let tries = tries_of(alloc, entry);
    match (known_texts(alloc, entry), unknown_texts(alloc, entry)) {
        (Ok(texts), Ok(others)) if !tries.is_refused => {
            let known = known_fitting(texts.as_slice());
            let unknown = unknown_fitting(others.as_slice());
            let all = (texts.len() as u128).saturating_add(others.len() as u128);
            let strings = (known as u128).saturating_add(unknown as u128);
            Ok(Coverage {
                strings,
                tried: tries.texts,
                values: tries.values,
                left: all.saturating_sub(strings),
            })
        }
        _ => Err(AllocError),
    }
}
