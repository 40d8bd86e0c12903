//! Entries as text, and the lines on them.

use std::alloc::Global;
use std::str::from_utf8;
use ti_draft::{Draft, encode};
use ti_entry::read;
use ti_fixtures::{Said, Unfound, bytes_of, item_of};
use ti_forms::{Color, report_lines};
use ti_names::NameTable;
use ti_rules::{Level, LintOptions, Trials, remarks_of};
use ti_words::{Flag, Kind, Number, Text, Width};

/// Returns the value of a capability of terminfo(5) in the items.
fn said_of(items: &str, kind: Kind, index: usize) -> Option<Said<'_>> {
    for item in items.split(" | ") {
        let (name, said) = item_of(item);
        if NameTable::All.find(name) == Some((kind, index)) {
            return Some(said);
        }
    }
    None
}

/// How many capabilities of a kind an entry has whose last is among the items.
fn count_of(items: &str, kind: Kind) -> usize {
    let mut count = 0usize;
    for item in items.split(" | ") {
        if let Some((same, index)) = NameTable::All.find(item_of(item).0) {
            if same == kind {
                count = count.max(index.saturating_add(1));
            }
        }
    }
    count
}

fn push_flags(draft: &mut Draft<'_, Global>, items: &str) -> Result<(), Unfound> {
    for index in 0..count_of(items, Kind::Flag) {
        draft.push_flag(match said_of(items, Kind::Flag, index) {
            Some(Said::Yes) => Flag::Yes,
            Some(Said::Cancelled) => Flag::Cancelled,
            _ => Flag::No,
        })?;
    }
    Ok(())
}

fn push_numbers(draft: &mut Draft<'_, Global>, items: &str) -> Result<(), Unfound> {
    for index in 0..count_of(items, Kind::Number) {
        draft.push_number(match said_of(items, Kind::Number, index) {
            Some(Said::Number(number)) => Number::Value(number),
            Some(Said::Cancelled) => Number::Cancelled,
            _ => Number::Absent,
        })?;
    }
    Ok(())
}

/// Pushes the texts. The item `*@` cancels all others of terminfo(5).
fn push_texts<'a>(draft: &mut Draft<'a, Global>, items: &'a str) -> Result<(), Unfound> {
    let are_others_cancelled = items.ends_with("*@");
    let count = if are_others_cancelled {
        414
    } else {
        count_of(items, Kind::Text)
    };
    let other = if are_others_cancelled {
        Text::Cancelled
    } else {
        Text::Absent
    };
    for index in 0..count {
        draft.push_text(match said_of(items, Kind::Text, index) {
            Some(Said::Text(text)) => Text::Value(text),
            _ => other,
        })?;
    }
    Ok(())
}

/// Pushes the extended capabilities, whose items start with `+`.
fn push_extended<'a>(draft: &mut Draft<'a, Global>, items: &'a str) -> Result<(), Unfound> {
    for item in items.split(" | ") {
        if let Some(item) = item.strip_prefix('+') {
            let (name, said) = item_of(item);
            match said {
                Said::Yes => draft.push_extended_flag(name.as_bytes(), Flag::Yes)?,
                Said::Number(number) => {
                    draft.push_extended_number(name.as_bytes(), Number::Value(number))?
                }
                Said::Text(text) => draft.push_extended_text(name.as_bytes(), Text::Value(text))?,
                Said::Cancelled => draft.push_extended_flag(name.as_bytes(), Flag::Cancelled)?,
            }
        }
    }
    Ok(())
}

/// Pushes all items, and encodes the draft.
fn encoded_with<'a>(
    alloc: Global,
    draft: &mut Draft<'a, Global>,
    items: &'a str,
) -> Result<Vec<u8>, Unfound> {
    push_flags(draft, items)?;
    push_numbers(draft, items)?;
    push_texts(draft, items)?;
    push_extended(draft, items)?;
    Ok(encode(alloc, &*draft)?)
}

/// The entry `t` with these items.
fn encoded(alloc: Global, items: &str) -> Result<Vec<u8>, Unfound> {
    let mut draft = Draft::new(alloc, b"t", Width::Legacy);
    encoded_with(alloc, &mut draft, items)
}

/// The entry that a text names, whose bytes it is, or whose items it has.
pub fn entry_of(alloc: Global, text: &str) -> Result<Vec<u8>, Unfound> {
    let bytes = bytes_of(alloc, text)?;
    if text.starts_with('@') || text.starts_with('^') {
        return Ok(bytes);
    }
    encoded(alloc, from_utf8(bytes.as_slice())?)
}

/// Which lines on an entry are requested, and how they look.
#[derive(Clone, Copy)]
pub struct Look {
    pub options: LintOptions,
    pub color: Color,
    pub prefix: &'static [u8],
}

/// Adds the lines on an entry.
pub fn add_report(
    lines: &mut Vec<u8>,
    trials: &mut Trials,
    look: Look,
    file: &[u8],
) -> Result<(), Unfound> {
    let alloc = *lines.allocator();
    let entry = read(file)?;
    let remarks = remarks_of(alloc, trials, look.options, file, &entry)?;
    let blocks = report_lines(alloc, look.color, look.prefix, remarks.as_slice())?;
    Ok(lines.extend_from_slice(blocks.as_slice())?)
}

/// The lines on an entry that was not tried before.
pub fn lines_on(alloc: Global, look: Look, file: &[u8]) -> Result<Vec<u8>, Unfound> {
    let mut lines = Vec::new(alloc);
    add_report(&mut lines, &mut Trials::new(alloc), look, file)?;
    Ok(lines)
}

/// The options by default, and with `--all`.
pub const ERRORS: LintOptions = LintOptions {
    level: Level::Errors,
    untrusted: false,
};

const ALL: LintOptions = LintOptions {
    level: Level::All,
    untrusted: false,
};

const UNTRUSTED: LintOptions = LintOptions {
    level: Level::Errors,
    untrusted: true,
};

const UNTRUSTED_ALL: LintOptions = LintOptions {
    level: Level::All,
    untrusted: true,
};

/// Errors, without color and without a name in front.
pub const MISTAKES: Look = Look {
    options: ERRORS,
    color: Color::Never,
    prefix: b"",
};

/// Returns the options that the first word of a row names.
fn options_of(words: &str) -> LintOptions {
    if words.starts_with("all") {
        ALL
    } else if words.starts_with("untrusted all") {
        UNTRUSTED_ALL
    } else if words.starts_with("untrusted") {
        UNTRUSTED
    } else {
        ERRORS
    }
}

/// The options that the first field of a row names: `mistakes`, `all`, `untrusted` or `untrusted all`, and each `in file` or not.
pub fn look_of(words: &str) -> Look {
    let is_named = words.ends_with("in file");
    Look {
        options: options_of(words),
        color: Color::Never,
        prefix: if is_named { b"file: " } else { b"" },
    }
}

/// Adds the lines on the entry of a row, after the look.
pub fn add_lines(found: &mut Vec<u8>, trials: &mut Trials, given: &str) -> Result<(), Unfound> {
    let (look, entry) = given.split_once(" | ").ok_or("a look")?;
    let file = entry_of(*found.allocator(), entry)?;
    add_report(found, trials, look_of(look), file.as_slice())
}
