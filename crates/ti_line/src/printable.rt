//! Words of which each character can be printed.
//!
//! A word may hold bytes that a terminal obeys, such as ESC, and newlines that forge a line. So `clap` is called again, with
//! the words in the notation of terminfo(5), before any of them is shown.

use crate::command::program;
use clap::Error;
use clap::error::ErrorKind;
use std::alloc::{AllocError, Global};
use ti_escape::push_notation;

/// Whether each byte of a word is a printable ASCII character.
fn is_printable(word: &str) -> bool {
    word.as_bytes()
        .iter()
        .all(|byte| (b' '..=b'~').contains(byte))
}

/// A word, in the notation if it can't be printed as it is.
fn printable_word(alloc: Global, word: &str) -> Result<String, AllocError> {
    if is_printable(word) {
        return String::from_str(alloc, word);
    }
    let mut shown = Vec::new(alloc);
    push_notation(&mut shown, word.as_bytes())?;
    Ok(String::from_utf8(shown).unwrap_or(String::new(alloc)))
}

/// The words, each of which can be printed.
fn printable_words(alloc: Global, words: &[&str]) -> Result<Vec<String>, AllocError> {
    let mut shown = Vec::with_capacity(alloc, words.len())?;
    for word in words {
        shown.push(printable_word(alloc, word)?)?;
    }
    Ok(shown)
}

/// Returns the message of `clap` on words, nothing if they are a line.
fn text_on(alloc: Global, words: &[String]) -> Result<String, AllocError> {
    match program(alloc)?.try_get_matches_from(words).err() {
        Some(error) if error.kind() == ErrorKind::OutOfMemory => Err(AllocError),
        Some(error) => error.to_string(alloc),
        None => Ok(String::new(alloc)),
    }
}

/// Returns the message of `clap` on words that are no line, for which it gives `error`. No byte of a word is in it but printable ones.
pub(crate) fn printable_text<'a>(
    alloc: Global,
    words: &'a [&'a str],
    error: &Error,
) -> Result<String, AllocError> {
    if words.iter().all(|word| is_printable(word)) {
        return error.to_string(alloc);
    }
    let shown = printable_words(alloc, words)?;
    text_on(alloc, shown.as_slice())
}
