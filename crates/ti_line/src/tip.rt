//! The tip for a word that other programs have as a command.
//!
//! The tip of `clap` names commands that are spelled alike, such as `lint` for `list`.

use clap::Error;
use clap::error::ErrorKind;
use std::alloc::{AllocError, Global};

/// The commands that do what such a word asks for elsewhere, as `clap` would write them.
fn tip_for(word: &str) -> Option<&'static str> {
    match word {
        "list" | "info" => Some("a similar subcommand exists: 'show'"),
        "explain" => Some("some similar subcommands exist: 'trace', 'lint --explain'"),
        _ => None,
    }
}

/// The tip for words of which the first is no command, if they have one.
fn tip_on(words: &[&str], error: &Error) -> Option<&'static str> {
    if error.kind() != ErrorKind::InvalidSubcommand {
        return None;
    }
    tip_for(words.get(1)?)
}

/// A text of `clap` on a word that is no command, with another tip before its usage.
fn with_tip(alloc: Global, text: &str, tip: &str) -> Result<String, AllocError> {
    match (text.split_once("\n\n"), text.split_once("\n\nUsage: ")) {
        (Some((what, _)), Some((_, usage))) => {
            format!(in alloc; "{what}\n\n  tip: {tip}\n\nUsage: {usage}")
        }
        _ => String::from_str(alloc, text),
    }
}

/// The text that `clap` has on words, with the tip for them in place of its own.
pub(crate) fn tipped_text(
    alloc: Global,
    words: &[&str],
    error: &Error,
    text: String,
) -> Result<String, AllocError> {
    match tip_on(words, error) {
        Some(tip) => with_tip(alloc, text.as_str(), tip),
        None => Ok(text),
    }
}
