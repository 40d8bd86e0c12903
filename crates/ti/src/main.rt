//! `ti` reads, checks, shows, expands and writes compiled terminfo entries.
//!
//! Its words and the three standard streams go to `ti_tool`'s `run_at`, whose result is the exit status.
#![tactic(auto)]

mod disk;
mod streams;

use crate::disk::Disk;
use crate::streams::{Errors, Input, Output, line_on_reading};
use std::alloc::AllocError;
use std::cell::Cell;
use std::env::VarError;
use std::io;
use std::io::{ErrorKind, IsTerminal};
use std::process::ExitCode;
use ti_tool::{Color, Destination, Terminals, run_at};

/// The words of the command line, the program's own name first.
fn words(rt: &HostRuntime) -> io::Result<Vec<String>> {
    let mut words = Vec::new(rt.alloc());
    for word in std::env::args(rt)? {
        words.push(word).map_err(AllocError::from)?;
    }
    Ok(words)
}

/// Whether a variable of the environment is set to a word other than this one.
fn is_other_than(rt: &HostRuntime, name: &str, word: &str) -> bool {
    match std::env::var(rt, name) {
        Ok(value) => !value.is_empty() && value.as_str() != word,
        Err(VarError::NotPresent) => false,
        Err(_) => true,
    }
}

/// Where results go. At a terminal parts of lines stand out, unless `NO_COLOR` is set to a word, or `TERM` is not set or `dumb`.
fn destination(rt: &HostRuntime, is_terminal: bool) -> Destination {
    if !is_terminal {
        return Destination::File;
    }
    if !is_other_than(rt, "NO_COLOR", "") && is_other_than(rt, "TERM", "dumb") {
        return Destination::Terminal(Color::Always);
    }
    Destination::Terminal(Color::Never)
}

/// The status of the run.
fn status(rt: &HostRuntime) -> io::Result<u8> {
    let words = words(rt)?;
    let mut texts = Vec::new(rt.alloc());
    for word in &words {
        texts.push(word.as_str())?;
    }
    let (stdin, stdout, stderr) = (rt.stdin(), rt.stdout(), rt.stderr());
    let at = Terminals {
        input: stdin.is_terminal(),
        output: destination(rt, stdout.is_terminal()),
        errors: stderr.is_terminal(),
    };
    let is_closed = Cell::new(false);
    Ok(run_at(
        &Disk::new(rt),
        rt.alloc(),
        rt.alloc(),
        at,
        texts.as_slice(),
        &mut Input {
            stdin,
            stderr,
            line: line_on_reading(texts.as_slice()),
            is_silent: at.input,
        },
        &mut Output {
            stdout,
            is_closed: &is_closed,
        },
        &mut Errors {
            stderr,
            is_closed: &is_closed,
        },
    ))
}

/// A word that is not UTF-8 ends the run with status 2 and a line, and out of memory for the words with 6 and the line `memory`.
fn main(rt: HostRuntime) -> ExitCode {
    match status(&rt) {
        Ok(status) => ExitCode::from(status),
        Err(error) if error.kind() == ErrorKind::OutOfMemory => {
            let _ = eprintln!(rt; "memory");
            ExitCode::from(6)
        }
        Err(_) => {
            let _ = eprintln!(rt; "error: a word of the command line is not UTF-8");
            ExitCode::from(2)
        }
    }
}
