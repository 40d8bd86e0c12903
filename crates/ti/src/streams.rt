//! The three standard streams, as a person at a terminal expects them.

use std::cell::Cell;
use std::io;
use std::io::{ErrorKind, Read, Stderr, Stdin, Stdout, Write};

/// The lines before the first read from a terminal.
const READS_ENTRY: &str = "ti: reading a compiled entry from the terminal; Ctrl-D ends the input\n";

const READS_STRING: &str = "ti: reading a string from the terminal; Ctrl-D ends the input\n";

/// The line on what a command with these words reads, the program's own name first.
pub fn line_on_reading(words: &[&str]) -> &'static str {
    let is_of_entry = words.iter().any(|word| word.starts_with("--of"));
    match words.get(1) {
        Some(command) if *command == "cap" => READS_STRING,
        Some(command) if *command == "trace" && !is_of_entry => READS_STRING,
        _ => READS_ENTRY,
    }
}

/// Standard input. If it is a terminal, a line on standard error says so before its first read.
#[derive(Drop)]
pub struct Input {
    pub stdin: Stdin,
    pub stderr: Stderr,
    /// The line.
    pub line: &'static str,
    /// Whether the line is still to be written.
    pub is_silent: bool,
}

impl Read for Input {
    fn read(&mut self, buf: &mut [u8]) -> io::Result<usize> {
        if self.is_silent {
            self.is_silent = false;
            let _ = self.stderr.write_all(self.line.as_bytes());
        }
        self.stdin.read(buf)
    }
}

/// Standard output, which notes that its reader has closed the pipe.
#[derive(Drop)]
pub struct Output<'a> {
    pub stdout: Stdout,
    pub is_closed: &'a Cell<bool>,
}

impl<'a> Write for Output<'a> {
    fn write(&mut self, buf: &[u8]) -> io::Result<usize> {
        let written = self.stdout.write(buf);
        if let Err(error) = &written {
            if error.kind() == ErrorKind::BrokenPipe {
                self.is_closed.set(true);
            }
        }
        written
    }

    fn flush(&mut self) -> io::Result<()> {
        self.stdout.flush()
    }
}

/// Standard error. It is silent once the reader of results has closed the pipe, as `head` does when it has enough.
#[derive(Drop)]
pub struct Errors<'a> {
    pub stderr: Stderr,
    pub is_closed: &'a Cell<bool>,
}

impl<'a> Write for Errors<'a> {
    fn write(&mut self, buf: &[u8]) -> io::Result<usize> {
        if self.is_closed.get() {
            return Ok(buf.len());
        }
        self.stderr.write(buf)
    }

    fn flush(&mut self) -> io::Result<()> {
        self.stderr.flush()
    }
}
