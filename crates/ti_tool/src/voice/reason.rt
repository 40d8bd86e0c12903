//! Why the system does not give a file, or take a result.

use std::alloc::Allocator;
use std::io;
use ti_sink::ShortPage;

/// Whether a byte may stand in a terminal's name.
fn is_name_byte(byte: u8) -> bool {
    matches!(byte, b'a'..=b'z' | b'A'..=b'Z' | b'0'..=b'9' | b'+' | b'-' | b'.' | b'_')
}

/// The system's reason, without its number.
fn without_number(said: &str) -> &str {
    match said.split_once(" (os error ") {
        Some((before, _)) => before,
        None => said,
    }
}

/// Writes why the system does not give a file, and for a missing one whose name may be a terminal's how to find the terminal's.
pub fn write_reason(page: &mut ShortPage, said: &str, name: &str, is_missing: bool) {
    page.put(without_number(said));
    if is_missing && name.as_bytes().iter().all(|byte| is_name_byte(*byte)) {
        page.put("; ti takes files, such as \"$(ti-path ");
        page.put(name);
        page.put(")\"");
    }
    page.put("\n")
}

/// Writes why a result was not taken, in a line of its own.
pub fn write_stop<A: Allocator + Copy>(page: &mut ShortPage, alloc: A, error: &io::Error) {
    if let Ok(said) = format!(in alloc; "{error}") {
        page.sentence(without_number(said.as_str()));
    }
}
