//! The lines on requests that a command line can't make.

use ti_line::LineFault;
use ti_names::NameTable;
use ti_sink::ShortPage;

/// What is said of a word that may name a file.
const ENTRY_HINT: &str = "; an entry is named by --entry FILE";

/// The short name of a string of terminfo(5).
fn write_string_name(page: &mut ShortPage, text: usize) {
    let name = NameTable::All.text_name(text).unwrap_or("");
    page.name(name.as_bytes())
}

/// On a word that is no number, of a capability that takes no text.
pub fn write_only_numbers(page: &mut ShortPage, which: usize) {
    page.put("parameter ");
    page.unsigned(which as u64);
    page.put(": no 32-bit number");
    page.put(ENTRY_HINT);
    page.put("\n")
}

/// On more parameters than a string takes.
fn write_surplus(page: &mut ShortPage, text: usize, takes: u8, given: usize, is_named: bool) {
    page.put("parameters: ");
    write_string_name(page, text);
    page.put(" takes ");
    page.unsigned(u64::from(takes));
    page.put(", not ");
    page.unsigned(given as u64);
    if is_named {
        page.put(ENTRY_HINT);
    }
    page.put("\n")
}

/// On a word in place of a number.
fn write_no_number(page: &mut ShortPage, text: usize, which: usize) {
    page.put("parameter ");
    page.unsigned(which as u64);
    page.put(" of ");
    write_string_name(page, text);
    page.put(": no 32-bit number\n")
}

/// Writes the line on a request that is none, for another reason than its parameters are no values.
pub fn write_request_line(page: &mut ShortPage, fault: LineFault) {
    match fault {
        LineFault::BothForms => page.put("--hex and --escape exclude each other\n"),
        LineFault::JsonExplained => page.put("--json and --explain exclude each other\n"),
        LineFault::JsonForm => page.put("--json excludes --escape and --all-names\n"),
        LineFault::ColorWord => page.put("--color: auto, always or never\n"),
        LineFault::BothInputs => page.put("--source and --of exclude each other\n"),
        LineFault::EntryWithoutName => page.put("trace: --entry without --of\n"),
        LineFault::BothWidths => page.put("convert: both widths\n"),
        LineFault::ToTerminal => page.put("convert: not to a terminal without --force\n"),
        LineFault::FileCount => {
            page.put("diff: one file or two; usage: ti diff [OPTIONS] [FILE] <OTHER>\n")
        }
        LineFault::InputTwice => {
            page.put("diff: standard input cannot be compared with itself\n")
        }
        LineFault::Words(_) => (),
        LineFault::Surplus {
            text,
            takes,
            given,
            is_named,
        } => write_surplus(page, text, takes, given, is_named),
        LineFault::NoNumber { text, which } => write_no_number(page, text, which),
        LineFault::OnlyNumbers { which } => write_only_numbers(page, which),
    }
}
