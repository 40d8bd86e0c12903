//! The advice after the line on a fault, for people: the string, a caret below the place, and a sentence.

use crate::fault::ToolFault;
use crate::item_name::{Names, item_called};
use crate::notation::put_text;
use crate::pasted::pasted_name;
use crate::voice::sentence::{cap_sentence, entry_sentence, notation_sentence};
use ti_base::GREATEST_WORD;
use ti_cap::CapRefused;
use ti_entry::{EncodeFault, Entry, Refused, read};
use ti_escape::{column, escape_into};
use ti_line::{Action, EntryAction};
use ti_names::{NameTable, find_short_or_long};
use ti_sink::ShortPage;
use ti_words::{Item, Kind, Number, Subject, Text};

/// The most columns of a string that is shown.
const MOST_COLUMNS: usize = 256;

/// Writes a string in the notation, and a caret below its byte at a place; nothing of a long one, or of none.
fn write_pointed(page: &mut ShortPage, text: &[u8], place: usize) {
    let mut room = [0; MOST_COLUMNS];
    if text.is_empty() {
        return;
    }
    if let Some(len) = escape_into(text, &mut room) {
        page.put("  ");
        page.bytes(&room[..len]);
        page.put("\n  ");
        page.blanks(column(text, place).min(MOST_COLUMNS as u128) as usize);
        page.put("^\n")
    }
}

/// On a string that is no capability, if it is known.
fn write_string(page: &mut ShortPage, text: Option<&[u8]>, refused: &CapRefused) {
    if let Some(text) = text {
        write_pointed(page, text, refused.place);
    }
    page.sentence(cap_sentence(refused.fault))
}

/// The string that a request names, in the entry that these bytes are.
fn string_named<'a>(action: &EntryAction<'_>, input: &'a [u8]) -> Option<&'a [u8]> {
    let Ok(entry) = read(input) else { return None };
    let item = match action {
        EntryAction::Expand(expand) => {
            item_called(&entry, expand.name.name, Names::Texts(expand.name.names))
        }
        EntryAction::Get(get) => item_called(&entry, get.name, Names::All),
        EntryAction::Trace(of) => item_called(&entry, of.name, Names::All),
        _ => None,
    };
    match item {
        Some(Item::Text(Text::Value(text))) => Some(text),
        _ => None,
    }
}

/// The first number that needs 32 bits, and its capability.
fn first_wide<'a>(entry: &Entry<'a>) -> Option<(Subject<'a>, i32)> {
    'items: for (subject, item) in entry.items() {
        if let Item::Number(Number::Value(number)) = item {
            if number > GREATEST_WORD {
                return Some((subject, number));
            }
        }
    }
    None
}

/// Writes the name of a capability, or its index if it has none.
fn write_subject(page: &mut ShortPage, subject: Subject<'_>) {
    match subject {
        Subject::Standard(kind, index) => match NameTable::All.name_at(kind, index) {
            Some(name) => page.name(name.as_bytes()),
            None => {
                page.put("#");
                page.unsigned(index as u64)
            }
        },
        Subject::Extended(_, name) => page.name(name),
    }
}

/// On the first number that has no room, in the entry that these bytes are.
fn write_wide(page: &mut ShortPage, input: &[u8]) {
    if let Ok(entry) = read(input) {
        if let Some((subject, number)) = first_wide(&entry) {
            page.put("  ");
            write_subject(page, subject);
            page.put(" is ");
            page.integer(number);
            page.put(", which is above 32767 and needs numbers of 32 bits\n")
        }
    }
}

/// On a name that is no string's: a standard one, short or long, but none of a string in a table.
fn write_other_name(page: &mut ShortPage, table: NameTable, name: &str) {
    let is_string = matches!(table.find(name), Some((Kind::Text, _)));
    if !is_string && find_short_or_long(name.as_bytes()).is_some() {
        page.sentence("ti get takes this name; --all-names takes the short names of all strings")
    }
}

/// On a notation with a name before it, of which so much is kept.
fn write_pasted(page: &mut ShortPage, kept: &[u8]) {
    match pasted_name(kept) {
        Some(name) => {
            page.put("  this starts with ");
            page.name(name);
            page.put("=: give the string alone, without a comma at its end\n")
        }
        None => {
            page.sentence("give the string alone, without its name and the comma at its end")
        }
    }
}

/// On a fault that is no capability's. Of a refused file the front is known, or nothing.
fn write_any(page: &mut ShortPage, front: &[u8], fault: &ToolFault) {
    match fault {
        ToolFault::Entry(refused) => write_refusal(page, front, *refused),
        ToolFault::Encode(_) => page.sentence("an entry has at most 32768 bytes"),
        ToolFault::Source(refused) => page.sentence(notation_sentence(refused.fault)),
        ToolFault::TooMuch(_) => page.sentence("lower --rate or --lines"),
        _ => (),
    }
}

/// On a refused file.
pub fn write_refusal(page: &mut ShortPage, contents: &[u8], refused: Refused) {
    page.sentence(entry_sentence(contents, refused))
}

/// On the fault of a request on an entry, of which these bytes were read.
pub fn write_on_entry(
    page: &mut ShortPage,
    front: &[u8],
    action: &EntryAction<'_>,
    input: &[u8],
    fault: &ToolFault,
) {
    match (action, fault) {
        (_, ToolFault::Cap(refused)) => write_string(page, string_named(action, input), refused),
        (_, ToolFault::Encode(EncodeFault::NumberOutOfRange)) => write_wide(page, input),
        (EntryAction::Expand(expand), ToolFault::NoSuchText) => {
            write_other_name(page, expand.name.names, expand.name.name)
        }
        _ => write_any(page, front, fault),
    }
}

/// On the fault of a request on a capability or its notation, whose text takes its place, or on another fault.
pub fn write_on_input(
    page: &mut ShortPage,
    action: &Action<'_>,
    input: &mut [u8],
    fault: &ToolFault,
) {
    match (action, fault) {
        (Action::Source(_), ToolFault::Cap(refused)) => match put_text(input) {
            Ok(len) => write_string(page, Some(&input[..len]), refused),
            Err(_) => write_string(page, None, refused),
        },
        (_, ToolFault::Cap(refused)) => write_string(page, Some(input), refused),
        (_, ToolFault::HasName) => write_pasted(page, input),
        _ => write_any(page, b"", fault),
    }
}
