//! The line on a capability that `get`, or `trace` of an entry, does not find or that takes numbers.

use crate::fault::ToolFault;
use crate::voice::near::write_nearest;
use crate::voice::request_line::write_only_numbers;
use std::alloc::Allocator;
use ti_entry::read;
use ti_line::EntryAction;
use ti_sink::ShortPage;

/// Writes the line. The nearest names are those of the entry that was read.
pub fn write_item_line<A: Allocator + Copy>(
    page: &mut ShortPage,
    alloc: A,
    action: &EntryAction<'_>,
    input: &[u8],
    fault: &ToolFault,
) {
    let (command, name, absent) = match action {
        EntryAction::Get(get) => ("get: ", get.name, ": absent\n"),
        EntryAction::Trace(of) => ("trace: ", of.name, ": no such string\n"),
        _ => ("", "", ""),
    };
    page.put(command);
    page.name(name.as_bytes());
    match fault {
        ToolFault::NoSuchName => {
            page.put(": no such capability");
            if let Ok(entry) = read(input) {
                write_nearest(page, alloc, name, &entry);
            }
            page.put("\n")
        }
        ToolFault::OnlyNumbers(which) => {
            page.put(": takes numbers; ");
            write_only_numbers(page, usize::from(*which))
        }
        _ => page.put(absent),
    }
}
