//! The lines that list an entry.
//!
//! One line an item, in one pass over the entry; the whole listing is built before the first byte of it is written.

ghost use Rattle.std.specs.Prelude.{◌≡◌, ◌++◌, OnOk, IfOk, map};
ghost use Rattle.ti_json.specs.Rows.{capability_row};
ghost use Rattle.ti_words.specs.Items.{items};
ghost use Rattle.ti_listing.specs.Listing.{entry_lines, row_lines};

use crate::row_line::push_row;
use std::alloc::{AllocError, Allocator};
use ti_entry::Entry;
use ti_json::{Content, Topic};
use ti_line::ListOptions;

/// Writes the lines of the capabilities.
fn push_items<A: Allocator>(
    out: &mut Vec<u8, A>,
    options: ListOptions,
    entry: &Entry<'_>,
) -> Result<(), AllocError>
    ensures { OnOk result (out.new.items
        ≡ out.old.items ++ row_lines options (map capability_row (items entry.now))) }
{
    let mut items = entry.items();
    'items: while let Some((subject, item)) = items.next() {
        push_row(
            out,
            options,
            b"",
            Topic::Capability(subject),
            Content::of(item),
        )?;
    }
    Ok(())
}

/// The listing of an entry, as it is requested.
///
/// # Errors
///
/// Memory was refused.
pub fn lines_of<A: Allocator + Copy>(
    alloc: A,
    options: ListOptions,
    entry: &Entry<'_>,
) -> Result<Vec<u8, A>, AllocError>
    ensures { IfOk result (λ out. out.items ≡ entry_lines options entry.now) }
{
    let mut out = Vec::new(alloc);
    push_row(
        &mut out,
        options,
        b"",
        Topic::Format,
        Content::Format(entry.width()),
    )?;
    push_row(
        &mut out,
        options,
        b"",
        Topic::Names,
        Content::Names(entry.names()),
    )?;
    push_items(&mut out, options, entry)?;
    Ok(out)
}
