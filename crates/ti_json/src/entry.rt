//! An entry as an array of objects.

ghost use Rattle.std.specs.List.{list_all};
ghost use Rattle.std.specs.Prelude.{◌≡◌, true, IfOk};
ghost use Rattle.ti_escape.specs.Laws.{is_printable};

use crate::object::write_row;
use crate::row::{Content, Topic};
use std::alloc::{AllocError, Allocator};
use ti_entry::Entry;
use ti_sink::Printer;

/// Writes an entry as an array of objects, those of [`entry_json`].
pub fn write_entry<A: Allocator>(printer: &mut Printer<A>, entry: &Entry<'_>) {
    printer.begin_list();
    write_row(printer, Topic::Format, Content::Format(entry.width()));
    write_row(printer, Topic::Names, Content::Names(entry.names()));
    'items: for (subject, item) in entry.items() {
        write_row(printer, Topic::Capability(subject), Content::of(item));
    }
    printer.end()
}

/// An entry as JSON: an array of objects, without a space between tokens.
///
/// The first has the kind `format`, and the value `legacy` or `wide`; the second the kind `names`. Each of the others is a
/// capability that is there or cancelled, with `kind` (`flag`, `number` or `text`), `name`, `own` (`true`) if the name is the
/// entry's own, and `value`; or in place of a value `state`, which is `cancelled`, or `missing` for a flag that the entry marks
/// so, by the byte 255. A text has its bytes as `hex` too. Each byte of the document is a character from the space to `~`. A name
/// may stand twice.
///
/// # Errors
///
/// Memory was refused.
pub fn entry_json<A: Allocator + Copy>(
    alloc: A,
    entry: &Entry<'_>,
) -> Result<Vec<u8, A>, AllocError>
    ensures printable { IfOk result (λ bytes. list_all is_printable bytes.items ≡ true) }
{
    let mut printer = Printer::new(alloc);
    write_entry(&mut printer, entry);
    printer.finish()
}
