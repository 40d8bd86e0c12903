//! The JSON of what two entries do not have alike.

ghost use Rattle.std.specs.List.{list_all};
ghost use Rattle.std.specs.Prelude.{◌≡◌, IfOk, true};
ghost use Rattle.ti_escape.specs.Laws.{is_printable};

use crate::difference::Difference;
use std::alloc::{AllocError, Allocator};
use ti_json::write_compared;
use ti_sink::Printer;

/// Differences as JSON: an array with an object for each, without a space between tokens.
///
/// An object has `kind` (`format`, `names`, `flag`, `number` or `text`), of a capability the `name`, and `own` (`true`) if the name
/// is the entry's own; and what the `first` entry has, and what the `other` has. Each of these is an object with a `value`, and of a
/// text its bytes as `hex`, or with a `state`: `absent`, `cancelled`, or `missing` for a flag that the entry marks so. Each byte of
/// the document is a character from the space to `~`.
///
/// # Errors
///
/// Memory was refused.
pub fn differing_json<A: Allocator + Copy>(
    alloc: A,
    differences: &[Difference<'_>],
) -> Result<Vec<u8, A>, AllocError>
    ensures printable { IfOk result (λ v. list_all is_printable v.items ≡ true) }
{
    let mut printer = Printer::new(alloc);
    printer.begin_list();
    'differences: for one in differences {
        write_compared(&mut printer, one.topic, one.first, one.other);
    }
    printer.end();
    printer.finish()
}
