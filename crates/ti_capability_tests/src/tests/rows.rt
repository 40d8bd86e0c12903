//! Rows of tests: what their fields are, and that one that does not hold is found.

use crate::tests::check_rows;
use std::alloc::Global;
use ti_fixtures::{Finds, Given, Unfound, first_wrong};

/// Bytes in the notation of rows, and in octal digits.
const BYTES: &str = r"
# A line that is no row.
\E[H\n\s => \033\133\110\012\040
^G^?^@\^\\ => \007\177\000\136\134
- => -
@CUP => \E[%i%p1%d;%p2%dH
";

/// The bytes of the first field.
struct BytesOf;

impl Finds for BytesOf {
    fn find(&self, given: &Given<'_, '_>, found: &mut Vec<u8>) -> Result<(), Unfound> {
        Ok(found.extend_from_slice(given.bytes)?)
    }
}

#[test]
fn fields_are_bytes_in_the_notation(rt: HostRuntime) {
    check_rows(&rt, BYTES, &BytesOf);
}

/// Whether this is the first row that does not hold.
fn is_first_wrong(alloc: Global, rows: &str, row: &str) -> bool {
    first_wrong(alloc, rows, &BytesOf) == Some(row)
}

#[test]
fn a_row_that_does_not_hold_is_found(rt: HostRuntime) {
    assert_that!(rt; is_first_wrong(rt.alloc(), "a => a\n\nb => c\nd => e", "b => c"));
    assert_that!(rt; is_first_wrong(rt.alloc(), "a => a\nno row", "no row"));
    assert_that!(rt; first_wrong(rt.alloc(), "# b => c\na => a", &BytesOf).is_none());
}
