//! Runs of `ti convert`.

use super::ending::{EndOf, OutputOf};
use crate::tests::check_rows;

/// Runs of the command.
const ROWS: &str = r"
ti convert | @SHARED => 0 out ^Z^A^B\000\000\000\000\000^B\000^D\000t\000\000\000^B\000^G\000^G\000
ti convert --narrow | @WIDE_EXTENDED => 3 err entry: NumberOutOfRange\n
ti convert --wide --narrow | @SMALL => 2 err convert: both widths\n
";

/// The same, which write what has a name.
const ROWS_OUTPUTS: &str = r"
ti convert --wide | @SMALL => @WIDE
ti convert --narrow | @WIDE => @SMALL
";

#[test]
fn runs_of_convert_end_as_they_should(rt: HostRuntime) {
    check_rows(&rt, ROWS, &EndOf);
    check_rows(&rt, ROWS_OUTPUTS, &OutputOf);
}
