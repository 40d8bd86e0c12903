//! Names of capabilities, and whether their texts are sent.

use crate::tests::check_rows;
use ti_control::is_sent;
use ti_fixtures::{Finds, Given, Unfound, show};

/// A name, and whether the text of the capability is sent.
const NAMES: &str = r"
cup => true
XM => true
kf1 => false
kMOUS => false
u6 => false
u7 => true
acsc => false
lf10 => false
if => false
iprog => false
is2 => true
dispc => false
pad => false
dispcx => true
# Nothing is known of it, and it is sent.
- => true
";

/// Whether a text is sent.
struct IsSent;

impl Finds for IsSent {
    fn find(&self, given: &Given<'_, '_>, found: &mut Vec<u8>) -> Result<(), Unfound> {
        show(found, &is_sent(given.bytes))
    }
}

#[test]
fn texts_of_these_names_are_sent(rt: HostRuntime) {
    check_rows(&rt, NAMES, &IsSent);
}
