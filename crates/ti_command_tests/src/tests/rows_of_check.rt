//! Runs of `ti check`.

use super::ending::{EndOf, add_end, end_of};
use crate::tests::check_rows;
use ti_fixtures::{Finds, Given, Unfound};

/// Runs without a form or another table of names.
const ROWS: &str = r"
ti check | @EXTENDED => 0 out text bel ok depth 0 bound 1\ntext+ E3 ok depth 0 bound 4\n
ti check | @QUESTION => 1 out text bel fault UnknownEscape at 3\n
ti check | \E^A => 3 err entry: BadMagic at 0\n
";

#[test]
fn runs_of_check_end_as_they_should(rt: HostRuntime) {
    check_rows(&rt, ROWS, &EndOf);
}

/// Runs with `--escape`, `--hex` or `--all-names`, and those beside them without.
const FORMED: &str = r"
ti check | @UNCOMMON => 0 out text bel ok depth 0 bound 1\ntext #9 ok depth 1 bound 15\n
ti check --all-names | @UNCOMMON => 0 out text bel ok depth 0 bound 1\ntext cmdch ok depth 1 bound 15\n
ti check --all-names | \E^A => 3 err entry: BadMagic at 0\n
";

#[test]
fn runs_of_check_in_other_forms_end_as_they_should(rt: HostRuntime) {
    check_rows(&rt, FORMED, &EndOf);
}

/// Runs with `--faults`.
const FAULTS: &str = r#"
ti check --faults | @EXTENDED => 0
ti check --faults | @QUESTION => 1 out text bel fault UnknownEscape at 3\n
ti check --faults --json | @EXTENDED => 0 out []\n
ti check --faults --json | @QUESTION => 1 out [{"fault":"UnknownEscape","kind":"text","name":"bel","place":3}]\n
ti check --faults | \E^A => 3 err entry: BadMagic at 0\n
# A fault before a sound text, and one after it.
ti check --faults | ^Z^A^B\000\000\000\000\000^C\000^H\000t\000\000\000^C\000^E\000%p\000a\000%t\000 => 1 out text cbt fault CutShort at 0\ntext cr fault StrayThen at 0\n
# The text at index 9, which is cmdch.
ti check | ^Z^A^B\000\000\000\000\000^J\000^C\000t\000\377\377\377\377\377\377\377\377\377\377\377\377\377\377\377\377\377\377\000\000%p\000 => 1 out text #9 fault CutShort at 0\n
ti check --faults | ^Z^A^B\000\000\000\000\000^J\000^C\000t\000\377\377\377\377\377\377\377\377\377\377\377\377\377\377\377\377\377\377\000\000%p\000 => 1 out text cmdch fault CutShort at 0\n
# An extended text with a fault that has the name of a pattern.
ti check --faults | ^Z^A^B\000\000\000\000\000\000\000\000\000t\000\000\000\000\000^A\000^B\000^F\000\000\000\000\000%p\000u8\000 => 1 out text+ u8 fault CutShort at 0\n
"#;

#[test]
fn runs_of_check_end_as_they_should_with_faults(rt: HostRuntime) {
    check_rows(&rt, FAULTS, &EndOf);
}

/// Names `t`, and the texts up to `u9`, of which `u6` and `u8` alone are there: both are the same `%p`.
fn patterns() -> [u8; 611] {
    let mut bytes = [0xffu8; 611];
    bytes[..14].copy_from_slice(b"\x1a\x01\x02\0\0\0\0\0\x29\x01\x03\0t\0");
    bytes[600..602].fill(0);
    bytes[604..606].fill(0);
    bytes[608..].copy_from_slice(b"%p\0");
    bytes
}

/// How a run over the patterns of input ends.
struct EndOfPatterns;

impl Finds for EndOfPatterns {
    fn find(&self, given: &Given<'_, '_>, found: &mut Vec<u8>) -> Result<(), Unfound> {
        add_end(found, &end_of(*found.allocator(), given.words, &patterns()))
    }
}

/// Runs over an entry of which the patterns of input alone have a fault.
const PATTERNS: &str = r#"
ti check --all-names => 1 out text u6 fault CutShort at 0\ntext u8 fault CutShort at 0\n
ti check --all-names --faults => 0
ti check --json => 1 out [{"fault":"CutShort","kind":"text","name":"u6","place":0},{"fault":"CutShort","kind":"text","name":"u8","place":0}]\n
ti check --json --faults => 0 out []\n
"#;

#[test]
fn patterns_of_input_are_no_faults(rt: HostRuntime) {
    check_rows(&rt, PATTERNS, &EndOfPatterns);
}

/// Runs with `--json`.
const DOCUMENTS: &str = r#"
ti check --json | @EXTENDED => 0 out [{"bound":1,"depth":0,"kind":"text","name":"bel"},{"bound":4,"depth":0,"kind":"text","name":"E3","own":true}]\n
ti check --json | @QUESTION => 1 out [{"fault":"UnknownEscape","kind":"text","name":"bel","place":3}]\n
# An extended text with a fault, whose name has a quote, a newline and a space.
ti check --json | ^Z^A^B\000\000\000\000\000\000\000\000\000t\000\000\000\000\000^A\000^B\000^H\000\000\000\000\000%p\000"\n x\000 => 1 out [{"fault":"CutShort","kind":"text","name":"\\"\^J\\\\sx","own":true,"place":0}]\n
ti check --json | @UNCOMMON => 0 out [{"bound":1,"depth":0,"kind":"text","name":"bel"},{"bound":15,"depth":1,"kind":"text","name":"cmdch"}]\n
ti check --json --escape | @EXTENDED => 2 err --json excludes --escape and --all-names\n
"#;

#[test]
fn runs_of_check_end_as_they_should_with_json(rt: HostRuntime) {
    check_rows(&rt, DOCUMENTS, &EndOf);
}
