//! Runs of `ti show`.

use super::ending::EndOf;
use crate::tests::check_rows;

/// Runs without a form or another table of names.
const ROWS: &str = r"
ti show | @SMALL => 0 out format: legacy\nnames: t\nflag bw\nnumber cols 80\ntext bel 07\n
ti show | @WIDE => 0 out format: wide\nnames: t\nflag bw\nnumber cols 80\ntext bel 07\n
";

#[test]
fn runs_of_show_end_as_they_should(rt: HostRuntime) {
    check_rows(&rt, ROWS, &EndOf);
}

/// Runs with `--escape`, `--hex` or `--all-names`, and those beside them without.
const FORMED: &str = r"
ti show | @UNCOMMON => 0 out format: legacy\nnames: t\nflag #2\ntext bel 07\ntext #9 1b25703125645e2c20\n
ti show --escape | @UNCOMMON => 0 out format: legacy\nnames: t\nflag #2\ntext bel \^G\ntext #9 \\E%p1%d\\\^\\,\\s\n
ti show --all-names | @UNCOMMON => 0 out format: legacy\nnames: t\nflag xsb\ntext bel 07\ntext cmdch 1b25703125645e2c20\n
ti show --all-names --escape | @UNCOMMON => 0 out format: legacy\nnames: t\nflag xsb\ntext bel \^G\ntext cmdch \\E%p1%d\\\^\\,\\s\n
ti show --escape | @EXTENDED => 0 out format: legacy\nnames: t\nflag bw\nnumber cols 80\ntext bel \^G\nflag+ AX\ntext+ E3 \\E[3J\n
# what would look like a word of the listing
# Three texts: of no bytes, `-`, and `cancelled`.
ti show --escape | ^Z^A^B\000\000\000\000\000^C\000^L\000t\000^A\000\000\000^B\000-\000cancelled\000 => 0 out format: legacy\nnames: t\ntext cbt -\ntext bel \\055\ntext cr \\143ancelled\n
";

#[test]
fn runs_of_show_in_other_forms_end_as_they_should(rt: HostRuntime) {
    check_rows(&rt, FORMED, &EndOf);
}

/// Runs with `--json`.
const DOCUMENTS: &str = r##"
ti show --json | @UNCOMMON => 0 out [{"kind":"format","value":"legacy"},{"kind":"names","value":"t"},{"kind":"flag","name":"xsb","value":true},{"hex":"07","kind":"text","name":"bel","value":"\^G"},{"hex":"1b25703125645e2c20","kind":"text","name":"cmdch","value":"\\\\E%p1%d\\\\\^\\\\,\\\\s"}]\n
# Two texts of characters that JSON or the notation escapes, and a flag and an extended flag that the entry cancels.
ti show --json | ^Z^A^F\000^A\000\000\000^B\000^H\000t|"\E\377\000\376\000\000\000^D\000"\\\n\000\200" \000^A\000\000\000\000\000^A\000^E\000\376\000\000\000a "\n\000 => 0 out [{"kind":"format","value":"legacy"},{"kind":"names","value":"t|\\"\\\\E\\\\377"},{"kind":"flag","name":"bw","state":"cancelled"},{"hex":"225c0a","kind":"text","name":"cbt","value":"\\"\\\\\\\\\^J"},{"hex":"802220","kind":"text","name":"bel","value":"\\\\200\\"\\\\s"},{"kind":"flag","name":"a\\\\s\\"\^J","own":true,"state":"cancelled"}]\n
# A flag that terminfo(5) does not name.
ti show --json | ^Z^A^B\000\055\000\000\000\000\000\000\000t\000\000\000\000\000\000\000\000\000\000\000\000\000\000\000\000\000\000\000\000\000\000\000\000\000\000\000\000\000\000\000\000\000\000\000\000\000\000\000\000\000\000\000\000\000^A\000 => 0 out [{"kind":"format","value":"legacy"},{"kind":"names","value":"t"},{"kind":"flag","name":"#44","value":true}]\n
ti show --json --escape | @SMALL => 2 err --json excludes --escape and --all-names\n
ti show -a --json | @SMALL => 2 err --json excludes --escape and --all-names\n
"##;

#[test]
fn runs_of_show_end_as_they_should_with_json(rt: HostRuntime) {
    check_rows(&rt, DOCUMENTS, &EndOf);
}
