//! Runs of `ti expand`.

use super::ending::EndOf;
use crate::tests::check_rows;

/// Runs without a form or another table of names.
const ROWS: &str = r"
ti expand --hex bel | @SMALL => 0 out 07\n
ti expand E3 | @EXTENDED => 0 out \E[3J
ti expand #1 | @SMALL => 0 out ^G
# no line speed, so marks vanish
ti expand #0 s:a$<5>b | @TEXT => 0 out ab
ti expand --hex --rate 960 #0 s:$<5> | @TEXT => 0 out 0000000000\n
ti expand --hex --rate 960 --xon #0 s:$<5> | @TEXT => 0 out \n
ti expand #0 --rate 960 --lines 3 s:$<1*> --hex | @TEXT => 0 out 000000\n
ti expand --hex #0 s:a$<x> | @TEXT => 0 out 61243c783e\n
ti expand cup | @SMALL => 4 err capability: absent\n
# a flag is no text
ti expand bw | @SMALL => 4 err capability: absent\n
ti expand --rate 1000000 --lines 65535 #0 s:$<99999*> | @TEXT => 4 err capability: TooMuch 6553434465000\n
ti expand bel | ^Z^A^B\000^A => 3 err entry: Truncated at 5\n
ti expand #1 | @QUESTION => 4 err capability: UnknownEscape at 3\n
ti expand #0 x | @TEXT => 2 err parameter 1: bad word\n
";

#[test]
fn runs_of_expand_end_as_they_should(rt: HostRuntime) {
    check_rows(&rt, ROWS, &EndOf);
}

/// Runs with `--escape`, `--hex` or `--all-names`, and those beside them without.
const FORMED: &str = r"
ti expand cmdch n:7 | @UNCOMMON => 4 err capability: absent\n
ti expand --all-names cmdch n:7 | @UNCOMMON => 0 out \E7\^,\s
ti expand --all-names --escape cmdch n:7 | @UNCOMMON => 0 out \\E7\\\^\\,\\s\n
ti expand --all-names --hex #9 n:7 | @UNCOMMON => 0 out 1b375e2c20\n
# a flag is no text, among all names too
ti expand --all-names xsb | @UNCOMMON => 4 err capability: absent\n
# pad bytes are NUL
ti expand --escape --rate 960 #0 s:a$<2> | @TEXT => 0 out a\\000\\000\n
ti expand bel --escape --hex | @SMALL => 2 err --hex and --escape exclude each other\n
";

#[test]
fn runs_of_expand_in_other_forms_end_as_they_should(rt: HostRuntime) {
    check_rows(&rt, FORMED, &EndOf);
}
