//! Runs of `ti cap`.

use super::ending::EndOf;
use crate::tests::check_rows;

/// Runs without a form or another table of names.
const ROWS: &str = r"
ti cap n:7 | \E[%p1%dG => 0 out \E[7G
ti cap n:4 n:9 | \E[%i%p1%d;%p2%dH => 0 out \E[5;10H
ti cap x | %d => 2 err parameter 1: bad word\n
ti cap n:1 n:2147483648 | %d => 2 err parameter 2: bad word\n
ti cap n:+1 | %d => 2 err parameter 1: bad word\n
ti cap n:- | %d => 2 err parameter 1: bad word\n
ti cap n:1 n:1 n:1 n:1 n:1 n:1 n:1 n:1 n:1 n:1 | %d => 2 err parameters: more than nine\n
ti cap | ab% => 4 err capability: CutShort at 2\n
ti cap s:$<5> | %p1%s => 0 out $<5>
ti cap --hex n:4 n:9 | \E[%i%p1%d;%p2%dH => 0 out 1b5b353b313048\n
";

#[test]
fn runs_of_cap_end_as_they_should(rt: HostRuntime) {
    check_rows(&rt, ROWS, &EndOf);
}

/// Runs with `--escape`, `--hex` or `--all-names`, and those beside them without.
const FORMED: &str = r"
ti cap --escape n:4 n:9 | \E[%i%p1%d;%p2%dH => 0 out \\E[5;10H\n
ti cap --escape s:- | %p1%s => 0 out \\055\n
# no bytes are an empty line, as in hex
ti cap --escape | - => 0 out \n
ti cap --escape | ab% => 4 err capability: CutShort at 2\n
ti cap --hex --escape | %d => 2 err --hex and --escape exclude each other\n
# both forms are refused before the parameters
ti cap --escape x --hex | %d => 2 err --hex and --escape exclude each other\n
";

#[test]
fn runs_of_cap_in_other_forms_end_as_they_should(rt: HostRuntime) {
    check_rows(&rt, FORMED, &EndOf);
}
