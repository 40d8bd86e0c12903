//! Runs of `ti trace`.

use super::ending::{EndOf, OutputOf};
use crate::tests::check_rows;

/// Runs of the command.
const ROWS: &str = r#"
ti trace | %; => 4 err capability: StrayEnd at 0\n
# the tokens before the fault have no lines
ti trace --escape n:3 | ab% => 4 err capability: CutShort at 2\n
ti trace x | %d => 2 err parameter 1: bad word\n
ti trace --escape n:1 n:2147483648 | %; => 2 err parameter 2: bad word\n
ti trace n:1 n:2 n:3 n:4 n:5 n:6 n:7 n:8 n:9 n:0 | %d => 2 err parameters: more than nine\n
# an object for each token, and one with the totals
ti trace --json n:3 | a%p1%d => 0 out [{"place":0,"run":"ran","stack":[],"token":"a","wrote":"a"},{"place":1,"run":"ran","stack":[3],"token":"%p1","wrote":""},{"place":4,"run":"ran","stack":[],"token":"%d","wrote":"3"},{"bound":12,"depth":1,"height":1,"output":"a3","passed":0,"ran":3,"written":2}]\n
ti trace --json s:ab | %?%{0}%t^G%e%p1%s%; => 0 out [{"place":0,"run":"ran","stack":[],"token":"%?","wrote":""},{"place":2,"run":"ran","stack":[0],"token":"%{0}","wrote":""},{"place":6,"run":"ran","stack":[],"token":"%t","wrote":""},{"place":8,"run":"passed","stack":[],"token":"\^G","wrote":""},{"place":9,"run":"ran","stack":[],"token":"%e","wrote":""},{"place":11,"run":"ran","stack":[{"length":2,"text":"ab"}],"token":"%p1","wrote":""},{"place":14,"run":"ran","stack":[],"token":"%s","wrote":"ab"},{"place":16,"run":"ran","stack":[],"token":"%;","wrote":""},{"bound":2,"depth":1,"height":1,"output":"ab","passed":1,"ran":7,"written":2}]\n
ti trace --json n:-3 | %p1%d => 0 out [{"place":0,"run":"ran","stack":[-3],"token":"%p1","wrote":""},{"place":3,"run":"ran","stack":[],"token":"%d","wrote":"-3"},{"bound":11,"depth":1,"height":1,"output":"-3","passed":0,"ran":2,"written":2}]\n
# the greatest height of this run, and the depth of all
ti trace --escape n:1 | %?%p1%ta%e%p1%p1%+%d%; => 0 out place^Itoken          ^Irun    ^Istack                  ^Iwrote\n    0^I%?             ^Iran    ^I-                      ^I-\n    2^I%p1            ^Iran    ^I1                      ^I-\n    5^I%t             ^Iran    ^I-                      ^I-\n    7^Ia              ^Iran    ^I-                      ^Ia\n    8^I%e             ^Iran    ^I-                      ^I-\n   10^I%p1            ^Ipassed ^I-                      ^I-\n   13^I%p1            ^Ipassed ^I-                      ^I-\n   16^I%+             ^Ipassed ^I-                      ^I-\n   18^I%d             ^Ipassed ^I-                      ^I-\n   20^I%;             ^Iran    ^I-                      ^I-\noutput: a\nwritten: 1\nran: 6\npassed: 4\nheight: 1\ndepth: 2\nbound: 11\n
# a text of sixteen bytes is shown as a whole
ti trace --escape s:0123456789abcdef | %p1%s => 0 out place^Itoken          ^Irun    ^Istack                  ^Iwrote\n    0^I%p1            ^Iran    ^Is:0123456789abcdef     ^I-\n    3^I%s             ^Iran    ^I-                      ^I0123456789abcdef\noutput: 0123456789abcdef\nwritten: 16\nran: 2\npassed: 0\nheight: 1\ndepth: 1\nbound: 16\n
# what was passed is faint
ti trace --escape --color=always | %?%{0}%ta%; => 0 out place^Itoken          ^Irun    ^Istack                  ^Iwrote\n    0^I%?             ^Iran    ^I-                      ^I-\n    2^I%{0}           ^Iran    ^I0                      ^I-\n    6^I%t             ^Iran    ^I-                      ^I-\n\E[2m    8^Ia              ^Ipassed ^I-                      ^I-\E[m\n    9^I%;             ^Iran    ^I-                      ^I-\noutput: -\nwritten: 0\nran: 4\npassed: 1\nheight: 1\ndepth: 1\nbound: 1\n
ti trace --json | %; => 4 err capability: StrayEnd at 0\n
ti trace --json x | %d => 2 err parameter 1: bad word\n
"#;

/// The same, which write what has a name.
const ROWS_OUTPUTS: &str = r"
ti trace n:3 | @CHOICE => @CHOICE_OF_3
ti trace --escape n:3 | @CHOICE => @CHOICE_OF_3_ESCAPED
ti trace n:0 | @NESTED => @NESTED_OF_0
ti trace n:4 | @VARIABLES => @VARIABLES_OF_4
ti trace s:0123456789abcdefg n:-5 | %p1%p2%d%s => @CUT_TEXT
ti trace --escape | -, ^I\200 => @MARKS
ti trace | - => @NOTHING
ti trace --escape | - => @NOTHING
";

#[test]
fn runs_of_trace_end_as_they_should(rt: HostRuntime) {
    check_rows(&rt, ROWS, &EndOf);
    check_rows(&rt, ROWS_OUTPUTS, &OutputOf);
}

/// Runs of the command for a capability of an entry.
const OF_AN_ENTRY: &str = r"
# absent, a flag, and a number
ti trace --of cup | @SMALL => 4 err trace: cup: no such string\n
ti trace --of bw | @SMALL => 4 err trace: bw: no such string\n
ti trace --of cols 1 | @SMALL => 4 err trace: cols: no such string\n
ti trace --of cursor_adress | @SMALL => 4 err trace: cursor_adress: no such capability; nearest: cursor_address\n
ti trace --of Smulxx | @EXTENDED_BY_TIC => 4 err trace: Smulxx: no such capability; nearest: Smulx\n
ti trace --of bel | @QUESTION => 4 err capability: UnknownEscape at 3\n
ti trace --of bel | ^Z^A^B\000^A => 3 err entry: Truncated at 5\n
ti trace --of bel n:x | @SMALL => 2 err parameter 1: bad word\n
";

/// The same, which write what has a name.
const OF_AN_ENTRY_OUTPUTS: &str = r"
ti trace --of cbt 7 | @COLUMN => @COLUMN_OF_7
ti trace n:7 --of=back_tab | @COLUMN => @COLUMN_OF_7
ti trace --of text#0 --entry - -- 7 | @COLUMN => @COLUMN_OF_7
ti trace --of #0 7 | @COLUMN => @COLUMN_OF_7
";

#[test]
fn texts_of_an_entry_are_traced(rt: HostRuntime) {
    check_rows(&rt, OF_AN_ENTRY, &EndOf);
    check_rows(&rt, OF_AN_ENTRY_OUTPUTS, &OutputOf);
}
