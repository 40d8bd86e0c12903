//! Runs of `ti get`.

use super::ending::{EndOf, end_of, is_end};
use crate::tests::check_rows;
use ti_fixtures::entries::SMALL;

/// Runs by the names of capabilities of each kind.
const NAMED: &str = r"
ti get bw | @SMALL => 0
ti get auto_left_margin | @SMALL => 0
# a flag that is not there is not set
ti get am | @SMALL => 1
ti get AX | @EXTENDED => 0
ti get flag#0 | @SMALL => 0
ti get flag#00001 | @SMALL => 1
ti get cols | @SMALL => 0 out 80\n
ti get columns | @SMALL => 0 out 80\n
ti get number#0 | @SMALL => 0 out 80\n
ti get lines | @SMALL => 0 out -1\n
# no option and no parameter changes what is written of a number
ti get --hex cols 5 | @SMALL => 0 out 80\n
ti get U8 | @WIDE_EXTENDED => 0 out 70000\n
ti get bel | @SMALL => 0 out ^G
ti get bell | @SMALL => 0 out ^G
ti get text#1 --escape | @SMALL => 0 out \^G\n
ti get E3 | @EXTENDED => 0 out \E[3J
ti get cbt | @SMALL => 4 err get: cbt: absent\n
ti get back_tab | @SMALL => 4 err get: back_tab: absent\n
ti get colss | @SMALL => 4 err get: colss: no such capability; nearest: cols\n
ti get xenll | @SMALL => 4 err get: xenll: no such capability; nearest: xenl\n
ti get cbtt | @SMALL => 4 err get: cbtt: no such capability; nearest: cbt\n
ti get text#413 | @SMALL => 4 err get: text#413: absent\n
ti get nosuch | @SMALL => 4 err get: nosuch: no such capability\n
# the nearest of all names, if any is near
ti get cuf11 | @SMALL => 4 err get: cuf11: no such capability; nearest: cuf1\n
ti get cursor_adress | @SMALL => 4 err get: cursor_adress: no such capability; nearest: cursor_address\n
ti get cursor_addre | @SMALL => 4 err get: cursor_addre: no such capability; nearest: cursor_address, cursor_down, cursor_home\n
# one edit leads to each of these and to cpi, which comes after them
ti get cpu | @SMALL => 4 err get: cpu: no such capability; nearest: cps, cup, cuu\n
# to the long name bell as well, which comes after the short ones
ti get bel1 | @SMALL => 4 err get: bel1: no such capability; nearest: bel, el1, bell\n
# lines is a short name and a long one, and is reported once
ti get liness | @SMALL => 4 err get: liness: no such capability; nearest: lines, slines\n
# two characters that are swapped are one edit, and four edits lead to each of the others
ti get auto_rigth_margin | @SMALL => 4 err get: auto_rigth_margin: no such capability; nearest: auto_right_margin, auto_left_margin, set_right_margin\n
# characters are counted, and not bytes; two bytes are too few for an edit
ti get cup\303\251 | @SMALL => 4 err get: cup\\303\\251: no such capability; nearest: cup\n
ti get cu | @SMALL => 4 err get: cu: no such capability\n
# what people call capabilities comes first: by the descriptions in terminfo(5) and user_caps(5)
ti get italic | @SMALL => 4 err get: italic: no such capability; nearest: sitm\n
ti get Underline | @SMALL => 4 err get: Underline: no such capability; nearest: smul, newline\n
ti get truecolor | @SMALL => 4 err get: truecolor: no such capability; nearest: RGB, Tc, setrgbf\n
ti get reset | @SMALL => 4 err get: reset: no such capability; nearest: sgr0, rs1, rs2\n
ti get up | @SMALL => 4 err get: up: no such capability; nearest: kcuu1, cuu1\n
# a function key, and nothing else of its form; key_f12 is a long name
ti get F5 | @SMALL => 4 err get: F5: no such capability; nearest: kf5\n
ti get f0 | @SMALL => 4 err get: f0: no such capability; nearest: kf0\n
ti get KEY_F12 | @SMALL => 4 err get: KEY_F12: no such capability; nearest: kf12, key_f12\n
ti get F99 | @SMALL => 4 err get: F99: no such capability\n
ti get Fnd | @SMALL => 4 err get: Fnd: no such capability; nearest: ind\n
# but for capitals
ti get CUP | @SMALL => 4 err get: CUP: no such capability; nearest: cup\n
ti get e3 | @EXTENDED => 4 err get: e3: no such capability; nearest: E3\n
# the entry's own names are among them, after those of terminfo(5)
ti get Smulxx | @EXTENDED_BY_TIC => 4 err get: Smulxx: no such capability; nearest: Smulx\n
ti get smulx | @EXTENDED_BY_TIC => 4 err get: smulx: no such capability; nearest: Smulx, smul\n
ti get E33 | @EXTENDED => 4 err get: E33: no such capability; nearest: E3\n
# The extended entry with an own flag whose name is no UTF-8.
ti get AXX | ^Z^A^B\000^A\000^A\000^B\000^B\000t\000^A\000P\000\377\377\000\000^G\000^A\000\000\000^A\000^C\000^K\000^A\000\000\000\000\000^C\000\E[3J\000A\377\000E3\000 => 4 err get: AXX: no such capability\n
# without the kind a label is that of a text
ti get #1 | @SMALL => 0 out ^G
ti get #00001 --escape | @SMALL => 0 out \^G\n
ti get #413 | @SMALL => 4 err get: #413: absent\n
ti get #000001 | @SMALL => 4 err get: #000001: no such capability\n
ti get # | @SMALL => 4 err get: #: no such capability\n
ti get cup#10 | @SMALL => 4 err get: cup#10: no such capability\n
ti get text#000001 | @SMALL => 4 err get: text#000001: no such capability\n
ti get 1234567890123456789012345678901234567890 | @SMALL => 4 err get: 1234567890123456789012345678901234567890: no such capability\n
ti get 12345678901234567890123456789012345678901 | @SMALL => 4 err get: ..: no such capability\n
";

#[test]
fn capabilities_are_got_by_any_name(rt: HostRuntime) {
    check_rows(&rt, NAMED, &EndOf);
}

/// Runs on the entry that term(5) prints as source and in hexadecimal digits.
const PRINTED: &str = r"
ti get am | @ADM3A => 0
ti get bw | @ADM3A => 1
ti get cols | @ADM3A => 0 out 80\n
ti get it | @ADM3A => 0 out -1\n
ti get lines | @ADM3A => 0 out 24\n
ti get bel | @ADM3A => 0 out ^G
ti get clear | @ADM3A => 0 out ^Z
ti get clear --rate 2000 | @ADM3A => 0 out ^Z\000\000
ti get cr | @ADM3A => 0 out ^M
ti get cub1 | @ADM3A => 0 out ^H
ti get cud1 | @ADM3A => 0 out ^J
ti get cuf1 | @ADM3A => 0 out ^L
ti get cup | @ADM3A => 0 out \E=%p1%{32}%+%c%p2%{32}%+%c
ti get cup 3 12 | @ADM3A => 0 out \E=#,
ti get cuu1 | @ADM3A => 0 out ^K
ti get home | @ADM3A => 0 out ^^
ti get ind | @ADM3A => 0 out ^J
ti get el | @ADM3A => 4 err get: el: absent\n
";

#[test]
fn the_example_of_term_is_got(rt: HostRuntime) {
    check_rows(&rt, PRINTED, &EndOf);
}

/// Runs with parameters, or on texts that take some.
const GIVEN: &str = r"
# without a parameter a text is not expanded
ti get cbt | @TEXT => 0 out %p1%s
ti get cbt 7 | @TEXT => 0 out 7
ti get cbt s:abc | @TEXT => 0 out abc
ti get cbt s:n:1 | @TEXT => 0 out n:1
ti get cbt -- -5 | @TEXT => 0 out -5
ti get cmdch 7 | @UNCOMMON => 0 out \E7\^,\s
ti get cmdch n:7 | @UNCOMMON => 0 out \E7\^,\s
ti get cmdch -- -7 | @UNCOMMON => 0 out \E-7\^,\s
ti get command_character 7 | @UNCOMMON => 0 out \E7\^,\s
# what is not expanded may be no capability
ti get bel | @QUESTION => 0 out \E[?%[;0123456789]c
ti get bel 1 | @QUESTION => 4 err capability: UnknownEscape at 3\n
ti get cbt --hex --rate 960 s:$<5> | @TEXT => 0 out 0000000000\n
ti get cbt s:$<5> | @TEXT => 0
ti get cbt --rate 1000000 --lines 65535 s:$<99999*> | @TEXT => 4 err capability: TooMuch 6553434465000\n
ti get bel | ^Z^A^B\000^A => 3 err entry: Truncated at 5\n
ti get --hex --escape bel | @SMALL => 2 err --hex and --escape exclude each other\n
ti get bel n:x | @SMALL => 2 err parameter 1: bad word\n
";

#[test]
fn texts_are_got_with_parameters(rt: HostRuntime) {
    check_rows(&rt, GIVEN, &EndOf);
}

/// Runs with parameters for a capability to which terminfo(5) gives some. Those that do not fit are refused before
/// anything is read.
const FITTED: &str = r"
ti get cup 4 9 entry | ^Z => 2 err parameters: cup takes 2, not 3; an entry is named by --entry FILE\n
ti get cursor_address 4 9 1 | ^Z => 2 err parameters: cup takes 2, not 3\n
ti get setaf n:1 s:x x | ^Z => 2 err parameters: setaf takes 1, not 3\n
ti get setaf x x | ^Z => 2 err parameters: setaf takes 1, not 2; an entry is named by --entry FILE\n
ti get setaf red | ^Z => 2 err parameter 1 of setaf: no 32-bit number\n
ti get sgr 1 0 0 0 0 0 0 0 x | ^Z => 2 err parameter 9 of sgr: no 32-bit number\n
ti get cup 2147483647 2147483648 | ^Z => 2 err parameter 2 of cup: no 32-bit number\n
ti get cup -- -2147483648 -2147483649 | ^Z => 2 err parameter 2 of cup: no 32-bit number\n
ti get cup 99999999999 +1 | ^Z => 2 err parameter 1 of cup: no 32-bit number\n
# a text comes after the number of a function key or of its label
ti get pfkey x x | ^Z => 2 err parameter 1 of pfkey: no 32-bit number\n
ti get pkey_plab 1 x y z | ^Z => 2 err parameters: pfxl takes 3, not 4; an entry is named by --entry FILE\n
ti get pfkey 1 x | @SMALL => 4 err get: pfkey: absent\n
ti get plab_norm 1 x | @SMALL => 4 err get: plab_norm: absent\n
ti trace --of=cup 1 2 3 | ^Z => 2 err parameters: cup takes 2, not 3\n
ti trace --of=setaf red | ^Z => 2 err parameter 1 of setaf: no 32-bit number\n
# a mark makes each word fit
ti get setaf s:red | @SMALL => 4 err get: setaf: absent\n
ti get cup n:1 s: | @SMALL => 4 err get: cup: absent\n
# a label means the capability at its index
ti get #10 4 9 1 | ^Z => 2 err parameters: cup takes 2, not 3\n
ti get text#10 4 9 entry | ^Z => 2 err parameters: cup takes 2, not 3; an entry is named by --entry FILE\n
ti get #00010 4 red | ^Z => 2 err parameter 2 of cup: no 32-bit number\n
ti get text#115 1 x | @SMALL => 4 err get: text#115: absent\n
ti get #115 x x | ^Z => 2 err parameter 1 of pfkey: no 32-bit number\n
ti get #115 1 x | @SMALL => 4 err get: #115: absent\n
ti trace --of=#10 1 2 3 | ^Z => 2 err parameters: cup takes 2, not 3\n
# without a count these take numbers alone; the label of no text is that of nothing
ti get bel 1 red 99999999999 | @SMALL => 2 err parameter 2: no 32-bit number; an entry is named by --entry FILE\n
ti get bel 1 s:red 9 | @SMALL => 0 out ^G
ti get am red | @SMALL => 2 err parameter 1: no 32-bit number; an entry is named by --entry FILE\n
ti get am 5 | @SMALL => 1
ti get cols red | @SMALL => 2 err parameter 1: no 32-bit number; an entry is named by --entry FILE\n
ti get E3 red 99999999999 | @EXTENDED => 2 err parameter 1: no 32-bit number; an entry is named by --entry FILE\n
ti get E3 9 | @EXTENDED => 0 out \E[3J
ti get #414 red | @SMALL => 4 err get: #414: absent\n
";

/// Runs with parameters for a capability of a name that no table has: its value says after reading what it takes.
const UNKNOWN: &str = r"
ti get Foo red | @SMALL => 4 err get: Foo: no such capability\n
# another manual says that Ms takes texts
ti get Ms red blue | ^Z^A^B\000^A\000^A\000^B\000^B\000t\000^A\000P\000\377\377\000\000^G\000\000\000\000\000^A\000^B\000^E\000\000\000\000\000a\000Ms\000 => 0 out a
ti get AX red | @EXTENDED => 4 err get: AX: takes numbers; parameter 1: no 32-bit number; an entry is named by --entry FILE\n
ti get AX 5 | @EXTENDED => 0
ti get U8 1 red | @WIDE_EXTENDED => 4 err get: U8: takes numbers; parameter 2: no 32-bit number; an entry is named by --entry FILE\n
ti get U8 s:red | @WIDE_EXTENDED => 0 out 70000\n
ti get number#0 red | @SMALL => 4 err get: number#0: takes numbers; parameter 1: no 32-bit number; an entry is named by --entry FILE\n
ti trace --of AX red | @EXTENDED => 4 err trace: AX: takes numbers; parameter 1: no 32-bit number; an entry is named by --entry FILE\n
# a string of numbers alone, one with a text, and one that is no capability
ti get E9 9 red | ^Z^A^B\000^A\000^A\000^B\000^B\000t\000^A\000P\000\377\377\000\000^G\000^A\000\000\000^A\000^C\000^L\000^A\000\000\000\000\000^C\000%p1%d\000AX\000E9\000 => 4 err get: E9: takes numbers; parameter 2: no 32-bit number; an entry is named by --entry FILE\n
ti get E9 9 9 | ^Z^A^B\000^A\000^A\000^B\000^B\000t\000^A\000P\000\377\377\000\000^G\000^A\000\000\000^A\000^C\000^L\000^A\000\000\000\000\000^C\000%p1%d\000AX\000E9\000 => 0 out 9
ti trace --of E9 red | ^Z^A^B\000^A\000^A\000^B\000^B\000t\000^A\000P\000\377\377\000\000^G\000^A\000\000\000^A\000^C\000^L\000^A\000\000\000\000\000^C\000%p1%d\000AX\000E9\000 => 4 err trace: E9: takes numbers; parameter 1: no 32-bit number; an entry is named by --entry FILE\n
ti get E9 red | ^Z^A^B\000^A\000^A\000^B\000^B\000t\000^A\000P\000\377\377\000\000^G\000^A\000\000\000^A\000^C\000^L\000^A\000\000\000\000\000^C\000%p1%s\000AX\000E9\000 => 0 out red
ti get E9 red | ^Z^A^B\000^A\000^A\000^B\000^B\000t\000^A\000P\000\377\377\000\000^G\000^A\000\000\000^A\000^C\000^L\000^A\000\000\000\000\000^C\000%p1%y\000AX\000E9\000 => 4 err capability: UnknownEscape at 3\n
";

#[test]
fn words_fit_the_value_of_an_unknown_name(rt: HostRuntime) {
    check_rows(&rt, UNKNOWN, &EndOf);
}

#[test]
fn parameters_fit_what_terminfo_gives(rt: HostRuntime) {
    check_rows(&rt, FITTED, &EndOf);
}

/// No byte of a name is shown but printable ones.
#[test]
fn a_name_with_control_characters_is_shown_by_its_notation(rt: HostRuntime) {
    let end = end_of(rt.alloc(), &["ti", "get", "a\u{1b}[2J b "], SMALL);
    assert_that!(rt; is_end(&end, 4, b"", b"get: a\\E[2J b\\s: no such capability\n"));
}
