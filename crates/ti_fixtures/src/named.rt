//! Entries, capabilities and traces by their names in rows.

use crate::capabilities::{
    CLOSED_32, CUP, INNER_PARTS, LINUX_SGR, OPEN_32, PUSHED_32, SCREEN_SGR, SETAB, SETAF,
    VT220_SGR, XTERM_SGR,
};
use crate::entries::{
    ADM3A, APART, COLUMN, DUMB, EXTENDED, EXTENDED_BY_TIC, NO_CAPABILITY, ODD, ODD_AND_MORE,
    QUESTION, SHARED, SMALL, TEXT, UNCOMMON, WIDE, WIDE_BY_TIC, WIDE_EXTENDED, WIDENED,
};
use crate::tmux::TMUX;
use crate::traces;

/// The names in rows, and their bytes.
const NAMED: &[(&str, &[u8])] = &[
    ("@CLOSED_32", CLOSED_32),
    ("@CUP", CUP),
    ("@INNER_PARTS", INNER_PARTS),
    ("@LINUX_SGR", LINUX_SGR),
    ("@OPEN_32", OPEN_32),
    ("@PUSHED_32", PUSHED_32),
    ("@SCREEN_SGR", SCREEN_SGR),
    ("@SETAB", SETAB),
    ("@SETAF", SETAF),
    ("@VT220_SGR", VT220_SGR),
    ("@XTERM_SGR", XTERM_SGR),
    ("@ADM3A", ADM3A),
    ("@APART", APART),
    ("@COLUMN", COLUMN),
    ("@DUMB", DUMB),
    ("@EXTENDED", EXTENDED),
    ("@EXTENDED_BY_TIC", EXTENDED_BY_TIC),
    ("@NO_CAPABILITY", NO_CAPABILITY),
    ("@ODD", ODD),
    ("@ODD_AND_MORE", ODD_AND_MORE),
    ("@QUESTION", QUESTION),
    ("@SHARED", SHARED),
    ("@SMALL", SMALL),
    ("@TEXT", TEXT),
    ("@UNCOMMON", UNCOMMON),
    ("@WIDE", WIDE),
    ("@WIDE_BY_TIC", WIDE_BY_TIC),
    ("@WIDE_EXTENDED", WIDE_EXTENDED),
    ("@WIDENED", WIDENED),
    ("@CHOICE", traces::CHOICE),
    ("@CHOICE_OF_3", traces::CHOICE_OF_3),
    ("@CHOICE_OF_3_ESCAPED", traces::CHOICE_OF_3_ESCAPED),
    ("@NESTED", traces::NESTED),
    ("@NESTED_OF_0", traces::NESTED_OF_0),
    ("@VARIABLES", traces::VARIABLES),
    ("@VARIABLES_OF_4", traces::VARIABLES_OF_4),
    ("@CUT_TEXT", traces::CUT_TEXT),
    ("@MARKS", traces::MARKS),
    ("@NOTHING", traces::NOTHING),
    ("@COLUMN_OF_7", traces::COLUMN_OF_7),
    ("@TEXT_AND_NUMBER", traces::TEXT_AND_NUMBER),
];

/// The bytes that a table has for a name.
fn bytes_in(table: &[(&str, &'static [u8])], name: &str) -> Option<&'static [u8]> {
    for (known, bytes) in table {
        if *known == name {
            return Some(*bytes);
        }
    }
    None
}

/// The bytes that a field names.
pub fn named(field: &str) -> Option<&'static [u8]> {
    // The table would be too large a constant with it.
    if field == "@TMUX" {
        return Some(TMUX);
    }
    bytes_in(NAMED, field)
}
