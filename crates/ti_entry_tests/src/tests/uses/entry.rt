//! The values of an entry.

use std::test::Fail;
use ti_entry::{Position, read};
use ti_words::{Flag, Item, Kind, Number, Subject, Text};

/// An entry called `t`, with auto_left_margin, 80 columns, a bell, and an extended text E3.
const FILE: &[u8] =
    b"\x1a\x01\x02\0\x01\0\x01\0\x02\0\x02\0t\0\x01\0P\0\xff\xff\0\0\x07\0\0\0\0\0\x01\0\x02\0\x08\0\0\0\0\0\x1b[3J\0E3\0";

#[test]
fn what_an_entry_says(rt: HostRuntime) -> Result<(), Fail> {
    let entry = read(FILE)?;
    assert!(rt; entry.flag(0) == Flag::Yes);
    assert!(rt; entry.number(0) == Number::Value(80));
    assert!(rt; entry.text(1) == Text::Value(b"\x07"));
    // By name: short, long, or the entry's own.
    assert!(rt; entry.position(b"bel") == Some(Position::Standard(Kind::Text, 1)));
    assert!(rt; entry.position(b"columns") == Some(Position::Standard(Kind::Number, 0)));
    assert!(rt; entry.position(b"E3") == Some(Position::Extended(Kind::Text, 0)));
    assert!(rt; entry.extended().text(0) == Text::Value(b"\x1b[3J"));
    // One after another.
    let mut items = entry.items();
    assert!(rt; items.next() == Some((Subject::Standard(Kind::Flag, 0), Item::Flag(Flag::Yes))));
    Ok(())
}
