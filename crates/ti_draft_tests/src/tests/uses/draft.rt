//! An entry for a terminal that can do one thing: ring.

use std::test::Fail;
use ti_draft::{Draft, encode};
use ti_words::{Text, Width};

#[test]
fn a_terminal_that_rings(rt: HostRuntime) -> Result<(), Fail> {
    let mut draft = Draft::new(rt.alloc(), b"ring|a bell", Width::Legacy);
    draft.push_text(Text::Absent)?;
    // The text at index 1 is `bel`.
    draft.push_text(Text::Value(b"\x07"))?;
    let file = encode(rt.alloc(), &draft)?;
    // The header (its length is that of the names, one flag, number and text after another), the names, and the texts.
    let header = b"\x1a\x01\x0c\0\0\0\0\0\x02\0\x02\0";
    let texts = b"ring|a bell\0\xff\xff\0\0\x07\0";
    assert!(rt; file.as_slice().strip_prefix(header) == Some(texts.as_slice()));
    Ok(())
}
