//! The differences of two entries, for a person and for a program that reads JSON.

use std::test::Fail;
use ti_entry::read;
use ti_escape::Color;
use ti_line::Likeness;
use ti_listing::{difference_of, differing_json, differing_lines};

/// An entry called `t`, with 80 columns.
const ONE: &[u8] = b"\x1a\x01\x02\0\0\0\x01\0\0\0\0\0t\0P\0";

/// The same with 132 columns and a bell.
const OTHER: &[u8] = b"\x1a\x01\x02\0\0\0\x01\0\x02\0\x02\0t\0\x84\0\xff\xff\0\0\x07\0";

#[test]
fn two_entries_are_compared(rt: HostRuntime) -> Result<(), Fail> {
    let global = rt.alloc();
    let (one, other) = (read(ONE)?, read(OTHER)?);
    let differences = difference_of(global, Likeness::Bytes, &one, &other)?;
    let lines = differing_lines(global, Color::Never, differences.as_slice())?;
    assert!(rt;
        lines.as_slice() == b"- number cols 80\n+ number cols 132\n+ text bel ^G\n".as_slice()
    );
    let json = differing_json(global, differences.as_slice())?;
    let wanted =
        br#"[{"first":{"value":80},"kind":"number","name":"cols","other":{"value":132}},{"first":{"state":"absent"},"kind":"text","name":"bel","other":{"hex":"07","value":"^G"}}]"#;
    assert!(rt; json.as_slice() == wanted.as_slice());
    Ok(())
}
