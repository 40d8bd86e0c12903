//! An entry for a program that reads JSON.

use std::test::Fail;
use ti_entry::read;
use ti_json::entry_json;

/// An entry called `t`, with auto_left_margin, 80 columns, a bell, and an extended text E3.
const FILE: &[u8] =
    b"\x1a\x01\x02\0\x01\0\x01\0\x02\0\x02\0t\0\x01\0P\0\xff\xff\0\0\x07\0\0\0\0\0\x01\0\x02\0\x08\0\0\0\0\0\x1b[3J\0E3\0";

#[test]
fn an_entry_for_programs(rt: HostRuntime) -> Result<(), Fail> {
    let entry = read(FILE)?;
    let json = entry_json(rt.alloc(), &entry)?;
    let wanted =
        br#"[{"kind":"format","value":"legacy"},{"kind":"names","value":"t"},{"kind":"flag","name":"bw","value":true},{"kind":"number","name":"cols","value":80},{"hex":"07","kind":"text","name":"bel","value":"^G"},{"hex":"1b5b334a","kind":"text","name":"E3","own":true,"value":"\\E[3J"}]"#;
    assert!(rt; json.as_slice() == wanted.as_slice());
    Ok(())
}
