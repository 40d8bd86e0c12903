//! The name and the index of the capability that moves the cursor.

use std::test::Fail;
use ti_names::NameTable;
use ti_words::Kind;

#[test]
fn names_of_the_cursor_address(rt: HostRuntime) -> Result<(), Fail> {
    assert!(rt; NameTable::All.find("cup") == Some((Kind::Text, 10)));
    assert!(rt; NameTable::Long.find("cursor_address") == Some((Kind::Text, 10)));
    assert!(rt; NameTable::Common.text_name(10) == Some("cup"));
    Ok(())
}
