//! What a file that an entry names may be, and what its names may have.

use std::test::Fail;
use ti_control::{aliases_len, first_control, first_unfit, is_sent, is_tabset};

#[test]
fn a_name_has_a_slash_and_a_control(rt: HostRuntime) -> Result<(), Fail> {
    let names = b"a|../b|a terminal\x1b[6n";
    let aliases = &names[..aliases_len(names)];
    assert!(rt; first_unfit(aliases).ok_or("none")? == 4);
    assert!(rt; first_control(names).ok_or("none")? == 17);
    assert!(rt; is_tabset(b"/usr/share/tabset/vt100"));
    assert!(rt; !is_tabset(b"/usr/share/tabset/../../etc/passwd"));
    assert!(rt; is_sent(b"clear") && !is_sent(b"kf1"));
    Ok(())
}
