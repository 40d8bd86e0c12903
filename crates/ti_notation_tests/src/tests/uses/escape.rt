//! A text as terminfo(5) writes it, and read back.

use std::test::Fail;
use ti_escape::{column, push_notation, push_reading, read_in_place};

#[test]
fn a_text_is_shown_and_read(rt: HostRuntime) -> Result<(), Fail> {
    let mut shown = Vec::new(rt.alloc());
    push_notation(&mut shown, b"\x1b[%p1%dG\r\n")?;
    assert!(rt; shown.as_slice() == br"\E[%p1%dG^M^J".as_slice());
    assert!(rt; column(b"\x1b[%i", 2) == 3);

    let mut text = Vec::new(rt.alloc());
    push_reading(&mut text, shown.as_slice())?;
    assert!(rt; text.as_slice() == b"\x1b[%p1%dG\r\n".as_slice());

    let mut room = [b'\\', b'E', b'[', b'H'];
    let len = read_in_place(&mut room)?;
    assert!(rt; &room[..len] == b"\x1b[H".as_slice());
    Ok(())
}
