//! The bytes that move the cursor to line 5 and column 10, and then to line 1 and column 1.

use std::test::Fail;
use ti_expand::Vars;
use ti_kept::{Kept, expand_kept};

#[test]
fn the_cursor_moves_twice(rt: HostRuntime) -> Result<(), Fail> {
    let cup = Kept::compile(b"\x1b[%i%p1%d;%p2%dH")?;
    let mut vars = Vars::new();
    let mut room = [0; 32];
    let written = expand_kept(&cup, &[4, 9], &mut vars, &mut room).ok_or("no room")?;
    assert!(rt; &room[..written] == b"\x1b[5;10H".as_slice());

    let written = expand_kept(&cup, &[], &mut vars, &mut room).ok_or("no room")?;
    assert!(rt; &room[..written] == b"\x1b[1;1H".as_slice());
    Ok(())
}
