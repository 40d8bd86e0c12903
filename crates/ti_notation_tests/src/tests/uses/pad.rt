//! A text that clears the screen, for a line of 9600 bits per second.

use std::test::Fail;
use ti_pad::{Padding, pad};

#[test]
fn a_slow_line_is_padded(rt: HostRuntime) -> Result<(), Fail> {
    // 960 bytes per second, one affected line, no flow control, and pad bytes of 0: 5 milliseconds are 5 of them.
    let slow = Padding::new(960, 1, false, 0).ok_or("no padding")?;
    let padded = pad(rt.alloc(), b"\x1b[J$<5>", &slow)?;
    assert!(rt; padded.as_slice() == b"\x1b[J\0\0\0\0\0".as_slice());
    Ok(())
}
