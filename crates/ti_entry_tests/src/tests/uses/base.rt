//! Room for any entry, and the first bytes of a source.

use std::test::Fail;
use ti_base::{MOST_ENTRY_BYTES, MOST_INTERRUPTIONS, read_piece};

#[test]
fn a_piece_is_read(rt: HostRuntime) -> Result<(), Fail> {
    let mut source = b"\x1a\x01".as_slice();
    let mut room = [0; MOST_ENTRY_BYTES];
    let mut retries = MOST_INTERRUPTIONS;
    assert!(rt; read_piece(&mut source, &mut room, &mut retries) == Ok(2));
    assert!(rt; room.starts_with(b"\x1a\x01"));
    Ok(())
}
