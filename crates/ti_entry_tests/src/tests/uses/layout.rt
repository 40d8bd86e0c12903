//! Why a file is no entry.

use std::test::Fail;
use ti_layout::{Fault, Refused, Stage};

#[test]
fn a_file_that_is_no_entry(rt: HostRuntime) -> Result<(), Fail> {
    let refused = Refused {
        fault: Fault::BadMagic,
        place: 0,
    };
    let mut stage = Stage::new();
    assert!(rt; stage.advance(b"\x7fELF") == Err(refused));
    assert!(rt; !stage.is_whole());
    Ok(())
}
