//! A string that moves the cursor, with a bell in it.

use std::test::Fail;
use ti_parser::{Coding, Configuration, FunctionKind, FunctionNumber, Reading, State, Within};

#[test]
fn a_bell_is_carried_out_within_a_sequence(rt: HostRuntime) -> Result<(), Fail> {
    let reading = Reading {
        coding: Coding::Utf8,
        within: Within::StartsAnew,
    };
    let mut parser = Configuration::new();
    for byte in b"\x1b[5" {
        assert!(rt; parser.step(reading, *byte).function.is_none());
    }
    let bell = parser.step(reading, 7).function.ok_or("none")?;
    assert!(rt; bell.kind == FunctionKind::Control && bell.letter == Some(7));
    let motion = parser.step(reading, b'A').function.ok_or("none")?;
    assert!(rt; motion.kind == FunctionKind::Sequence && motion.letter == Some(b'A'));
    assert!(rt; motion.numbers.as_slice() == [FunctionNumber::Known(5)].as_slice());
    assert!(rt; parser.state == State::Ground);
    Ok(())
}
