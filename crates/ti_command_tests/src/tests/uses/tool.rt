//! The program over bytes in place of streams.

use std::test::Fail;
use ti_tool::run;

#[test]
fn the_program_expands(rt: HostRuntime) -> Result<(), Fail> {
    let global = rt.alloc();
    let words = ["ti", "cap", "n:7"];
    let mut input = b"\x1b[%p1%dG".as_slice();
    let (mut output, mut errors) = (Vec::new(global), Vec::new(global));
    let status = run(global, global, &words, &mut input, &mut output, &mut errors);
    assert!(rt; status == 0);
    assert!(rt; output.as_slice() == b"\x1b[7G".as_slice());
    Ok(())
}
