//! The bytes that move the cursor to line 5 and column 10, which count from 0.

use std::test::Fail;
use ti_cap::Capability;
use ti_expand::{Value, Vars, expand, expand_bytes, expand_into};

#[test]
fn the_cursor_moves(rt: HostRuntime) -> Result<(), Fail> {
    let cup = Capability::parse(b"\x1b[%i%p1%d;%p2%dH")?;
    let mut parameters = [Value::Num(0); 9];
    parameters[0] = Value::Num(4);
    parameters[1] = Value::Num(9);
    let mut vars = Vars::new();

    // Without memory, if the depth is known to be at most 4 and the bound at most 32.
    let (mut stack, mut room) = ([Value::Num(0); 4], [0; 32]);
    let run = expand_into(cup.tape(), &parameters, &mut vars, &mut stack, &mut room)?;
    assert!(rt; &room[..run.written] == b"\x1b[5;10H".as_slice());

    // The same in one call, from the bytes.
    let run = expand_bytes(b"\x1b[%i%p1%d;%p2%dH", &parameters, &mut vars, &mut room)?;
    assert!(rt; &room[..run.written] == b"\x1b[5;10H".as_slice());

    // The same in a vector.
    let output = expand(rt.alloc(), &cup, &parameters, &mut vars)?;
    assert!(rt; output.as_slice() == b"\x1b[5;10H".as_slice());
    Ok(())
}
