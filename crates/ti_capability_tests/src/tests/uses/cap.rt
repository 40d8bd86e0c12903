//! The limits of a capability, and the fault of bytes that are none.

use std::test::Fail;
use ti_cap::{CapFault, CapRefused, Capability};

#[test]
fn what_capabilities_need(rt: HostRuntime) -> Result<(), Fail> {
    let cup = Capability::parse(b"\x1b[%i%p1%d;%p2%dH")?;
    // One value on the stack at most; four bytes and two numbers of at most eleven characters, if no text is given.
    assert!(rt; cup.depth() == 1);
    assert!(rt; cup.bound(0) == 4 + 2 * 11);

    let refused = CapRefused {
        fault: CapFault::BadParameter,
        place: 2,
    };
    assert!(rt; matches!(Capability::parse(b"\x1b[%p0"), Err(found) if found == refused));
    Ok(())
}
