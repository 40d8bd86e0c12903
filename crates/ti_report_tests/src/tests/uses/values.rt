//! Two colors for which a text sends the same.

use std::test::Fail;
use ti_cap::Capability;
use ti_values::{Range, Same, Tried, first_empty, first_same, sent_for, values_of};

/// `setf` as the entry of the AT&T 6300 has it, for eight colors.
const SETF: &[u8] = b"\x1b[?%?%p1%{0}%=%t0%e%p1%{1}%=%t2%e%p1%{1}%-%d%;m";

#[test]
fn two_colors_are_the_same(rt: HostRuntime) -> Result<(), Fail> {
    let setf = Capability::parse(SETF)?;
    let colors = values_of(rt.alloc(), Range::Numbers(0, 8))?;
    assert!(rt; colors.as_slice().first() == Some(&Tried::Number(0)));

    let sent = sent_for(rt.alloc(), &setf, colors.as_slice())?;
    assert!(rt; first_empty(sent.as_slice()).is_none());
    let same = first_same(rt.alloc(), sent.as_slice())?;
    assert!(rt; same == Some(Same { one: 1, other: 3 }));
    Ok(())
}
