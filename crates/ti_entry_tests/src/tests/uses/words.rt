//! The meaning of a byte, a word and a magic number of an entry.

use std::test::Fail;
use ti_words::{Flag, Number, Width, flag_of, number_of, width_of_magic};

#[test]
fn marks_of_an_entry(rt: HostRuntime) -> Result<(), Fail> {
    assert!(rt; flag_of(1) == Some(Flag::Yes));
    assert!(rt; number_of(-1) == Some(Number::Absent));
    assert!(rt; width_of_magic(0o432) == Some(Width::Legacy));
    Ok(())
}
