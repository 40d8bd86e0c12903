//! The request of some words.

use std::test::Fail;
use ti_line::{Action, Destination, read_line};

#[test]
fn words_request_an_expansion(rt: HostRuntime) -> Result<(), Fail> {
    let request = read_line(rt.alloc(), Destination::File, &["ti", "cap", "n:7"])?;
    assert!(rt; matches!(request.action, Action::Capability(_)));
    assert!(rt; request.files.is_empty());
    Ok(())
}
