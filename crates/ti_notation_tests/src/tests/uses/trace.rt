//! The effect of each token of a capability.

use std::test::Fail;
use ti_escape::{Color, Form};
use ti_expand::Value;
use ti_trace::{TraceOptions, TraceRows, trace};

#[test]
fn a_column_is_traced(rt: HostRuntime) -> Result<(), Fail> {
    let sevens = [Value::Num(7); 9];
    let options = TraceOptions {
        form: Form::Notation,
        color: Color::Never,
        rows: TraceRows::Each,
    };
    let made = trace(rt.alloc(), b"%p1%d", &sevens, &options)?;
    assert!(rt; made.as_slice().ends_with(b"depth: 1\nbound: 11\n"));
    Ok(())
}
