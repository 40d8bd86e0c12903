//! A pass that stops after each token.

use ti_cap::Capability;
use ti_expand::{ExpandFault, Outcome, Run, Steps, Value, Vars};
use ti_fixtures::capabilities::nine;

/// A conditional, whose otherwise part runs.
const OTHERWISE: &[u8] = b"%?%p1%t1%e2%;";

/// The outcome of each token with 0 for the parameter, and then the bytes taken, the values on the stack and what was
/// written.
const STEPS: &[(Outcome, usize, usize, &[u8])] = &[
    (Outcome::Ran, 2, 0, b""),
    (Outcome::Ran, 5, 1, b""),
    (Outcome::Ran, 7, 0, b""),
    (Outcome::PassedOver, 8, 0, b""),
    (Outcome::Ran, 10, 0, b""),
    (Outcome::Ran, 11, 0, b"2"),
    (Outcome::Ran, 13, 0, b"2"),
];

/// Whether a pass stops after each token as the rows say, and has no token after them.
fn are_steps(steps: &mut Steps<'_, '_, '_>, rows: &[(Outcome, usize, usize, &[u8])]) -> bool {
    let mut is_each = true;
    for (outcome, at, values, output) in rows {
        let became = steps.step().map(|step| step.outcome);
        is_each &= became == Some(*outcome) && steps.at() == *at;
        is_each &= steps.stack().len() == *values && steps.output() == *output;
    }
    is_each && steps.step() == None
}

/// The run of the conditional, and its variable `a`, if its steps are those of the rows.
fn run_of_steps() -> Option<(Run, Option<i32>)> {
    let capability = Capability::parse(OTHERWISE).ok()?;
    let parameters = nine(&[]);
    let (mut vars, mut stack, mut out) = (Vars::new(), [Value::Num(0); 1], [0u8; 1]);
    let steps = Steps::new(&capability, &parameters, &mut vars, &mut stack, &mut out);
    let mut steps = steps.ok()?;
    are_steps(&mut steps, STEPS).then_some((steps.run(), steps.vars().get(b'a')))
}

#[test]
fn a_pass_stops_after_each_token(rt: HostRuntime) {
    let whole = Run {
        written: 1,
        ran: 6,
        passed: 1,
        peak: 1,
    };
    assert_that!(rt; run_of_steps() == Some((whole, Some(0))));
}

/// Why a pass does not start in so much room.
fn fault_of(stack: &mut [Value<'_>], out: &mut [u8]) -> Option<ExpandFault> {
    let capability = Capability::parse(OTHERWISE).ok()?;
    Steps::new(&capability, &nine(&[]), &mut Vars::new(), stack, out).err()
}

#[test]
fn a_pass_needs_the_room_of_an_expansion(rt: HostRuntime) {
    let small = ExpandFault::StackTooSmall { need: 1 };
    assert_that!(rt; fault_of(&mut [], &mut [0; 1]) == Some(small));
    let short = ExpandFault::OutTooSmall { need: 1 };
    assert_that!(rt; fault_of(&mut [Value::Num(0); 1], &mut []) == Some(short));
}
