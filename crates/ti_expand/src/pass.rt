//! The pass over a tape: one loop runs tokens, and others pass tokens over. Their control is a `Mode` alone. They take no
//! memory, and make no test of the room on the stack or in the output.

ghost use Rattle.std.specs.Prelude.{◌≡◌, ℕ, ◌+◌, ◌≤◌, [], length, take, drop};
ghost use Rattle.ti_expand.specs.Expands.{IsExpansion};
ghost use Rattle.ti_expand.specs.inner.Running.{IsReady};
ghost use Rattle.ti_expand.specs.inner.Underway.{IsOnTheWay, GoesOn};

use crate::counts::Run;
use crate::machine::Machine;
use crate::values::Value;
use crate::variables::Vars;
use ti_cap::{Mode, Tape};

/// Passes tokens over from a mode on, up to the one that ends that, and returns how many were passed over.
#[inline(always)]
fn pass_from(tape: &mut Tape<'_>, from: Mode) -> usize
    requires { (passed : ℕ) × IsOnTheWay tape.old.left from passed }
    ensures onward { (passed : ℕ) → GoesOn tape.old.left from passed
        tape.new.left Mode.Run (passed + result) }
    ensures forward { length tape.new.left ≤ length tape.old.left }
{
    let mut mode = from;
    let mut passed = 0;
    while !mode.is_running() {
        let Some(token) = tape.token() else {
            return passed;
        };
        mode = mode.next(&token, false);
        if !mode.is_running() {
            passed += 1;
        }
    }
    passed
}

/// The same, added to how many were passed over before. Each mode has a loop of its own, in which only its count changes.
#[inline(always)]
fn pass_over(tape: &mut Tape<'_>, from: Mode, passed: &mut usize)
    requires { IsOnTheWay tape.old.left from passed.old }
    ensures onward { GoesOn tape.old.left from passed.old
        tape.new.left Mode.Run passed.new }
    ensures forward { length tape.new.left ≤ length tape.old.left }
{
    match from {
        Mode::Run => {}
        Mode::ToElse(opened) => *passed += pass_from(tape, Mode::ToElse(opened)),
        Mode::ToEnd(opened) => *passed += pass_from(tape, Mode::ToEnd(opened)),
    }
}

/// Runs a tape from its start, where there is room for what it does. Bytes without escapes are one copy.
#[inline(always)]
pub(crate) fn run_tape<'a>(
    mut tape: Tape<'_>,
    parameters: &[Value<'a>; 9],
    vars: &mut Vars,
    stack: &mut [Value<'a>],
    out: &mut [u8],
) -> Run
    requires start { tape.taken ≡ [] }
    requires ready { IsReady tape.left parameters.now (length stack.old) (length out.old) }
    ensures expansion { IsExpansion tape.entry.left parameters.now vars.old vars.new
        (take result.written out.new) result }
    ensures rest { drop result.written out.new ≡ drop result.written out.old }
{
    let Some(written) = tape.copy_plain(out) else {
        return run_tokens(tape, parameters, vars, stack, out);
    };
    Run {
        written,
        ran: written,
        passed: 0,
        peak: 0,
    }
}

/// The same, token by token. A token that was not passed over ran.
#[inline(always)]
fn run_tokens<'a>(
    mut tape: Tape<'_>,
    parameters: &[Value<'a>; 9],
    vars: &mut Vars,
    stack: &mut [Value<'a>],
    out: &mut [u8],
) -> Run
    requires start { tape.taken ≡ [] }
    requires ready { IsReady tape.left parameters.now (length stack.old) (length out.old) }
    ensures expansion { IsExpansion tape.entry.left parameters.now vars.old vars.new
        (take result.written out.new) result }
    ensures rest { drop result.written out.new ≡ drop result.written out.old }
{
    let tokens = tape.token_count();
    let mut machine = Machine::new(parameters, vars, stack, out);
    let mut passed = 0;
    while let Some(token) = tape.token() {
        let after = machine.meet(&token);
        pass_over(&mut tape, after, &mut passed);
    }
    let Machine {
        vars: _vars,
        out: _out,
        written,
        stack,
        parameters: _parameters,
    } = machine;
    Run {
        written,
        ran: tokens - passed,
        passed,
        peak: stack.highest(),
    }
}
