//! Expanding a capability, into slices of the caller or into a vector: what the contracts promise is said by the tree
//! that writes the capability, its `meaning` and the path that its tests choose.
//!
//! An expansion is linear in the capability's bytes and in its output. `expand_into` takes no memory; `expand` takes it
//! once. Where a parameter is a text, one more pass over the tape computes the bound for its length.

ghost use Rattle.std.specs.Prelude.{◌≡◌, ℕ, ◌≤◌, ◌↔◌, [], length, take, drop, vec_len, IfOk, IfErr, OnOk, OnErr};
ghost use Rattle.ti_base.specs.Limits.{most_values, most_text_bytes};
ghost use Rattle.ti_cap.specs.Capability.{HasBound};
ghost use Rattle.ti_expand.specs.Expands.{IsExpansion, longest_text, IsFirstTooLong, IsExpandFault, IsTextOrMemory};
ghost use Rattle.ti_expand.specs.inner.Running.{IsReady};

use crate::counts::Run;
use crate::fault::ExpandFault;
use crate::pass::run_tape;
use crate::text_lengths::longest_text;
use crate::values::Value;
use crate::variables::Vars;
use std::alloc::Allocator;
use ti_base::MOST_VALUES;
use ti_cap::{Capability, Tape};

/// Nearly all capabilities have no greater depth, and less room takes less time to make.
const FEW_VALUES: usize = 4;

/// The first fault that holds.
#[inline(always)]
pub(crate) fn check(
    tape: &Tape<'_>,
    parameters: &[Value<'_>; 9],
    places: usize,
    room: usize,
) -> Result<(), ExpandFault>
    requires { tape.now.taken ≡ [] }
    ensures faults { (fault : ExpandFault) → (result ≡ Err fault)
        ↔ IsExpandFault tape.now.left parameters.now places room fault }
    ensures ready { OnOk result (IsReady tape.now.left parameters.now places room) }
{
    let longest = longest_text(parameters)?;
    let need = tape.depth();
    if places < need {
        return Err(ExpandFault::StackTooSmall { need });
    }
    let need = tape.bound(longest);
    if (room as u64) < need {
        return Err(ExpandFault::OutTooSmall { need });
    }
    Ok(())
}

/// Expands a tape from its start into slices of the caller. It takes no memory: the stack slice needs as many places as
/// the capability's depth, and the output slice as many bytes as its bound for the longest text among the parameters.
/// Each token is taken off the tape once. What the stack slice holds afterwards is left open.
///
/// # Errors
/// In this order, each only if it holds: `TextTooLong` with the lowest parameter whose text has more bytes than
/// [`ti_base::MOST_TEXT_BYTES`], `StackTooSmall` with the depth, `OutTooSmall` with the bound. After each of them
/// variables, stack and output are as before.
///
/// # Examples
///
/// ```rust
/// let (mut stack, mut room) = ([Value::Num(0); 4], [0; 32]);
/// let run = expand_into(cup.tape(), &parameters, &mut vars, &mut stack, &mut room)?;
/// assert!(rt; &room[..run.written] == b"\x1b[5;10H".as_slice());
/// ```
#[inline(always)]
pub fn expand_into<'a>(
    tape: Tape<'a>,
    parameters: &[Value<'a>; 9],
    vars: &mut Vars,
    stack: &mut [Value<'a>],
    out: &mut [u8],
) -> Result<Run, ExpandFault>
    requires { tape.taken ≡ [] }
    // each fault comes exactly if it holds, and changes nothing
    ensures faults { (fault : ExpandFault) → (result ≡ Err fault)
        ↔ IsExpandFault tape.entry.left parameters.now (length stack.old) (length out.old) fault }
    ensures kept { OnErr result
        ((vars.new ≡ vars.old) × (stack.new ≡ stack.old) × (out.new ≡ out.old)) }

    // else it is an expansion, and what lies after its output is as before
    ensures expansion { IfOk result (λ run. IsExpansion tape.entry.left parameters.now
        vars.old vars.new (take run.written out.new) run) }
    ensures rest { IfOk result (λ run. drop run.written out.new ≡ drop run.written out.old) }
{
    check(&tape, parameters, stack.len(), out.len())?;
    Ok(run_tape(tape, parameters, vars, stack, out))
}

/// Expands a capability into a vector of the allocator. It grows once, to the capability's bound for the longest text
/// among the parameters, before it evaluates.
///
/// # Errors
/// `TextTooLong` with the lowest parameter whose text has more bytes than [`ti_base::MOST_TEXT_BYTES`], or `Memory`
/// if no text is too long and the growth was refused. After either the variables are as before.
///
/// # Examples
///
/// ```rust
/// let cup = Capability::parse(b"\x1b[%i%p1%d;%p2%dH")?;
/// let mut parameters = [Value::Num(0); 9];
/// parameters[0] = Value::Num(4);
/// parameters[1] = Value::Num(9);
/// let mut vars = Vars::new();
/// let output = expand(rt.alloc(), &cup, &parameters, &mut vars)?;
/// assert!(rt; output.as_slice() == b"\x1b[5;10H".as_slice());
/// ```
pub fn expand<'a, A: Allocator + Copy>(
    alloc: A,
    capability: &Capability<'a>,
    parameters: &[Value<'a>; 9],
    vars: &mut Vars,
) -> Result<Vec<u8, A>, ExpandFault>
    // a text is too long, exactly if one is, or memory was refused, if none is
    ensures too_long { (k : ℕ) → (result ≡ Err (ExpandFault.TextTooLong k))
        ↔ IsFirstTooLong parameters.now k }
    ensures memory { (result ≡ Err ExpandFault.Memory)
        → longest_text parameters.now ≤ most_text_bytes }
    ensures only { IfErr result IsTextOrMemory }
    ensures kept { OnErr result (vars.new ≡ vars.old) }

    // else it is an expansion, which has some counts
    ensures expansion { IfOk result (λ out. (run : Run)
        × IsExpansion capability.now parameters.now vars.old vars.new out.items run) }
    ensures output_low { IfOk result
        (λ out. (bound : ℕ) → HasBound capability.now (longest_text parameters.now) bound
        → vec_len out ≤ bound) }
{
    let longest = longest_text(parameters)?;
    let bound = capability.bound(longest) as usize;
    let mut out = Vec::from_elem(alloc, 0, bound)?;
    let run = run_capability(capability, parameters, vars, out.as_mut_slice());
    out.truncate(run.written);
    Ok(out)
}

/// Runs a capability on a stack of its own.
#[inline(never)]
pub(crate) fn run_capability(
    capability: &Capability<'_>,
    parameters: &[Value<'_>; 9],
    vars: &mut Vars,
    out: &mut [u8],
) -> Run
    requires ready { IsReady capability.now parameters.now most_values (length out.old) }
    ensures expansion { IsExpansion capability.now parameters.now vars.old vars.new
        (take result.written out.new) result }
    ensures rest { drop result.written out.new ≡ drop result.written out.old }
{
    if capability.depth() > FEW_VALUES {
        return run_deep(capability, parameters, vars, out);
    }
    let mut stack = [Value::Num(0); FEW_VALUES];
    run_tape(capability.tape(), parameters, vars, &mut stack, out)
}

/// The same, with room for the most values. It is a function of its own, since the stack of a function is cleared whether or
/// not it is needed.
#[inline(never)]
fn run_deep(
    capability: &Capability<'_>,
    parameters: &[Value<'_>; 9],
    vars: &mut Vars,
    out: &mut [u8],
) -> Run
    requires ready { IsReady capability.now parameters.now most_values (length out.old) }
    ensures expansion { IsExpansion capability.now parameters.now vars.old vars.new
        (take result.written out.new) result }
    ensures rest { drop result.written out.new ≡ drop result.written out.old }
{
    let mut stack = [Value::Num(0); MOST_VALUES];
    run_tape(capability.tape(), parameters, vars, &mut stack, out)
}
