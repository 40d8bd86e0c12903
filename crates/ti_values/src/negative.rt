//! A value for which a number below 0 is printed.
//!
//! The text is run a token at a time, so that a number is seen where it is printed, whatever stands around it.

ghost use Rattle.std.specs.Prelude.{◌≡◌, ℕ, ◌<◌, ◌↔◌, ◌&&◌, [], List, length, reverse, IfOk, IfSome, IfNone, IsTrue};
ghost use Rattle.ti_cap.specs.Spelling.{Written};
ghost use Rattle.ti_expand.specs.State.{number_on};
ghost use Rattle.ti_expand.specs.Steps.{steps as steps_of};
ghost use Rattle.ti_values.specs.Findings.{IsFirstOf};
ghost use Rattle.ti_values.specs.Negative.{IsNegativeAt, PrintsNegative, is_negative, prints_signed as the_prints_signed, some_negative};
ghost use Rattle.ti_values.specs.Ranges.{parameters_of};
ghost use Rattle.ti_values.specs.inner.Underway.{GoesOn};

use crate::tried::Tried;
use std::alloc::{AllocError, Allocator};
use ti_base::MOST_VALUES;
use ti_cap::{Capability, Conversion, Token};
use ti_expand::{Outcome, Steps, Value, Vars};

/// Whether a number below 0 lies on top of a stack, whose top is last.
fn has_negative_top(stack: &[Value<'_>]) -> bool
    ensures { result ≡ is_negative (number_on (reverse stack.now)) }
{
    match stack {
        [.., Value::Num(number)] => *number < 0,
        [.., Value::Text(_)] => false,
        [] => false,
    }
}

/// Whether a token prints a number in decimal.
fn prints_signed(token: &Token) -> bool
    ensures { result ≡ the_prints_signed token.now }
{
    match token {
        Token::Print(format) => format.conversion == Conversion::Signed,
        _ => false,
    }
}

/// Takes the next token: whether it prints a number below 0. None at the end, if nothing changes.
fn next_is_negative(steps: &mut Steps<'_, '_, '_>) -> Option<bool>
    ensures none { IfNone result ((steps.new ≡ steps.old) × (steps.old.spot.left ≡ [])) }
    ensures some { IfSome result (λ negative. GoesOn steps.old steps.new negative) }
    ensures forward { IfSome result (λ _.
        length steps.new.spot.left < length steps.old.spot.left) }
{
    let below_zero = has_negative_top(steps.stack());
    let step = steps.step()?;
    Some(step.outcome == Outcome::Ran && prints_signed(&step.token) && below_zero)
}

/// Whether some token that is left prints a number below 0.
fn some_negative(steps: &mut Steps<'_, '_, '_>) -> bool
    ensures { (ks : List Token) → Written ks steps.old.spot.left
        → result ≡ some_negative steps.old.state (steps_of steps.old.mode steps.old.state ks) }
{
    'tokens: while let Some(negative) = next_is_negative(steps) {
        if negative {
            return true;
        }
    }
    false
}

/// Whether a capability prints a number below 0 for a value.
fn prints_negative<A: Allocator + Copy>(
    alloc: A,
    capability: &Capability<'_>,
    value: Tried,
) -> Result<bool, AllocError>
    ensures { IfOk result (λ negative.
        IsTrue negative ↔ PrintsNegative capability.now (parameters_of value)) }
{
    let parameters = value.parameters();
    let bound = capability.bound(0);
    let mut vars = Vars::new();
    let mut stack = [Value::Num(0); MOST_VALUES];
    let mut room = Vec::from_elem(alloc, 0, bound as usize)?;
    match Steps::new(
        capability,
        &parameters,
        &mut vars,
        &mut stack,
        room.as_mut_slice(),
    ) {
        Ok(mut steps) => Ok(some_negative(&mut steps)),
        Err(_fault) => unreachable!(),
    }
}

/// The place of the first value for which a capability prints a number below 0 by `%d`, with or without flags, in a part that
/// runs. The variables are fresh for each value.
///
/// # Errors
///
/// Memory was refused.
pub fn first_negative<A: Allocator + Copy>(
    alloc: A,
    capability: &Capability<'_>,
    values: &[Tried],
) -> Result<Option<usize>, AllocError>
    ensures exact { IfOk result (IsFirstOf (IsNegativeAt capability.now values.now)) }
{
    'values: for place in 0..values.len() {
        if prints_negative(alloc, capability, values[place])? {
            return Ok(Some(place));
        }
    }
    Ok(None)
}
