//! The value of constants and operations, which need neither parameters nor variables.

ghost use Rattle.std.specs.Prelude.{◌≡◌, [], ◌∷◌, IfOk, OnOk};
ghost use Rattle.ti_expand.specs.Constants.{stack_after, value_of};
ghost use Rattle.ti_expand.specs.Effect.{after_operation};
ghost use Rattle.ti_expand.specs.State.{number_on, without_top};
ghost use Rattle.ti_expand.specs.declared.values.Value.TheVariants.{Num};
ghost use Rattle.ti_expand.specs.inner.Numbers.{stack_of};

use crate::operation::{apply, complement, logical_not};
use std::alloc::{AllocError, Allocator};
use ti_cap::{Op, Token};

/// Takes the number on top away, or gives 0.
fn pop<A: Allocator>(numbers: &mut Vec<i32, A>) -> i32
    ensures value { result ≡ number_on (stack_of numbers.old.items) }
    ensures held { stack_of numbers.new.items ≡ without_top (stack_of numbers.old.items) }
{
    numbers.pop().unwrap_or(0)
}

/// Takes the numbers of an operation away, and gives what it pushes.
fn compute<A: Allocator>(op: Op, numbers: &mut Vec<i32, A>) -> i32
    ensures { Num result ∷ stack_of numbers.new.items
        ≡ after_operation op (stack_of numbers.old.items) }
{
    let right = pop(numbers);
    match op {
        Op::Not => logical_not(right),
        Op::BitNot => complement(right),
        _ => apply(op, pop(numbers), right),
    }
}

/// Takes a token.
fn take<A: Allocator>(numbers: &mut Vec<i32, A>, token: Token) -> Result<(), AllocError>
    ensures { OnOk result (stack_of numbers.new.items
        ≡ stack_after (stack_of numbers.old.items) (token ∷ [])) }
{
    match token {
        Token::Constant(number) => numbers.push(number)?,
        Token::Compute(op) => {
            let number = compute(op, numbers);
            numbers.push(number)?;
        }
        _ => {}
    }
    Ok(())
}

/// The number that constants and operations leave on top of the empty stack, or 0. Other tokens are passed over. It takes
/// memory for each constant.
pub fn constant_value<A: Allocator>(alloc: A, tokens: &[Token]) -> Result<i32, AllocError>
    ensures exact { IfOk result (λ value. value ≡ value_of tokens.now) }
{
    let mut numbers = Vec::new(alloc);
    'tokens: for token in tokens {
        take(&mut numbers, *token)?;
    }
    Ok(pop(&mut numbers))
}
