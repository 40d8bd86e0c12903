//! The operations on numbers, and on the stack.

ghost use Rattle.std.specs.Prelude.{◌≡◌, ◌≤◌, ◌+ℤ◌, pos, length, max};
ghost use Rattle.ti_cap.specs.declared.language.Token.TheVariants.{Compute};
ghost use Rattle.ti_cap.specs.Height.{next_height};
ghost use Rattle.ti_expand.specs.Effect.{combine, complement, is_zero, flag_number, wrap, char_byte, after_operation};
ghost use Rattle.ti_expand.specs.inner.Slots.{values_on};

use crate::stack::Stack;
use ti_cap::Op;

/// Returns the result of an operation on the two numbers that were popped.
#[inline(always)]
pub fn apply(op: Op, left: i32, right: i32) -> i32
    ensures { result ≡ combine op left right }
{
    match op {
        Op::Add => left.wrapping_add(right),
        Op::Sub => left.wrapping_sub(right),
        Op::Mul => left.wrapping_mul(right),
        Op::Div if right == 0 => 0,
        Op::Div => left.wrapping_div(right),
        Op::Rem if right == 0 => 0,
        Op::Rem => left.wrapping_rem(right),
        Op::BitAnd => left & right,
        Op::BitOr => left | right,
        Op::BitXor => left ^ right,
        Op::Equal => i32::from(left == right),
        Op::Greater => i32::from(left > right),
        Op::Less => i32::from(left < right),
        Op::And => i32::from(left != 0 && right != 0),
        Op::Or => i32::from(left != 0 || right != 0),
        Op::Not | Op::BitNot => 0,
    }
}

/// Each bit the other way round.
pub fn complement(number: i32) -> i32
    ensures { result ≡ complement number }
{
    !number
}

/// 1 for 0, else 0.
pub fn logical_not(number: i32) -> i32
    ensures { result ≡ flag_number (is_zero number) }
{
    i32::from(number == 0)
}

/// One more, wrapping.
pub fn next_number(number: i32) -> i32
    ensures { result ≡ wrap (number +ℤ pos 1) }
{
    number.wrapping_add(1)
}

/// The byte that `%c` writes.
pub fn byte_of(number: i32) -> u8
    ensures { result ≡ char_byte number }
{
    let low = (number.cast_unsigned() % 256) as u8;
    if low == 0 { 0x80 } else { low }
}

/// Computes from the numbers on top.
#[inline(always)]
pub fn compute(op: Op, stack: &mut Stack<'_, '_>)
    requires { next_height stack.old.height (Compute op) ≤ length stack.old.slots.now }
    ensures room { length stack.new.slots.now ≡ length stack.old.slots.now }
    ensures height { stack.new.height ≡ next_height stack.old.height (Compute op) }
    ensures highest { stack.new.highest ≡ max stack.old.highest stack.new.height }
    ensures held { values_on stack.new ≡ after_operation op (values_on stack.old) }
{
    let number = match op {
        Op::Not => logical_not(stack.pop_number()),
        Op::BitNot => complement(stack.pop_number()),
        _ => {
            let (left, right) = stack.pop_two();
            apply(op, left, right)
        }
    };
    stack.push_number(number);
}
