//! The nine parameters while a capability runs. `%i` changes the first two alone, so only these are copied.

ghost use Rattle.std.specs.Prelude.{◌≡◌, ◌+◌, ◌<◌, ◌∷◌, length, max};
ghost use Rattle.ti_expand.specs.inner.Slots.{values_on};
ghost use Rattle.ti_expand.specs.State.{parameter};
ghost use Rattle.ti_expand.specs.Effect.{one_more, with_increments};

use crate::operation::next_number;
use crate::stack::Stack;
use crate::values::Value;
use std::marker::Model;

/// The first two parameters as they are now, and all nine as they were given.
#[derive(Drop)]
pub struct Parameters<'p, 'a> {
    first: Value<'a>,
    second: Value<'a>,
    given: &'p [Value<'a>; 9],
}

impl<'p, 'a> Model for Parameters<'p, 'a> {
    ghost use Rattle.std.specs.Prelude.{◌≡◌, List, ◌∷◌, length, drop};
    ghost use Rattle.ti_expand.specs.declared.values.Value.{Value as Parameter};

    ghost Value = { List Parameter };

    ghost view = { λ p. p.first ∷ p.second ∷ drop 2 p.given.now };

    ghost invariant = { λ p. length p.given.now ≡ 9 };
}

impl<'p, 'a> Parameters<'p, 'a> {
    /// The parameters as they are given.
    #[inline(always)]
    pub fn new(given: &'p [Value<'a>; 9]) -> Parameters<'p, 'a>
        ensures { result ≡ given.now }
    {
        Parameters {
            first: given[0],
            second: given[1],
            given,
        }
    }

    /// Pushes the parameter of that number, counted from 1, else the number 0.
    #[inline(always)]
    pub fn push_onto(&self, stack: &mut Stack<'_, 'a>, k: u8)
        requires { stack.old.height < length stack.old.slots.now }
        ensures room { length stack.new.slots.now ≡ length stack.old.slots.now }
        ensures height { stack.new.height ≡ stack.old.height + 1 }
        ensures highest { stack.new.highest ≡ max stack.old.highest stack.new.height }
        ensures held { values_on stack.new ≡ parameter self.now k ∷ values_on stack.old }
    {
        match k {
            1 => stack.push(self.first),
            2 => stack.push(self.second),
            3..=9 => stack.push(self.given[k as usize - 1]),
            _ => stack.push(Value::Num(0)),
        }
    }

    /// Adds 1 to each of the first two that is a number.
    #[inline(always)]
    pub fn increment(&mut self)
        ensures { self.new ≡ with_increments self.old }
    {
        self.first = one_more(self.first);
        self.second = one_more(self.second);
    }
}

/// 1 more if the value is a number.
#[inline(always)]
fn one_more(value: Value<'_>) -> Value<'_>
    ensures { result ≡ one_more value.entry }
{
    match value {
        Value::Num(number) => Value::Num(next_number(number)),
        Value::Text(text) => Value::Text(text),
    }
}
