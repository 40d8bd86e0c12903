//! What is known of the values on top of a stack, whatever the parameters are.

ghost use Rattle.std.specs.Prelude.{◌≡◌, ℕ, List, true};
ghost use Rattle.ti_expand.specs.State.{State};
ghost use Rattle.ti_parser.specs.Given.{may_be};
ghost use Rattle.ti_expand.specs.declared.values.Value.{Value};
ghost use Rattle.ti_parser.specs.declared.reading.FirstCharacter.TheVariants as any;
ghost use Rattle.ti_parser.specs.Tops.{AreTops, IsTop, combined, computed, known, negated, number_of, parameter_top, popped, pushed, stored, tops_after, tops_at_start, turned, unknown};

use crate::names::Names;
use crate::reading::FirstCharacter;
use ti_cap::{Op, Token};
use ti_expand::{apply, complement, logical_not};

/// What is known of a value.
#[derive(Clone, Copy)]
pub(crate) enum Top {
    /// Its number.
    Number(i32),
    /// What `%c` prints of it.
    Printed(FirstCharacter),
}

/// What is known of the first four places of a stack, the top first, of variables and of the first parameter.
#[derive(Clone, Copy)]
pub(crate) struct Tops {
    first: Top,
    second: Top,
    third: Top,
    fourth: Top,
    names: Names,
    parameter: FirstCharacter,
}

/// A value of which nothing is known.
fn unknown() -> Top
    ensures { result ≡ unknown }
{
    Top::Printed(FirstCharacter::Any)
}

/// A number, if it is known.
fn known(number: Option<i32>) -> Top
    ensures { result ≡ known number }
{
    match number {
        None => unknown(),
        Some(number) => Top::Number(number),
    }
}

/// The number of a value, if it is known.
fn number_of(value: Top) -> Option<i32>
    ensures { result ≡ number_of value }
{
    match value {
        Top::Number(number) => Some(number),
        Top::Printed(_) => None,
    }
}

/// A parameter, of which only the first is known.
fn parameter_top(which: u8, character: FirstCharacter) -> Top
    ensures { result ≡ parameter_top which character }
{
    if which == 1 {
        Top::Printed(character)
    } else {
        unknown()
    }
}

/// 1 for 0, else 0.
fn negated(value: Top) -> Top
    ensures { result ≡ negated value }
{
    match value {
        Top::Number(number) => Top::Number(logical_not(number)),
        Top::Printed(_) => unknown(),
    }
}

/// Each bit the other way round.
fn turned(value: Top) -> Top
    ensures { result ≡ turned value }
{
    match value {
        Top::Number(number) => Top::Number(complement(number)),
        Top::Printed(_) => unknown(),
    }
}

/// The result of an operation, if both numbers are known.
fn combined(op: Op, left: Top, right: Top) -> Top
    ensures { result ≡ combined op left right }
{
    match (left, right) {
        (Top::Number(left), Top::Number(right)) => Top::Number(apply(op, left, right)),
        _ => unknown(),
    }
}

/// A character that is known on all paths of both.
fn shared(left: FirstCharacter, right: FirstCharacter) -> FirstCharacter
    ensures left { (byte : ℕ) → may_be left byte ≡ true → may_be result byte ≡ true }
    ensures right { (byte : ℕ) → may_be right byte ≡ true → may_be result byte ≡ true }
{
    if left == right {
        left
    } else {
        FirstCharacter::Any
    }
}

/// A value that is known on all paths of both.
fn agreed(left: Top, right: Top) -> Top
    ensures left { (stack : List Value) → IsTop left stack → IsTop result stack }
    ensures right { (stack : List Value) → IsTop right stack → IsTop result stack }
{
    match (left, right) {
        (Top::Number(one), Top::Number(other)) if one == other => Top::Number(one),
        (Top::Printed(one), Top::Printed(other)) => Top::Printed(shared(one, other)),
        _ => unknown(),
    }
}

impl Tops {
    /// Before any token.
    pub(crate) fn at_start(character: FirstCharacter) -> Tops
        ensures { result ≡ tops_at_start character }
    {
        Tops {
            first: unknown(),
            second: unknown(),
            third: unknown(),
            fourth: unknown(),
            names: Names::none(),
            parameter: character,
        }
    }

    /// The value on top.
    pub(crate) fn first(self) -> Top
        ensures { result ≡ self.first }
    {
        self.first
    }

    /// After a pop.
    pub(crate) fn popped(self) -> Tops
        ensures { result ≡ popped self }
    {
        Tops {
            first: self.second,
            second: self.third,
            third: self.fourth,
            fourth: unknown(),
            names: self.names,
            parameter: self.parameter,
        }
    }

    /// After a push.
    fn pushed(self, value: Top) -> Tops
        ensures { result ≡ pushed value self }
    {
        Tops {
            first: value,
            second: self.first,
            third: self.second,
            fourth: self.third,
            names: self.names,
            parameter: self.parameter,
        }
    }

    /// After an operation.
    fn computed(self, op: Op) -> Tops
        ensures { result ≡ computed op self }
    {
        match op {
            Op::Not => self.popped().pushed(negated(self.first)),
            Op::BitNot => self.popped().pushed(turned(self.first)),
            _ => {
                let value = combined(op, self.second, self.first);
                self.popped().popped().pushed(value)
            }
        }
    }

    /// After the top is stored in a variable.
    fn kept(self, letter: u8) -> Tops
        ensures { result ≡ record (popped self) { names = stored letter (number_of self.first) self.names } }
    {
        let mut tops = self.popped();
        tops.names = self.names.stored(letter, number_of(self.first));
        tops
    }

    /// After 1 is added to the first two parameters.
    fn incremented(self) -> Tops
        ensures { result ≡ record self { parameter = any.Any } }
    {
        let mut tops = self;
        tops.parameter = FirstCharacter::Any;
        tops
    }

    /// After a token.
    pub(crate) fn after(self, token: &Token) -> Tops
        ensures { result ≡ tops_after token.now self }
    {
        match token {
            Token::Constant(number) => self.pushed(Top::Number(*number)),
            Token::Param(which) => self.pushed(parameter_top(*which, self.parameter)),
            Token::Load(letter) => self.pushed(known(self.names.number(*letter))),
            Token::Store(letter) => self.kept(*letter),
            Token::Char | Token::Print(_) | Token::CondThen => self.popped(),
            Token::Length => self.popped().pushed(unknown()),
            Token::Compute(op) => self.computed(*op),
            Token::Increment => self.incremented(),
            _ => self,
        }
    }

    /// What is known on all paths of both.
    pub(crate) fn joined(self, other: Tops) -> Tops
        ensures left { (s : State) → AreTops self s → AreTops result s }
        ensures right { (s : State) → AreTops other s → AreTops result s }
    {
        Tops {
            first: agreed(self.first, other.first),
            second: agreed(self.second, other.second),
            third: agreed(self.third, other.third),
            fourth: agreed(self.fourth, other.fourth),
            names: self.names.joined(other.names),
            parameter: shared(self.parameter, other.parameter),
        }
    }
}
