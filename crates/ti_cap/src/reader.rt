//! A reader, which checks the tokens of a capability one by one and hands each on once it is checked.
//!
//! Each token is handed on from the place that found it, so that the compiler joins what finds a token with what is done
//! for it. No byte is looked at twice, and no memory is taken.

ghost use Rattle.std.specs.Prelude.{◌≡◌};

use crate::language::{Conversion, Op, Token};
use crate::lexer::{read_digits, read_parameter, read_quoted, read_token, read_variable};
use crate::limits::Limits;
use crate::parse::{Capability, FEW_OPEN};
use crate::read_format::plain;
use crate::scan::{OpenExtents, Scan};
use std::marker::Model;

/// Takes the tokens that a reader finds.
pub trait Take {
    ghost use Rattle.std.specs.Prelude.{IfSome};
    ghost use Rattle.ti_cap.specs.declared.language.Token.{Token};

    /// The answer to a token.
    type Answer;

    ghost may_take: { Self → Type 0 };

    ghost gives: { Self → Token → Self.Answer → Self → Type 0 };

    /// Takes a token, or returns none if it gives up.
    fn take(&mut self, token: &Token) -> Option<Self::Answer>
        requires { may_take self.old }
        ensures { IfSome result (λ answer. gives self.old token.now answer self.new) };
}

/// Room for the open conditionals of a reader. They stand apart from it, so that its counts stay in registers.
#[derive(Drop)]
pub struct Opens {
    opens: [OpenExtents; FEW_OPEN],
}

impl Opens {
    /// No conditional is open.
    #[inline(always)]
    pub fn new() -> Opens {
        Opens {
            opens: [OpenExtents::FRESH; FEW_OPEN],
        }
    }
}

/// Checks a capability from its start. It goes forward only.
#[derive(Drop)]
pub struct Reader<'a, 'o> {
    bytes: &'a [u8],
    left: &'a [u8],
    tokens: u32,
    scan: Scan,
    opens: &'o mut [OpenExtents; FEW_OPEN],
}

impl<'a, 'o> Model for Reader<'a, 'o> {
    ghost use Rattle.std.specs.Prelude.{take, length, ◌-◌};
    ghost use Rattle.ti_cap.specs.Capability.{Spot};
    ghost use Rattle.ti_cap.specs.inner.Reading.{IsReading};

    ghost Value = { Spot };

    ghost view = { λ r. record {
      taken = take (length r.bytes.now - length r.left.now) r.bytes.now;
      left = r.left.now;
    } };

    ghost invariant = { λ r. IsReading r.bytes.now r.left.now r.tokens r.scan r.opens.now };
}

impl<'a, 'o> Reader<'a, 'o> {
    ghost use Rattle.std.specs.Prelude.{◌<◌, ◌≤◌, [], ◌∷◌, length, Ok, IfSome};
    ghost use Rattle.std.specs.Bool.{OnTrue, OnFalse};
    ghost use Rattle.ti_base.specs.Limits.{most_capability_bytes};
    ghost use Rattle.ti_cap.specs.declared.language.Token.{Token};
    ghost use Rattle.ti_cap.specs.Refusal.{IsFaultless};
    ghost use Rattle.ti_cap.specs.Capability.{IsWellFormed, Takes, IsFirst, whole};
    ghost use Rattle.ti_cap.specs.inner.Lexer.{token_read};

    /// A reader at the first token of some bytes.
    #[inline(always)]
    pub fn new(bytes: &'a [u8], opens: &'o mut Opens) -> Reader<'a, 'o>
        requires short { length bytes.now ≤ most_capability_bytes }
        ensures start { result ≡ record { taken = []; left = bytes.entry.now } }
    {
        Reader {
            bytes,
            left: bytes,
            tokens: 0,
            scan: Scan::new(),
            opens: &mut opens.opens,
        }
    }

    /// Whether no bytes are left.
    #[inline(always)]
    pub fn is_at_end(&self) -> bool
        ensures end { OnTrue result (self.now.left ≡ []) }
        ensures more { OnFalse result (0 < length self.now.left) }
    {
        self.left.is_empty()
    }

    /// Checks a token that is at the front, and hands it on.
    #[inline(always)]
    fn give<T: Take>(&mut self, taker: &mut T, token: Token, long: usize) -> Option<T::Answer>
        requires front { token_read self.old.left ≡ Ok (token, long) }
        requires may { T.may_take taker.old }
        ensures taken { IfSome result (λ answer. Takes token self.old self.new
            × IsFirst token self.old self.new × T.gives taker.old token answer taker.new) }
    {
        match self.scan.take(self.opens, token, 0) {
            Err(_) => None,
            Ok(()) => {
                self.left = &self.left[long..];
                self.tokens += 1;
                let answer = taker.take(&token)?;
                Some(answer)
            }
        }
    }

    /// The same for the escape of which these bytes follow the `%`. Each escape has an arm of its own, so that what is done for
    /// its token is compiled by itself, and no token is looked at twice.
    #[inline(always)]
    fn escape<T: Take>(&mut self, taker: &mut T, rest: &[u8]) -> Option<T::Answer>
        requires next { self.old.left ≡ 37 ∷ rest.now }
        requires may { T.may_take taker.old }
        ensures taken { IfSome result (λ answer. (token : Token) × Takes token self.old self.new
            × IsFirst token self.old self.new × T.gives taker.old token answer taker.new) }
    {
        match rest {
            [b'p', rest @ ..] => match read_parameter(rest) {
                Err(_) => None,
                Ok(number) => self.give(taker, Token::Param(number), 3),
            },
            [b'{', rest @ ..] => match read_digits(rest) {
                Err(_) => None,
                Ok((number, long)) => self.give(taker, Token::Constant(number), long),
            },
            [b'\'', rest @ ..] => match read_quoted(rest) {
                Err(_) => None,
                Ok(number) => self.give(taker, Token::Constant(number), 4),
            },
            [b'd', ..] => self.give(taker, Token::Print(plain(Conversion::Signed)), 2),
            [b'?', ..] => self.give(taker, Token::CondOpen, 2),
            [b't', ..] => self.give(taker, Token::CondThen, 2),
            [b'e', ..] => self.give(taker, Token::CondElse, 2),
            [b';', ..] => self.give(taker, Token::CondClose, 2),
            [b'i', ..] => self.give(taker, Token::Increment, 2),
            [b'c', ..] => self.give(taker, Token::Char, 2),
            [b'l', ..] => self.give(taker, Token::Length, 2),
            [b'%', ..] => self.give(taker, Token::Byte(b'%'), 2),
            [b'P', rest @ ..] => match read_variable(rest) {
                Err(_) => None,
                Ok(letter) => self.give(taker, Token::Store(letter), 3),
            },
            [b'g', rest @ ..] => match read_variable(rest) {
                Err(_) => None,
                Ok(letter) => self.give(taker, Token::Load(letter), 3),
            },
            _ => self.operation(taker, rest),
        }
    }

    /// The same for an operation on values or a print with a format.
    #[inline(always)]
    fn operation<T: Take>(&mut self, taker: &mut T, rest: &[u8]) -> Option<T::Answer>
        requires next { self.old.left ≡ 37 ∷ rest.now }
        requires may { T.may_take taker.old }
        ensures taken { IfSome result (λ answer. (token : Token) × Takes token self.old self.new
            × IsFirst token self.old self.new × T.gives taker.old token answer taker.new) }
    {
        match rest {
            [b'+', ..] => self.give(taker, Token::Compute(Op::Add), 2),
            [b'-', ..] => self.give(taker, Token::Compute(Op::Sub), 2),
            [b'*', ..] => self.give(taker, Token::Compute(Op::Mul), 2),
            [b'/', ..] => self.give(taker, Token::Compute(Op::Div), 2),
            [b'm', ..] => self.give(taker, Token::Compute(Op::Rem), 2),
            [b'&', ..] => self.give(taker, Token::Compute(Op::BitAnd), 2),
            [b'|', ..] => self.give(taker, Token::Compute(Op::BitOr), 2),
            [b'^', ..] => self.give(taker, Token::Compute(Op::BitXor), 2),
            [b'~', ..] => self.give(taker, Token::Compute(Op::BitNot), 2),
            [b'=', ..] => self.give(taker, Token::Compute(Op::Equal), 2),
            [b'>', ..] => self.give(taker, Token::Compute(Op::Greater), 2),
            [b'<', ..] => self.give(taker, Token::Compute(Op::Less), 2),
            [b'A', ..] => self.give(taker, Token::Compute(Op::And), 2),
            [b'O', ..] => self.give(taker, Token::Compute(Op::Or), 2),
            [b'!', ..] => self.give(taker, Token::Compute(Op::Not), 2),
            _ => match read_token(self.left) {
                Ok((Token::Print(format), long)) => self.give(taker, Token::Print(format), long),
                _ => None,
            },
        }
    }

    /// Checks the next token and hands it on, or returns none if there is no token that may stand here, if conditionals nest
    /// deeper than there is room for, or if the taker gives up.
    #[inline(always)]
    pub fn token<T: Take>(&mut self, taker: &mut T) -> Option<T::Answer>
        requires may { T.may_take taker.old }
        ensures taken { IfSome result (λ answer. (token : Token) × Takes token self.old self.new
            × IsFirst token self.old self.new × T.gives taker.old token answer taker.new) }
    {
        match self.left {
            [] => None,
            [b'%', rest @ ..] => self.escape(taker, rest),
            [byte, ..] => self.give(taker, Token::Byte(*byte), 1),
        }
    }

    /// Returns the capability that was read, if no bytes are left, or none if a conditional is still in its first test.
    #[inline(always)]
    pub fn finish(&self) -> Option<Capability<'a>>
        requires end { self.now.left ≡ [] }
        ensures value { IfSome result (λ capability. capability ≡ whole self.now) }
        ensures tree { IfSome result (λ _. IsWellFormed (whole self.now)) }
        ensures accepted { IfSome result (λ _. IsFaultless (whole self.now)) }
    {
        if self.scan.is_in_first_test(self.opens) {
            return None;
        }
        let limits = Limits {
            tokens: self.tokens as usize,
            depth: self.scan.depth() as usize,
            nest: self.scan.nest(),
            bound: self.scan.bound(self.opens),
        };
        Some(Capability::known(self.bytes, limits))
    }
}
