//! Facts that hold on some path that comes to a place. No fact depends on which way a test went, so what is found is exact.

ghost use Rattle.std.specs.Prelude.{◌≡◌, ◌≤◌};
ghost use Rattle.ti_lint.specs.inner.Facts.{after_token, is_first_two, joined, IsLettered, judgement, is_unset, found_if, of_pops, underflow};

use crate::expected::Expected;
use crate::heights::Heights;
use crate::token_finding::TokenFinding;
use crate::values::Values;
use crate::variables::Variables;
use ti_cap::Token;

/// The facts that hold on some path here.
#[derive(Clone, Copy)]
pub struct Facts {
    /// The heights of the stack, each on some path.
    heights: Heights,
    /// Whether some path has met `%i`.
    incremented: bool,
    /// Whether some path has pushed the first or the second parameter.
    named_first_two: bool,
    /// The variables into which every path has stored.
    stored: Variables,
    /// The values on the stack, each on some path.
    values: Values,
}

impl Facts {
    /// No path comes here.
    pub const NONE: Facts = Facts {
        heights: Heights::NONE,
        incremented: false,
        named_first_two: false,
        stored: Variables::ALL,
        values: Values::NONE,
    };

    /// The start of a capability.
    pub const START: Facts = Facts {
        heights: Heights::EMPTY_STACK,
        incremented: false,
        named_first_two: false,
        stored: Variables::NONE,
        values: Values::NONE,
    };

    /// Other paths come to the same place.
    pub fn join(&mut self, other: &Facts)
        ensures { self.new ≡ joined self.old other.now }
    {
        self.heights = self.heights.union(other.heights);
        self.incremented = self.incremented || other.incremented;
        self.named_first_two = self.named_first_two || other.named_first_two;
        self.stored = self.stored.intersection(other.stored);
        self.values = self.values.union(other.values);
    }

    /// All paths here meet a token.
    pub fn meet(&mut self, token: Token)
        requires { IsLettered token }
        ensures { self.new ≡ after_token token self.old }
    {
        self.heights = self.heights.after(token);
        self.values = self.values.after(token);
        self.named_first_two = self.named_first_two || is_first_two(token);
        match token {
            Token::Increment => self.incremented = true,
            Token::Store(letter) => self.stored = self.stored.with(letter),
            _ => {}
        }
    }

    /// Whether some path here has pushed the first or the second parameter.
    pub fn named_first_two(&self) -> bool
        ensures { result ≡ self.now.named_first_two }
    {
        self.named_first_two
    }

    /// Returns the finding on a token on some path here, if there is one. `termcap` says that the capability names no parameter.
    pub fn judge(&self, token: Token, expected: &Expected, termcap: bool) -> Option<TokenFinding>
        requires { IsLettered token }
        ensures { result ≡ judgement expected.now termcap token self.now }
    {
        match token {
            Token::Param(which) => found_if(
                which > expected.parameters,
                TokenFinding::ParameterRange,
            ),
            Token::Increment => found_if(self.incremented, TokenFinding::RepeatedIncrement),
            Token::Load(letter) => {
                found_if(self.is_unset(letter, expected), TokenFinding::UnsetVariable)
            }
            _ => of_pops(
                self.heights.lacks(token),
                underflow(termcap),
                self.values.is_other_for(token, expected.texts),
            ),
        }
    }

    /// Whether nothing was stored into a variable on some path here, and no text of the entry stores into it what it keeps.
    fn is_unset(&self, letter: u8, expected: &Expected) -> bool
        requires low { 65 ≤ letter }
        requires high { letter ≤ 122 }
        ensures { result ≡ is_unset expected.now letter self.now }
    {
        let is_kept = letter <= b'Z' && expected.stored.has(letter);
        !self.stored.has(letter) && !is_kept
    }
}

/// Whether a token pushes the first or the second parameter.
pub fn is_first_two(token: Token) -> bool
    ensures { result ≡ is_first_two token }
{
    match token {
        Token::Param(which) => which == 1 || which == 2,
        _ => false,
    }
}

/// A finding, if it holds.
pub fn found_if(holds: bool, finding: TokenFinding) -> Option<TokenFinding>
    ensures { result ≡ found_if holds finding }
{
    if holds { Some(finding) } else { None }
}

/// The finding for a pop: that of the empty stack, if it may be empty, or else that of a value of the other kind.
fn of_pops(lacks: bool, underflow: TokenFinding, is_other: bool) -> Option<TokenFinding>
    ensures { result ≡ of_pops lacks underflow is_other }
{
    if lacks {
        Some(underflow)
    } else {
        found_if(is_other, TokenFinding::OperandType)
    }
}

/// The finding for a pop of the empty stack.
fn underflow(termcap: bool) -> TokenFinding
    ensures { result ≡ underflow termcap }
{
    if termcap {
        TokenFinding::TermcapParameter
    } else {
        TokenFinding::StackUnderflow
    }
}
