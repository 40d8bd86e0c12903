//! Facts that hold on some path from a place to the end. No fact depends on which way a test went, so what is found
//! is exact.

ghost use Rattle.std.specs.Prelude.{◌≡◌, ◌<◌, ◌^◌, IsTrue};
ghost use Rattle.ti_cap.specs.Height.{pops, pushes};
ghost use Rattle.ti_lint.specs.inner.Facts.{IsLettered, found_if};
ghost use Rattle.ti_lint.specs.inner.Outlook.{either_outlook, of_increment, outlook_before, prospect};

use crate::facts::{Facts, found_if, is_first_two};
use crate::token_finding::TokenFinding;
use crate::variables::Variables;
use ti_cap::{Op, Token};

/// The facts that hold on some path from here to the end.
#[derive(Clone, Copy)]
pub struct Outlook {
    /// The fewest values that a path takes off the stack that it finds here.
    needs: usize,
    /// Whether some path pushes the first or the second parameter.
    names_first_two: bool,
    /// The variables that some path pushes.
    loads: Variables,
}

impl Outlook {
    /// The end of a capability.
    pub const END: Outlook = Outlook {
        needs: 0,
        names_first_two: false,
        loads: Variables::NONE,
    };

    /// Other paths go on from the same place.
    pub fn join(&mut self, other: &Outlook)
        ensures { self.new ≡ either_outlook self.old other.now }
    {
        self.needs = self.needs.min(other.needs);
        self.names_first_two = self.names_first_two || other.names_first_two;
        self.loads = self.loads.either(other.loads);
    }

    /// A token comes before all paths.
    pub fn precede(&mut self, token: Token)
        requires lettered { IsLettered token }
        requires few { self.old.needs < 2 ^ 32 }
        ensures { self.new ≡ outlook_before token self.old }
    {
        self.needs = (self.needs + pops(token))
            .saturating_sub(pushes(token))
            .max(pops(token));
        self.names_first_two = self.names_first_two || is_first_two(token);
        if let Token::Load(letter) = token {
            self.loads = self.loads.with(letter);
        }
    }

    /// Returns the finding on a token after which the paths go on from here.
    pub fn judge(&self, token: Token, before: &Facts) -> Option<TokenFinding>
        requires { IsLettered token }
        ensures { result ≡ prospect token before.now self.now }
    {
        match token {
            Token::Increment => of_increment(before.named_first_two(), self.names_first_two),
            Token::Store(letter) => found_if(
                letter >= b'a' && !self.loads.has(letter),
                TokenFinding::DeadStore,
            ),
            _ => found_if(
                0 < pushes(token) && self.needs == 0,
                TokenFinding::StackResidue,
            ),
        }
    }
}

/// The finding for a `%i`, by whether one of the first two parameters is pushed before and after it.
fn of_increment(before: bool, after: bool) -> Option<TokenFinding>
    ensures { result ≡ of_increment before after }
{
    if after {
        found_if(before, TokenFinding::LateIncrement)
    } else {
        Some(TokenFinding::UnusedIncrement)
    }
}

/// How many values a token takes off the stack.
pub fn pops(token: Token) -> usize
    ensures { result ≡ pops token }
{
    match token {
        Token::Store(_)
        | Token::Char
        | Token::Print(_)
        | Token::CondThen
        | Token::Length
        | Token::Compute(Op::Not | Op::BitNot) => 1,
        Token::Compute(_) => 2,
        _ => 0,
    }
}

/// How many values it puts there.
pub fn pushes(token: Token) -> usize
    ensures { result ≡ pushes token }
{
    match token {
        Token::Param(_) | Token::Constant(_) | Token::Load(_) | Token::Length | Token::Compute(_) =>
            1,
        _ => 0,
    }
}
