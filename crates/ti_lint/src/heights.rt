//! Sets of heights of the stack, as bits. Each call takes constant time.

ghost use Rattle.std.specs.Prelude.{◌≡◌, ◌<◌};
ghost use Rattle.ti_lint.specs.inner.Facts.{lowered, raised, either_height, has_bit, lacks, after_heights};

use ti_cap::{Op, Token};

/// A set of heights. Bit N of the mask says whether the height N is in it. No path is higher than 32.
#[derive(Clone, Copy)]
pub struct Heights {
    mask: u64,
}

impl Heights {
    /// No height.
    pub const NONE: Heights = Heights { mask: 0 };

    /// The height of the empty stack alone.
    pub const EMPTY_STACK: Heights = Heights { mask: 1 };

    /// Whether a height is in it.
    fn has(self, height: u8) -> bool
        requires { height < 64 }
        ensures { result ≡ has_bit self.mask height }
    {
        self.mask >> height & 1 == 1
    }

    /// A value is popped, if there is one.
    fn lower(self) -> Heights
        ensures { result ≡ lowered self }
    {
        Heights {
            mask: self.mask >> 1 | self.mask & 1,
        }
    }

    /// A value is pushed.
    fn raise(self) -> Heights
        ensures { result ≡ raised self }
    {
        Heights {
            mask: self.mask << 1,
        }
    }

    /// Returns the union of two sets.
    pub fn union(self, other: Heights) -> Heights
        ensures { result ≡ either_height self other }
    {
        Heights {
            mask: self.mask | other.mask,
        }
    }

    /// The heights after a token.
    pub fn after(self, token: Token) -> Heights
        ensures { result ≡ after_heights token self }
    {
        match token {
            Token::Byte(_)
            | Token::Increment
            | Token::CondOpen
            | Token::CondElse
            | Token::CondClose => self,
            Token::Store(_) | Token::Char | Token::Print(_) | Token::CondThen => self.lower(),
            Token::Param(_) | Token::Constant(_) | Token::Load(_) => self.raise(),
            Token::Length | Token::Compute(Op::Not | Op::BitNot) => self.lower().raise(),
            Token::Compute(_) => self.lower().lower().raise(),
        }
    }

    /// Whether a token pops more values than there are at some height.
    pub fn lacks(self, token: Token) -> bool
        ensures { result ≡ lacks token self }
    {
        match token {
            Token::Store(_)
            | Token::Char
            | Token::Print(_)
            | Token::CondThen
            | Token::Length
            | Token::Compute(Op::Not | Op::BitNot) => self.has(0),
            Token::Compute(_) => self.has(0) || self.has(1),
            _ => false,
        }
    }
}
