//! The control of a pass over the tokens.

ghost use Rattle.std.specs.Prelude.{◌≡◌, ◌<◌};
ghost use Rattle.ti_cap.specs.Pass.{next_mode, is_running, open_count, greatest_count};

use crate::language::Token;
use crate::reader::Take;

/// Whether tokens run, or up to where they are passed over. The number counts the conditionals that were
/// opened while passing over.
#[derive(Clone, Copy, PartialEq, Eq, Debug)]
pub enum Mode {
    /// Tokens run.
    Run,
    /// Tokens are passed over up to the next `%e` or `%;` of the same conditional.
    ToElse(u8),
    /// Tokens are passed over up to the `%;` of the same conditional.
    ToEnd(u8),
}

impl Mode {
    /// The mode after the token; `zero` says whether a `CondThen` met in `Run` popped 0.
    #[inline(always)]
    pub fn next(self, token: &Token, zero: bool) -> Mode
        requires { open_count self < greatest_count }
        ensures { result ≡ next_mode self token.now zero }
    {
        match (self, token) {
            (Mode::Run, Token::CondThen) if zero => Mode::ToElse(0),
            (Mode::Run, Token::CondElse) => Mode::ToEnd(0),
            (Mode::ToElse(n), Token::CondOpen) => Mode::ToElse(n + 1),
            (Mode::ToElse(0), Token::CondElse | Token::CondClose) => Mode::Run,
            (Mode::ToElse(n), Token::CondClose) => Mode::ToElse(n - 1),
            (Mode::ToEnd(n), Token::CondOpen) => Mode::ToEnd(n + 1),
            (Mode::ToEnd(0), Token::CondClose) => Mode::Run,
            (Mode::ToEnd(n), Token::CondClose) => Mode::ToEnd(n - 1),
            (mode, _) => mode,
        }
    }

    /// Whether tokens run.
    #[inline(always)]
    pub fn is_running(self) -> bool
        ensures { result ≡ is_running self }
    {
        matches!(self, Mode::Run)
    }
}

// A token is passed over, or ends that.
impl Take for Mode {
    ghost use Rattle.std.specs.Prelude.{◌≡◌, ◌<◌, false};
    ghost use Rattle.ti_cap.specs.Pass.{next_mode, open_count, greatest_count};

    type Answer = ();

    ghost may_take = { λ m. open_count m < greatest_count };

    ghost gives = { λ old token answer new. new ≡ next_mode old token false };

    #[inline(always)]
    fn take(&mut self, token: &Token) -> Option<()> {
        *self = self.next(token, false);
        Some(())
    }
}
