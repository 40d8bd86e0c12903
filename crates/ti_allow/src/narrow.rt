//! Strings that each coding reads alike, and in which no padding mark can come: one pass stands for those in each coding.

ghost use Rattle.std.specs.Prelude.{◌≡◌, List, true};
ghost use Rattle.std.specs.Bool.{OnTrue};
ghost use Rattle.ti_allow.specs.Narrow.{are_narrow, is_narrow_token};
ghost use Rattle.ti_cap.specs.Spelling.{Written};
ghost use Rattle.ti_cap.specs.Tree.{tokens};
ghost use Rattle.ti_expand.specs.Expands.{ForTree};

use ti_cap::{Capability, Conversion, Tape, Token};

/// Whether a token writes nothing but ASCII without a `$`, whatever it is given.
fn is_narrow_token(token: &Token) -> bool
    ensures { result ≡ is_narrow_token token.now }
{
    match token {
        Token::Byte(byte) => *byte < 0x80 && *byte != b'$',
        Token::Char => false,
        Token::Print(format) => format.conversion == Conversion::Signed,
        _ => true,
    }
}

/// Whether each token that is left on a tape does.
fn are_narrow(tape: &mut Tape<'_>) -> bool
    ensures { OnTrue result ((ks : List Token) → Written ks tape.old.left → are_narrow ks ≡ true) }
{
    'tokens: while let Some(token) = tape.token() {
        if !is_narrow_token(&token) {
            return false;
        }
    }
    true
}

/// Whether each token of a capability does.
pub(crate) fn is_narrow(capability: &Capability<'_>) -> bool
    ensures { OnTrue result (ForTree capability.now (λ tree. are_narrow (tokens tree) ≡ true)) }
{
    let mut tape = capability.tape();
    are_narrow(&mut tape)
}
