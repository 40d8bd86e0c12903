//! Whether two texts are capabilities with the same tokens. It is linear in their bytes.

ghost use Rattle.std.specs.Prelude.{◌≡◌, ◌↔◌, IsTrue, List};
ghost use Rattle.ti_cap.specs.declared.language.Token.{Token};
ghost use Rattle.ti_cap.specs.Spelling.{Written};
ghost use Rattle.ti_listing.specs.Differences.{HaveSameTokens};

use ti_cap::{Capability, Tape};

/// Whether the tokens that are left on two tapes are the same.
fn are_same_left(mut one: Tape<'_>, mut other: Tape<'_>) -> bool
    ensures { IsTrue result ↔ ((ks : List Token)
        × Written ks one.entry.left × Written ks other.entry.left) }
{
    'tokens: while let Some(token) = one.token() {
        match other.token() {
            Some(of_other) if token == of_other => {}
            _ => return false,
        }
    }
    other.token().is_none()
}

/// Whether two texts are capabilities with the same tokens, so that they expand to the same.
pub fn have_same_tokens(one: &[u8], other: &[u8]) -> bool
    ensures { IsTrue result ↔ HaveSameTokens one.now other.now }
{
    let Ok(one) = Capability::parse(one) else {
        return false;
    };
    let Ok(other) = Capability::parse(other) else {
        return false;
    };
    are_same_left(one.tape(), other.tape())
}
