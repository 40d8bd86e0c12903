//! The variables into which a capability stores.

ghost use Rattle.std.specs.Prelude.{ℕ, ◌↔◌};
ghost use Rattle.ti_lint.specs.Variables.{HasOnlyLetters, HasVariable, IsStored};

use crate::variables::Variables;
use ti_cap::{Capability, Token};

/// The variables into which a capability stores. It goes over the tokens once.
pub fn stored_by(capability: &Capability<'_>) -> Variables
    ensures exact { (which : ℕ) → HasVariable result which ↔ IsStored capability.now which }
    ensures only { HasOnlyLetters result }
{
    let mut tape = capability.tape();
    let mut stored = Variables::NONE;
    while let Some(token) = tape.token() {
        if let Token::Store(letter) = token {
            stored = stored.with(letter);
        }
    }
    stored
}
