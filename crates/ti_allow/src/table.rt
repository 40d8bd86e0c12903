//! The tables, and a function looked up in them.

ghost use Rattle.std.specs.Prelude.{◌≡◌};
ghost use Rattle.ti_allow.specs.Effects.{effect_of};
ghost use Rattle.ti_allow.specs.Rows.{is_allowed};

use crate::allowed::ALLOWED;
use crate::effect::{Effect, effect_by};
use crate::effects::EFFECTS;
use crate::row::is_allowed_by;
use ti_parser::Function;

/// Whether the string with a name may send a function, by docs/functions.tsv: its row has the function, its numbers and the name, or
/// rows have each of its modes.
pub fn is_allowed(name: &[u8], function: &Function) -> bool
    ensures exact { result ≡ is_allowed ALLOWED name.now function.now }
{
    is_allowed_by(&ALLOWED, name, function)
}

/// What a function does that the string with a name may not send, by docs/effects.tsv; `None` if no row has it, or it may stand there.
pub fn effect_of(name: &[u8], function: &Function) -> Option<Effect>
    ensures exact { result ≡ effect_of EFFECTS name.now function.now }
{
    effect_by(&EFFECTS, name, function)
}
