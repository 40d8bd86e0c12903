//! What functions do where they may not stand.

ghost use Rattle.std.specs.Prelude.{◌≡◌};
ghost use Rattle.ti_allow.specs.Effects.{acts, effect_of};

use crate::row::{Row, stands};
use ti_parser::Function;

/// What a function does.
#[derive(Clone, Copy, Debug, PartialEq, Eq)]
pub enum Effect {
    /// The terminal answers.
    Answer,
    /// The terminal reports events, or takes no keys.
    Reports,
    /// The title changes.
    Title,
    /// The window changes.
    Window,
    /// The clipboard changes.
    Clipboard,
    /// Colors change for all that is on the screen.
    Palette,
    /// What is on the screen is printed.
    Print,
    /// The terminal is reset.
    Reset,
    /// Another control, which some terminals have.
    OtherControl,
}

/// A row of the table of effects: in the strings where `row` stands the function may stand.
#[derive(Clone, Copy, Debug, PartialEq, Eq)]
pub struct EffectRow {
    /// The functions.
    pub row: Row,
    /// What they do in other strings.
    pub effect: Effect,
}

impl EffectRow {
    /// Whether the row has a function that may not stand in the string with a name.
    fn acts(&self, name: &[u8], function: &Function) -> bool
        ensures { result ≡ acts name.now function.now self.now }
    {
        self.row.is_of(function)
            && self.row.numbers.has(function)
            && !stands(self.row.standing, name)
    }
}

/// The effect of the first row that has a function, by a table.
pub(crate) fn effect_by(rows: &[EffectRow], name: &[u8], function: &Function) -> Option<Effect>
    ensures { result ≡ effect_of rows.now name.now function.now }
{
    'rows: for row in rows {
        if row.acts(name, function) {
            return Some(row.effect);
        }
    }
    None
}
