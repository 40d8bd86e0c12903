//! Which terminals are those of ECMA-48, by what their entries send.

ghost use Rattle.std.specs.Prelude.{◌≡◌, map};
ghost use Rattle.ti_control.specs.Entries.{ecma_capabilities, starts_introducer};
ghost use Rattle.ti_control.specs.Parts.{texts_of};
ghost use Rattle.ti_control.specs.Places.{IsFirstPlace};

/// Where a terminal of ECMA-48 has a control sequence.
static ECMA_CAPABILITIES: [&str; 6] = ["cup", "home", "clear", "el", "ed", "sgr0"];

/// The names of the capabilities by which an entry is one of ECMA-48: one of them has a `\E[`.
#[tactic(auto, unfolding(crate::specs::Entries::ecma_capabilities))]
pub fn ecma_capabilities() -> &'static [&'static str]
    ensures names { texts_of result.now ≡ ecma_capabilities }
{
    &ECMA_CAPABILITIES
}

/// The place of the first `\E[` in a text.
pub fn first_introducer(text: &[u8]) -> Option<usize>
    ensures first { IsFirstPlace starts_introducer text.now result }
{
    'text: for place in 0..text.len() {
        if text[place..].starts_with(b"\x1b[") {
            return Some(place);
        }
    }
    None
}
