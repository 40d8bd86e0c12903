//! The finding on what a string can do beside what the table has for its name.

ghost use Rattle.std.specs.Prelude.{◌≡◌, IfSome, IsSome, true};
ghost use Rattle.ti_rules.specs.Findings.{is_control};

use crate::finding::Finding;
use crate::sending::takes_title;
use ti_allow::{Effect, Found, effect_of};
use ti_parser::{Function, FunctionKind, State};
use ti_words::Text;

/// The entry, as the rules on what its strings send need it.
#[derive(Clone, Copy)]
pub struct Terminal<'a> {
    /// The entry comes from a stranger.
    pub untrusted: bool,
    /// It is one of ECMA-48.
    pub is_ecma: bool,
    /// What ends a title.
    pub end: Text<'a>,
}

/// Whether a state is within a function.
fn is_within(state: State) -> bool {
    !matches!(state, State::Ground)
}

/// A finding on a stranger's string alone.
fn of_stranger(untrusted: bool, finding: Finding) -> Option<Finding>
    requires { is_control finding ≡ true }
    ensures some { untrusted ≡ true → IsSome result }
    ensures control { IfSome result (λ finding. is_control finding ≡ true) }
{
    if untrusted {
        return Some(finding);
    }
    None
}

/// Whether a function means the same on terminals that are not of ECMA-48: no control, no escape sequence, and no title of screen(1).
fn is_of_any(function: &Function) -> bool {
    !matches!(
        function.kind,
        FunctionKind::Control | FunctionKind::Escape | FunctionKind::Title
    )
}

/// Its effect, of which no clause here needs the table.
fn effect_on(name: &[u8], function: &Function) -> Option<Effect> {
    effect_of(name, function)
}

/// The finding on a function with an effect, if the entry is no stranger's.
fn default_finding(is_ecma: bool, function: &Function, effect: Effect) -> Option<Finding>
    ensures { IfSome result (λ finding. is_control finding ≡ true) }
{
    if is_ecma || is_of_any(function) {
        return Some(Finding::Control(effect));
    }
    None
}

/// The finding on a function that the string with a name may not send.
fn function_finding(terminal: &Terminal<'_>, name: &[u8], function: &Function) -> Option<Finding>
    ensures some { terminal.now.untrusted ≡ true → IsSome result }
    ensures control { IfSome result (λ finding. is_control finding ≡ true) }
{
    let Some(effect) = effect_on(name, function) else {
        return of_stranger(terminal.untrusted, Finding::UnknownFunction);
    };
    if terminal.untrusted {
        return Some(Finding::Control(effect));
    }
    default_finding(terminal.is_ecma, function, effect)
}

/// The finding on a string that is left open.
fn left_open(name: &[u8]) -> Finding
    ensures { is_control result ≡ true }
{
    if takes_title(name) {
        return Finding::OpenLine;
    }
    Finding::OpenString
}

/// The finding on a string that can end within a function or a character.
fn open_finding(terminal: &Terminal<'_>, name: &[u8], state: State) -> Option<Finding>
    ensures some { terminal.now.untrusted ≡ true → IsSome result }
    ensures control { IfSome result (λ finding. is_control finding ≡ true) }
{
    if terminal.untrusted {
        return Some(left_open(name));
    }
    if terminal.is_ecma && is_within(state) {
        return Some(left_open(name));
    }
    None
}

/// The finding on what is found, if it is reported.
pub fn finding_on(terminal: &Terminal<'_>, name: &[u8], found: &Found) -> Option<Finding>
    ensures some { terminal.now.untrusted ≡ true → IsSome result }
    ensures control { IfSome result (λ finding. is_control finding ≡ true) }
{
    match found {
        Found::Function(function, _) => function_finding(terminal, name, function),
        Found::ComputedByte => of_stranger(terminal.untrusted, Finding::ComputedByte),
        Found::Open(state, _) => open_finding(terminal, name, *state),
        Found::Cut(_) => of_stranger(terminal.untrusted, Finding::CutString),
        Found::NotTried => of_stranger(terminal.untrusted, Finding::NotFollowed),
    }
}
