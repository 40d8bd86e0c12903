//! The table of the parser: what a byte of a class does in a state, and the next state.

ghost use Rattle.std.specs.Prelude.{◌≡◌};
ghost use Rattle.ti_parser.specs.Transitions.{body_row, controls, device_intermediate_row, device_row, escape_intermediate_row, escape_row, palette_row, sequence_ignore_row, sequence_intermediate_row, sequence_row, start_row, string_controls, system_body_row, system_row, to, transition_of};

use crate::class::ByteClass;
use crate::state::State;

/// What the parser does with a byte.
#[derive(Clone, Copy, Debug, PartialEq, Eq)]
pub(crate) enum ParserAction {
    /// Nothing.
    Ignore,
    /// Hands out the control.
    Execute,
    /// Hands out the string that it ends.
    End,
    /// Hands out the string that it ends, and the control.
    Abort,
    /// Keeps an intermediate byte.
    Collect,
    /// Hands out the escape sequence that it ends.
    HandOutEscape,
    /// Starts the function of the byte after an escape.
    Introduce,
    /// Adds a digit to the number.
    AddDigit,
    /// Starts the next number.
    Separate,
    /// Keeps the private marker.
    Mark,
    /// Hands out the control sequence that it ends.
    HandOutSequence,
    /// Keeps the first character of a string, or the final byte of the front of a device control string.
    Name,
    /// The same of an operating system command, which the Linux console may end.
    NameSystem,
    /// Takes a byte of a body.
    Put,
    /// Adds a digit to a color of the Linux console.
    AddHex,
}

/// What a byte does, and the next state.
#[derive(Clone, Copy, Debug, PartialEq, Eq)]
pub(crate) struct Transition {
    /// What it does.
    pub action: ParserAction,
    /// The next state.
    pub next: State,
}

/// A transition.
fn to(action: ParserAction, next: State) -> Transition
    ensures { result ≡ to action next }
{
    Transition { action, next }
}

/// C0 and DEL in a function that is no string.
fn controls(state: State, class: ByteClass) -> Transition
    ensures { result ≡ controls state class }
{
    match class {
        ByteClass::Control => to(ParserAction::Execute, state),
        ByteClass::Bell => to(ParserAction::Execute, state),
        ByteClass::Cancel => to(ParserAction::Execute, State::Ground),
        ByteClass::Escape => to(ParserAction::Ignore, State::AfterEscape),
        _ => to(ParserAction::Ignore, state),
    }
}

/// C0 and DEL in a string.
fn string_controls(state: State, class: ByteClass) -> Transition
    ensures { result ≡ string_controls state class }
{
    match class {
        ByteClass::Cancel => to(ParserAction::Abort, State::Ground),
        ByteClass::Escape => to(ParserAction::End, State::AfterCut),
        _ => to(ParserAction::Ignore, state),
    }
}

/// After an escape.
fn escape_row(state: State, class: ByteClass) -> Transition
    ensures { result ≡ escape_row state class }
{
    match class {
        ByteClass::Intermediate => to(ParserAction::Collect, State::EscapeIntermediate),
        ByteClass::Digit => to(ParserAction::HandOutEscape, State::Ground),
        ByteClass::Separator => to(ParserAction::HandOutEscape, State::Ground),
        ByteClass::Marker => to(ParserAction::HandOutEscape, State::Ground),
        ByteClass::Final => to(ParserAction::Introduce, State::Ground),
        ByteClass::Control
        | ByteClass::Bell
        | ByteClass::Cancel
        | ByteClass::Escape
        | ByteClass::Delete => controls(state, class),
    }
}

/// After an escape and intermediate bytes.
fn escape_intermediate_row(class: ByteClass) -> Transition
    ensures { result ≡ escape_intermediate_row class }
{
    match class {
        ByteClass::Intermediate => to(ParserAction::Collect, State::EscapeIntermediate),
        ByteClass::Digit => to(ParserAction::HandOutEscape, State::Ground),
        ByteClass::Separator => to(ParserAction::HandOutEscape, State::Ground),
        ByteClass::Marker => to(ParserAction::HandOutEscape, State::Ground),
        ByteClass::Final => to(ParserAction::HandOutEscape, State::Ground),
        ByteClass::Control
        | ByteClass::Bell
        | ByteClass::Cancel
        | ByteClass::Escape
        | ByteClass::Delete => controls(State::EscapeIntermediate, class),
    }
}

/// In the parameters of a control sequence; a private marker makes the transition that is given.
fn sequence_row(state: State, marked: Transition, class: ByteClass) -> Transition
    ensures { result ≡ sequence_row state marked class }
{
    match class {
        ByteClass::Intermediate => to(ParserAction::Collect, State::SequenceIntermediate),
        ByteClass::Digit => to(ParserAction::AddDigit, State::SequenceParameters),
        ByteClass::Separator => to(ParserAction::Separate, State::SequenceParameters),
        ByteClass::Marker => marked,
        ByteClass::Final => to(ParserAction::HandOutSequence, State::Ground),
        ByteClass::Control
        | ByteClass::Bell
        | ByteClass::Cancel
        | ByteClass::Escape
        | ByteClass::Delete => controls(state, class),
    }
}

/// Among the intermediate bytes of a control sequence.
fn sequence_intermediate_row(class: ByteClass) -> Transition
    ensures { result ≡ sequence_intermediate_row class }
{
    match class {
        ByteClass::Intermediate => to(ParserAction::Collect, State::SequenceIntermediate),
        ByteClass::Digit => to(ParserAction::Ignore, State::SequenceIgnore),
        ByteClass::Separator => to(ParserAction::Ignore, State::SequenceIgnore),
        ByteClass::Marker => to(ParserAction::Ignore, State::SequenceIgnore),
        ByteClass::Final => to(ParserAction::HandOutSequence, State::Ground),
        ByteClass::Control
        | ByteClass::Bell
        | ByteClass::Cancel
        | ByteClass::Escape
        | ByteClass::Delete => controls(State::SequenceIntermediate, class),
    }
}

/// In the parameters of a device control string; a private marker makes the transition that is given.
fn device_row(state: State, marked: Transition, class: ByteClass) -> Transition
    ensures { result ≡ device_row state marked class }
{
    match class {
        ByteClass::Intermediate => to(ParserAction::Collect, State::DeviceIntermediate),
        ByteClass::Digit => to(ParserAction::AddDigit, State::DeviceParameters),
        ByteClass::Separator => to(ParserAction::Separate, State::DeviceParameters),
        ByteClass::Marker => marked,
        ByteClass::Final => to(ParserAction::Name, State::StringBody),
        ByteClass::Control
        | ByteClass::Bell
        | ByteClass::Cancel
        | ByteClass::Escape
        | ByteClass::Delete => string_controls(state, class),
    }
}

/// Among the intermediate bytes of a device control string.
fn device_intermediate_row(class: ByteClass) -> Transition
    ensures { result ≡ device_intermediate_row class }
{
    match class {
        ByteClass::Intermediate => to(ParserAction::Collect, State::DeviceIntermediate),
        ByteClass::Digit => to(ParserAction::Ignore, State::DeviceIgnore),
        ByteClass::Separator => to(ParserAction::Ignore, State::DeviceIgnore),
        ByteClass::Marker => to(ParserAction::Ignore, State::DeviceIgnore),
        ByteClass::Final => to(ParserAction::Name, State::StringBody),
        ByteClass::Control
        | ByteClass::Bell
        | ByteClass::Cancel
        | ByteClass::Escape
        | ByteClass::Delete => string_controls(State::DeviceIntermediate, class),
    }
}

/// In a control sequence that is malformed.
fn sequence_ignore_row(class: ByteClass) -> Transition
    ensures { result ≡ sequence_ignore_row class }
{
    match class {
        ByteClass::Final => to(ParserAction::Ignore, State::Ground),
        _ => controls(State::SequenceIgnore, class),
    }
}

/// In the number of an operating system command.
fn system_row(class: ByteClass) -> Transition
    ensures { result ≡ system_row class }
{
    match class {
        ByteClass::Bell => to(ParserAction::End, State::Ground),
        ByteClass::Digit => to(ParserAction::AddDigit, State::SystemNumber),
        ByteClass::Separator => to(ParserAction::Ignore, State::SystemBody),
        ByteClass::Intermediate => to(ParserAction::NameSystem, State::SystemBody),
        ByteClass::Marker => to(ParserAction::NameSystem, State::SystemBody),
        ByteClass::Final => to(ParserAction::NameSystem, State::SystemBody),
        ByteClass::Control | ByteClass::Cancel | ByteClass::Escape | ByteClass::Delete =>
            string_controls(State::SystemNumber, class),
    }
}

/// Among the digits of a color.
fn palette_row(class: ByteClass) -> Transition
    ensures { result ≡ palette_row class }
{
    match class {
        ByteClass::Control => to(ParserAction::Execute, State::Palette),
        ByteClass::Bell => to(ParserAction::Execute, State::Palette),
        ByteClass::Cancel => to(ParserAction::Abort, State::Ground),
        ByteClass::Escape => to(ParserAction::End, State::AfterCut),
        ByteClass::Delete => to(ParserAction::Ignore, State::Palette),
        _ => to(ParserAction::AddHex, State::Palette),
    }
}

/// Before the first character of a string.
fn start_row(class: ByteClass) -> Transition
    ensures { result ≡ start_row class }
{
    match class {
        ByteClass::Control => to(ParserAction::Ignore, State::StringStart),
        ByteClass::Bell => to(ParserAction::Ignore, State::StringStart),
        ByteClass::Cancel => to(ParserAction::Abort, State::Ground),
        ByteClass::Escape => to(ParserAction::End, State::AfterCut),
        ByteClass::Delete => to(ParserAction::Ignore, State::StringStart),
        _ => to(ParserAction::Name, State::StringBody),
    }
}

/// In the body of a string.
fn body_row(state: State, class: ByteClass) -> Transition
    ensures { result ≡ body_row state class }
{
    match class {
        ByteClass::Marker => to(ParserAction::Put, state),
        _ => string_controls(state, class),
    }
}

/// In the text of an operating system command.
fn system_body_row(class: ByteClass) -> Transition
    ensures { result ≡ system_body_row class }
{
    match class {
        ByteClass::Bell => to(ParserAction::End, State::Ground),
        _ => body_row(State::SystemBody, class),
    }
}

/// What a byte of a class does in a state.
#[tactic(auto, unfolding(crate::specs::Transitions::transition_of))]
pub(crate) fn transition_of(state: State, class: ByteClass) -> Transition
    ensures { result ≡ transition_of state class }
{
    match state {
        State::Ground => controls(state, class),
        State::AfterEscape => escape_row(state, class),
        State::AfterCut => escape_row(state, class),
        State::EscapeIntermediate => escape_intermediate_row(class),
        State::SequenceEntry => sequence_row(
            state,
            to(ParserAction::Mark, State::SequenceParameters),
            class,
        ),
        State::SequenceParameters => sequence_row(
            state,
            to(ParserAction::Ignore, State::SequenceIgnore),
            class,
        ),
        State::SequenceIntermediate => sequence_intermediate_row(class),
        State::SequenceIgnore => sequence_ignore_row(class),
        State::DeviceEntry => device_row(
            state,
            to(ParserAction::Mark, State::DeviceParameters),
            class,
        ),
        State::DeviceParameters => device_row(
            state,
            to(ParserAction::Ignore, State::DeviceIgnore),
            class,
        ),
        State::DeviceIntermediate => device_intermediate_row(class),
        State::DeviceIgnore => string_controls(state, class),
        State::SystemNumber => system_row(class),
        State::SystemBody => system_body_row(class),
        State::Palette => palette_row(class),
        State::StringStart => start_row(class),
        State::StringBody => body_row(state, class),
    }
}
