//! The states of the parser.

ghost use Rattle.std.specs.Prelude.{◌≡◌};
ghost use Rattle.ti_parser.specs.States.{is_fresh, is_header, is_string, is_text};

/// Where the parser is.
#[derive(Clone, Copy, Debug, PartialEq, Eq)]
pub enum State {
    /// Outside of functions.
    Ground,
    /// After an escape.
    AfterEscape,
    /// After an escape that came within a string: a `\` makes them the string's end.
    AfterCut,
    /// After an escape and intermediate bytes.
    EscapeIntermediate,
    /// After the introducer of a control sequence.
    SequenceEntry,
    /// Among the parameters of a control sequence.
    SequenceParameters,
    /// Among the intermediate bytes of a control sequence.
    SequenceIntermediate,
    /// In a control sequence that is malformed.
    SequenceIgnore,
    /// After the introducer of a device control string.
    DeviceEntry,
    /// Among the parameters of a device control string.
    DeviceParameters,
    /// Among the intermediate bytes of a device control string.
    DeviceIntermediate,
    /// In a device control string that is malformed.
    DeviceIgnore,
    /// In the number of an operating system command.
    SystemNumber,
    /// In the text of an operating system command.
    SystemBody,
    /// Among the digits of a color of the Linux console.
    Palette,
    /// Before the first character of a string.
    StringStart,
    /// In the body of a string.
    StringBody,
}

impl State {
    /// Whether no part of a function is kept.
    pub(crate) fn is_fresh(self) -> bool
        ensures { result ≡ is_fresh self }
    {
        match self {
            State::Ground => true,
            State::AfterEscape => true,
            State::AfterCut => true,
            State::SequenceIgnore => true,
            _ => false,
        }
    }

    /// Whether a function is underway that is no string, or the front of a device control string.
    pub(crate) fn is_header(self) -> bool
        ensures { result ≡ is_header self }
    {
        match self {
            State::Ground => false,
            State::DeviceIgnore => false,
            State::SystemNumber => false,
            State::SystemBody => false,
            State::Palette => false,
            State::StringStart => false,
            State::StringBody => false,
            _ => true,
        }
    }

    /// Whether a byte of data is text alone: outside of functions, and in the body of a string.
    pub(crate) fn is_text(self) -> bool
        ensures { result ≡ is_text self }
    {
        match self {
            State::Ground => true,
            State::DeviceIgnore => true,
            State::SystemBody => true,
            State::StringBody => true,
            _ => false,
        }
    }

    /// Whether a digit is one of a number.
    pub(crate) fn takes_number(self) -> bool {
        matches!(
            self,
            State::SequenceParameters
                | State::DeviceParameters
                | State::SystemNumber
                | State::Palette
        )
    }

    /// Whether a string is underway.
    pub(crate) fn is_string(self) -> bool
        ensures { result ≡ is_string self }
    {
        match self {
            State::Ground => false,
            State::AfterEscape => false,
            State::AfterCut => false,
            State::EscapeIntermediate => false,
            State::SequenceEntry => false,
            State::SequenceParameters => false,
            State::SequenceIntermediate => false,
            State::SequenceIgnore => false,
            _ => true,
        }
    }
}
