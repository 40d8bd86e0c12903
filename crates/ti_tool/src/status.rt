//! The status that the program ends with.

ghost use Rattle.std.specs.Prelude.{◌≡◌};
ghost use Rattle.ti_tool.specs.Statuses.{status_for};

use crate::fault::ToolFault;

/// The status of a call's answer: 1 if `check` found a text with a fault, `lint` something wrong, or `get` a
/// flag that is not set.
pub fn status(answer: &Result<bool, ToolFault>) -> u8
    ensures { result ≡ status_for answer.now }
{
    match answer {
        Ok(true) => 0,
        Ok(false) => 1,
        Err(ToolFault::Entry(_) | ToolFault::Encode(_)) => 3,
        Err(
            ToolFault::Cap(_)
            | ToolFault::Source(_)
            | ToolFault::HasName
            | ToolFault::NoSuchText
            | ToolFault::NoSuchName
            | ToolFault::OnlyNumbers(_)
            | ToolFault::TextTooLong(_)
            | ToolFault::TooMuch(_),
        ) => 4,
        Err(ToolFault::Read | ToolFault::Write(_)) => 5,
        Err(ToolFault::Memory) => 6,
    }
}
