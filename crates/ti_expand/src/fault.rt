//! Why a capability is not expanded.

ghost use Rattle.std.specs.Prelude.{◌≡◌};
ghost use Rattle.ti_expand.specs.declared.fault.ExpandFault.TheVariants as fault;

use std::alloc::AllocError;
use thiserror::Error;
use ti_cap::CapRefused;

/// Why a capability is not expanded. As an error it prints its name, and its number after a blank.
#[derive(Clone, Copy, PartialEq, Eq, Debug, Error)]
pub enum ExpandFault {
    /// The text of this parameter, counted from 1, has more bytes than [`ti_base::MOST_TEXT_BYTES`]; it is the lowest
    /// such parameter.
    #[error("TextTooLong {parameter}")]
    TextTooLong { parameter: u8 },
    /// The stack slice has fewer places than the depth of the capability, which is `need`.
    #[error("StackTooSmall {need}")]
    StackTooSmall { need: usize },
    /// The output slice has fewer bytes than the capability's bound for the longest text, which is `need`.
    #[error("OutTooSmall {need}")]
    OutTooSmall { need: u64 },
    /// Memory for the output was refused.
    #[error("Memory")]
    Memory,
}

impl From<AllocError> for ExpandFault {
    ghost from_gives = { λ _ e. e ≡ fault.Memory };

    fn from(_refused: AllocError) -> ExpandFault {
        ExpandFault::Memory
    }
}

/// Why the bytes of a capability are not expanded.
#[derive(Clone, Copy, PartialEq, Eq, Debug, Error)]
pub enum BytesFault {
    /// They are refused.
    #[error("{0}")]
    Refused(CapRefused),
    /// They are a capability, and its expansion has this fault.
    #[error("{0}")]
    Failed(ExpandFault),
}
