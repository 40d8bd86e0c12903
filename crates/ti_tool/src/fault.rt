//! Why a call of the program did not write its result.

ghost use Rattle.std.specs.Prelude.{◌≡◌};
ghost use Rattle.ti_tool.specs.declared.fault.ToolFault.TheVariants as fault;
ghost use Rattle.ti_tool.specs.Calls.{stop_fault, trace_fault};

use std::alloc::AllocError;
use thiserror::Error;
use ti_base::ReadFailed;
use ti_cap::CapRefused;
use ti_entry::{EncodeFault, ReadStop, Refused};
use ti_escape::NotationRefused;
use ti_trace::TraceFault;

/// Why a call of the program did not write its result, or not all of it.
#[derive(Clone, Copy, Debug, PartialEq, Eq, Error)]
pub enum ToolFault {
    /// The bytes are no entry.
    #[error("Entry {0}")]
    Entry(Refused),
    /// The entry can't be encoded; out of memory is [`ToolFault::Memory`].
    #[error("Encode {0}")]
    Encode(EncodeFault),
    /// The bytes are no capability.
    #[error("Cap {0}")]
    Cap(CapRefused),
    /// The characters are no notation.
    #[error("Source {0}")]
    Source(NotationRefused),
    /// The name of a capability and `=` stand before the notation, as in a source of terminfo.
    #[error("HasName")]
    HasName,
    /// The entry has no such text: it is absent or cancelled.
    #[error("NoSuchText")]
    NoSuchText,
    /// Nothing has the name that `get` was given.
    #[error("NoSuchName")]
    NoSuchName,
    /// This parameter, counted from 1, is the first word that is no number, and no table has the name of the capability, which
    /// takes numbers alone.
    #[error("OnlyNumbers {0}")]
    OnlyNumbers(u8),
    /// The text of this parameter, counted from 1, has more than 32767 bytes; it is the first such.
    #[error("TextTooLong {0}")]
    TextTooLong(u8),
    /// The padded text would have this many bytes, more than 67108864.
    #[error("TooMuch {0}")]
    TooMuch(u128),
    /// The input could not be read.
    #[error("Read")]
    Read,
    /// The writer took this many bytes of the result and then failed.
    #[error("Write {0}")]
    Write(u64),
    /// Memory was refused.
    #[error("Memory")]
    Memory,
}

impl From<AllocError> for ToolFault {
    ghost from_gives = { λ _ e. e ≡ fault.Memory };

    fn from(_refused: AllocError) -> ToolFault {
        ToolFault::Memory
    }
}

impl From<Refused> for ToolFault {
    ghost from_gives = { λ refused e. e ≡ fault.Entry refused };

    fn from(refused: Refused) -> ToolFault {
        ToolFault::Entry(refused)
    }
}

impl From<CapRefused> for ToolFault {
    ghost from_gives = { λ refused e. e ≡ fault.Cap refused };

    fn from(refused: CapRefused) -> ToolFault {
        ToolFault::Cap(refused)
    }
}

impl From<NotationRefused> for ToolFault {
    ghost from_gives = { λ refused e. e ≡ fault.Source refused };

    fn from(refused: NotationRefused) -> ToolFault {
        ToolFault::Source(refused)
    }
}

impl From<ReadFailed> for ToolFault {
    ghost from_gives = { λ _ e. e ≡ fault.Read };

    fn from(_failed: ReadFailed) -> ToolFault {
        ToolFault::Read
    }
}

impl From<TraceFault> for ToolFault {
    ghost from_gives = { λ why e. e ≡ trace_fault why };

    fn from(why: TraceFault) -> ToolFault {
        match why {
            TraceFault::Cap(refused) => ToolFault::Cap(refused),
            TraceFault::TextTooLong(which) => ToolFault::TextTooLong(which),
            TraceFault::Memory => ToolFault::Memory,
        }
    }
}

impl From<ReadStop> for ToolFault {
    ghost from_gives = { λ stop e. e ≡ stop_fault stop };

    fn from(stop: ReadStop) -> ToolFault {
        match stop {
            ReadStop::Refused(why) => ToolFault::Entry(why),
            ReadStop::Io => ToolFault::Read,
        }
    }
}
