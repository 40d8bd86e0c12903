//! Why a capability is not traced.

use thiserror::Error;
use ti_cap::CapRefused;

/// Why there is no trace. As an error it prints its name, and what it holds after a blank.
#[derive(Clone, Copy, PartialEq, Eq, Debug, Error)]
pub enum TraceFault {
    /// The bytes are no capability.
    #[error("Cap {0}")]
    Cap(CapRefused),
    /// The text of this parameter, counted from 1, has more bytes than [`ti_base::MOST_TEXT_BYTES`]; it is the lowest
    /// such parameter.
    #[error("TextTooLong {0}")]
    TextTooLong(u8),
    /// Memory was refused.
    #[error("Memory")]
    Memory,
}
