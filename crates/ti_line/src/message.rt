//! The messages of `clap`.

ghost use Rattle.std.specs.Prelude.{◌≡◌, ◌<◌, IfOk, Some, length};
ghost use Rattle.ti_line.specs.Message.{message_text};

use std::alloc::{AllocError, Global};
use std::fmt;

/// The text if `clap` says nothing.
const NOTHING_SAID: &str = "see ti --help\n";

/// A message of `clap`: the text of its error.
#[derive(Debug, Drop)]
pub struct Message {
    text: String,
}

impl Message {
    /// A text of `clap` as a message, or a text of its own if that one is empty.
    pub(crate) fn new(alloc: Global, text: String) -> Result<Message, AllocError>
        ensures { IfOk result (λ message. 0 < length (message_text message)) }
    {
        let text = if text.is_empty() {
            String::from_str(alloc, NOTHING_SAID)?
        } else {
            text
        };
        Ok(Message { text })
    }

    /// The text, in full lines.
    pub fn as_str(&self) -> &str
        ensures { result.now ≡ message_text self.now }
    {
        self.text.as_str()
    }
}

impl fmt::Display for Message {
    ghost output = { λ message. Some (message_text message) };

    fn fmt<W: fmt::Write>(&self, f: &mut fmt::Formatter<W>) -> fmt::Result {
        f.write_str(self.as_str())
    }
}
