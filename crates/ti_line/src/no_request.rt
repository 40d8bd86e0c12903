//! Why there is no request.

ghost use Rattle.std.specs.Prelude.{◌≡◌};
ghost use Rattle.ti_line.specs.declared.no_request.LineFault.TheVariants as fault;

use crate::message::Message;
use crate::params::WordFault;
use std::fmt;
use thiserror::Error;

/// Why what a line requests can't be done. As an error it prints its name, or what is wrong with the words of the parameters.
#[derive(Clone, Copy, Debug, PartialEq, Eq)]
pub enum LineFault {
    /// An output is to be written in both forms, by `--hex` and `--escape`.
    BothForms,
    /// Findings are to be explained, and that in JSON, by `--explain` and `--json`.
    JsonExplained,
    /// A listing or a trace is to be JSON, and to have names or texts in a form, by `--json` and `--escape` or `--all-names`.
    JsonForm,
    /// The word of `--color` is none of `auto`, `always` and `never`.
    ColorWord,
    /// `trace` is to read a capability and to take one of an entry, by `--source` and `--of`.
    BothInputs,
    /// `trace` is given an entry, and no name of a capability in it.
    EntryWithoutName,
    /// `convert` is to write both widths.
    BothWidths,
    /// `convert` is to write to a terminal, and is not forced.
    ToTerminal,
    /// `diff` is to compare no files, or more than two.
    FileCount,
    /// `diff` is to compare standard input with itself.
    InputTwice,
    /// The words of the parameters are none.
    Words(WordFault),
    /// There are more parameters than terminfo(5) gives the capability.
    Surplus {
        /// The index of the text.
        text: usize,
        /// How many parameters it has.
        takes: u8,
        /// How many there are.
        given: usize,
        /// Whether the first that is too many is a word that is no number, so that it may name a file.
        is_named: bool,
    },
    /// A word without a mark is no number of 32 bits, where terminfo(5) has a number.
    NoNumber {
        /// The index of the text.
        text: usize,
        /// Which word it is, counted from 1.
        which: usize,
    },
    /// A word without a mark is no number of 32 bits, and the capability takes no text, so that it may name a file.
    OnlyNumbers {
        /// Which word it is, counted from 1.
        which: usize,
    },
}

impl fmt::Display for LineFault {
    fn fmt<W: fmt::Write>(&self, f: &mut fmt::Formatter<W>) -> fmt::Result {
        let word = match self {
            LineFault::BothForms => "BothForms",
            LineFault::JsonExplained => "JsonExplained",
            LineFault::JsonForm => "JsonForm",
            LineFault::ColorWord => "ColorWord",
            LineFault::BothInputs => "BothInputs",
            LineFault::EntryWithoutName => "EntryWithoutName",
            LineFault::BothWidths => "BothWidths",
            LineFault::ToTerminal => "ToTerminal",
            LineFault::FileCount => "FileCount",
            LineFault::InputTwice => "InputTwice",
            LineFault::Words(why) => return write!(f, "{why}"),
            LineFault::Surplus { .. } => "Surplus",
            LineFault::NoNumber { .. } => "NoNumber",
            LineFault::OnlyNumbers { .. } => "OnlyNumbers",
        };
        f.write_str(word)
    }
}

impl std::error::Error for LineFault {}

impl From<WordFault> for LineFault {
    ghost from_gives = { λ why e. e ≡ fault.Words why };

    fn from(why: WordFault) -> LineFault {
        LineFault::Words(why)
    }
}

/// Why there is no request. Its `Display` is the text for the user, in full lines, of [`NoRequest::Help`] and
/// [`NoRequest::Refused`].
#[derive(Debug, Drop, Error)]
pub enum NoRequest<'a> {
    /// Help or the version was requested. The text goes where results go, and the status is 0.
    #[error("{0}")]
    Help(Message),
    /// Findings are to be explained, those with these words, or all if there are none. No file is read.
    #[error("Explanation")]
    Explanation(Vec<&'a str>),
    /// The words are no command line. The text goes where faults go, and the status is 2.
    #[error("{0}")]
    Refused(Message),
    /// The words are a line, and what it requests can't be done. The status is 2.
    #[error("{0}")]
    Fault(LineFault),
    /// Out of memory.
    #[error("Memory")]
    Memory,
}
