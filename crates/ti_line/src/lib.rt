//! The command line of `ti`: words in, a plain value out.
//!
//! [`read_line`] reads the words by `clap`. What the words mean is defined in `specs/CommandLine.antt`: the definition
//! of the command that is handed to `clap`, and the value of what `clap` finds; and in `specs/Requests.antt`: what that
//! requests, or why it can't be done. Nothing here reads or writes.
#![tactic(auto)]

mod actions;
mod command;
mod destination;
mod fit;
mod flags;
mod given;
mod help;
mod label;
pub mod laws;
mod matches;
mod message;
mod no_request;
mod options;
mod params;
mod printable;
mod read;
mod request;
mod tip;

pub use destination::Destination;
pub use flags::{list_options, naming_of, output_of};
pub use given::{Given, Param, read_given};
pub use label::index_of_label;
pub use message::Message;
pub use no_request::{LineFault, NoRequest};
pub use options::{
    Comparison, Document, Likeness, ListOptions, NameForm, Naming, Output, TraceForm, Verdicts,
};
pub use params::{WordFault, read_params};
pub use read::read_line;
pub use request::{
    Action, CapabilityAction, CapabilityResult, EntryAction, Expand, Get, Pair, ParameterValues,
    Request, TextName, TraceOf,
};
