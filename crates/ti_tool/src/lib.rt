//! The program `ti` as functions from the bytes read to the bytes written.
#![tactic(auto)]

mod call;
mod calls;
mod command;
mod comparison;
mod delivery;
mod expansion;
mod explained;
mod extras;
mod fault;
mod fault_line;
mod file_answer;
mod files;
mod given_values;
mod item_name;
pub mod laws;
mod lookup;
mod notation;
mod noted;
mod outcome;
mod pasted;
mod program;
mod result;
mod source;
mod status;
mod store;
mod summary;
mod terminals;
mod unfit;
mod verdict;
mod voice;

pub use call::carry_out;
pub use calls::{cap_run, check, convert, expand_named, show};
pub use command::Answer;
pub use fault::ToolFault;
pub use file_answer::{Named, answer_of_file, file_line};
pub use program::{run, run_at};
pub use store::{Files, FoundFile, NoStore, Store, one_file, read_contents};
pub use terminals::Terminals;
pub use ti_escape::Color;
pub use ti_line::{Destination, WordFault, read_params};
pub use ti_rules::Trials;
