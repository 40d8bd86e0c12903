//! The requests of a command line, all of them valid.

use crate::given::Given;
use crate::options::{
    Comparison, Document, Likeness, ListOptions, Naming, Output, TraceForm, Verdicts,
};
use ti_escape::Color;
use ti_expand::Value;
use ti_lint::LintOptions;
use ti_names::NameTable;
use ti_pad::Padding;
use ti_words::Width;

/// The request of a command line, and its files.
#[derive(Debug, Drop)]
pub struct Request<'a> {
    /// The work on each file.
    pub action: Action<'a>,
    /// The names of the files, in their order. None is standard input.
    pub files: Vec<&'a str>,
    /// Whether it is reported at the end how much was looked at.
    pub has_summary: bool,
}

/// The work on an input.
#[derive(Debug, Drop)]
pub enum Action<'a> {
    /// Something with an input as one capability.
    Capability(CapabilityAction<'a>),
    /// Something with an input as the notation of one capability.
    Source(CapabilityAction<'a>),
    /// Something with an input as an entry.
    Entry(EntryAction<'a>),
    /// To write what two entries do not have alike.
    Difference(Pair<'a>),
}

/// Two files to be compared, and how. `-` is standard input.
#[derive(Clone, Copy, Debug, PartialEq, Eq)]
pub struct Pair<'a> {
    /// The file of the first entry.
    pub file: &'a str,
    /// The file of the other.
    pub other: &'a str,
    /// When their texts are alike.
    pub likeness: Likeness,
    /// How the result is written.
    pub form: Comparison,
}

/// The parameters of a capability.
#[derive(Clone, Copy, Debug)]
pub struct ParameterValues<'a> {
    /// The nine; missing ones are the number 0.
    pub values: [Value<'a>; 9],
}

/// The work on a capability.
#[derive(Debug, Drop)]
pub struct CapabilityAction<'a> {
    /// Its parameters.
    pub parameters: ParameterValues<'a>,
    /// The result to write.
    pub result: CapabilityResult,
}

/// The result of a capability.
#[derive(Clone, Copy, Debug, PartialEq, Eq)]
pub enum CapabilityResult {
    /// Its expansion.
    Cap(Output),
    /// A row for each of its tokens.
    Trace(TraceForm),
}

/// The work on an entry.
#[derive(Debug, Drop)]
pub enum EntryAction<'a> {
    /// To list it.
    Show(ListOptions),
    /// To say of it in JSON what a document says.
    Json(Document),
    /// To analyse each of its texts, and write some verdicts.
    Check(Verdicts, Naming),
    /// To report what is wrong with it, in lines of which parts may stand out.
    Lint(LintOptions, Color),
    /// To expand and pad one of its texts.
    Expand(Expand<'a>),
    /// To write it in its canonical layout, in a width or else in its own.
    Convert(Option<Width>),
    /// To write the value of one of its capabilities.
    Get(Get<'a>),
    /// To show what each token of one of its texts does.
    Trace(TraceOf<'a>),
}

/// The text that is expanded, and how.
#[derive(Debug, Drop)]
pub struct Expand<'a> {
    /// The name of the text.
    pub name: TextName<'a>,
    /// Its parameters.
    pub parameters: ParameterValues<'a>,
    /// The padding.
    pub padding: Padding,
    /// How the output is written.
    pub output: Output,
}

/// The capability whose value is written, and how.
#[derive(Debug, Drop)]
pub struct Get<'a> {
    /// The name of the capability, of any kind.
    pub name: &'a str,
    /// The parameters; with none a text is not expanded.
    pub given: Option<Given<'a>>,
    /// The padding of a text.
    pub padding: Padding,
    /// How a text is written.
    pub output: Output,
}

/// The text of an entry that is traced, and how.
#[derive(Debug, Drop)]
pub struct TraceOf<'a> {
    /// The name of the capability, as [`Get`] takes it.
    pub name: &'a str,
    /// The parameters; with none all are the number 0.
    pub given: Option<Given<'a>>,
    /// How the trace is written.
    pub form: TraceForm,
}

/// The name of a text.
#[derive(Clone, Copy, Debug)]
pub struct TextName<'a> {
    /// The name: `#` and an index, or a name.
    pub name: &'a str,
    /// The table in which it is looked up.
    pub names: NameTable,
}
