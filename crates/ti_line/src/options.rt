//! How results are written.

use ti_escape::{Color, Form};
use ti_lint::LintOptions;
use ti_names::NameTable;
use ti_trace::TraceOptions;

/// How the names that an entry brings with it are written: its own, and those of its extended capabilities.
#[derive(Clone, Copy, Debug, PartialEq, Eq)]
pub enum NameForm {
    /// Byte for byte, so that a terminal may obey them.
    Raw,
    /// In the notation of terminfo(5), in which each character can be printed; the label of a capability has no space.
    Notation,
}

/// The names of an entry and its capabilities in a listing.
#[derive(Clone, Copy, Debug, PartialEq, Eq)]
pub struct Naming {
    /// The table of names by which standard capabilities are called.
    pub table: NameTable,
    /// How the names of the entry's own are written.
    pub form: NameForm,
}

/// How a listing of an entry is written.
#[derive(Clone, Copy, Debug, PartialEq, Eq)]
pub struct ListOptions {
    /// The names of the entry and its capabilities.
    pub naming: Naming,
    /// How the bytes of texts are shown.
    pub form: Form,
}

/// When two texts are alike.
#[derive(Clone, Copy, Debug, PartialEq, Eq)]
pub enum Likeness {
    /// If they have the same bytes.
    Bytes,
    /// Also if both are capabilities with the same tokens, such as `%{10}` and `%'\n'`, which expand to the same.
    Tokens,
}

/// Which verdicts on the texts of an entry `check` writes.
#[derive(Clone, Copy, Debug, PartialEq, Eq)]
pub enum Verdicts {
    /// That on each text.
    All,
    /// The faults of output strings alone.
    Faults,
}

/// The contents of a document of JSON.
#[derive(Clone, Copy, Debug, PartialEq, Eq)]
pub enum Document {
    /// The capabilities of the entry, as a listing has them.
    Listing,
    /// The verdicts on its texts, as `check` gives them.
    Verdicts(Verdicts),
    /// Its findings, as `lint` reports them.
    Findings(LintOptions),
}

/// How a trace is written.
#[derive(Clone, Copy, Debug, PartialEq, Eq)]
pub enum TraceForm {
    /// As lines.
    Lines(TraceOptions),
    /// As a document of JSON.
    Json,
}

/// How it is written what two entries do not have alike.
#[derive(Clone, Copy, Debug, PartialEq, Eq)]
pub enum Comparison {
    /// As lines, which may stand out.
    Lines(Color),
    /// As the same lines for people: grouped, after the names of the files.
    Headed(Color),
    /// As a document of JSON.
    Json,
}

/// How the output of a capability is written.
#[derive(Clone, Copy, Debug, PartialEq, Eq)]
pub enum Output {
    /// Its bytes as they stand.
    Raw,
    /// In a form, and a newline after it.
    Line(Form),
}
