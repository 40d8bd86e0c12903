//! The lines on standard error beside those on faults.

ghost use Rattle.std.specs.Prelude.{◌≡◌, ◌||◌};
ghost use Rattle.ti_tool.specs.Runs.{is_source as the_is_source};
ghost use Rattle.ti_tool.specs.Summaries.{summary_of as the_summary_of};

use crate::summary::summary_of;
use crate::terminals::Terminals;
use ti_line::Action;
use ti_lint::LintOptions;

/// The lines on standard error that are wanted.
#[derive(Clone, Copy)]
pub struct Extras {
    /// The options of `lint`, if a summary is wanted of it.
    pub summary: Option<LintOptions>,
    /// Whether a line on a fault is followed by advice.
    pub has_advice: bool,
}

/// Whether a request has the notation of a capability.
fn is_source(action: &Action<'_>) -> bool
    ensures { result ≡ the_is_source action.now }
{
    matches!(action, Action::Source(_))
}

/// Returns the extras of a request: a summary of `lint` at a terminal, or by `--summary`; advice at a terminal, or on a notation.
pub fn extras_of(at: Terminals, has_summary: bool, action: &Action<'_>) -> Extras
    ensures summary { result.summary ≡ the_summary_of (at.errors || has_summary) action.now }
    ensures advice { result.has_advice ≡ (at.errors || the_is_source action.now) }
{
    Extras {
        summary: summary_of(at.errors || has_summary, action),
        has_advice: at.errors || is_source(action),
    }
}
