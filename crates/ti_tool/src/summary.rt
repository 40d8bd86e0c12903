//! When the line on how much `lint` looked at is written.

ghost use Rattle.std.specs.Prelude.{◌≡◌, None};
ghost use Rattle.ti_tool.specs.Streams.{Stream, streams};
ghost use Rattle.ti_tool.specs.Summaries.{IsSummarized, summary_of as the_summary_of};

use crate::voice::{Tally, tally_of, write_summary};
use std::alloc::{AllocError, Allocator};
use std::io::Write;
use ti_line::{Action, Document, EntryAction};
use ti_lint::LintOptions;
use ti_pad::write_out;
use ti_rules::Trials;
use ti_sink::ShortPage;

/// The options of `lint`, if a summary is wanted of it.
pub fn summary_of(wanted: bool, action: &Action<'_>) -> Option<LintOptions>
    ensures { result ≡ the_summary_of wanted action.now }
{
    match action {
        Action::Entry(
            EntryAction::Lint(options, _) | EntryAction::Json(Document::Findings(options)),
        ) if wanted => Some(*options),
        _ => None,
    }
}

/// How much `lint` looks at in contents, if a summary is wanted.
pub fn look_at<A: Allocator + Copy>(
    alloc: A,
    trials: &mut Trials<A>,
    summary: Option<LintOptions>,
    contents: &[u8],
) -> Result<Tally, AllocError> {
    match summary {
        Some(options) => tally_of(alloc, trials, options, contents),
        None => Ok(Tally::NONE),
    }
}

/// Writes the line, if a summary is wanted and an entry was looked at.
pub fn report_summary<E: Write>(summary: Option<LintOptions>, tally: Tally, errors: &mut E)
    ensures silent { summary ≡ None → errors.new ≡ errors.old }
    ensures told { (left held : Stream) → IsSummarized summary
        (streams left held (E.contents errors.old)) (streams left held (E.contents errors.new)) }
{
    if summary.is_none() || !tally.has_entries() {
        return;
    }
    let mut page = ShortPage::new();
    write_summary(&mut page, tally);
    let _ = write_out(errors, page.as_slice());
}

/// Writes the line on contents that led to a status, if a summary is wanted and they had an output.
pub fn report_contents<A: Allocator + Copy, E: Write>(
    alloc: A,
    summary: Option<LintOptions>,
    contents: &[u8],
    status: u8,
    errors: &mut E,
)
    ensures silent { summary ≡ None → errors.new ≡ errors.old }
    ensures told { (left held : Stream) → IsSummarized summary
        (streams left held (E.contents errors.old)) (streams left held (E.contents errors.new)) }
{
    if 1 < status {
        return;
    }
    let mut trials = Trials::new(alloc);
    if let Ok(tally) = look_at(alloc, &mut trials, summary, contents) {
        report_summary(summary, tally, errors);
    }
}
