//! The explanations of findings, for `ti lint --explain`.
//!
//! They are put together before any byte of them is written.

ghost use Rattle.std.specs.Prelude.{◌≡◌, ◌≤◌, ◌⊎◌};
ghost use Rattle.ti_tool.specs.FileRuns.{Ends};
ghost use Rattle.ti_tool.specs.Runs.{Explains, MayHaveWritten};
ghost use Rattle.ti_tool.specs.Streams.{Stream, streams};

use crate::delivery::{Ending, deliver_last, line_alone};
use crate::fault::ToolFault;
use crate::fault_line::fault_line;
use crate::voice::{write_explanations, write_unknown};
use std::alloc::Allocator;
use std::io::Write;
use ti_escape::Color;
use ti_forms::is_explained;
use ti_sink::{Page, ShortPage};

/// The first of some words that no finding has.
fn first_unknown<'a>(words: &[&'a str]) -> Option<&'a str> {
    words.iter().copied().find(|word| !is_explained(word))
}

/// Explains the findings with words, or lists all words if there are none. Nothing is read.
pub fn run_explanation<A: Allocator + Copy, W: Write, E: Write>(
    alloc: A,
    has_advice: bool,
    words: &[&str],
    output: &mut W,
    errors: &mut E,
) -> u8
    ensures ends { (left0 left1 : Stream) → Ends has_advice Explains (output.new ≡ output.old)
        (streams left0 (W.contents output.old) (E.contents errors.old))
        (streams left1 (W.contents output.new) (E.contents errors.new)) result }
    ensures silent { result ≤ 1 → errors.new ≡ errors.old }
    ensures unwritten { MayHaveWritten result ⊎ (output.new ≡ output.old) }
{
    if let Some(word) = first_unknown(words) {
        let mut page = ShortPage::new();
        write_unknown(&mut page, word);
        let ending = line_alone(page.as_slice(), 2);
        return deliver_last(alloc, has_advice, ending, output, errors);
    }
    let mut page = Page::new(alloc, Color::Never);
    write_explanations(&mut page, words);
    match page.finish(Color::Never) {
        Ok(text) => {
            let ending = Ending {
                bytes: text.as_slice(),
                line: b"",
                status: 0,
            };
            deliver_last(alloc, has_advice, ending, output, errors)
        }
        Err(_) => {
            let line = fault_line(&ToolFault::Memory);
            let ending = line_alone(line.as_slice(), 6);
            deliver_last(alloc, has_advice, ending, output, errors)
        }
    }
}
