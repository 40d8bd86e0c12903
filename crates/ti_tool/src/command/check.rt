//! `check`: each text of an entry analysed as a capability, in lines or as objects of JSON.
//!
//! One pass over the texts, of which equal ones in a row are analysed once. A text that is no output string, such as a
//! pattern of input, can have a fault in an entry that is right.

ghost use Rattle.std.specs.Prelude.{◌≡◌, IfOk};
ghost use Rattle.ti_json.specs.Rows.{OfCapability, content_value};
ghost use Rattle.ti_words.specs.Items.{subject_value};
ghost use Rattle.ti_tool.specs.Verdicts.{AreVerdicts, IsVerdict, is_pattern as the_is_pattern, is_written as the_is_written};

use crate::command::Answer;
use crate::verdict::{JudgedText, judge};
use std::alloc::{AllocError, Allocator};
use ti_entry::Entry;
use ti_escape::Form;
use ti_json::{Topic, write_row};
use ti_line::{ListOptions, Naming, Verdicts};
use ti_listing::push_row;
use ti_names::{Class, class_of};
use ti_sink::Printer;
use ti_words::{Kind, Subject};

/// Whether a text is a pattern of input by terminfo(5), which are `u6` and `u8`.
fn is_pattern(subject: Subject<'_>) -> bool
    ensures { result ≡ the_is_pattern (subject_value subject.entry) }
{
    match subject {
        Subject::Standard(Kind::Text, index) => matches!(class_of(index), Some(Class::Input)),
        _ => false,
    }
}

/// Whether the verdict on a text is written.
fn is_written(which: Verdicts, subject: Subject<'_>, verdict: JudgedText<'_>) -> bool
    ensures { result ≡ the_is_written which
        (OfCapability (subject_value subject.entry), content_value verdict.entry.content) }
{
    match which {
        Verdicts::All => true,
        Verdicts::Faults => !verdict.is_sound() && !is_pattern(subject),
    }
}

/// The lines of an entry.
pub fn verdicts_of<A: Allocator + Copy>(
    alloc: A,
    which: Verdicts,
    naming: Naming,
    entry: &Entry<'_>,
) -> Result<Answer<A>, AllocError>
    ensures { IfOk result (λ v. AreVerdicts which naming entry.now v.bytes.items v.passed) }
{
    let options = ListOptions {
        naming,
        form: Form::Notation,
    };
    let mut lines = Vec::new(alloc);
    let mut passed = true;
    let mut last = judge(b"");
    let mut items = entry.items();
    'items: while let Some((subject, item)) = items.next() {
        if let Some(text) = item.text() {
            last = last.next(text);
            if is_written(which, subject, last) {
                let topic = Topic::Capability(subject);
                push_row(&mut lines, options, b"", topic, last.content)?;
                passed &= last.is_sound();
            }
        }
    }
    Ok(Answer {
        bytes: lines,
        passed,
    })
}

/// Writes the objects of an entry as an array, and returns whether none of these texts has a fault.
pub fn write_verdicts<A: Allocator>(
    printer: &mut Printer<A>,
    which: Verdicts,
    entry: &Entry<'_>,
) -> bool
    ensures { IsVerdict which entry.now result }
{
    let mut are_sound = true;
    let mut last = judge(b"");
    printer.begin_list();
    let mut items = entry.items();
    'items: while let Some((subject, item)) = items.next() {
        if let Some(text) = item.text() {
            last = last.next(text);
            if is_written(which, subject, last) {
                write_row(printer, Topic::Capability(subject), last.content);
                are_sound &= last.is_sound();
            }
        }
    }
    printer.end();
    are_sound
}
