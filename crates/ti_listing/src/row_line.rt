//! The line of a row: what it is about, and what it says of that.

ghost use Rattle.std.specs.Prelude.{◌≡◌, ◌++◌, OnOk, codes, decimal};
ghost use Rattle.ti_cap.specs.FaultNames.{cap_fault_word};
ghost use Rattle.ti_json.specs.Rows.{content_value, topic_value};
ghost use Rattle.ti_listing.specs.Labels.{names_in_form};
ghost use Rattle.ti_listing.specs.Listing.{content_words, row_line, topic_label};

use crate::label::{push_label, subject_word};
use itoa::Buffer;
use std::alloc::{AllocError, Allocator};
use ti_cap::CapRefused;
use ti_escape::{push_notation, push_shown};
use ti_json::{Content, Topic};
use ti_line::{ListOptions, NameForm, Naming};
use ti_words::format_name;

/// Writes what a row is about.
fn push_topic<A: Allocator>(
    out: &mut Vec<u8, A>,
    naming: Naming,
    topic: Topic<'_>,
) -> Result<(), AllocError>
    ensures { OnOk result (out.new.items ≡ out.old.items ++ topic_label naming (topic_value topic.entry)) }
{
    match topic {
        Topic::Format => out.extend_from_slice(b"format:"),
        Topic::Names => out.extend_from_slice(b"names:"),
        Topic::Capability(subject) => {
            out.extend_from_slice(subject_word(subject))?;
            push_label(out, naming, subject)
        }
    }
}

/// Writes a word after a space.
fn push_word<A: Allocator>(out: &mut Vec<u8, A>, word: &str) -> Result<(), AllocError>
    ensures { OnOk result (out.new.items ≡ out.old.items ++ (codes " " ++ word.now)) }
{
    out.extend_from_slice(b" ")?;
    out.extend_from_slice(word.as_bytes())
}

/// Writes the names of the entry.
fn push_names<A: Allocator>(
    out: &mut Vec<u8, A>,
    form: NameForm,
    names: &[u8],
) -> Result<(), AllocError>
    ensures { OnOk result (out.new.items ≡ out.old.items ++ names_in_form form names.now) }
{
    match form {
        NameForm::Raw => out.extend_from_slice(names),
        NameForm::Notation => push_notation(out, names),
    }
}

/// Writes that a text is a capability, and what it needs.
fn push_limits<A: Allocator>(
    out: &mut Vec<u8, A>,
    depth: usize,
    bound: u64,
) -> Result<(), AllocError>
    ensures { OnOk result (out.new.items
        ≡ out.old.items ++ (codes " ok depth " ++ decimal depth ++ codes " bound " ++ decimal bound)) }
{
    let mut digits = Buffer::new();
    out.extend_from_slice(b" ok depth ")?;
    out.extend_from_slice(digits.format(depth).as_bytes())?;
    out.extend_from_slice(b" bound ")?;
    out.extend_from_slice(digits.format(bound).as_bytes())
}

/// Writes why a text is no capability.
fn push_fault<A: Allocator>(out: &mut Vec<u8, A>, refused: CapRefused) -> Result<(), AllocError>
    ensures { OnOk result (out.new.items ≡ out.old.items
        ++ (codes " fault " ++ cap_fault_word refused.fault ++ codes " at " ++ decimal refused.place)) }
{
    let mut digits = Buffer::new();
    out.extend_from_slice(b" fault ")?;
    out.extend_from_slice(refused.fault.word().as_bytes())?;
    out.extend_from_slice(b" at ")?;
    out.extend_from_slice(digits.format(refused.place).as_bytes())
}

/// Writes what a row says.
fn push_content<A: Allocator>(
    out: &mut Vec<u8, A>,
    options: ListOptions,
    content: Content<'_>,
) -> Result<(), AllocError>
    ensures { OnOk result (out.new.items
        ≡ out.old.items ++ content_words options (content_value content.entry)) }
{
    match content {
        Content::State(state) => push_word(out, state.word()),
        Content::Set => Ok(()),
        Content::Number(number) => {
            let mut digits = Buffer::new();
            push_word(out, digits.format(number))
        }
        Content::Format(width) => push_word(out, format_name(width)),
        Content::Names(names) => {
            out.extend_from_slice(b" ")?;
            push_names(out, options.naming.form, names)
        }
        Content::Text(text) => {
            out.extend_from_slice(b" ")?;
            push_shown(out, options.form, text)
        }
        Content::Limits { depth, bound } => push_limits(out, depth, bound),
        Content::Fault(refused) => push_fault(out, refused),
    }
}

/// Writes the line of a row after a sign, or none if the entry lacks what it is about. Most capabilities of an entry are absent, and
/// it takes less to find so in the caller's loop.
///
/// # Errors
///
/// Memory was refused.
#[inline(always)]
pub fn push_row<A: Allocator>(
    out: &mut Vec<u8, A>,
    options: ListOptions,
    sign: &[u8],
    topic: Topic<'_>,
    content: Content<'_>,
) -> Result<(), AllocError>
    ensures { OnOk result (out.new.items ≡ out.old.items
        ++ row_line options sign.now (topic_value topic.entry, content_value content.entry)) }
{
    if content.is_absent() {
        return Ok(());
    }
    out.extend_from_slice(sign)?;
    push_topic(out, options.naming, topic)?;
    push_content(out, options, content)?;
    out.extend_from_slice(b"\n")
}
