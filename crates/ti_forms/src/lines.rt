//! The lines of remarks.

ghost use Rattle.std.specs.Prelude.{◌≡◌, ◌==◌, true, length, IfOk};
ghost use Rattle.ti_forms.specs.Blocks.{AreBlocks, IsBlock, WritesSome, subject};
ghost use Rattle.ti_rules.specs.inner.Held.{about_held};
ghost use Rattle.ti_sink.specs.Pages.{Writes, is_page};

use crate::sentence::{remedy_of, write_meaning};
use std::alloc::{AllocError, Allocator};
use ti_escape::{Color, Form, Style, column, columns_between};
use ti_rules::{About, Remark};
use ti_sink::Page;

/// Writes the subject of a remark.
fn write_subject<A: Allocator>(page: &mut Page<A>, about: About<'_>)
    ensures { Writes (subject (about_held about.entry)) page.old page.new }
{
    match about {
        About::Entry => page.put("entry"),
        About::Name(name) => page.label(name),
        About::Text(text) => page.label(text.name),
        About::Two(one, _) => page.label(one.name),
    }
}

/// Writes a text.
fn write_text<A: Allocator>(page: &mut Page<A>, text: &[u8]) {
    page.put("  ");
    page.shown(Form::Notation, text);
    page.put("\n")
}

/// Writes a caret below the notation of the byte at each place.
fn write_carets<A: Allocator>(page: &mut Page<A>, text: &[u8], places: &[usize]) {
    let (mut place, mut at, mut end) = (0, 0, 0);
    'places: for next in places {
        at = if place <= *next && *next < text.len() {
            columns_between(text, place, *next).saturating_add(at)
        } else {
            column(text, *next)
        };
        place = *next;
        page.blanks(usize::try_from(at.saturating_sub(end)).unwrap_or(0));
        page.put("^");
        end = at.saturating_add(1);
    }
}

/// Writes the line of carets, if there is a place.
fn write_caret_line<A: Allocator>(page: &mut Page<A>, text: &[u8], places: &[usize]) {
    if places.is_empty() {
        return;
    }
    page.put("  ");
    page.open(Style::Green);
    write_carets(page, text, places);
    page.close();
    page.put("\n")
}

/// Writes what stands between the subject of a remark and its word.
fn write_below<A: Allocator, B: Allocator>(page: &mut Page<A>, remark: &Remark<'_, B>) {
    match remark.about() {
        About::Entry | About::Name(_) => (),
        About::Text(text) => {
            write_text(page, text.text);
            write_caret_line(page, text.text, remark.places())
        }
        About::Two(one, other) => {
            write_text(page, one.text);
            page.label(other.name);
            page.put("\n");
            write_text(page, other.text)
        }
    }
    page.put("  ");
    page.open(Style::Red)
}

/// Writes what stands after the word.
fn write_rest<A: Allocator + Copy>(page: &mut Page<A>, alloc: A, remark: &Remark<'_, A>) {
    page.close();
    page.put(": ");
    write_meaning(page, alloc, remark);
    page.put("\n  do: ");
    page.put(remedy_of(remark));
    page.put("\n")
}

/// Writes the block of a remark, in the color of the page.
fn write_block<A: Allocator + Copy>(
    page: &mut Page<A>,
    alloc: A,
    color: Color,
    prefix: &[u8],
    remark: &Remark<'_, A>,
)
    ensures { WritesSome (IsBlock prefix.now remark.now) page.old page.new }
{
    let mut below = Page::new(alloc, color);
    write_below(&mut below, remark);
    let mut rest = Page::new(alloc, color);
    write_rest(&mut rest, alloc, remark);
    page.bytes(prefix);
    write_subject(page, remark.about());
    page.put("\n");
    page.append(&below);
    page.put(remark.finding().word());
    page.append(&rest)
}

/// Writes the blocks of remarks.
fn write_blocks<A: Allocator + Copy>(
    page: &mut Page<A>,
    alloc: A,
    color: Color,
    prefix: &[u8],
    remarks: &[Remark<'_, A>],
)
    ensures { WritesSome (AreBlocks prefix.now remarks.now) page.old page.new }
{
    'remarks: for remark in remarks {
        write_block(page, alloc, color, prefix, remark);
    }
}

/// Returns the lines of remarks, a block for each. `prefix` stands before the first line of each block, such as the name of the file.
/// With color, the word of a finding is red, and carets are green.
///
/// # Errors
///
/// Memory was refused.
///
/// # Examples
///
/// ```rust
/// let entry = read(FILE)?;
/// let alloc = rt.alloc();
/// let trials = &mut Trials::new(alloc);
/// let options = LintOptions {
///     level: Level::Errors,
///     untrusted: false,
/// };
/// let remarks = remarks_of(alloc, trials, options, FILE, &entry)?;
/// let lines = report_lines(alloc, Color::Never, b"", remarks.as_slice())?;
/// ```
pub fn report_lines<A: Allocator + Copy>(
    alloc: A,
    color: Color,
    prefix: &[u8],
    remarks: &[Remark<'_, A>],
) -> Result<Vec<u8, A>, AllocError>
    ensures told { IfOk result (λ lines. AreBlocks prefix.now remarks.now lines.items) }
    ensures none { IfOk result (λ lines. (length lines.items == 0) ≡ (length remarks.now == 0)) }
    ensures printable { IfOk result (λ lines. is_page color lines.items ≡ true) }
{
    let mut page = Page::new(alloc, color);
    write_blocks(&mut page, alloc, color, prefix, remarks);
    page.finish(color)
}
