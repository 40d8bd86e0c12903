//! The lines on what two entries do not have alike: plain code over a page of `ti_sink`, whose lines rows show.

ghost use Rattle.std.specs.Prelude.{◌≡◌, true, IfOk};
ghost use Rattle.ti_sink.specs.Pages.{is_page};

use crate::difference::Difference;
use crate::row_line::push_row;
use std::alloc::{AllocError, Allocator};
use ti_escape::{Color, Form, Style};
use ti_line::{ListOptions, NameForm, Naming};
use ti_names::NameTable;
use ti_sink::Page;

/// Capabilities are called by all names, and all is in the notation.
const IN_FULL: ListOptions = ListOptions {
    naming: Naming {
        table: NameTable::All,
        form: NameForm::Notation,
    },
    form: Form::Notation,
};

/// Which of two entries a line is on.
#[derive(Clone, Copy)]
enum Side {
    First,
    Other,
}

/// Writes the line on what an entry has, in a style that ends before its newline. What the entry lacks has no line.
fn write_side<A: Allocator + Copy>(
    page: &mut Page<A>,
    alloc: A,
    side: Side,
    difference: &Difference<'_>,
) {
    let (sign, style, content) = match side {
        Side::First => (b"- ", Style::Red, difference.first),
        Side::Other => (b"+ ", Style::Green, difference.other),
    };
    let mut line = Vec::new(alloc);
    if push_row(&mut line, IN_FULL, sign, difference.topic, content).is_err() {
        page.refuse();
    } else if let [text @ .., _] = line.as_slice() {
        page.open(style);
        page.bytes(text);
        page.close();
        page.put("\n");
    }
}

/// Writes the lines of a difference.
fn write_difference<A: Allocator + Copy>(
    page: &mut Page<A>,
    alloc: A,
    difference: &Difference<'_>,
) {
    write_side(page, alloc, Side::First, difference);
    write_side(page, alloc, Side::Other, difference)
}

/// Returns the lines on differences: of each, what the first entry has after `- `, in red, and what the other has after `+ `, in green.
/// What an entry lacks has no line.
///
/// # Errors
///
/// Memory was refused.
pub fn differing_lines<A: Allocator + Copy>(
    alloc: A,
    color: Color,
    differences: &[Difference<'_>],
) -> Result<Vec<u8, A>, AllocError>
    ensures printable { IfOk result (λ lines. is_page color lines.items ≡ true) }
{
    let mut page = Page::new(alloc, color);
    'differences: for difference in differences {
        write_difference(&mut page, alloc, difference);
    }
    page.finish(color)
}

/// Writes the lines of those differences that one entry lacks, or of those that both have.
fn write_those<A: Allocator + Copy>(
    page: &mut Page<A>,
    alloc: A,
    are_in_one: bool,
    differences: &[Difference<'_>],
) {
    'differences: for difference in differences {
        if difference.is_in_one() == are_in_one {
            write_difference(page, alloc, difference);
        }
    }
}

/// Writes the same lines for people: those of what both entries have come before those of what one lacks.
pub fn write_grouped<A: Allocator + Copy>(
    page: &mut Page<A>,
    alloc: A,
    differences: &[Difference<'_>],
) {
    write_those(page, alloc, false, differences);
    write_those(page, alloc, true, differences)
}
