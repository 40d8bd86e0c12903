//! The JSON of remarks: an array of objects.

ghost use Rattle.std.specs.List.{list_all};
ghost use Rattle.std.specs.Prelude.{◌≡◌, true, IfOk};
ghost use Rattle.ti_escape.specs.Laws.{is_printable};
ghost use Rattle.ti_forms.specs.Blocks.{AreObjects, HaveObjects, IsObject, PrintsSome};

use crate::sentence::{remedy_of, write_meaning};
use std::alloc::{AllocError, Allocator};
use ti_escape::Color;
use ti_rules::{About, NamedText, Remark};
use ti_sink::{Page, Printer};

/// Prints the object on a name.
fn print_name<A: Allocator>(printer: &mut Printer<A>, name: &[u8]) {
    printer.begin_object();
    printer.label("name", name);
    printer.end()
}

/// Prints the object on a text and its name.
fn print_text<A: Allocator>(printer: &mut Printer<A>, subject: NamedText<'_>) {
    printer.begin_object();
    printer.label("name", subject.name);
    printer.text("text", subject.text);
    printer.end()
}

/// Prints the objects on what a remark is about.
fn print_subjects<A: Allocator>(printer: &mut Printer<A>, about: About<'_>) {
    match about {
        About::Entry => (),
        About::Name(name) => print_name(printer, name),
        About::Text(subject) => print_text(printer, subject),
        About::Two(one, other) => {
            print_text(printer, one);
            print_text(printer, other)
        }
    }
}

/// Prints an object with what is said of a remark beside its word.
fn print_members<A: Allocator>(
    printer: &mut Printer<A>,
    meaning: &Page<A>,
    remark: &Remark<'_, A>,
) {
    printer.begin_object();
    printer.word("fix", remedy_of(remark));
    printer.page("meaning", meaning);
    printer.key("places");
    printer.begin_list();
    'places: for place in remark.places() {
        printer.unsigned(*place as u64);
    }
    printer.end();
    printer.key("subjects");
    printer.begin_list();
    print_subjects(printer, remark.about());
    printer.end();
    printer.end()
}

/// Prints the object of a remark.
fn print_remark<A: Allocator + Copy>(printer: &mut Printer<A>, alloc: A, remark: &Remark<'_, A>)
    ensures { PrintsSome (IsObject remark.now) printer.old printer.new }
{
    let mut meaning = Page::new(alloc, Color::Never);
    write_meaning(&mut meaning, alloc, remark);
    let mut members = Printer::new(alloc);
    print_members(&mut members, &meaning, remark);
    printer.object("finding", remark.finding().word(), &members)
}

/// Prints the objects of remarks.
fn print_objects<A: Allocator + Copy>(printer: &mut Printer<A>, alloc: A, remarks: &[Remark<'_, A>])
    ensures { PrintsSome (AreObjects remarks.now) printer.old printer.new }
{
    'remarks: for remark in remarks {
        print_remark(printer, alloc, remark);
    }
}

/// Prints the array of [`report_json`].
pub fn print_remarks<A: Allocator + Copy>(
    printer: &mut Printer<A>,
    alloc: A,
    remarks: &[Remark<'_, A>],
)
    ensures told { PrintsSome (HaveObjects remarks.now) printer.old printer.new }
{
    printer.begin_list();
    print_objects(printer, alloc, remarks);
    printer.end()
}

/// Returns remarks as JSON: an array of objects, without a space between tokens, in the order of the lines.
///
/// Each has `finding` (its word), `fix` (what to do), `meaning`, `places` (in the text, of those that have a caret below) and
/// `subjects`: what it is about, with `name` and, if it is a text, `text`; two for a pair, none for the whole entry. Each byte of the
/// document is a character from the space to `~`.
///
/// # Errors
///
/// Memory was refused.
pub fn report_json<A: Allocator + Copy>(
    alloc: A,
    remarks: &[Remark<'_, A>],
) -> Result<Vec<u8, A>, AllocError>
    ensures told { IfOk result (λ text. HaveObjects remarks.now text.items) }
    ensures printable { IfOk result (λ text. list_all is_printable text.items ≡ true) }
{
    let mut printer = Printer::new(alloc);
    print_remarks(&mut printer, alloc, remarks);
    // Each call fits, as rows show.
    if printer.is_misused() {
        return Err(AllocError);
    }
    printer.finish()
}
