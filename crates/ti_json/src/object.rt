//! The object of a row. Members stand in the order of their names.

use crate::row::{Content, Topic};
use std::alloc::Allocator;
use ti_escape::Form;
use ti_names::NameTable;
use ti_sink::Printer;
use ti_words::{Kind, Subject, format_name};

/// The word for a kind.
fn kind_word(kind: Kind) -> &'static str {
    match kind {
        Kind::Flag => "flag",
        Kind::Number => "number",
        Kind::Text => "text",
    }
}

/// Writes the kind of a topic, and the name of a capability: a standard one without a name is called by `#` and its index.
fn write_named<A: Allocator>(printer: &mut Printer<A>, topic: Topic<'_>) {
    match topic {
        Topic::Format => printer.word("kind", "format"),
        Topic::Names => printer.word("kind", "names"),
        Topic::Capability(Subject::Standard(kind, index)) => {
            printer.word("kind", kind_word(kind));
            match NameTable::All.name_at(kind, index) {
                Some(name) => printer.word("name", name),
                None => printer.index("name", index),
            }
        }
        Topic::Capability(Subject::Extended(kind, name)) => {
            printer.word("kind", kind_word(kind));
            printer.label("name", name)
        }
    }
}

/// Writes that the entry names a capability itself, if it does.
fn write_owned<A: Allocator>(printer: &mut Printer<A>, topic: Topic<'_>) {
    if let Topic::Capability(Subject::Extended(_, _)) = topic {
        printer.yes("own");
    }
}

/// Writes what comes before the kind.
fn write_before<A: Allocator>(printer: &mut Printer<A>, content: Content<'_>) {
    match content {
        Content::Limits { depth, bound } => {
            printer.count("bound", bound);
            printer.count("depth", depth as u64)
        }
        Content::Fault(refused) => printer.word("fault", refused.fault.word()),
        Content::Text(text) => printer.formed("hex", Form::Hex, text),
        _ => (),
    }
}

/// Writes what comes last: a value, a state in place of one, or the place of a fault.
fn write_last<A: Allocator>(printer: &mut Printer<A>, content: Content<'_>) {
    match content {
        Content::State(state) => printer.word("state", state.word()),
        Content::Set => printer.yes("value"),
        Content::Number(number) => {
            printer.key("value");
            printer.integer(number)
        }
        Content::Format(width) => printer.word("value", format_name(width)),
        Content::Names(names) => printer.text("value", names),
        Content::Text(text) => printer.text("value", text),
        Content::Limits { .. } => (),
        Content::Fault(refused) => printer.count("place", refused.place as u64),
    }
}

/// Writes the object of a row, if the entry has its topic: its `kind`, the `name` of a capability, and what is said of it.
#[inline(always)]
pub fn write_row<A: Allocator>(printer: &mut Printer<A>, topic: Topic<'_>, content: Content<'_>) {
    if !content.is_absent() {
        printer.begin_object();
        write_before(printer, content);
        write_named(printer, topic);
        write_owned(printer, topic);
        write_last(printer, content);
        printer.end()
    }
}

/// Writes a member that is an object with what one entry has.
fn write_side<A: Allocator>(printer: &mut Printer<A>, name: &str, content: Content<'_>) {
    printer.key(name);
    printer.begin_object();
    write_before(printer, content);
    write_last(printer, content);
    printer.end()
}

/// Writes the object on what two entries do not have alike: what the `first` has, and what the `other` has.
pub fn write_compared<A: Allocator>(
    printer: &mut Printer<A>,
    topic: Topic<'_>,
    first: Content<'_>,
    other: Content<'_>,
) {
    printer.begin_object();
    write_side(printer, "first", first);
    write_named(printer, topic);
    write_side(printer, "other", other);
    write_owned(printer, topic);
    printer.end()
}
