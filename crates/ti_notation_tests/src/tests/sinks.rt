//! Pages and documents of JSON: what is written, what does not fit, and refused growth.

use crate::tests::check_rows;
use linked_list_allocator::LocalHeap;
use std::alloc::{AllocError, Allocator};
use ti_escape::{Color, Form, Style};
use ti_fixtures::{Finds, Given, Tries, Unfound, only_if, tally_of};
use ti_sink::{Page, Printer, ShortPage};

/// Bytes, and a page without color that has them as they stand, in the notation and in hex, in columns.
const PAGES: &str = r"
ab => 4^Iab^Iab    ^I6162  ^I\n
a^Ib\n^G => 4^Ia^Ib\n\\007^Ia\^Ib\^J\^G^I6109620a07^I\n
caf\303\251 => 4^Icaf\\303\\251^Icaf\\303\\251^I636166c3a9^I\n
\E\177\200\000\377 => 4^I\\033\\177\\200\\000\\377^I\\E\^?\\200\\000\\377^I1b7f8000ff^I\n
- => 4^I^I-     ^I-     ^I\n
";

/// The same with color, in red.
const PAGES_IN_RED: &str = r"
ab => 4^I\E[31mab\E[m^Iab    ^I6162  ^I\n
\E[31m => 4^I\E[31m\\033[31m\E[m^I\\E[31m^I1b5b33316d^I\n
";

/// A page of a row.
struct Written(Color);

impl Finds for Written {
    fn find(&self, given: &Given<'_, '_>, found: &mut Vec<u8>) -> Result<(), Unfound> {
        let mut page = Page::new(*found.allocator(), self.0);
        page.integer(4);
        page.put("\t");
        page.open(Style::Red);
        page.bytes(given.bytes);
        page.close();
        page.put("\t");
        for form in [Form::Notation, Form::Hex] {
            let start = page.len();
            page.shown(form, given.bytes);
            page.end_column(start, 6);
        }
        page.put("\n");
        Ok(found.extend_from_slice(page.finish(self.0)?.as_slice())?)
    }
}

#[test]
fn pages_are_plain(rt: HostRuntime) {
    check_rows(&rt, PAGES, &Written(Color::Never));
}

#[test]
fn pages_have_color(rt: HostRuntime) {
    check_rows(&rt, PAGES_IN_RED, &Written(Color::Always));
}

#[test]
fn a_page_with_color_is_none_without(rt: HostRuntime) {
    let page = Page::new(rt.alloc(), Color::Always);
    assert_that!(rt; page.finish(Color::Never).is_err());
}

/// Bytes, and a page of them as a label and as another page, in red, which is appended.
const PARTS: &str = r"
ab => ab|\E[31mab\E[m
a\sb^I => a\\sb\^I|\E[31ma b^I\E[m
caf\303\251 => caf\\303\\251|\E[31mcaf\\303\\251\E[m
- => |\E[31m\E[m
";

/// A page of a row, with another one appended.
struct Joined;

impl Finds for Joined {
    fn find(&self, given: &Given<'_, '_>, found: &mut Vec<u8>) -> Result<(), Unfound> {
        let mut other = Page::new(*found.allocator(), Color::Always);
        other.open(Style::Red);
        other.bytes(given.bytes);
        other.close();
        let mut page = Page::new(*found.allocator(), Color::Always);
        page.label(given.bytes);
        page.put("|");
        page.append(&other);
        Ok(found.extend_from_slice(page.finish(Color::Always)?.as_slice())?)
    }
}

#[test]
fn pages_are_joined(rt: HostRuntime) {
    check_rows(&rt, PARTS, &Joined);
}

#[test]
fn a_page_of_another_color_is_not_appended(rt: HostRuntime) {
    let mut page = Page::new(rt.alloc(), Color::Never);
    page.append(&Page::new(rt.alloc(), Color::Always));
    assert_that!(rt; page.is_refused());
}

/// Bytes, and a short page that has them as they stand and as a name.
const SHORT_PAGES: &str = r"
ab => -4  ab^Iab\n  9 end\n
caf\303\251 => -4  caf\\303\\251^Icaf\\303\\251\n  9 end\n
\E\177\000\377 => -4  \\033\\177\\000\\377^I\\E\^?\\000\\377\n  9 end\n
aaaaaaaaaabbbbbbbbbbccccccccccdddddddddd => -4  aaaaaaaaaabbbbbbbbbbccccccccccdddddddddd^Iaaaaaaaaaabbbbbbbbbbccccccccccdddddddddd\n  9 end\n
aaaaaaaaaabbbbbbbbbbccccccccccdddddddddde => -4  aaaaaaaaaabbbbbbbbbbccccccccccdddddddddde^I..\n  9 end\n
";

/// A short page of a row.
struct Short;

impl Finds for Short {
    fn find(&self, given: &Given<'_, '_>, found: &mut Vec<u8>) -> Result<(), Unfound> {
        let mut page = ShortPage::new();
        page.integer(-4);
        page.blanks(2);
        page.bytes(given.bytes);
        page.put("\t");
        page.name(given.bytes);
        page.put("\n  ");
        page.unsigned(9);
        page.put(" end\n");
        Ok(found.extend_from_slice(page.as_slice())?)
    }
}

#[test]
fn short_pages_are_plain(rt: HostRuntime) {
    check_rows(&rt, SHORT_PAGES, &Short);
}

#[test]
fn a_short_page_leaves_out_what_has_no_room(rt: HostRuntime) {
    let mut page = ShortPage::new();
    page.blanks(2046);
    page.bytes(b"a\xe9b");
    page.sentence("end");
    assert_that!(rt; page.as_slice().len() == 2048 && page.as_slice().ends_with(b" ab"));
}

/// Calls of a printer, and the document with a word if one of them did not fit: `{`, `[`, `end`, the name of a member after `k:`,
/// a string after `s:`, a member `m` that is a word after `w:`, a count after `c:`, a page after `p:`, or for `l` the name of the second
/// field, an object with the member `k` and those of another one after `o:`, and any other word as a number.
const DOCUMENTS: &str = r#"
7 => 7
s:a"\\\007b => "a\\"\\\\\\\\007b"
s:caf\303\251 => "caf\\\\303\\\\251"
s:~\177 => "~\\\\177"
{ w:a c:18446744073709551615 end => {"m":"a","m":18446744073709551615}
{ end => {}
[ end => []
{ k:a 1 k:b [ 2 s: { end end k:" -3 end => {"a":1,"b":[2,"",{}],"\\"":-3}
[ [ [ => [[[]]]
{ l end | a\sb^I\303\251 => {"m":"a\\\\sb\^I\\\\303\\\\251"}
{ l end | - => {"m":""}
{ p:a"\\ end => {"m":"a\\"\\\\"}
o:a => {"k":"w","m":"a"}
[ o:a o:b end => [{"k":"w","m":"a"},{"k":"w","m":"b"}]
{ k:n o:a k:" 1 end => {"n":{"k":"w","m":"a"},"\\"":1}
{ o:a end => {} misused
o: => null misused
[ o: end => [] misused
o:[ => null misused
o:{ => null misused
o:} => {"k":"w","m":"}"} misused
{ k:a => {"a":null} misused
- => null misused
1 2 => 1 misused
{ 1 end => {} misused
{ k:a k:b 2 end => {"a":2} misused
[ k:a 1 => [1] misused
end 1 => 1 misused
{ k:a end => {"a":null} misused
[ [ [ [ [ [ [ [ [ [ [ [ [ [ [ [ 1 => [[[[[[[[[[[[[[[[1]]]]]]]]]]]]]]]]
[ [ [ [ [ [ [ [ [ [ [ [ [ [ [ [ [ 1 => [[[[[[[[[[[[[[[[1]]]]]]]]]]]]]]]] misused
"#;

/// A document of calls.
struct Called;

/// An object with a member `m`; or an empty one, one that is left open, one that ends twice, or a list.
fn other_of<A: Allocator + Copy>(alloc: A, text: &str) -> Printer<A> {
    let mut printer = Printer::new(alloc);
    match text {
        "[" => printer.begin_list(),
        _ => printer.begin_object(),
    }
    if text.len() == 1 {
        printer.word("m", text);
    }
    if text != "{" {
        printer.end();
    }
    if text == "}" {
        printer.end();
    }
    printer
}

/// A page of a text.
fn page_of<A: Allocator + Copy>(alloc: A, text: &str) -> Page<A> {
    let mut page = Page::new(alloc, Color::Never);
    page.put(text);
    page
}

/// Makes a call of a printer, or writes a label of a name.
fn call<A: Allocator + Copy>(
    alloc: A,
    printer: &mut Printer<A>,
    name: &[u8],
    word: &str,
) -> Result<(), Unfound> {
    match word {
        "{" => printer.begin_object(),
        "[" => printer.begin_list(),
        "end" => printer.end(),
        "l" => printer.label("m", name),
        _ => match (word.get(..2), word.get(2..)) {
            (Some("k:"), Some(name)) => printer.key(name),
            (Some("s:"), Some(text)) => printer.string(text.as_bytes()),
            (Some("w:"), Some(text)) => printer.word("m", text),
            (Some("c:"), Some(count)) => printer.count("m", count.parse::<u64>()?),
            (Some("p:"), Some(text)) => printer.page("m", &page_of(alloc, text)),
            (Some("o:"), Some(text)) => printer.object("k", "w", &other_of(alloc, text)),
            _ => printer.integer(word.parse::<i32>()?),
        },
    }
    Ok(())
}

impl Finds for Called {
    fn find(&self, given: &Given<'_, '_>, found: &mut Vec<u8>) -> Result<(), Unfound> {
        let mut printer = Printer::new(*found.allocator());
        for word in given.words {
            call(*found.allocator(), &mut printer, given.second, *word)?;
        }
        only_if(!printer.is_refused())?;
        let is_misused = printer.is_misused();
        found.extend_from_slice(printer.finish()?.as_slice())?;
        if is_misused || found.starts_with(b"null") || found.ends_with(b":null}") {
            found.extend_from_slice(b" misused")?;
        }
        Ok(())
    }
}

#[test]
fn documents_are_one_value(rt: HostRuntime) {
    check_rows(&rt, DOCUMENTS, &Called);
}

/// A page and a document that hold 64 bytes each.
struct Grown;

/// What a page and a document give.
fn both_grown<A: Allocator + Copy>(alloc: A) -> Result<(Vec<u8, A>, Vec<u8, A>), AllocError> {
    let mut page = Page::new(alloc, Color::Never);
    page.formed(Form::Hex, &[7; 32]);
    let mut printer = Printer::new(alloc);
    printer.begin_object();
    printer.word("w", "ord");
    printer.text("t", &[b'a'; 40]);
    printer.count("c", 12345678);
    let document = printer.finish()?;
    Ok((page.finish(Color::Never)?, document))
}

impl Tries for Grown {
    fn is_given(&self, heap: &LocalHeap) -> Result<bool, Unfound> {
        match both_grown(heap) {
            Ok((page, document)) if page.len() == 64 && document.len() == 71 => Ok(true),
            Ok(_) => Err(Unfound),
            Err(AllocError) => Ok(false),
        }
    }
}

#[test]
fn each_growth_of_a_sink_is_refused_in_turn(rt: HostRuntime) {
    assert_that!(rt; tally_of(rt.alloc(), &Grown, 0, 32, 60).is_refused_then_given(4));
}
