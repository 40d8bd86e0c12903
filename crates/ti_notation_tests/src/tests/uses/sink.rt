//! A page without color, and a document, of a name that has a byte of another encoding.

use std::test::Fail;
use ti_escape::{Color, Style};
use ti_sink::{Page, Printer};

#[test]
fn a_name_is_written(rt: HostRuntime) -> Result<(), Fail> {
    let mut page = Page::new(rt.alloc(), Color::Never);
    page.open(Style::Bold);
    page.bytes(b"caf\xe9");
    page.close();
    page.put("\n");
    assert!(rt; page.finish(Color::Never)?.as_slice() == b"caf\\351\n".as_slice());

    let mut printer = Printer::new(rt.alloc());
    printer.begin_object();
    printer.key("name");
    printer.string(b"caf\xe9");
    assert!(rt; printer.finish()?.as_slice() == br#"{"name":"caf\\351"}"#.as_slice());
    Ok(())
}
