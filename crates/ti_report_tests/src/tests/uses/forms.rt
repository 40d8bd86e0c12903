//! The findings on an entry that was taken over from termcap.

use std::test::Fail;
use ti_entry::read;
use ti_forms::{Color, report_json, report_lines};
use ti_rules::{Level, LintOptions, Trials, remarks_of};

/// An entry called `t` with `cup` as termcap writes `cm`.
const FILE: &[u8] = b"\x1a\x01\x02\0\0\0\0\0\x0b\0\x09\0t\0\
    \xff\xff\xff\xff\xff\xff\xff\xff\xff\xff\xff\xff\xff\xff\xff\xff\xff\xff\xff\xff\0\0\x1b=%+ %+ \0";

#[test]
fn an_entry_of_termcap(rt: HostRuntime) -> Result<(), Fail> {
    let entry = read(FILE)?;
    let alloc = rt.alloc();
    let trials = &mut Trials::new(alloc);
    let options = LintOptions {
        level: Level::Errors,
        untrusted: false,
    };
    let remarks = remarks_of(alloc, trials, options, FILE, &entry)?;
    let lines = report_lines(alloc, Color::Never, b"", remarks.as_slice())?;
    let wanted = br"cup
  \E=%+ %+\s
     ^  ^
  termcap-parameter: it pops a value, and the string has no %p
  do: push the parameter before it, such as with %p1
cup
  \E=%+ %+\s
        ^
  stack-residue: on some path the value that it pushes is left
  do: print the value, or leave it out
";
    assert!(rt; lines.as_slice() == wanted.as_slice());
    let json = report_json(alloc, remarks.as_slice())?;
    let wanted =
        br#"[{"finding":"termcap-parameter","fix":"push the parameter before it, such as with %p1","meaning":"it pops a value, and the string has no %p","places":[2,5],"subjects":[{"name":"cup","text":"\\E=%+ %+\\s"}]},{"finding":"stack-residue","fix":"print the value, or leave it out","meaning":"on some path the value that it pushes is left","places":[5],"subjects":[{"name":"cup","text":"\\E=%+ %+\\s"}]}]"#;
    assert!(rt; json.as_slice() == wanted.as_slice());
    Ok(())
}
