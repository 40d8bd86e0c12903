//! Runs over files that are named, and over a folder.

use super::ending::{End, add_end, destination};
use crate::tests::check_rows;
use std::alloc::{Allocator, Global};
use std::io;
use std::io::ErrorKind;
use ti_fixtures::entries::{EXTENDED, EXTENDED_BY_TIC, QUESTION, SMALL, WIDE_BY_TIC, WIDENED};
use ti_fixtures::{Finds, Given, Sink, Source, Unfound};
use ti_tool::{Files, FoundFile, Store, Terminals, one_file, read_contents, run_at};

/// The small entry with an extended flag A twice: it is set, and it is not.
const TWICE: &[u8] =
    b"\x1a\x01\x02\0\x01\0\x01\0\x02\0\x02\0t\0\x01\0P\0\xff\xff\0\0\x07\0\x02\0\0\0\0\0\x02\0\x04\0\x01\0\0\0\x02\0A\0A\0";

/// The small entry with an extended flag A, which is set.
const ONCE: &[u8] =
    b"\x1a\x01\x02\0\x01\0\x01\0\x02\0\x02\0t\0\x01\0P\0\xff\xff\0\0\x07\0\x01\0\0\0\0\0\x01\0\x02\0\x01\0\0\0A\0";

/// The small entry with an enquiry in `bel`.
const ASKING: &[u8] = b"\x1a\x01\x02\0\x01\0\x01\0\x02\0\x02\0t\0\x01\0P\0\xff\xff\0\0\x05\0";

/// The small entry with two percent signs in `bel`, which nothing expands.
const PERCENT: &[u8] = b"\x1a\x01\x02\0\x01\0\x01\0\x02\0\x04\0t\0\x01\0P\0\xff\xff\0\0\x07%%\0";

/// The small entry with a newline in `bel` by a constant of digits.
const DIGITS: &[u8] = b"\x1a\x01\x02\0\x01\0\x01\0\x02\0\x08\0t\0\x01\0P\0\xff\xff\0\0%{10}%c\0";

/// The same by a constant between apostrophes.
const QUOTED: &[u8] = b"\x1a\x01\x02\0\x01\0\x01\0\x02\0\x07\0t\0\x01\0P\0\xff\xff\0\0%'\n'%c\0";

/// The small entry with numbers of 32 bits, and 32768 columns.
const FAR: &[u8] = b"\x1e\x02\x02\0\x01\0\x01\0\x01\0\x02\0t\0\x01\0\0\x80\0\0\0\0\x07\0";

/// The same with 80 columns, and an extended number A of 70000.
const FAR_OWN: &[u8] =
    b"\x1e\x02\x02\0\x01\0\x01\0\x01\0\x02\0t\0\x01\0P\0\0\0\0\0\x07\0\0\0\x01\0\0\0\x01\0\x02\0\x70\x11\x01\0\0\0A\0";

/// An entry with 24 lines, 80 columns and `cup`.
const MOVES: &[u8] =
    b"\x1a\x01\x02\0\0\0\x03\0\x0b\0\x11\0t\0P\0\xff\xff\x18\0\xff\xff\xff\xff\xff\xff\xff\xff\xff\xff\xff\xff\xff\xff\xff\xff\xff\xff\xff\xff\0\0\x1b[%i%p1%d;%p2%dH\0";

/// The same with a `cup` of which two things are wrong.
const WRONG: &[u8] =
    b"\x1a\x01\x02\0\0\0\x03\0\x0b\0\x09\0t\0P\0\xff\xff\x18\0\xff\xff\xff\xff\xff\xff\xff\xff\xff\xff\xff\xff\xff\xff\xff\xff\xff\xff\xff\xff\0\0\x1b[%ga%dH\0";

/// The small entry with an extended text `nel` that is no capability.
const OWN: &[u8] =
    b"\x1a\x01\x02\0\x01\0\x01\0\x02\0\x02\0t\0\x01\0P\0\xff\xff\0\0\x07\0\0\0\0\0\x01\0\x02\0\x07\0\0\0\0\0%;\0nel\0";

/// The small entry with an extended text of which nothing is known.
const UNKNOWN: &[u8] =
    b"\x1a\x01\x02\0\x01\0\x01\0\x02\0\x02\0t\0\x01\0P\0\xff\xff\0\0\x07\0\0\0\0\0\x01\0\x02\0\x06\0\0\0\0\0a\0xyz\0";

/// An entry with 32767 columns, and a virtual terminal 40000.
const EDGE: &[u8] =
    b"\x1e\x02\x02\0\x01\0\x07\0\x02\0\x02\0t\0\x01\0\xff\x7f\0\0\xff\xff\xff\xff\xff\xff\xff\xff\xff\xff\xff\xff\xff\xff\xff\xff\xff\xff\xff\xff@\x9c\0\0\xff\xff\0\0\x07\0";

/// An entry with the flag `mir` alone.
const MIR: &[u8] = b"\x1a\x01\x02\0\x0e\0\0\0\0\0\0\0t\0\0\0\0\0\0\0\0\0\0\0\0\0\0\x01";

/// An entry with a delay alone in `cbt`.
const SLOW: &[u8] = b"\x1a\x01\x02\0\0\0\0\0\x01\0\x0a\0t\0\0\0$<99999*>\0";

/// The files of a shelf: their names and contents.
const SHELF: &[(&str, &[u8])] = &[
    ("small", SMALL),
    ("more\x1b", EXTENDED),
    ("folder/fault", QUESTION),
    ("folder/whole", EXTENDED),
    ("cut", b"\x1a\x01\x02\0\x01"),
    ("widened", WIDENED),
    ("tic", EXTENDED_BY_TIC),
    ("wide", WIDE_BY_TIC),
    ("twice", TWICE),
    ("once", ONCE),
    ("asking", ASKING),
    ("percent\x1b", PERCENT),
    ("digits", DIGITS),
    ("quoted", QUOTED),
    ("own", OWN),
    ("unknown", UNKNOWN),
    ("edge", EDGE),
    ("packed", b"\x1f\x9d\x90"),
    ("mir", MIR),
    ("slow", SLOW),
    ("moves", MOVES),
    ("wrong", WRONG),
    (",", SMALL),
    ("far", FAR),
    ("far-own", FAR_OWN),
    ("gzip", b"\x1f\x8b\x08\0"),
    ("elf", b"\x7fELF\x02"),
    ("html", b"<html>"),
    ("source", b"xterm|x,"),
    ("damaged", b"\x1a\x01\x02\0\0\0\0\0\0\0\0\0tt"),
    ("vast", b"\x1a\x01\x02\0\0\0\0\0\0\0\xff\x7ft\0"),
    (
        "after",
        b"\x1a\x01\x02\0\x01\0\x01\0\x02\0\x02\0t\0\x01\0P\0\xff\xff\0\0\x07\0\x01\0\0\0\0\0\x01\0\x02\0\x01\0\0\0A\0x",
    ),
];

/// Files in memory, a folder with two of them and a name that is not valid UTF-8, and an empty folder.
struct Shelf;

/// Adds a file of the folder.
fn put<A: Allocator + Copy>(
    alloc: A,
    files: &mut Files<A>,
    name: &str,
    fault: Option<io::Error>,
) -> io::Result<()> {
    let name = String::from_str(alloc, name)?;
    files.found.push(FoundFile { name, fault })?;
    Ok(())
}

impl Store for Shelf {
    fn find<A: Allocator + Copy>(&self, alloc: A, name: &str) -> io::Result<Files<A>> {
        if name == "closed" {
            return Err(io::Error::from(ErrorKind::PermissionDenied));
        }
        if name == "empty" || name == "-" {
            return Ok(Files {
                found: Vec::new(alloc),
                are_in_folder: true,
            });
        }
        if name != "folder" {
            return Ok(one_file(alloc, name, None)?);
        }
        let invalid = io::Error::from(ErrorKind::InvalidFilename);
        let mut files = one_file(alloc, "folder", Some(invalid))?;
        put(alloc, &mut files, "folder/fault", None)?;
        put(alloc, &mut files, "folder/whole", None)?;
        files.are_in_folder = true;
        Ok(files)
    }

    fn read<A: Allocator>(&self, name: &str, contents: &mut Vec<u8, A>) -> io::Result<()> {
        let mut source = Source::new(bytes_of(name)?, 7);
        read_contents(&mut source, contents)
    }
}

/// The bytes of a file on the shelf.
fn bytes_of(name: &str) -> io::Result<&'static [u8]> {
    for (known, bytes) in SHELF {
        if *known == name {
            return Ok(*bytes);
        }
    }
    Err(io::Error::from(ErrorKind::NotFound))
}

/// Words, whether results and fault lines go to a terminal or to a file, and the status with what is written.
const ROWS: &str = r##"
ti show small | file => 0 out format: legacy\nnames: t\nflag bw\nnumber cols 80\ntext bel 07\n
# the input has another text
ti show small - | file => 0 out file: small\nformat: legacy\nnames: t\nflag bw\nnumber cols 80\ntext bel 07\nfile: -\nformat: legacy\nnames: t\nflag bw\nnumber cols 80\ntext bel 1b5b3f255b3b303132333435363738395d63\n
ti show --escape small - | file => 0 out file: small\nformat: legacy\nnames: t\nflag bw\nnumber cols 80\ntext bel \^G\nfile: -\nformat: legacy\nnames: t\nflag bw\nnumber cols 80\ntext bel \\E[?%[;0123456789]c\n
ti check - small | terminal => 1 out -: text bel fault UnknownEscape at 3\nsmall: text bel ok depth 0 bound 1\n
# the second time it has nothing left
ti show - - | file => 3 out file: -\nformat: legacy\nnames: t\nflag bw\nnumber cols 80\ntext bel 1b5b3f255b3b303132333435363738395d63\n err standard input: entry: Truncated at 0\n
ti show --entry small | file => 0 out format: legacy\nnames: t\nflag bw\nnumber cols 80\ntext bel 07\n
ti check more\E --entry small | file => 0 out small: text bel ok depth 0 bound 1\nmore\E: text bel ok depth 0 bound 1\nmore\E: text+ E3 ok depth 0 bound 4\n
ti check --entry=- | file => 1 out text bel fault UnknownEscape at 3\n
ti show --json small | terminal => 0 out [{"kind":"format","value":"legacy"},{"kind":"names","value":"t"},{"kind":"flag","name":"bw","value":true},{"kind":"number","name":"cols","value":80},{"hex":"07","kind":"text","name":"bel","value":"\^G"}]\n
# a file that is no entry has no document
ti show --json more\E cut small | file => 3 out {"file":"more\\\\E","items":[{"kind":"format","value":"legacy"},{"kind":"names","value":"t"},{"kind":"flag","name":"bw","value":true},{"kind":"number","name":"cols","value":80},{"hex":"07","kind":"text","name":"bel","value":"\^G"},{"kind":"flag","name":"AX","own":true,"value":true},{"hex":"1b5b334a","kind":"text","name":"E3","own":true,"value":"\\\\E[3J"}]}\n{"file":"small","items":[{"kind":"format","value":"legacy"},{"kind":"names","value":"t"},{"kind":"flag","name":"bw","value":true},{"kind":"number","name":"cols","value":80},{"hex":"07","kind":"text","name":"bel","value":"\^G"}]}\n err cut: entry: Truncated at 5\n
ti show --json , cut | file => 3 out {"file":"\\\\,","items":[{"kind":"format","value":"legacy"},{"kind":"names","value":"t"},{"kind":"flag","name":"bw","value":true},{"kind":"number","name":"cols","value":80},{"hex":"07","kind":"text","name":"bel","value":"\^G"}]}\n err cut: entry: Truncated at 5\n
ti check more\E small | file => 0 out more\E: text bel ok depth 0 bound 1\nmore\E: text+ E3 ok depth 0 bound 4\nsmall: text bel ok depth 0 bound 1\n
ti check --escape more\E small | file => 0 out more\\E: text bel ok depth 0 bound 1\nmore\\E: text+ E3 ok depth 0 bound 4\nsmall: text bel ok depth 0 bound 1\n
ti check more\E small | terminal => 0 out more\\E: text bel ok depth 0 bound 1\nmore\\E: text+ E3 ok depth 0 bound 4\nsmall: text bel ok depth 0 bound 1\n
# at a terminal strings are in the notation, and advice comes after the line on a fault
ti show small | terminal => 0 out format: legacy\nnames: t\nflag bw\nnumber cols 80\ntext bel \^G\n
ti show none | terminal => 5 err none: entity not found; ti takes files, such as "$(ti-path none)"\n
ti show cut | terminal => 3 err cut: entry: Truncated at 5\n  the file ends before the entry does\n
# an entry in place of a capability
ti trace | terminal => 4 err capability: UnknownEscape at 25\n  \^Z\^A\^B\\000\^A\\000\^A\\000\^B\\000\^S\\000t\\000\^A\\000P\\000\\377\\377\\000\\000\\E[?%[;0123456789]c\\000\n                                                                        \^\n  this is no escape of terminfo(5); %d prints a number, %% a percent sign\n
# of bytes that are no entry, what they are
ti show gzip | terminal => 3 err gzip: entry: BadMagic at 0\n  this is compressed by gzip; decompress it\n
ti show packed | terminal => 3 err packed: entry: BadMagic at 0\n  this is no compiled entry; compile a terminfo source with tic -x\n
ti diff gzip small | terminal => 3 err gzip: entry: BadMagic at 0\n  this is compressed by gzip; decompress it\n
ti diff small gzip | terminal => 3 err gzip: entry: BadMagic at 0\n  this is compressed by gzip; decompress it\n
ti show elf | terminal => 3 err elf: entry: BadMagic at 0\n  this is a program or a library\n
ti show html | terminal => 3 err html: entry: BadMagic at 0\n  this is HTML or XML\n
ti show source | terminal => 3 err source: entry: BadMagic at 0\n  this is no compiled entry; compile a terminfo source with tic -x\n
ti show damaged | terminal => 3 err damaged: entry: BadNames at 13\n  the file is damaged; compile the source again with tic -x\n
ti show vast | terminal => 3 err vast: entry: HeaderTooBig at 0\n  an entry has at most 32768 bytes\n
ti show after | terminal => 3 err after: entry: Trailing at 40\n  bytes follow the end of the entry\n
ti show - - | terminal => 3 out file: -\nformat: legacy\nnames: t\nflag bw\nnumber cols 80\ntext bel \\E[?%[;0123456789]c\n err standard input: entry: Truncated at 0\n  the file is empty\n
# a number that has no room, by its name
ti convert far | terminal => 2 err convert: not to a terminal without --force\n
ti convert --force --narrow far | terminal => 3 err far: entry: NumberOutOfRange\n  cols is 32768, which is above 32767 and needs numbers of 32 bits\n
ti convert --force --narrow far-own | terminal => 3 err far-own: entry: NumberOutOfRange\n  A is 70000, which is above 32767 and needs numbers of 32 bits\n
ti trace --color=red | file => 2 err --color: auto, always or never\n
ti diff cut small | terminal => 3 err cut: entry: Truncated at 5\n  the file ends before the entry does\n
ti get bel 1 --entry - | terminal => 4 err capability: UnknownEscape at 3\n  \\E[?%[;0123456789]c\n      \^\n  this is no escape of terminfo(5); %d prints a number, %% a percent sign\n
ti expand bel | terminal => 4 err capability: UnknownEscape at 3\n  \\E[?%[;0123456789]c\n      \^\n  this is no escape of terminfo(5); %d prints a number, %% a percent sign\n
ti trace --of bel --entry - | terminal => 4 err capability: UnknownEscape at 3\n  \\E[?%[;0123456789]c\n      \^\n  this is no escape of terminfo(5); %d prints a number, %% a percent sign\n
ti expand nel --entry small | terminal => 4 err small: capability: absent\n  ti get takes this name; --all-names takes the short names of all strings\n
ti expand --all-names newline --entry small | terminal => 4 err small: capability: absent\n  ti get takes this name; --all-names takes the short names of all strings\n
ti expand cup --entry small | terminal => 4 err small: capability: absent\n
ti expand cols --entry small | terminal => 4 err small: capability: absent\n  ti get takes this name; --all-names takes the short names of all strings\n
ti expand #0 --rate 1000000 --lines 65535 --entry slow | terminal => 4 err slow: capability: TooMuch 6553434465000\n  lower --rate or --lines\n
# only show, check and lint take a folder
ti convert folder | file => 5 err folder: entity not found; ti takes files, such as "$(ti-path folder)"\n
ti get cols --entry folder | file => 5 err folder: entity not found; ti takes files, such as "$(ti-path folder)"\n
# without --all-names the entry's own nel is meant
ti expand nel --entry own | terminal => 4 err own: capability: StrayEnd at 0\n  %;\n  \^\n  %; needs a %? before it\n
ti show Zz | terminal => 5 err Zz: entity not found; ti takes files, such as "$(ti-path Zz)"\n
ti show closed | file => 5 err closed: permission denied\n
ti show xterm.js | terminal => 5 err xterm.js: entity not found; ti takes files, such as "$(ti-path xterm.js)"\n
ti show azAZ09+-._ | terminal => 5 err azAZ09+-._: entity not found; ti takes files, such as "$(ti-path azAZ09+-._)"\n
ti convert --force --narrow edge | terminal => 3 err edge: entry: NumberOutOfRange\n  vt is 40000, which is above 32767 and needs numbers of 32 bits\n
ti check folder | file => 5 out folder/fault: text bel fault UnknownEscape at 3\nfolder/whole: text bel ok depth 0 bound 1\nfolder/whole: text+ E3 ok depth 0 bound 4\n err folder: invalid filename\n
ti check --json folder | file => 5 out {"file":"folder/fault","verdicts":[{"fault":"UnknownEscape","kind":"text","name":"bel","place":3}]}\n{"file":"folder/whole","verdicts":[{"bound":1,"depth":0,"kind":"text","name":"bel"},{"bound":4,"depth":0,"kind":"text","name":"E3","own":true}]}\n err folder: invalid filename\n
ti check - | file => 1 out text bel fault UnknownEscape at 3\n
# a folder without a file is reported
ti check empty | file => 5 err empty: no entry was read\n
ti show empty | file => 5 err empty: no entry was read\n
ti show --json empty | file => 5 err empty: no entry was read\n
ti lint empty | file => 5 err empty: no entry was read\n
ti lint --json empty cut empty | file => 5 err cut: entry: Truncated at 5\nempty: no entry was read\nempty: no entry was read\n
ti check none\E cut small | file => 5 out small: text bel ok depth 0 bound 1\n err none\\E: entity not found\ncut: entry: Truncated at 5\n
ti convert cut | file => 3 err cut: entry: Truncated at 5\n
ti get cols --entry small | file => 0 out 80\n
ti get cup --entry small | file => 4 err small: get: cup: absent\n
ti trace --of cup --entry small | file => 4 err small: trace: cup: no such string\n
ti trace --of cup --entry small | terminal => 4 err small: trace: cup: no such string\n
ti expand bel -x --entry=small | file => 0 out 07\n
"##;

/// Runs the program over the shelf, and a writer that fails at this write.
fn end_at(alloc: Global, words: &[&str], at_terminal: bool, fails_at: usize) -> End {
    let mut output = Sink::failing_at(alloc, usize::MAX, fails_at);
    let mut errors = Sink::new(alloc);
    let mut input = Source::new(QUESTION, 100);
    let at = Terminals {
        output: destination(at_terminal),
        errors: at_terminal,
        ..Terminals::NONE
    };
    let status = run_at(
        &Shelf,
        alloc,
        alloc,
        at,
        words,
        &mut input,
        &mut output,
        &mut errors,
    );
    End {
        status,
        output: output.taken,
        errors: errors.taken,
        reads: input.calls,
    }
}

/// How the run of a row over the shelf ends.
pub struct ShelfEnd;

impl Finds for ShelfEnd {
    fn find(&self, given: &Given<'_, '_>, found: &mut Vec<u8>) -> Result<(), Unfound> {
        let is_terminal = given.fields()[1] == "terminal";
        let end = end_at(*found.allocator(), given.words, is_terminal, usize::MAX);
        add_end(found, &end)
    }
}

#[test]
fn files_are_done_one_after_another(rt: HostRuntime) {
    check_rows(&rt, ROWS, &ShelfEnd);
}

/// How the run of a row over the shelf ends if this write of results fails.
pub struct ShelfEndOfWrite(pub usize);

impl Finds for ShelfEndOfWrite {
    fn find(&self, given: &Given<'_, '_>, found: &mut Vec<u8>) -> Result<(), Unfound> {
        add_end(
            found,
            &end_at(*found.allocator(), given.words, false, self.0),
        )
    }
}

/// Results of two files, of which the second cannot be written.
const STOPPED: &str = r"
ti check more\E small => 5 out more\E: text bel ok depth 0 bound 1\nmore\E: text+ E3 ok depth 0 bound 4\n err output: failed\n
";

#[test]
fn files_stop_where_results_cannot_be_written(rt: HostRuntime) {
    check_rows(&rt, STOPPED, &ShelfEndOfWrite(2));
}

/// Faults of files before one whose result can't be written, and a file after it.
const TOLD: &str = r#"
ti check cut none small small => 5 err cut: entry: Truncated at 5\nnone: entity not found; ti takes files, such as "$(ti-path none)"\noutput: failed\n
"#;

#[test]
fn faults_before_a_failed_write_are_told(rt: HostRuntime) {
    check_rows(&rt, TOLD, &ShelfEndOfWrite(1));
}
