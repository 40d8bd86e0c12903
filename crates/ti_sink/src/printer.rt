//! A document of JSON.

ghost use Rattle.std.specs.List.{flat_map, list_all};
ghost use Rattle.std.specs.Prelude.{◌≡◌, ◌++◌, ℕ, List, [], false, true, IfErr, IfOk, IfSome, OnOk};
ghost use Rattle.ti_escape.specs.Laws.{is_printable};
ghost use Rattle.ti_sink.specs.Printed.{AddsObject, GoesOn, Keeps, StaysFront, as_string, first_member, in_string};

use crate::octal::octal;
use crate::page::Page;
use itoa::Buffer;
use std::alloc::{AllocError, Allocator, Global};
use std::marker::Model;
use ti_escape::{Form, push_formed, push_label};

/// How many objects and lists may be open.
const MOST_OPEN: usize = 16;

/// What was written last.
#[derive(Clone, Copy, PartialEq, Eq, Debug)]
enum Last {
    Nothing,
    Opening,
    Name,
    Value,
}

/// JSON without a space between tokens. Each byte is a character from the space to `~`. A call that does not fit, such as a value
/// without a name in an object, writes nothing and is remembered; the end closes what is open, so a document is one value. Once
/// memory was refused, there is no document.
#[derive(Drop)]
pub struct Printer<A: Allocator = Global> {
    bytes: Vec<u8, A>,
    /// For the notation of one string at a time.
    buffer: Vec<u8, A>,
    /// The ends of what is open, the innermost last.
    open: [u8; MOST_OPEN],
    depth: usize,
    last: Last,
    is_refused: bool,
    is_misused: bool,
}

impl<A: Allocator> Model for Printer<A> {
    ghost use Rattle.std.specs.List.{list_all};
    ghost use Rattle.std.specs.Prelude.{◌≡◌, true};
    ghost use Rattle.ti_escape.specs.Laws.{is_printable};
    ghost use Rattle.ti_sink.specs.Printed.{Printed};

    ghost Value = { Printed };

    ghost view = { λ p. record { bytes = p.bytes.items; is_refused = p.is_refused; is_misused = p.is_misused } };

    ghost invariant = { λ p. list_all is_printable p.bytes.items ≡ true };
}

/// Appends characters that need no escape.
fn push_chars<A: Allocator>(out: &mut Vec<u8, A>, chars: &[u8]) -> Result<(), AllocError>
    requires { list_all is_printable chars.now ≡ true }
    ensures kept { GoesOn out.old.items out.new.items }
    ensures text { OnOk result (out.new.items ≡ out.old.items ++ chars.now) }
{
    out.extend_from_slice(chars)
}

/// Appends a byte as it stands in a string.
fn push_byte<A: Allocator>(out: &mut Vec<u8, A>, byte: u8) -> Result<(), AllocError>
    ensures kept { GoesOn out.old.items out.new.items }
    ensures text { OnOk result (out.new.items ≡ out.old.items ++ in_string byte) }
{
    match byte {
        b'"' | b'\\' => push_chars(out, &[b'\\', byte]),
        b' '..=b'~' => push_chars(out, &[byte]),
        _ => {
            push_chars(out, b"\\")?;
            push_chars(out, &octal(byte))
        }
    }
}

/// Appends bytes as they stand in a string.
fn push_bytes<A: Allocator>(out: &mut Vec<u8, A>, bytes: &[u8]) -> Result<(), AllocError>
    ensures kept { GoesOn out.old.items out.new.items }
    ensures text { OnOk result (out.new.items ≡ out.old.items ++ flat_map in_string bytes.now) }
{
    'bytes: for byte in bytes {
        push_byte(out, *byte)?;
    }
    Ok(())
}

/// Appends bytes as a string.
fn push_string<A: Allocator>(out: &mut Vec<u8, A>, bytes: &[u8]) -> Result<(), AllocError>
    ensures kept { GoesOn out.old.items out.new.items }
    ensures text { OnOk result (out.new.items ≡ out.old.items ++ as_string bytes.now) }
{
    push_chars(out, b"\"")?;
    push_bytes(out, bytes)?;
    push_chars(out, b"\"")
}

/// Appends an object: a member that is a word, and the rest.
fn push_object<A: Allocator>(
    out: &mut Vec<u8, A>,
    name: &str,
    word: &str,
    rest: &[u8],
) -> Result<(), AllocError>
    requires { list_all is_printable rest.now ≡ true }
    ensures kept { GoesOn out.old.items out.new.items }
    ensures text { OnOk result ((more : List ℕ)
        × (out.new.items ≡ out.old.items ++ (first_member name.now word.now ++ more))) }
{
    push_chars(out, b"{")?;
    push_string(out, name.as_bytes())?;
    push_chars(out, b":")?;
    push_string(out, word.as_bytes())?;
    push_chars(out, b",")?;
    push_chars(out, rest)
}

impl<A: Allocator> Printer<A> {
    /// An empty document.
    pub fn new(alloc: A) -> Printer<A>
    where
        A: Copy,
        ensures bytes { result.bytes ≡ [] }
        ensures is_refused { result.is_refused ≡ false }
        ensures is_misused { result.is_misused ≡ false }
    {
        Printer {
            bytes: Vec::new(alloc),
            buffer: Vec::new(alloc),
            open: [0; MOST_OPEN],
            depth: 0,
            last: Last::Nothing,
            is_refused: false,
            is_misused: false,
        }
    }

    /// Whether memory was refused.
    pub fn is_refused(&self) -> bool
        ensures { result ≡ self.now.is_refused }
    {
        self.is_refused
    }

    /// Whether a call did not fit.
    pub fn is_misused(&self) -> bool
        ensures { result ≡ self.now.is_misused }
    {
        self.is_misused
    }

    /// The end of what is open, if anything is.
    fn innermost(&self) -> Option<u8> {
        match self.depth {
            0 => None,
            depth => self.open.get(depth - 1).copied(),
        }
    }

    /// Writes characters that need no escape.
    fn push(&mut self, chars: &str, last: Last)
        ensures { Keeps self.old self.new }
    {
        self.is_refused |= push_bytes(&mut self.bytes, chars.as_bytes()).is_err();
        self.last = last;
    }

    /// Whether a call fits, which is remembered if it does not. If it does, writes the comma before what is not the first.
    fn starts(&mut self, fits: bool) -> bool
        ensures kept { Keeps self.old self.new }
        ensures fits { result ≡ false → self.new.is_misused ≡ true }
    {
        self.is_misused |= !fits;
        if fits && self.last == Last::Value {
            self.push(",", Last::Value);
        }
        fits
    }

    /// The same for a value.
    fn starts_value(&mut self) -> bool
        ensures kept { Keeps self.old self.new }
        ensures fits { result ≡ false → self.new.is_misused ≡ true }
    {
        let fits = match self.last {
            Last::Nothing | Last::Name => true,
            Last::Opening | Last::Value => self.innermost() == Some(b']'),
        };
        self.starts(fits)
    }

    fn begin(&mut self, start: &str, end: u8)
        ensures { Keeps self.old self.new }
    {
        if self.depth == MOST_OPEN {
            self.is_misused = true;
        } else if self.starts_value() {
            self.push(start, Last::Opening);
            if let Some(place) = self.open.get_mut(self.depth) {
                *place = end;
                self.depth = self.depth.saturating_add(1);
            }
        }
    }

    /// Starts an object.
    pub fn begin_object(&mut self)
        ensures { Keeps self.old self.new }
    {
        self.begin("{", b'}')
    }

    /// Starts a list.
    pub fn begin_list(&mut self)
        ensures { Keeps self.old self.new }
    {
        self.begin("[", b']')
    }

    /// Ends the object or list that was started last.
    pub fn end(&mut self)
        ensures { Keeps self.old self.new }
    {
        match (self.last, self.innermost()) {
            (Last::Opening | Last::Value, Some(b'}')) => self.push("}", Last::Value),
            (Last::Opening | Last::Value, Some(_)) => self.push("]", Last::Value),
            _ => {
                self.is_misused = true;
                return;
            }
        }
        self.depth = self.depth.saturating_sub(1);
    }

    /// Writes the name of a member, whose value comes next.
    pub fn key(&mut self, name: &str)
        ensures { Keeps self.old self.new }
    {
        let fits = self.last != Last::Name && self.innermost() == Some(b'}');
        if self.starts(fits) {
            self.is_refused |= push_string(&mut self.bytes, name.as_bytes()).is_err();
            self.push(":", Last::Name);
        }
    }

    /// Writes a string. A byte that is not printable is written in octal.
    pub fn string(&mut self, bytes: &[u8])
        ensures { Keeps self.old self.new }
    {
        if self.starts_value() {
            self.is_refused |= push_string(&mut self.bytes, bytes).is_err();
            self.last = Last::Value;
        }
    }

    /// Writes a value that is no string.
    fn digits(&mut self, digits: &str)
        ensures { Keeps self.old self.new }
    {
        if self.starts_value() {
            self.push(digits, Last::Value);
        }
    }

    /// Writes a number that is not negative.
    pub fn unsigned(&mut self, number: u64)
        ensures { Keeps self.old self.new }
    {
        self.digits(Buffer::new().format(number))
    }

    /// Writes a number.
    pub fn integer(&mut self, number: i32)
        ensures { Keeps self.old self.new }
    {
        self.digits(Buffer::new().format(number))
    }

    /// Writes a member that is a word.
    pub fn word(&mut self, name: &str, word: &str)
        ensures { Keeps self.old self.new }
    {
        self.key(name);
        self.string(word.as_bytes())
    }

    /// Writes a member that is a number and not negative.
    pub fn count(&mut self, name: &str, count: u64)
        ensures { Keeps self.old self.new }
    {
        self.key(name);
        self.unsigned(count)
    }

    /// Writes a member that is true.
    pub fn yes(&mut self, name: &str)
        ensures { Keeps self.old self.new }
    {
        self.key(name);
        self.digits("true")
    }

    /// Writes a member that is the string in the buffer, for which memory was refused or not.
    fn buffered(&mut self, name: &str, is_refused: bool)
        ensures { Keeps self.old self.new }
    {
        self.is_refused |= is_refused;
        self.key(name);
        if self.starts_value() {
            self.is_refused |= push_string(&mut self.bytes, self.buffer.as_slice()).is_err();
            self.last = Last::Value;
        }
    }

    /// Writes a member that is a string in a form.
    pub fn formed(&mut self, name: &str, form: Form, text: &[u8])
        ensures { Keeps self.old self.new }
    {
        self.buffer.clear();
        let is_refused = push_formed(&mut self.buffer, form, text).is_err();
        self.buffered(name, is_refused)
    }

    /// Writes a member that is a string in the notation of terminfo(5).
    pub fn text(&mut self, name: &str, text: &[u8])
        ensures { Keeps self.old self.new }
    {
        self.formed(name, Form::Notation, text)
    }

    /// Writes a member that is a name in the notation, with `\s` for each space.
    pub fn label(&mut self, name: &str, label: &[u8])
        ensures { Keeps self.old self.new }
    {
        self.buffer.clear();
        let is_refused = push_label(&mut self.buffer, label).is_err();
        self.buffered(name, is_refused)
    }

    /// Writes a member that is `#` and a number, which calls what has no name.
    pub fn index(&mut self, name: &str, index: usize)
        ensures { Keeps self.old self.new }
    {
        let mut digits = Buffer::new();
        self.buffer.clear();
        let mut is_refused = self.buffer.extend_from_slice(b"#").is_err();
        is_refused |= self
            .buffer
            .extend_from_slice(digits.format(index).as_bytes())
            .is_err();
        self.buffered(name, is_refused)
    }

    /// Writes a member that is the text of a page.
    pub fn page(&mut self, name: &str, page: &Page<A>)
        ensures kept { Keeps self.old self.new }
        ensures refused { page.now.is_refused ≡ true → self.new.is_refused ≡ true }
    {
        self.is_refused |= page.is_refused();
        self.key(name);
        self.string(page.written())
    }

    /// What stands after the `{` of a whole object that has members; nothing of another document.
    fn members(&self) -> Option<&[u8]>
        ensures { IfSome result (λ rest. list_all is_printable rest.now ≡ true) }
    {
        match self.bytes.as_slice() {
            [b'{', rest @ ..] if self.depth == 0 && rest.len() > 1 => Some(rest),
            _ => None,
        }
    }

    /// Writes an object: a member that is a word, and then the members of another object, which has some.
    pub fn object(&mut self, name: &str, word: &str, other: &Printer<A>)
        ensures kept { Keeps self.old self.new }
        ensures object { AddsObject (first_member name.now word.now) self.old self.new }
        ensures refused { other.now.is_refused ≡ true → self.new.is_refused ≡ true }
        ensures misused { other.now.is_misused ≡ true → self.new.is_misused ≡ true }
    {
        self.is_refused |= other.is_refused;
        self.is_misused |= other.is_misused;
        let Some(rest) = other.members() else {
            self.is_misused = true;
            return;
        };
        if self.starts_value() {
            self.is_refused |= push_object(&mut self.bytes, name, word, rest).is_err();
            self.last = Last::Value;
        }
    }

    /// Closes what is open. What lacks a value gets `null`.
    fn close(&mut self)
        ensures { Keeps self.old self.new }
    {
        if matches!(self.last, Last::Nothing | Last::Name) {
            self.push("null", Last::Value);
        }
        'brackets: for _ in 0..MOST_OPEN {
            if self.depth > 0 {
                self.end();
            }
        }
    }

    /// Returns the document.
    ///
    /// # Errors
    /// Memory was refused.
    pub fn finish(mut self) -> Result<Vec<u8, A>, AllocError>
        ensures printable { IfOk result (λ bytes. list_all is_printable bytes.items ≡ true) }
        ensures written { IfOk result (λ bytes. StaysFront self.bytes bytes.items) }
        ensures refused { IfOk result (λ _. self.is_refused ≡ false) }
    {
        self.close();
        if self.is_refused {
            return Err(AllocError);
        }
        Ok(self.bytes)
    }
}
