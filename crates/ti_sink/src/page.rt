//! A page of lines for people.

ghost use Rattle.std.specs.List.{list_all};
ghost use Rattle.std.specs.Prelude.{◌≡◌, ◌++◌, [], false, true, length, IfErr, IfOk, OnOk};
ghost use Rattle.ti_escape.specs.Notation.{label_notation};
ghost use Rattle.ti_sink.specs.Pages.{Keeps, StaysPage, Writes, as_page, in_page, is_page, is_plain as the_is_plain};

use crate::octal::octal;
use itoa::Buffer;
use std::alloc::{AllocError, Allocator, Global};
use std::marker::Model;
use ti_escape::{
    Color, Form, Style, push_closing, push_formed, push_label, push_opening, push_shown,
};

/// Lines for people. Each byte is a character from the space to `~`, a tab or the end of a line, and with color also one of a whole
/// control sequence SGR. Once memory was refused, there is no text.
#[derive(Drop)]
pub struct Page<A: Allocator = Global> {
    color: Color,
    bytes: Vec<u8, A>,
    /// For one string at a time.
    buffer: Vec<u8, A>,
    is_refused: bool,
}

impl<A: Allocator> Model for Page<A> {
    ghost use Rattle.std.specs.Prelude.{◌≡◌, true};
    ghost use Rattle.ti_sink.specs.Pages.{Paged, is_page};

    ghost Value = { Paged };

    ghost view = { λ p. record { color = p.color; bytes = p.bytes.items; is_refused = p.is_refused } };

    ghost invariant = { λ p. is_page p.color p.bytes.items ≡ true };
}

/// Whether a byte may stand in a page.
pub fn is_plain(byte: u8) -> bool
    ensures { result ≡ the_is_plain byte }
{
    (b' '..=b'~').contains(&byte) | (byte == b'\t') | (byte == b'\n')
}

/// Whether all bytes may. Each is looked at, also after one that may not, so that the compiler takes many of them at once.
fn are_plain(bytes: &[u8]) -> bool
    ensures { result ≡ list_all the_is_plain bytes.now }
{
    let mut plain = true;
    'bytes: for byte in bytes {
        plain &= is_plain(*byte);
    }
    plain
}

/// Appends characters that may stand in a page.
fn push_plain<A: Allocator>(out: &mut Vec<u8, A>, chars: &[u8]) -> Result<(), AllocError>
    requires { list_all the_is_plain chars.now ≡ true }
    ensures stays { StaysPage out.old.items out.new.items }
    ensures text { OnOk result (out.new.items ≡ out.old.items ++ chars.now) }
{
    out.extend_from_slice(chars)
}

/// Appends a byte. One that may not stand in a page is written in octal.
fn push_byte<A: Allocator>(out: &mut Vec<u8, A>, byte: u8) -> Result<(), AllocError>
    ensures stays { StaysPage out.old.items out.new.items }
    ensures text { OnOk result (out.new.items ≡ out.old.items ++ in_page byte) }
{
    if is_plain(byte) {
        push_plain(out, &[byte])
    } else {
        push_plain(out, &octal(byte))
    }
}

/// Appends bytes.
fn push_bytes<A: Allocator>(out: &mut Vec<u8, A>, bytes: &[u8]) -> Result<(), AllocError>
    ensures stays { StaysPage out.old.items out.new.items }
    ensures text { OnOk result (out.new.items ≡ out.old.items ++ as_page bytes.now) }
{
    if are_plain(bytes) {
        return push_plain(out, bytes);
    }
    'bytes: for byte in bytes {
        push_byte(out, *byte)?;
    }
    Ok(())
}

/// Appends a page of the same color.
fn push_page<A: Allocator>(
    out: &mut Vec<u8, A>,
    color: Color,
    page: &[u8],
) -> Result<(), AllocError>
    requires { is_page color page.now ≡ true }
    ensures stays { is_page color out.old.items ≡ true → is_page color out.new.items ≡ true }
    ensures text { OnOk result (out.new.items ≡ out.old.items ++ page.now) }
{
    out.extend_from_slice(page)
}

impl<A: Allocator> Page<A> {
    /// An empty page.
    pub fn new(alloc: A, color: Color) -> Page<A>
    where
        A: Copy,
        ensures color { result.color ≡ color }
        ensures bytes { result.bytes ≡ [] }
        ensures is_refused { result.is_refused ≡ false }
    {
        Page {
            color,
            bytes: Vec::new(alloc),
            buffer: Vec::new(alloc),
            is_refused: false,
        }
    }

    /// Whether memory was refused.
    pub fn is_refused(&self) -> bool
        ensures { result ≡ self.now.is_refused }
    {
        self.is_refused
    }

    /// Remembers that memory was refused for what should be written.
    pub fn refuse(&mut self)
        ensures kept { Keeps self.old self.new }
        ensures is_refused { self.new.is_refused ≡ true }
    {
        self.is_refused = true;
    }

    /// How many bytes were written.
    pub fn len(&self) -> usize
        ensures { result ≡ length self.now.bytes }
    {
        self.bytes.len()
    }

    /// Writes bytes. One that may not stand in a page is written in octal.
    pub fn bytes(&mut self, bytes: &[u8])
        ensures kept { Keeps self.old self.new }
        ensures text { Writes (as_page bytes.now) self.old self.new }
    {
        self.is_refused |= push_bytes(&mut self.bytes, bytes).is_err();
    }

    /// Writes a text, such as `height: `.
    pub fn put(&mut self, text: &str)
        ensures kept { Keeps self.old self.new }
        ensures text { Writes (as_page text.now) self.old self.new }
    {
        self.bytes(text.as_bytes())
    }

    /// Writes a number that is not negative.
    pub fn unsigned(&mut self, number: u64)
        ensures { Keeps self.old self.new }
    {
        self.put(Buffer::new().format(number))
    }

    /// Writes a number.
    pub fn integer(&mut self, number: i32)
        ensures { Keeps self.old self.new }
    {
        self.put(Buffer::new().format(number))
    }

    /// Writes what is in the buffer.
    fn flush(&mut self, is_refused: bool)
        ensures { Keeps self.old self.new }
    {
        self.is_refused |= is_refused;
        self.is_refused |= push_bytes(&mut self.bytes, self.buffer.as_slice()).is_err();
    }

    /// Writes a string in a form, such as `\E[H`.
    pub fn formed(&mut self, form: Form, text: &[u8])
        ensures { Keeps self.old self.new }
    {
        self.buffer.clear();
        let is_refused = push_formed(&mut self.buffer, form, text).is_err();
        self.flush(is_refused)
    }

    /// Writes a string in a form, or `-` if it has no bytes.
    pub fn shown(&mut self, form: Form, text: &[u8])
        ensures { Keeps self.old self.new }
    {
        self.buffer.clear();
        let is_refused = push_shown(&mut self.buffer, form, text).is_err();
        self.flush(is_refused)
    }

    /// Writes a name in the notation, with `\s` for each space.
    pub fn label(&mut self, name: &[u8])
        ensures kept { Keeps self.old self.new }
        ensures text { Writes (label_notation name.now) self.old self.new }
    {
        self.is_refused |= push_label(&mut self.bytes, name).is_err();
    }

    /// Writes another page, which has to be of the same color.
    pub fn append(&mut self, other: &Page<A>)
        ensures kept { Keeps self.old self.new }
        ensures text { Writes other.now.bytes self.old self.new }
        ensures refused { other.now.is_refused ≡ true → self.new.is_refused ≡ true }
    {
        if other.is_refused || other.color != self.color {
            self.is_refused = true;
        } else {
            self.is_refused |= push_page(
                &mut self.bytes,
                self.color,
                other.bytes.as_slice(),
            ).is_err();
        }
    }

    /// What was written.
    pub(crate) fn written(&self) -> &[u8]
        ensures { result.now ≡ self.now.bytes }
    {
        self.bytes.as_slice()
    }

    /// Writes spaces.
    pub fn blanks(&mut self, count: usize)
        ensures { Keeps self.old self.new }
    {
        'blanks: for _ in 0..count {
            self.put(" ");
        }
    }

    /// Fills a column that started at a place to its width, and ends it with a tab.
    pub fn end_column(&mut self, start: usize, width: usize)
        ensures { Keeps self.old self.new }
    {
        let end = self.bytes.len();
        self.blanks(start.saturating_add(width).saturating_sub(end));
        self.put("\t")
    }

    /// Starts a part that stands out, if there is color.
    pub fn open(&mut self, style: Style)
        ensures { Keeps self.old self.new }
    {
        self.is_refused |= push_opening(&mut self.bytes, self.color, style).is_err();
    }

    /// Ends it.
    pub fn close(&mut self)
        ensures { Keeps self.old self.new }
    {
        self.is_refused |= push_closing(&mut self.bytes, self.color).is_err();
    }

    /// Returns what was written, for the color in which the page was begun.
    ///
    /// # Errors
    /// Memory was refused, or the page was begun in another color.
    pub fn finish(self, color: Color) -> Result<Vec<u8, A>, AllocError>
        ensures printable { IfOk result (λ bytes. is_page color bytes.items ≡ true) }
        ensures written { IfOk result (λ bytes. (bytes.items ≡ self.bytes) × (self.is_refused ≡ false)) }
        ensures refused { color ≡ self.color → IfErr result (λ _. self.is_refused ≡ true) }
    {
        if self.is_refused || self.color != color {
            return Err(AllocError);
        }
        Ok(self.bytes)
    }
}
