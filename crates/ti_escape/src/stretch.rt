//! A text in stretches: bytes that are written as they are, and bytes that are written another way.
//!
//! The next stretch is found by one look at its bytes. No memory is taken.

ghost use Rattle.std.specs.Prelude.{◌≡◌, ◌≤◌, ◌<◌, ◌+◌, ◌-◌, ◌*◌, ◌++◌, ◌∷◌, [], length, drop, slice_index};
ghost use Rattle.std.specs.List.{prefix_len};
ghost use Rattle.ti_escape.specs.Notation.{byte_notation, end_notation, first_notation, label_notation, looks_like_a_word as the_looks_like_a_word, notation};
ghost use Rattle.ti_escape.specs.inner.Stretch.{is_plain as the_is_plain, least_plain as the_least_plain, span_notation, spaced_notation, stretch_notation};

use std::slice;

/// Bytes that are written as they are, or how one byte is written.
#[derive(Clone, Copy)]
pub enum Stretch<'a> {
    /// As they are.
    Plain(&'a [u8]),
    /// `\` and this character.
    Backslash(u8),
    /// `^` and this character.
    Caret(u8),
    /// `\` and the three octal digits of this byte.
    Octal(u8),
}

/// How a space is written.
#[derive(Clone, Copy)]
pub enum Space {
    /// As it is: within a text.
    Kept,
    /// As `\s`: at an end of a text, and in a label.
    Escaped,
}

/// Bytes that are all written in one way, and the byte before them.
#[derive(Clone, Copy)]
pub struct Span<'a> {
    pub space: Space,
    /// 0 if there is none.
    pub before: u8,
    pub bytes: &'a [u8],
}

/// The stretch at the front of a span, and the span after it.
#[derive(Clone, Copy)]
pub struct Front<'a> {
    pub stretch: Stretch<'a>,
    pub rest: Span<'a>,
}

/// A text as its ends, which are written as such, and the bytes between them.
#[derive(Clone, Copy)]
pub struct Parts<'a> {
    pub first: Stretch<'a>,
    pub middle: Span<'a>,
    pub last: Stretch<'a>,
}

impl Stretch<'_> {
    /// The number of the characters of its notation.
    pub fn len(&self) -> usize
        ensures { result ≡ length (stretch_notation self.now) }
    {
        match self {
            Stretch::Plain(bytes) => bytes.len(),
            Stretch::Backslash(_) | Stretch::Caret(_) => 2,
            Stretch::Octal(_) => 4,
        }
    }
}

/// The least byte that is written as it is.
fn least_plain(space: Space) -> u8
    ensures { result ≡ the_least_plain space }
{
    match space {
        Space::Kept => b' ',
        Space::Escaped => b'!',
    }
}

/// Whether the byte is written as it is.
fn is_plain(space: Space, byte: u8) -> bool
    ensures { result ≡ the_is_plain space byte }
{
    (least_plain(space)..=b'~').contains(&byte) && byte != b'\\' && byte != b'^' && byte != b','
}

/// How many bytes at the front are written as they are.
fn plain_len(space: Space, bytes: &[u8]) -> usize
    ensures count { result ≡ prefix_len (the_is_plain space) bytes.now }
    ensures within { result ≤ length bytes.now }
{
    bytes.iter().take_while(|b| is_plain(space, **b)).count()
}

/// How the byte is written within a text, after another byte.
fn byte_stretch(before: u8, byte: &u8) -> Stretch<'_>
    ensures notation { stretch_notation result ≡ byte_notation before byte.now }
    ensures few { length (stretch_notation result) ≤ 4 }
{
    match *byte {
        27 => Stretch::Backslash(b'E'),
        b'\\' | b'^' | b',' => Stretch::Backslash(*byte),
        32..=126 => Stretch::Plain(slice::from_ref(byte)),
        0 | 128..=255 => Stretch::Octal(*byte),
        _ if before == b'%' => Stretch::Octal(*byte),
        127 => Stretch::Caret(b'?'),
        _ => Stretch::Caret(*byte + 64),
    }
}

/// How the byte is written at an end of a text, after another byte.
fn end_stretch(before: u8, byte: &u8) -> Stretch<'_>
    ensures notation { stretch_notation result ≡ end_notation before byte.now }
    ensures few { length (stretch_notation result) ≤ 4 }
{
    match *byte {
        b' ' => Stretch::Backslash(b's'),
        _ => byte_stretch(before, byte),
    }
}

/// How the byte is written, after another byte.
fn spaced_stretch(space: Space, before: u8, byte: &u8) -> Stretch<'_>
    ensures notation { stretch_notation result ≡ spaced_notation space before byte.now }
    ensures few { length (stretch_notation result) ≤ 4 }
{
    match space {
        Space::Kept => byte_stretch(before, byte),
        Space::Escaped => end_stretch(before, byte),
    }
}

/// Whether the text would look like what a listing writes in place of a text.
fn looks_like_a_word(text: &[u8]) -> bool
    ensures { result ≡ the_looks_like_a_word text.now }
{
    text == b"-".as_slice() || text == b"cancelled".as_slice()
}

/// How the first byte of a text is written.
pub fn start_stretch<'a>(text: &[u8], byte: &'a u8) -> Stretch<'a>
    requires { 0 < length text.now × (byte.now ≡ slice_index text.now 0) }
    ensures notation { stretch_notation result ≡ first_notation byte.now (drop 1 text.now) }
    ensures few { length (stretch_notation result) ≤ 4 }
{
    if looks_like_a_word(text) {
        Stretch::Octal(*byte)
    } else {
        end_stretch(0, byte)
    }
}

/// The parts of a text.
pub fn parts_of(text: &[u8]) -> Parts<'_>
    ensures notation { notation text.now ≡ stretch_notation result.first
        ++ span_notation result.middle ++ stretch_notation result.last }
    ensures few { length (stretch_notation result.first) + 4 * length result.middle.bytes.now
        + length (stretch_notation result.last) ≤ 4 * length text.now }
{
    const NONE: Stretch<'static> = Stretch::Plain(&[]);
    const NO_BYTES: Span<'static> = Span {
        space: Space::Kept,
        before: 0,
        bytes: &[],
    };
    match text {
        [] => Parts {
            first: NONE,
            middle: NO_BYTES,
            last: NONE,
        },
        [byte] => Parts {
            first: start_stretch(text, byte),
            middle: NO_BYTES,
            last: NONE,
        },
        [byte, middle @ .., last] => Parts {
            first: start_stretch(text, byte),
            middle: Span {
                space: Space::Kept,
                before: *byte,
                bytes: middle,
            },
            last: end_stretch(text[text.len() - 2], last),
        },
    }
}

/// A name whose spaces are all escaped, as a span.
pub fn label_of(name: &[u8]) -> Span<'_>
    ensures { span_notation result ≡ label_notation name.now }
{
    Span {
        space: Space::Escaped,
        before: 0,
        bytes: name,
    }
}

/// A span without its first `len` bytes.
fn without(span: Span<'_>, len: usize) -> Span<'_>
    requires { 0 < len × len ≤ length span.bytes.now }
    ensures space { result.space ≡ span.entry.space }
    ensures before { result.before ≡ slice_index span.entry.bytes.now (len - 1) }
    ensures bytes { result.bytes.now ≡ drop len span.entry.bytes.now }
{
    Span {
        space: span.space,
        before: span.bytes[len - 1],
        bytes: &span.bytes[len..],
    }
}

/// The stretch at the front: all bytes up to one that is not written as it is, or such a byte.
pub fn first_stretch(span: Span<'_>) -> Front<'_>
    requires { 0 < length span.bytes.now }
    ensures notation { span_notation span.entry
        ≡ stretch_notation result.stretch ++ span_notation result.rest }
    ensures shorter { length result.rest.bytes.now < length span.entry.bytes.now }
    ensures few { length (stretch_notation result.stretch)
        + 4 * length result.rest.bytes.now ≤ 4 * length span.entry.bytes.now }
{
    match plain_len(span.space, span.bytes) {
        0 => Front {
            stretch: spaced_stretch(span.space, span.before, &span.bytes[0]),
            rest: without(span, 1),
        },
        len => Front {
            stretch: Stretch::Plain(&span.bytes[..len]),
            rest: without(span, len),
        },
    }
}
