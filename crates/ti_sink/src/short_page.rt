//! A page that takes no memory.

ghost use Rattle.std.specs.List.{list_all};
ghost use Rattle.std.specs.Prelude.{◌≡◌, true};
ghost use Rattle.ti_escape.specs.declared.color.Color.TheVariants.{Never};
ghost use Rattle.ti_sink.specs.Pages.{is_page, is_plain as the_is_plain};

use crate::octal::octal;
use crate::page::is_plain;
use arrayvec::ArrayVec;
use itoa::Buffer;
use ti_escape::escape_into;

/// The most bytes of a page, more than any fault leads to.
const MOST_BYTES: usize = 2048;

/// The most characters of a name.
const MOST_OF_A_NAME: usize = 40;

/// A page without color that takes no memory. What has no room is left out.
#[derive(Drop)]
pub struct ShortPage {
    text: ArrayVec<u8, MOST_BYTES>,
    ghost printable: { is_page Never text.items ≡ true },
}

impl ShortPage {
    /// An empty page.
    pub fn new() -> ShortPage {
        ShortPage {
            text: ArrayVec::new(),
        }
    }

    /// Writes characters that may stand in a page.
    fn chars(&mut self, chars: &[u8])
        requires { list_all the_is_plain chars.now ≡ true }
    {
        let _ = self.text.try_extend_from_slice(chars);
    }

    /// Writes a byte. One that may not stand in a page is written in octal.
    fn byte(&mut self, byte: u8) {
        if is_plain(byte) {
            self.chars(&[byte])
        } else {
            self.chars(&octal(byte))
        }
    }

    /// Writes bytes.
    pub fn bytes(&mut self, bytes: &[u8]) {
        'bytes: for byte in bytes {
            self.byte(*byte);
        }
    }

    /// Writes a text.
    pub fn put(&mut self, text: &str) {
        self.bytes(text.as_bytes())
    }

    /// Writes a number that is not negative.
    pub fn unsigned(&mut self, number: u64) {
        self.put(Buffer::new().format(number))
    }

    /// Writes a number.
    pub fn integer(&mut self, number: i32) {
        self.put(Buffer::new().format(number))
    }

    /// Writes spaces.
    pub fn blanks(&mut self, count: usize) {
        'blanks: for _ in 0..count {
            self.put(" ");
        }
    }

    /// Writes a name in the notation, or `..` if that has too many characters.
    pub fn name(&mut self, name: &[u8]) {
        let mut room = [0; MOST_OF_A_NAME];
        match escape_into(name, &mut room) {
            Some(len) => self.bytes(&room[..len]),
            None => self.put(".."),
        }
    }

    /// Writes a sentence in a line of its own.
    pub fn sentence(&mut self, sentence: &str) {
        self.put("  ");
        self.put(sentence);
        self.put("\n")
    }

    /// What was written.
    pub fn as_slice(&self) -> &[u8]
        ensures { is_page Never result.now ≡ true }
    {
        self.text.as_slice()
    }
}
