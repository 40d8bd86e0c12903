//! An entry that is being made.
//!
//! A draft lends its names and texts and copies none. A push takes memory as a vector does: now and then, and then for
//! as many again as there are.

ghost use Rattle.std.specs.Prelude.{◌≡◌, ◌+◌, ◌∷◌, [], length, map, get_or, IsOk, OnOk, OnErr};
ghost use Rattle.ti_words.specs.Texts.{text_value, TextOf, AbsentText};
ghost use Rattle.ti_words.specs.Spelling.{part_names};
ghost use Rattle.ti_draft.specs.Additions.{with_flags, with_numbers, with_texts, with_extended_flags, with_extended_numbers, with_extended_texts};

use crate::named::Named;
use crate::source::{Part, Source};
use std::alloc::{AllocError, Allocator, Global};
use std::fmt;
use std::marker::Model;
use ti_words::{Flag, Number, Text, Width};

/// The values of an entry to be written (term(5)).
#[derive(Drop)]
pub struct Draft<'a, A: Allocator = Global> {
    width: Width,
    names: &'a [u8],
    flags: Vec<Flag, A>,
    numbers: Vec<Number, A>,
    texts: Vec<Text<'a>, A>,
    extended_flags: Named<'a, Flag, A>,
    extended_numbers: Named<'a, Number, A>,
    extended_texts: Named<'a, Text<'a>, A>,
}

impl<'a, A: Allocator> Model for Draft<'a, A> {
    ghost use Rattle.std.specs.Prelude.{map};
    ghost use Rattle.ti_words.specs.Texts.{text_value};
    ghost use Rattle.ti_words.specs.Value.{EntryValue};

    ghost Value = { EntryValue };

    ghost view = { λ d. record {
      width = d.width;
      names = d.names.now;
      standard = record {
        flags = d.flags.items;
        numbers = d.numbers.items;
        texts = map text_value d.texts.items;
      };
      extended = record {
        flags = d.extended_flags;
        numbers = d.extended_numbers;
        texts = map (λ x. (x.0, text_value x.1)) d.extended_texts;
      };
    } };
}

// It names the type alone, since an allocator need not print itself.
impl<'a, A: Allocator> fmt::Debug for Draft<'a, A> {
    fn fmt<W: fmt::Write>(&self, f: &mut fmt::Formatter<W>) -> fmt::Result {
        f.write_str("Draft")
    }
}

impl<'a, A: Allocator> Draft<'a, A> {
    ghost use Rattle.ti_words.specs.Value.{EntryValue, bare};

    /// A draft with names, which are separated by `|`, and no capability. It takes no memory.
    pub fn new(alloc: A, names: &'a [u8], width: Width) -> Draft<'a, A>
    where
        A: Copy,
        ensures { result ≡ bare width names.now }
    {
        Draft {
            width,
            names,
            flags: Vec::new(alloc),
            numbers: Vec::new(alloc),
            texts: Vec::new(alloc),
            extended_flags: Named::new(alloc),
            extended_numbers: Named::new(alloc),
            extended_texts: Named::new(alloc),
        }
    }

    /// Changes how wide its numbers are, and nothing else. It takes no memory and cannot fail.
    pub fn set_width(&mut self, width: Width)
        ensures { self.new ≡ record self.old { width = width } }
    {
        self.width = width;
    }

    /// Adds a flag after the others.
    ///
    /// # Errors
    ///
    /// Memory was refused, and the draft is as before. The same holds for each push.
    pub fn push_flag(&mut self, flag: Flag) -> Result<(), AllocError>
        ensures added { OnOk result (self.new ≡ with_flags self.old (flag ∷ [])) }
        ensures unchanged { OnErr result (self.new ≡ self.old) }
    {
        self.flags.push(flag)?;
        Ok(())
    }

    /// Adds a number after the others.
    pub fn push_number(&mut self, number: Number) -> Result<(), AllocError>
        ensures added { OnOk result (self.new ≡ with_numbers self.old (number ∷ [])) }
        ensures unchanged { OnErr result (self.new ≡ self.old) }
    {
        self.numbers.push(number)?;
        Ok(())
    }

    /// Adds a text after the others.
    pub fn push_text(&mut self, text: Text<'a>) -> Result<(), AllocError>
        ensures added { OnOk result (self.new ≡ with_texts self.old (text_value text.entry ∷ [])) }
        ensures unchanged { OnErr result (self.new ≡ self.old) }
    {
        self.texts.push(text)?;
        Ok(())
    }

    /// Adds a flag with its name after the other extended flags.
    pub fn push_extended_flag(&mut self, name: &'a [u8], flag: Flag) -> Result<(), AllocError>
        ensures added { OnOk result (self.new ≡ with_extended_flags self.old ((name.now, flag) ∷ [])) }
        ensures unchanged { OnErr result (self.new ≡ self.old) }
    {
        self.extended_flags.push(name, flag)
    }

    /// Adds a number with its name after the other extended numbers.
    pub fn push_extended_number(&mut self, name: &'a [u8], number: Number) -> Result<(), AllocError>
        ensures added { OnOk result
            (self.new ≡ with_extended_numbers self.old ((name.now, number) ∷ [])) }
        ensures unchanged { OnErr result (self.new ≡ self.old) }
    {
        self.extended_numbers.push(name, number)
    }

    /// Adds a text with its name after the other extended texts.
    pub fn push_extended_text(&mut self, name: &'a [u8], text: Text<'a>) -> Result<(), AllocError>
        ensures added { OnOk result
            (self.new ≡ with_extended_texts self.old ((name.now, text_value text.entry) ∷ [])) }
        ensures unchanged { OnErr result (self.new ≡ self.old) }
    {
        self.extended_texts.push(name, text)
    }

    /// Takes memory at once for so many more flags, numbers and texts; for none it needs none.
    pub fn reserve(&mut self, flags: usize, numbers: usize, texts: usize) -> Result<(), AllocError>
        ensures same { self.new ≡ self.old }
        ensures no_memory { flags + numbers + texts ≡ 0 → IsOk result }
    {
        self.flags.reserve_exact(flags)?;
        self.numbers.reserve_exact(numbers)?;
        self.texts.reserve_exact(texts)
    }

    /// Takes memory at once for so many more extended flags, numbers and texts; for none it needs none.
    pub fn reserve_extended(
        &mut self,
        flags: usize,
        numbers: usize,
        texts: usize,
    ) -> Result<(), AllocError>
        ensures same { self.new ≡ self.old }
        ensures no_memory { flags + numbers + texts ≡ 0 → IsOk result }
    {
        self.extended_flags.reserve(flags)?;
        self.extended_numbers.reserve(numbers)?;
        self.extended_texts.reserve(texts)
    }

    /// How many capabilities have names.
    fn name_count(&self) -> usize
        ensures { result ≡ length (part_names self.now.extended) }
    {
        self.extended_flags.names().len()
            + self.extended_numbers.names().len()
            + self.extended_texts.names().len()
    }

    /// A name by its index, as a text that is there: of flags, then numbers, then texts; at or above the count Absent.
    fn name(&self, index: usize) -> Text<'a>
        ensures { text_value result
            ≡ get_or (map TextOf (part_names self.now.extended)) index AbsentText }
    {
        let flags = self.extended_flags.names();
        let numbers = self.extended_numbers.names();
        let texts = self.extended_texts.names();
        if index < flags.len() {
            return text_at(flags, index);
        }
        let index = index - flags.len();
        if index < numbers.len() {
            return text_at(numbers, index);
        }
        text_at(texts, index - numbers.len())
    }
}

impl<'a, A: Allocator> Source for Draft<'a, A> {
    ghost entry = { λ d. d };

    fn width(&self) -> Width {
        self.width
    }

    fn names(&self) -> &[u8] {
        self.names
    }

    fn flag_count(&self, part: Part) -> usize {
        match part {
            Part::Standard => self.flags.len(),
            Part::Extended => self.extended_flags.marks().len(),
            Part::Names => 0,
        }
    }

    fn number_count(&self, part: Part) -> usize {
        match part {
            Part::Standard => self.numbers.len(),
            Part::Extended => self.extended_numbers.marks().len(),
            Part::Names => 0,
        }
    }

    fn text_count(&self, part: Part) -> usize {
        match part {
            Part::Standard => self.texts.len(),
            Part::Extended => self.extended_texts.marks().len(),
            Part::Names => self.name_count(),
        }
    }

    fn flag(&self, part: Part, index: usize) -> Flag {
        match part {
            Part::Standard => item_at(self.flags.as_slice(), index, Flag::No),
            Part::Extended => item_at(self.extended_flags.marks(), index, Flag::No),
            Part::Names => Flag::No,
        }
    }

    fn number(&self, part: Part, index: usize) -> Number {
        match part {
            Part::Standard => item_at(self.numbers.as_slice(), index, Number::Absent),
            Part::Extended => item_at(self.extended_numbers.marks(), index, Number::Absent),
            Part::Names => Number::Absent,
        }
    }

    fn text(&self, part: Part, index: usize) -> Text<'_> {
        match part {
            Part::Standard => text_at(self.texts.as_slice(), index),
            Part::Extended => text_at(self.extended_texts.marks(), index),
            Part::Names => self.name(index),
        }
    }
}

/// The item at an index, or another at or above the count.
fn item_at<T: Copy>(items: &[T], index: usize, other: T) -> T
    ensures { result ≡ get_or items.now index other }
{
    match items.get(index) {
        Some(item) => *item,
        None => other,
    }
}

/// The text at an index; at or above the count Absent.
fn text_at<'a>(texts: &[Text<'a>], index: usize) -> Text<'a>
    ensures { text_value result ≡ get_or (map text_value texts.now) index AbsentText }
{
    match texts.get(index) {
        Some(text) => *text,
        None => Text::Absent,
    }
}
