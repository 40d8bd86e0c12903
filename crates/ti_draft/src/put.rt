//! Putting the sections of an entry into a room, each in one pass.
//!
//! Each call puts bytes at a place and returns the place after them; the clauses say exactly what then stands before it. Words
//! are written by `byteorder`, texts as whole slices. Names are texts as well.

ghost use Rattle.std.specs.Prelude.{◌≡◌, ◌++◌, ◌+◌, ◌*◌, ◌<◌, ◌≤◌, ◌^◌, false, length, take};
ghost use Rattle.std.specs.List.{list_any};
ghost use Rattle.ti_words.specs.Texts.{text_value};
ghost use Rattle.ti_words.specs.Marks.{word_of_number};
ghost use Rattle.ti_words.specs.Word.{word};
ghost use Rattle.ti_words.specs.Widths.{number_size as the_number_size};
ghost use Rattle.ti_words.specs.Spelling.{count_word, words_of, numbers_of, flags_of, pad, pad_len};
ghost use Rattle.ti_draft.specs.Canonical.{text_bytes, text_word, text_words, texts_table};
ghost use Rattle.ti_draft.specs.EncodeFaults.{is_out_of_range};
ghost use Rattle.ti_draft.specs.Sources.{listed};

use crate::source::{Part, Source};
use byteorder::{ByteOrder, LittleEndian};
use ti_words::{Number, Text, Width, flag_byte, number_size, number_word};

/// Bytes.
pub(crate) fn put_bytes(out: &mut [u8], at: usize, bytes: &[u8]) -> usize
    requires { at + length bytes.now ≤ length out.old }
    ensures end { result ≡ at + length bytes.now }
    ensures written { take result out.new ≡ take at out.old ++ bytes.now }
{
    let end = at + bytes.len();
    out[at..end].copy_from_slice(bytes);
    end
}

/// A word.
fn put_word(out: &mut [u8], at: usize, number: i16) -> usize
    requires { at + 2 ≤ length out.old }
    ensures end { result ≡ at + 2 }
    ensures written { take result out.new ≡ take at out.old ++ word 2 number }
{
    let mut two = [0; 2];
    LittleEndian::write_i16(&mut two, number);
    put_bytes(out, at, &two)
}

/// A word of 32 bits.
fn put_wide_word(out: &mut [u8], at: usize, number: i32) -> usize
    requires { at + 4 ≤ length out.old }
    ensures end { result ≡ at + 4 }
    ensures written { take result out.new ≡ take at out.old ++ word 4 number }
{
    let mut four = [0; 4];
    LittleEndian::write_i32(&mut four, number);
    put_bytes(out, at, &four)
}

/// A count, a size or a place as a word.
pub(crate) fn put_count(out: &mut [u8], at: usize, count: usize) -> usize
    requires low { count < 2 ^ 15 }
    requires room { at + 2 ≤ length out.old }
    ensures end { result ≡ at + 2 }
    ensures written { take result out.new ≡ take at out.old ++ count_word count }
{
    put_word(out, at, count as i16)
}

/// The pad after an odd count.
pub(crate) fn put_pad(out: &mut [u8], at: usize, count: usize) -> usize
    requires { at + pad_len count ≤ length out.old }
    ensures end { result ≡ at + pad_len count }
    ensures written { take result out.new ≡ take at out.old ++ pad count }
{
    if count % 2 == 1 {
        return put_bytes(out, at, &[0]);
    }
    at
}

/// The flags of a part.
pub(crate) fn put_flags<S: Source>(out: &mut [u8], at: usize, source: &S, part: Part) -> usize
    requires { at + length (listed (S.entry source.now) part).flags ≤ length out.old }
    ensures end { result ≡ at + length (listed (S.entry source.now) part).flags }
    ensures written { take result out.new
        ≡ take at out.old ++ flags_of (listed (S.entry source.now) part).flags }
{
    let mut end = at;
    for i in 0..source.flag_count(part) {
        end = put_bytes(out, end, &[flag_byte(source.flag(part, i))]);
    }
    end
}

/// A number.
fn put_number(out: &mut [u8], at: usize, width: Width, number: Number) -> usize
    requires fit { is_out_of_range width number ≡ false }
    requires room { at + the_number_size width ≤ length out.old }
    ensures end { result ≡ at + the_number_size width }
    ensures written { take result out.new
        ≡ take at out.old ++ word (the_number_size width) (word_of_number number) }
{
    match number_size(width) {
        2 => put_word(out, at, number_word(number) as i16),
        _ => put_wide_word(out, at, number_word(number)),
    }
}

/// The numbers of a part.
pub(crate) fn put_numbers<S: Source>(out: &mut [u8], at: usize, source: &S, part: Part) -> usize
    requires fit { list_any (is_out_of_range (S.entry source.now).width)
        (listed (S.entry source.now) part).numbers ≡ false }
    requires room { at + length (listed (S.entry source.now) part).numbers
        * the_number_size (S.entry source.now).width ≤ length out.old }
    ensures end { result ≡ at + length (listed (S.entry source.now) part).numbers
        * the_number_size (S.entry source.now).width }
    ensures written { take result out.new ≡ take at out.old
        ++ numbers_of (S.entry source.now).width (listed (S.entry source.now) part).numbers }
{
    let width = source.width();
    let mut end = at;
    for i in 0..source.number_count(part) {
        end = put_number(out, end, width, source.number(part, i));
    }
    end
}

/// The word of a text that is put at a place of its table, or of its mark; returns the place after the text.
fn put_text_word(out: &mut [u8], at: usize, place: usize, text: Text<'_>) -> usize
    requires low { place + length (text_bytes (text_value text)) ≤ 2 ^ 15 }
    requires room { at + 2 ≤ length out.old }
    ensures written { take (at + 2) out.new
        ≡ take at out.old ++ word 2 (text_word place (text_value text.entry)) }
    ensures end { result ≡ place + length (text_bytes (text_value text.entry)) }
{
    match text {
        Text::Absent => {
            put_word(out, at, -1);
            place
        }
        Text::Cancelled => {
            put_word(out, at, -2);
            place
        }
        Text::Value(bytes) => {
            put_count(out, at, place);
            place + bytes.len() + 1
        }
    }
}

/// Where the texts of a part are put in their table, from its start on, or their marks.
pub(crate) fn put_text_words<S: Source>(out: &mut [u8], at: usize, source: &S, part: Part) -> usize
    requires low { length (texts_table (listed (S.entry source.now) part).texts) ≤ 2 ^ 15 }
    requires room { at + length (listed (S.entry source.now) part).texts * 2 ≤ length out.old }
    ensures end { result ≡ at + length (listed (S.entry source.now) part).texts * 2 }
    ensures written { take result out.new ≡ take at out.old
        ++ words_of (text_words 0 (listed (S.entry source.now) part).texts) }
{
    let mut end = at;
    let mut place = 0;
    for i in 0..source.text_count(part) {
        place = put_text_word(out, end, place, source.text(part, i));
        end += 2;
    }
    end
}

/// A text and its NUL, if it is there.
fn put_text(out: &mut [u8], at: usize, text: Text<'_>) -> usize
    requires { at + length (text_bytes (text_value text)) ≤ length out.old }
    ensures end { result ≡ at + length (text_bytes (text_value text.entry)) }
    ensures written { take result out.new
        ≡ take at out.old ++ text_bytes (text_value text.entry) }
{
    match text {
        Text::Absent | Text::Cancelled => at,
        Text::Value(bytes) => {
            let end = put_bytes(out, at, bytes);
            put_bytes(out, end, &[0])
        }
    }
}

/// The texts of a part, each with its NUL.
pub(crate) fn put_texts<S: Source>(out: &mut [u8], at: usize, source: &S, part: Part) -> usize
    requires { at + length (texts_table (listed (S.entry source.now) part).texts)
        ≤ length out.old }
    ensures end { result ≡ at + length (texts_table (listed (S.entry source.now) part).texts) }
    ensures written { take result out.new
        ≡ take at out.old ++ texts_table (listed (S.entry source.now) part).texts }
{
    let mut end = at;
    for i in 0..source.text_count(part) {
        end = put_text(out, end, source.text(part, i));
    }
    end
}
