//! Entries as bytes.
//!
//! There is one layout in which an entry is written, so that two drafts of equal entries give equal bytes. The faults
//! are looked for first; then a room of exactly the bytes is filled, each section in one pass.

ghost use Rattle.std.specs.Prelude.{◌≡◌, ◌==◌, ◌+◌, ◌++◌, ◌≤◌, ◌<◌, ◌^◌, [], false, length, None, IfOk, IfErr, OnErr, take, drop};
ghost use Rattle.std.specs.List.{list_any};
ghost use Rattle.ti_words.specs.Spelling.{join, counts_spelling, standard_spelling, part_names};
ghost use Rattle.ti_draft.specs.Canonical.{canonical, standard_strings, extended_bytes, texts_table, present_count as the_present_count};
ghost use Rattle.ti_draft.specs.EncodeFaults.{IsEncodeFault, IsEncodeIntoFault, IsEncodingOf, encode_fault, is_out_of_range};
ghost use Rattle.ti_draft.specs.Lengths.{items_bytes, items_length};
ghost use Rattle.ti_draft.specs.Sizes.{AreSizes};
ghost use Rattle.ti_draft.specs.Sources.{listed};

use crate::draft::Draft;
use crate::fault::{EncodeFault, EncodeIntoFault, first_fault};
use crate::put::{
    put_bytes, put_count, put_flags, put_numbers, put_pad, put_text_words, put_texts,
};
use crate::size::{Sizes, sizes_of};
use crate::source::{Part, Source};
use std::alloc::{AllocError, Allocator};
use ti_words::{Text, magic_number};

/// The bytes of the entry that a draft is (term(5)).
///
/// Counts are those of the draft. The texts stand in their tables in order, each with its NUL, without sharing and
/// without gaps. An extended part is written if there is an extended capability.
///
/// # Errors
///
/// The first that holds of: `BadName`, `NulInText`, `NumberOutOfRange`, `TooManyOrLong`, and then `Memory` if memory
/// was refused.
///
/// # Examples
///
/// ```rust
/// let mut draft = Draft::new(rt.alloc(), b"ring|a bell", Width::Legacy);
/// draft.push_text(Text::Absent)?;
/// draft.push_text(Text::Value(b"\x07"))?;
/// let file = encode(rt.alloc(), &draft)?;
/// ```
pub fn encode<A: Allocator + Copy, D: Allocator>(
    alloc: A,
    draft: &Draft<'_, D>,
) -> Result<Vec<u8, A>, EncodeFault>
    ensures encoded { IfOk result (λ bytes. IsEncodingOf draft.now bytes.items) }
    ensures refused { IfErr result (λ fault. IsEncodeFault draft.now fault) }
{
    let sizes = sizes_of(draft);
    if let Some(fault) = first_fault(draft, sizes.entry) {
        return Err(fault);
    }
    Ok(canonical_bytes(alloc, draft, &sizes)?)
}

/// Puts the bytes of the entry of a source at the front of a room, and returns their length. The rest of the room is as
/// before. No memory is taken.
///
/// # Errors
///
/// The first that holds of: `BadName`, `NulInText`, `NumberOutOfRange`, `TooManyOrLong`, and then
/// [`EncodeIntoFault::OutTooSmall`] if the room has fewer bytes. After each the room is as before.
pub fn encode_into<S: Source>(source: &S, out: &mut [u8]) -> Result<usize, EncodeIntoFault>
    ensures encoded { IfOk result (λ n. IsEncodingOf (S.entry source.now) (take n out.new)) }
    ensures len { IfOk result (λ n. n ≡ length (canonical (S.entry source.now))) }
    ensures rest { IfOk result (λ n. drop n out.new ≡ drop n out.old) }
    ensures refused { IfErr result
        (λ fault. IsEncodeIntoFault (S.entry source.now) (length out.old) fault) }
    ensures kept { OnErr result (out.new ≡ out.old) }
{
    let sizes = sizes_of(source);
    if let Some(fault) = first_fault(source, sizes.entry) {
        return Err(EncodeIntoFault::Refused(fault));
    }
    let need = sizes.entry as usize;
    if need > out.len() {
        return Err(EncodeIntoFault::OutTooSmall { need });
    }
    put_entry(&mut out[..need], source, &sizes);
    Ok(need)
}

/// The bytes of the entry of a source that has no fault.
fn canonical_bytes<A: Allocator + Copy, S: Source>(
    alloc: A,
    source: &S,
    sizes: &Sizes,
) -> Result<Vec<u8, A>, AllocError>
    requires fit { encode_fault (S.entry source.now) ≡ None }
    requires sizes { AreSizes sizes.now (S.entry source.now) }
    ensures { IfOk result (λ bytes. bytes.items ≡ canonical (S.entry source.now)) }
{
    let mut out = vec![in alloc; 0; sizes.entry as usize]?;
    put_entry(out.as_mut_slice(), source, sizes);
    Ok(out)
}

/// Fills a room with the bytes of the entry of a source that has no fault.
fn put_entry<S: Source>(out: &mut [u8], source: &S, sizes: &Sizes)
    requires fit { encode_fault (S.entry source.now) ≡ None }
    requires sizes { AreSizes sizes.now (S.entry source.now) }
    requires room { length out.old ≡ length (canonical (S.entry source.now)) }
    ensures { out.new ≡ canonical (S.entry source.now) }
{
    let at = put_standard(out, source, sizes);
    if source.text_count(Part::Names) != 0 {
        put_extended(out, at, source, sizes);
    }
}

/// The sections up to the end of the string table.
fn put_standard<S: Source>(out: &mut [u8], source: &S, sizes: &Sizes) -> usize
    requires fit { encode_fault (S.entry source.now) ≡ None }
    requires sizes { AreSizes sizes.now (S.entry source.now) }
    requires room { length (join (standard_spelling (S.entry source.now)
        (standard_strings (S.entry source.now))) []) ≤ length out.old }
    ensures end { result ≡ length (join (standard_spelling (S.entry source.now)
        (standard_strings (S.entry source.now))) []) }
    ensures written { take result out.new ≡ join (standard_spelling (S.entry source.now)
        (standard_strings (S.entry source.now))) [] }
{
    let names = source.names();
    let count = names.len() + 1;
    let magic_end = put_count(out, 0, magic_number(source.width()));
    let size_end = put_count(out, magic_end, count);
    let counts_end = put_counts(out, size_end, source, Part::Standard);
    let header_end = put_count(out, counts_end, sizes.table as usize);
    let names_end = put_bytes(out, header_end, names);
    let nul_end = put_bytes(out, names_end, &[0]);
    let flags_end = count + source.flag_count(Part::Standard);
    let items_end = put_items(out, nul_end, source, Part::Standard, flags_end);
    put_texts(out, items_end, source, Part::Standard)
}

/// The extended part, which fills the room from a place on.
fn put_extended<S: Source>(out: &mut [u8], at: usize, source: &S, sizes: &Sizes)
    requires fit { encode_fault (S.entry source.now) ≡ None }
    requires sizes { AreSizes sizes.now (S.entry source.now) }
    requires extended { (length (part_names (S.entry source.now).extended) == 0) ≡ false }
    requires room { at + length (extended_bytes (S.entry source.now)) ≡ length out.old }
    ensures { out.new ≡ take at out.old ++ extended_bytes (S.entry source.now) }
{
    let names = source.text_count(Part::Names);
    let pad_end = put_pad(out, at, sizes.table as usize);
    let counts_end = put_counts(out, pad_end, source, Part::Extended);
    let items_count_end = put_count(
        out,
        counts_end,
        present_count(source, Part::Extended) + names,
    );
    let header_end = put_count(out, items_count_end, sizes.extended_table as usize);
    let flags_end = source.flag_count(Part::Extended);
    let items_end = put_items(out, header_end, source, Part::Extended, flags_end);
    // The places of the names are counted from the end of the texts.
    let words_end = put_text_words(out, items_end, source, Part::Names);
    let texts_end = put_texts(out, words_end, source, Part::Extended);
    put_texts(out, texts_end, source, Part::Names);
}

/// The counts of a part.
fn put_counts<S: Source>(out: &mut [u8], at: usize, source: &S, part: Part) -> usize
    requires flags { length (listed (S.entry source.now) part).flags < 2 ^ 15 }
    requires numbers { length (listed (S.entry source.now) part).numbers < 2 ^ 15 }
    requires texts { length (listed (S.entry source.now) part).texts < 2 ^ 15 }
    requires room { at + 6 ≤ length out.old }
    ensures end { result ≡ at + 6 }
    ensures written { take result out.new ≡ take at out.old
        ++ join (counts_spelling (listed (S.entry source.now) part)) [] }
{
    let flags_end = put_count(out, at, source.flag_count(part));
    let numbers_end = put_count(out, flags_end, source.number_count(part));
    put_count(out, numbers_end, source.text_count(part))
}

/// The items of a part after its counts, with a pad after a count of bytes, and where its texts are put.
fn put_items<S: Source>(out: &mut [u8], at: usize, source: &S, part: Part, count: usize) -> usize
    requires numbers { list_any (is_out_of_range (S.entry source.now).width)
        (listed (S.entry source.now) part).numbers ≡ false }
    requires table { length (texts_table (listed (S.entry source.now) part).texts) ≤ 2 ^ 15 }
    requires room { at + items_length (S.entry source.now).width count
        (listed (S.entry source.now) part) ≤ length out.old }
    ensures end { result ≡ at + items_length (S.entry source.now).width count
        (listed (S.entry source.now) part) }
    ensures written { take result out.new ≡ take at out.old
        ++ items_bytes (S.entry source.now).width count (listed (S.entry source.now) part) }
{
    let flags_end = put_flags(out, at, source, part);
    let pad_end = put_pad(out, flags_end, count);
    let numbers_end = put_numbers(out, pad_end, source, part);
    put_text_words(out, numbers_end, source, part)
}

/// How many texts of a part are there.
fn present_count<S: Source>(source: &S, part: Part) -> usize
    ensures value { result ≡ the_present_count (listed (S.entry source.now) part).texts }
    ensures few { result ≤ length (listed (S.entry source.now) part).texts }
{
    let mut count = 0;
    for i in 0..source.text_count(part) {
        if matches!(source.text(part, i), Text::Value(_)) {
            count += 1;
        }
    }
    count
}
