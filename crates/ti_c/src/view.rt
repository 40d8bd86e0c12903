//! A view of an entry for C: nothing is copied, and no array needs room.
//!
//! The caller keeps what a view is made of, so each call tests it again: its numbers may be any.

ghost use Rattle.std.specs.Prelude.{◌≡◌, ◌≢◌, ℕ, ◌⊎◌, get_or, slice_get, IsSomeAnd, Some, None, pos};
ghost use Rattle.ti_words.specs.Marks.{word_of_number as the_word_of_number};
ghost use Rattle.ti_words.specs.Items.{item_value, items, subject_value};
ghost use Rattle.ti_words.specs.Texts.{text_value, AbsentText};
ghost use Rattle.ti_words.specs.Value.{EntryValue};
ghost use Rattle.ti_entry.specs.Finding.{IsFirstNamed, IsPosition};
ghost use Rattle.ti_entry.specs.declared.finding.Position.TheVariants.{Standard, Extended};
ghost use Rattle.ti_c.specs.Numbers.{done, not_named};
ghost use Rattle.ti_c.specs.Names.{kind_at};
ghost use Rattle.ti_c.specs.Entries.{flag_mark as the_flag_mark, text_shown, AreCountsOf, SpellsSome, ForEntry, IsEntryRefusedAs};
ghost use Rattle.ti_c.specs.Views.{IsOpen, HasExtended, IsFoundIn, IsListedAt, LacksExtended, flag_shown, item_shown, number_shown, subject_shown, text_value_shown, value_at, value_held};

use crate::entry::{EntryCounts, flag_mark, number_word, put_counts};
use crate::faults::{DONE, NOT_NAMED, entry_number};
use crate::finding::kind_number;
use crate::names::{Bytes, kind_of};
use ti_entry::{Entry, PartView, Position, read_with_base, reopen, reopen_standard};
use ti_names::{NameTable, find_short_or_long};
use ti_words::{Flag, Item, Kind, Number, Subject, Text};

/// An entry that was opened. All is the caller's to keep and to copy; what it lends lies in the bytes.
#[repr(C)]
#[derive(Clone, Copy, Debug)]
pub struct View<'a> {
    /// The names and the counts, or the place of the fault.
    pub counts: EntryCounts<'a>,
    /// The bytes of the entry.
    pub bytes: &'a [u8],
    /// The place from which the offsets of the extended names are counted.
    pub base: usize,
}

/// The value of a capability in an entry.
#[repr(C)]
#[derive(Clone, Copy, Debug)]
pub struct FoundItem<'a> {
    /// The bytes of a text that is there, else none.
    pub text: &'a [u8],
    /// The mark of a flag or a text, or the value of a number.
    pub number: i32,
    /// 0 is a flag, 1 a number, 2 a text.
    pub kind: u32,
}

/// Opens an entry, and returns 0, or the number of its fault with the place.
///
/// The place is written after a refusal alone, and then nothing else is.
#[unsafe(no_mangle)]
pub extern "C" fn ti_open<'a>(bytes: &'a [u8], view: &mut View<'a>) -> u32
    ensures answer { (result ≡ done) ⊎ IsEntryRefusedAs bytes.now result view.new.counts.place }
    ensures refused { (number place : ℕ) → IsEntryRefusedAs bytes.now number place
        → (result ≡ number) × (view.new.counts.place ≡ place) }
    // An entry is opened if the bytes spell one, and only then, and its names and counts are written.
    ensures only { SpellsSome bytes.now → result ≡ done }
    ensures spelled { result ≡ done → SpellsSome bytes.now }
    ensures opened { result ≡ done → ForEntry bytes.now (λ v. IsOpen view.new v) }
    ensures told { result ≡ done → ForEntry bytes.now (λ v. AreCountsOf view.new.counts v) }
    // After a refusal nothing of the view is written but the place, and else no place is.
    ensures place { (result ≡ done) ⊎ (view.new
        ≡ record view.old { counts = record view.old.counts { place = view.new.counts.place } }) }
    ensures untold { result ≡ done → view.new.counts.place ≡ view.old.counts.place }
{
    let (entry, base) = match read_with_base(bytes) {
        Ok(found) => found,
        Err(refused) => {
            view.counts.place = refused.place;
            return entry_number(refused.fault);
        }
    };
    view.bytes = bytes;
    view.base = base;
    put_counts(&mut view.counts, &entry, &entry.extended());
    DONE
}

/// The entry of a view, if it is one that was opened.
fn entry_of<'a>(view: &View<'a>) -> Option<Entry<'a>>
    ensures { (v : EntryValue) → IsOpen view.now v → IsSomeAnd result (λ e. e ≡ v) }
{
    reopen(view.bytes, view.base)
}

/// The standard capabilities of the entry of a view, if it is one that was opened.
fn standard_of<'a>(view: &View<'a>) -> Option<PartView<'a>>
    ensures { (v : EntryValue) → IsOpen view.now v
        → IsSomeAnd result (λ standard. standard ≡ v.standard) }
{
    reopen_standard(view.bytes)
}

/// The mark of the standard flag at an index: 1 or 0, -1 missing, -2 cancelled.
#[unsafe(no_mangle)]
pub extern "C" fn ti_view_flag(view: &View<'_>, index: usize) -> i8
    ensures { (v : EntryValue) → IsOpen view.now v
        → result ≡ the_flag_mark (get_or v.standard.flags index Flag.No) }
{
    match standard_of(view) {
        Some(standard) => flag_mark(standard.flag(index)),
        None => -1,
    }
}

/// The value of the standard number at an index; -1 is absent, -2 cancelled.
#[unsafe(no_mangle)]
pub extern "C" fn ti_view_number(view: &View<'_>, index: usize) -> i32
    ensures { (v : EntryValue) → IsOpen view.now v
        → result ≡ the_word_of_number (get_or v.standard.numbers index Number.Absent) }
{
    match standard_of(view) {
        Some(standard) => number_word(standard.number(index)),
        None => -1,
    }
}

/// The mark of the standard text at an index: 0 if it is there, and then its bytes are written; -1 is absent, -2 cancelled.
#[unsafe(no_mangle)]
pub extern "C" fn ti_view_text<'a>(view: &View<'a>, index: usize, text: &mut Bytes<'a>) -> i8
    ensures mark { (v : EntryValue) → IsOpen view.now v
        → result ≡ (text_shown (get_or v.standard.texts index AbsentText)).0 }
    ensures text { (v : EntryValue) → IsOpen view.now v → result ≡ pos 0
        → text.new.bytes.now ≡ (text_shown (get_or v.standard.texts index AbsentText)).1 }
    ensures kept { (result ≡ pos 0) ⊎ (text.new ≡ text.old) }
{
    let Some(standard) = standard_of(view) else {
        return -1;
    };
    match standard.text(index) {
        Text::Value(found) => {
            text.bytes = found;
            0
        }
        Text::Absent => -1,
        Text::Cancelled => -2,
    }
}

/// Finds what the entry says of the capability with a name: 0 and its value, or 401, and the value is as before.
#[unsafe(no_mangle)]
pub extern "C" fn ti_view_find<'a>(view: &View<'a>, name: &[u8], value: &mut FoundItem<'a>) -> u32
    ensures answer { (result ≡ done) ⊎ (result ≡ not_named) }
    ensures found { (v : EntryValue) → IsOpen view.now v → result ≡ done
        → IsFoundIn v name.now (value_held value.new) }
    ensures none { (v : EntryValue) → IsOpen view.now v → result ≡ not_named
        → IsPosition v name.now None }
    ensures kept { result ≡ not_named → value.new ≡ value.old }
{
    match find_short_or_long(name) {
        Some((kind, index)) => find_standard(view, kind, index, value),
        None => find_extended(view, name, value),
    }
}

/// Finds what the entry says of the standard capability of a kind at an index.
fn find_standard<'a>(view: &View<'a>, kind: Kind, index: usize, value: &mut FoundItem<'a>) -> u32
    ensures answer { (result ≡ done) ⊎ (result ≡ not_named) }
    ensures found { (v : EntryValue) → IsOpen view.now v
        → (result ≡ done) × (value_held value.new ≡ value_at v (Standard kind index)) }
    ensures kept { result ≡ not_named → value.new ≡ value.old }
{
    let Some(standard) = standard_of(view) else {
        return NOT_NAMED;
    };
    put_item(value, standard.item(kind, index));
    DONE
}

/// Finds what the entry says of the first capability to which it gives a name itself.
fn find_extended<'a>(view: &View<'a>, name: &[u8], value: &mut FoundItem<'a>) -> u32
    ensures answer { (result ≡ done) ⊎ (result ≡ not_named) }
    ensures found { (v : EntryValue) → IsOpen view.now v → result ≡ done
        → (at : Kind × ℕ) × IsFirstNamed v.extended name.now (Some at)
        × (value_held value.new ≡ value_at v (Extended at.0 at.1)) }
    ensures none { (v : EntryValue) → IsOpen view.now v → result ≡ not_named
        → IsFirstNamed v.extended name.now None }
    ensures kept { result ≡ not_named → value.new ≡ value.old }
{
    let Some(entry) = entry_of(view) else {
        return NOT_NAMED;
    };
    match entry.extended().find(name) {
        Some((kind, index)) => {
            put_item(value, entry.item_at(Position::Extended(kind, index)));
            DONE
        }
        None => NOT_NAMED,
    }
}

/// The name and the value of the extended flag (kind 0), number (1) or text (2) at an index: 0 and both, or 401, and both are
/// as before.
#[unsafe(no_mangle)]
pub extern "C" fn ti_view_extended<'a>(
    view: &View<'a>,
    kind: u32,
    index: usize,
    name: &mut Bytes<'a>,
    value: &mut FoundItem<'a>,
) -> u32
    ensures answer { (result ≡ done) ⊎ (result ≡ not_named) }
    ensures found { (v : EntryValue) → IsOpen view.now v → result ≡ done
        → HasExtended v (kind_at kind) index name.new.bytes.now (value_held value.new) }
    ensures none { (v : EntryValue) → IsOpen view.now v → result ≡ not_named
        → LacksExtended v (kind_at kind) index }
    ensures kept_name { result ≡ not_named → name.new ≡ name.old }
    ensures kept_value { result ≡ not_named → value.new ≡ value.old }
{
    let (Some(entry), Some(kind)) = (entry_of(view), kind_of(kind)) else {
        return NOT_NAMED;
    };
    match entry.extended().name(kind, index) {
        Some(found) => {
            name.bytes = found;
            let at = Position::Extended(kind, index);
            put_item(value, entry.item_at(at));
            DONE
        }
        None => NOT_NAMED,
    }
}

/// The name and the value of the capability at a place of the list of all, standard ones before extended ones, and whether the
/// entry names it itself: 0 and these, or 401 at or past the end, and all are as before.
#[unsafe(no_mangle)]
pub extern "C" fn ti_view_item<'a>(
    view: &View<'a>,
    place: usize,
    name: &mut Bytes<'a>,
    extended: &mut u32,
    value: &mut FoundItem<'a>,
) -> u32
    ensures answer { (result ≡ done) ⊎ (result ≡ not_named) }
    ensures found { (v : EntryValue) → IsOpen view.now v → result ≡ done
        → IsListedAt v place (name.new.bytes.now, extended.new) (value_held value.new) }
    ensures none { (v : EntryValue) → IsOpen view.now v → result ≡ not_named
        → slice_get (items v) place ≡ None }
    ensures kept_name { result ≡ not_named → name.new ≡ name.old }
    ensures kept_extended { result ≡ not_named → extended.new ≡ extended.old }
    ensures kept_value { result ≡ not_named → value.new ≡ value.old }
{
    let Some(entry) = entry_of(view) else {
        return NOT_NAMED;
    };
    let mut items = entry.items_from(place);
    match items.next() {
        Some((subject, item)) => {
            put_subject(name, extended, subject);
            put_item(value, item);
            DONE
        }
        None => NOT_NAMED,
    }
}

/// Puts what a capability is called, and whether the entry names it itself.
fn put_subject<'a>(name: &mut Bytes<'a>, extended: &mut u32, subject: Subject<'a>)
    ensures { (name.new.bytes.now, extended.new) ≡ subject_shown (subject_value subject.entry) }
{
    match subject {
        Subject::Standard(kind, index) => {
            name.bytes = match NameTable::All.name_at(kind, index) {
                Some(short) => short.as_bytes(),
                None => &[],
            };
            *extended = 0;
        }
        Subject::Extended(_, bytes) => {
            name.bytes = bytes;
            *extended = 1;
        }
    }
}

/// Puts what an entry says of a capability into a value.
fn put_item<'a>(value: &mut FoundItem<'a>, item: Item<'a>)
    ensures { value_held value.new ≡ item_shown (item_value item.entry) }
{
    match item {
        Item::Flag(flag) => put_flag(value, flag),
        Item::Number(number) => put_number(value, number),
        Item::Text(text) => put_text(value, text),
    }
}

fn put_flag(value: &mut FoundItem<'_>, flag: Flag)
    ensures { value_held value.new ≡ flag_shown flag }
{
    value.kind = kind_number(Kind::Flag);
    value.number = i32::from(flag_mark(flag));
    value.text = &[];
}

fn put_number(value: &mut FoundItem<'_>, number: Number)
    ensures { value_held value.new ≡ number_shown number }
{
    value.kind = kind_number(Kind::Number);
    value.number = number_word(number);
    value.text = &[];
}

fn put_text<'a>(value: &mut FoundItem<'a>, text: Text<'a>)
    ensures { value_held value.new ≡ text_value_shown (text_value text.entry) }
{
    value.kind = kind_number(Kind::Text);
    match text {
        Text::Value(found) => {
            value.number = 0;
            value.text = found;
        }
        Text::Absent => {
            value.number = -1;
            value.text = &[];
        }
        Text::Cancelled => {
            value.number = -2;
            value.text = &[];
        }
    }
}
