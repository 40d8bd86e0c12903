//! The sections of an entry in the order of their checks, and the items of each.
//!
//! SectionItems are tested at once, by the greatest of them, and gone over one by one only if that test leaves them open.

ghost use Rattle.std.specs.Prelude.{◌≡◌, ◌+◌, ◌*◌, ◌<◌, ◌≤◌, ◌^◌, ◌∷◌, [], length, IsTrue};
ghost use Rattle.std.specs.Bool.{OnTrue};
ghost use Rattle.ti_base.specs.Limits.{most_entry_bytes};
ghost use Rattle.ti_layout.specs.Layout.{end_of};
ghost use Rattle.ti_layout.specs.Checks.{Passes, verdict, result_verdict};
ghost use Rattle.ti_layout.specs.Refusal.{item_size, item_holds, item_fault, item_check, items_checks, items_of, part_of, items};
ghost use Rattle.ti_layout.specs.Stages.{first_items, items_after, next as the_next, closing_end as the_closing_end, fault_when_full as the_fault_when_full};

use crate::checks::is_offset_below;
use crate::fault::{Fault, Refused};
use crate::greatest::{
    WIDE_WORDS, WORDS, are_below, greatest_byte, greatest_wide_word, greatest_word,
};
use crate::part::{Part, pad_end};
use crate::word::{number_word_at, word_at};
use ti_words::{Width, flag_of, number_size};

/// The items of a section.
#[derive(Clone, Copy)]
pub(crate) enum SectionItem {
    /// Words that are not negative, and the fault of one that is.
    Sign(Fault),
    /// Bytes of the names.
    Name,
    Flag,
    Number(Width),
    /// Offsets of texts, in a table of this size.
    Offset(usize),
}

/// SectionItems of one kind that lie one after the other: where the first starts, and how many are left.
#[derive(Clone, Copy)]
pub(crate) struct SectionItems {
    pub(crate) item: SectionItem,
    pub(crate) at: usize,
    pub(crate) left: usize,
}

/// The two parts of an entry.
#[derive(Clone, Copy)]
pub(crate) enum Half {
    Standard,
    Extended,
}

/// The sections of an entry in the order of their checks: of each its items, and then what is checked at once. `Magic`,
/// `TableEnd` and `End` have no items.
#[derive(Clone, Copy)]
pub(crate) enum Section {
    Magic,
    Header,
    Names,
    Flags(Half),
    Numbers(Half),
    Offsets(Half),
    NameOffsets(Half),
    TableEnd,
    ExtendedHeader,
    End,
}

impl Half {
    /// Which of the parts it is.
    #[inline(always)]
    pub(crate) fn of<'a>(self, standard: &'a Part, extended: &'a Part) -> &'a Part
        ensures { result.now ≡ part_of self standard.now extended.now }
    {
        match self {
            Half::Standard => standard,
            Half::Extended => extended,
        }
    }
}

impl SectionItem {
    /// How many bytes one item has.
    #[inline(always)]
    pub(crate) fn size(self) -> usize
        ensures value { result ≡ item_size self }
        ensures small { result ≤ 4 }
    {
        match self {
            SectionItem::Name | SectionItem::Flag => 1,
            SectionItem::Sign(_) | SectionItem::Offset(_) => 2,
            SectionItem::Number(width) => number_size(width),
        }
    }

    /// Whether the item at a place is as it has to be.
    fn holds(self, bytes: &[u8], place: usize) -> bool
        requires { place + item_size self ≤ length bytes.now }
        ensures { result ≡ item_holds bytes.now self place }
    {
        match self {
            SectionItem::Sign(_) => word_at(bytes, place) >= 0,
            SectionItem::Name => bytes[place] != 0,
            SectionItem::Flag => flag_of(bytes[place]).is_some(),
            SectionItem::Number(width) => number_word_at(bytes, width, place) >= -2,
            SectionItem::Offset(table_size) => is_offset_below(table_size, word_at(bytes, place)),
        }
    }

    /// The fault of one that is not.
    fn fault(self) -> Fault
        ensures { result ≡ item_fault self }
    {
        match self {
            SectionItem::Sign(fault) => fault,
            SectionItem::Name => Fault::BadNames,
            SectionItem::Flag => Fault::BadFlag,
            SectionItem::Number(_) => Fault::BadNumber,
            SectionItem::Offset(_) => Fault::BadOffset,
        }
    }

    /// The check of one item at a place.
    pub(crate) fn check(self, bytes: &[u8], place: usize) -> Result<(), Refused>
        requires { place + item_size self ≤ length bytes.now }
        ensures { result_verdict result
            ≡ verdict (length bytes.now) (item_check bytes.now self place ∷ []) }
    {
        if !self.holds(bytes, place) {
            return Err(Refused {
                fault: self.fault(),
                place,
            });
        }
        Ok(())
    }
}

impl SectionItems {
    pub(crate) fn new(item: SectionItem, at: usize, left: usize) -> SectionItems
        ensures { result ≡ items item at left }
    {
        SectionItems { item, at, left }
    }

    /// How many of the items the first `len` bytes cover.
    pub(crate) fn count_within(self, len: usize) -> usize
        requires some { 0 < self.left }
        requires within { self.at + item_size self.item * self.left ≤ most_entry_bytes }
        requires first { self.at + item_size self.item ≤ len }
        ensures some { 0 < result }
        ensures most { result ≤ self.left }
        ensures there { self.at + item_size self.item * result ≤ len }
        ensures within { self.at + item_size self.item * result ≤ most_entry_bytes }
    {
        let room = len - self.at;
        if self.item.size() * self.left <= room {
            return self.left;
        }
        room / self.item.size()
    }

    /// Whether so many of them pass, tested at once. No leaves it open.
    #[inline(always)]
    fn all_pass(self, bytes: &[u8], count: usize) -> bool
        requires { self.at + item_size self.item * count ≤ length bytes.now }
        ensures { IsTrue result
            → Passes ≡ verdict (length bytes.now) (items_checks bytes.now (first_items count self)) }
    {
        match self.item {
            SectionItem::Sign(_) => greatest_word(bytes, self.at, count, 0) < WORDS,
            SectionItem::Name => greatest_byte(bytes, self.at, count, u8::MAX) < u8::MAX,
            SectionItem::Flag => greatest_byte(bytes, self.at, count, 2) < 4,
            SectionItem::Number(width) => match number_size(width) {
                2 => are_below(bytes, usize::from(WORDS), self.at, count),
                _ => greatest_wide_word(bytes, self.at, count) < WIDE_WORDS + 2,
            },
            SectionItem::Offset(table_size) => are_below(bytes, table_size, self.at, count),
        }
    }

    /// Whether all of them lie within the bytes and pass, tested at once. No leaves it open.
    #[inline(always)]
    pub(crate) fn pass(self, bytes: &[u8]) -> bool
        requires { self.at + item_size self.item * self.left ≤ most_entry_bytes }
        ensures { OnTrue result
            (Passes ≡ verdict (length bytes.now) (items_checks bytes.now self)) }
    {
        if self.left == 0 {
            return true;
        }
        if self.at + self.item.size() * self.left > bytes.len() {
            return false;
        }
        self.all_pass(bytes, self.left)
    }

    /// The checks of so many of them.
    pub(crate) fn check(self, bytes: &[u8], count: usize) -> Result<(), Refused>
        requires there { self.at + item_size self.item * count ≤ length bytes.now }
        requires fits { item_size self.item * count < 2 ^ 32 }
        ensures { result_verdict result
            ≡ verdict (length bytes.now) (items_checks bytes.now (first_items count self)) }
    {
        if self.all_pass(bytes, count) {
            return Ok(());
        }
        for i in 0..count {
            self.item.check(bytes, self.at + self.item.size() * i)?;
        }
        Ok(())
    }

    /// The items after so many.
    pub(crate) fn after(self, count: usize) -> SectionItems
        requires most { count ≤ self.left }
        requires within { self.at + item_size self.item * self.left ≤ most_entry_bytes }
        ensures { result ≡ items_after count self }
    {
        SectionItems::new(
            self.item,
            self.at + self.item.size() * count,
            self.left - count,
        )
    }
}

impl Section {
    #[inline(always)]
    pub(crate) fn next(self) -> Section
        ensures { result ≡ the_next self }
    {
        match self {
            Section::Magic => Section::Header,
            Section::Header => Section::Names,
            Section::Names => Section::Flags(Half::Standard),
            Section::Flags(half) => Section::Numbers(half),
            Section::Numbers(half) => Section::Offsets(half),
            Section::Offsets(half) => Section::NameOffsets(half),
            Section::NameOffsets(Half::Standard) => Section::TableEnd,
            Section::TableEnd => Section::ExtendedHeader,
            Section::ExtendedHeader => Section::Flags(Half::Extended),
            Section::NameOffsets(Half::Extended) | Section::End => Section::End,
        }
    }

    /// Its items. A section without items counts as one with no flag.
    #[inline(always)]
    pub(crate) fn items(self, standard: &Part, extended: &Part) -> SectionItems
        requires fits { end_of standard.now ≤ most_entry_bytes }
        requires extended_fits { end_of extended.now ≤ most_entry_bytes }
        ensures { result ≡ items_of self standard.now extended.now }
    {
        match self {
            Section::Header => SectionItems::new(SectionItem::Sign(Fault::BadHeader), 2, 5),
            Section::Names => SectionItems::new(
                SectionItem::Name,
                12,
                standard.flags_from.saturating_sub(13),
            ),
            Section::ExtendedHeader => SectionItems::new(
                SectionItem::Sign(Fault::BadExtendedHeader),
                standard.extended_from(),
                3,
            ),
            Section::Flags(half) => {
                let part = half.of(standard, extended);
                SectionItems::new(SectionItem::Flag, part.flags_from, part.flags)
            }
            Section::Numbers(half) => {
                let part = half.of(standard, extended);
                SectionItems::new(
                    SectionItem::Number(part.width),
                    part.numbers_from(),
                    part.numbers,
                )
            }
            Section::Offsets(half) => {
                let part = half.of(standard, extended);
                SectionItems::new(
                    SectionItem::Offset(part.table),
                    part.offsets_from(),
                    part.texts,
                )
            }
            Section::NameOffsets(half) => {
                let part = half.of(standard, extended);
                SectionItems::new(
                    SectionItem::Sign(Fault::BadExtendedName),
                    part.names_from(),
                    part.names,
                )
            }
            Section::Magic | Section::TableEnd | Section::End => SectionItems::new(
                SectionItem::Flag,
                0,
                0,
            ),
        }
    }

    /// Why a byte after an entry of the greatest length is refused, if it ends here.
    pub(crate) fn fault_when_full(self) -> Fault
        ensures { result ≡ the_fault_when_full self }
    {
        match self {
            Section::TableEnd => Fault::ExtendedTooBig,
            _ => Fault::Trailing,
        }
    }

    /// How many bytes the checks after its items read.
    #[inline(always)]
    pub(crate) fn closing_end(self, standard: &Part, extended: &Part) -> usize
        requires fits { end_of standard.now ≤ most_entry_bytes }
        requires extended_fits { end_of extended.now ≤ most_entry_bytes }
        ensures { result ≡ the_closing_end self standard.now extended.now }
    {
        match self {
            Section::Magic => 2,
            Section::Header => 12,
            Section::Names => standard.flags_from,
            Section::Flags(half) => pad_end(half.of(standard, extended).flags_end()),
            Section::NameOffsets(half) => half.of(standard, extended).end(),
            Section::TableEnd => standard.end() + 1,
            Section::ExtendedHeader => standard.extended_from() + 10,
            Section::End => extended.end() + 1,
            Section::Numbers(_) | Section::Offsets(_) => 0,
        }
    }
}
