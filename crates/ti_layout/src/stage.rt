//! The one checker of entries: how far the checks of bytes are made, and which one is next.
//!
//! A stage says in which section the next check is and which of its items are left, and keeps the parts that the checks
//! have read. It goes on over all the bytes that have come: a step checks the items of a section that lie within them,
//! in one loop, or makes the few checks that close it. Bytes that come whole go through all sections in a straight line,
//! in which each is a constant; where one does not pass at once, the steps find out why.

ghost use Rattle.std.specs.Prelude.{◌≡◌, ℕ, List, ◌+◌, ◌*◌, ◌<◌, ◌≤◌, ◌^◌, ◌∷◌, ◌++◌, length, IfErr, OnOk, Some, IsTrue};
ghost use Rattle.std.specs.Bool.{OnTrue};
ghost use Rattle.ti_base.specs.Limits.{most_entry_bytes};
ghost use Rattle.ti_layout.specs.Layout.{end_of};
ghost use Rattle.ti_layout.specs.Checks.{Passes, verdict, result_verdict, refusal_at};
ghost use Rattle.ti_layout.specs.LastNul.{HasOffsetsBelow};
ghost use Rattle.ti_layout.specs.Refusal.{item_size, items_checks, items_of, part_of, closing_checks, failure};
ghost use Rattle.ti_layout.specs.Stages.{StandsAt, Stands, Waits, new_stage, at_front, next, standard_after, extended_known_after, stage_after, steps_left, closing_end, bytes_awaited, is_whole};
ghost use Rattle.ti_layout.specs.declared.section.Section.TheVariants.{Magic, Names, Flags, NameOffsets};

use crate::checks::{check_nul, check_pad};
use crate::fault::{Fault, Refused};
use crate::header::{check_magic, check_start, sized_extended, sized_standard};
use crate::part::Part;
use crate::section::{Half, Section, SectionItem, SectionItems};
use crate::table::check_texts;

/// Which check is next, and the parts that are known by then.
#[derive(Clone, Copy)]
pub struct Stage {
    pub(crate) section: Section,
    pub(crate) items: SectionItems,
    pub(crate) standard: Part,
    pub(crate) extended: Part,
    /// The place from which the offsets of the extended names are counted.
    pub(crate) base: usize,
}

impl Stage {
    /// The stage at which nothing is checked.
    pub fn new() -> Stage
        ensures { result ≡ new_stage }
    {
        Stage {
            section: Section::Magic,
            items: SectionItems::new(SectionItem::Flag, 0, 0),
            standard: Part::none(),
            extended: Part::none(),
            base: 0,
        }
    }

    /// The checks after the items of a section; it keeps the parts that they read. `below` is true only if each offset of a
    /// text is known to be a mark or a place of the table.
    #[inline(always)]
    fn close(&mut self, bytes: &[u8], below: bool) -> Result<(), Refused>
        requires fits { end_of self.old.standard ≤ most_entry_bytes }
        requires extended_fits { end_of self.old.extended ≤ most_entry_bytes }
        requires named { self.old.section ≡ Names → 14 ≤ self.old.standard.flags_from }
        requires there { closing_end self.old.section self.old.standard self.old.extended
            ≤ length bytes.now }
        requires below { IsTrue below → (half : Half) → self.old.section ≡ NameOffsets half
            → HasOffsetsBelow bytes.now (part_of half self.old.standard self.old.extended) }
        ensures verdict { result_verdict result ≡ verdict (length bytes.now)
            (closing_checks self.old.section self.old.standard self.old.extended bytes.now) }
        ensures kept { OnOk result (self.new ≡ stage_after self.old bytes.now) }
        ensures same { IfErr result (λ refused. self.new ≡ self.old) }
    {
        match self.section {
            Section::Magic => check_magic(bytes)?,
            Section::Header => self.standard = sized_standard(bytes)?,
            Section::Names => check_nul(bytes, Fault::BadNames, self.standard.flags_from - 1)?,
            Section::Flags(half) => {
                check_pad(bytes, half.of(&self.standard, &self.extended).flags_end())?
            },
            Section::NameOffsets(half) => {
                self.base = check_texts(bytes, half.of(&self.standard, &self.extended), below)?
            }
            Section::TableEnd => check_start(bytes, &self.standard)?,
            Section::ExtendedHeader => self.extended = sized_extended(bytes, &self.standard)?,
            Section::End => {
                return Err(Refused {
                    fault: Fault::Trailing,
                    place: self.extended.end(),
                });
            }
            Section::Numbers(_) | Section::Offsets(_) => {}
        }
        Ok(())
    }

    /// Checks the items of a section that lie within the bytes, or closes it.
    fn check_section(&mut self, bytes: &[u8]) -> Result<(), Refused>
        requires stands { Stands bytes.now self.old }
        requires there { bytes_awaited self.old ≤ length bytes.now }
        ensures stands { OnOk result (Stands bytes.now self.new) }
        ensures less { OnOk result (steps_left self.new < steps_left self.old) }
        ensures failed { IfErr result (λ refused. failure bytes.now ≡ Some refused) }
        ensures same { IfErr result (λ refused. self.new ≡ self.old) }
    {
        if self.items.left > 0 {
            let count = self.items.count_within(bytes.len());
            self.items.check(bytes, count)?;
            self.items = self.items.after(count);
            return Ok(());
        }
        self.close(bytes, false)?;
        self.section = self.section.next();
        self.items = self.section.items(&self.standard, &self.extended);
        Ok(())
    }

    /// Whether all checks of the section that is next pass at once: then the stage is at the one after it, and else as before.
    #[inline(always)]
    fn pass(&mut self, section: Section, bytes: &[u8]) -> bool
        requires here { self.old.section ≡ section }
        requires stands { Stands bytes.now (at_front self.old) }
        requires below { (half : Half) → section ≡ NameOffsets half
            → HasOffsetsBelow bytes.now (part_of half self.old.standard self.old.extended) }
        ensures stands { Stands bytes.now (at_front self.new) }
        ensures next { OnTrue result (self.new.section ≡ next section) }
        ensures passed { OnTrue result (Passes ≡ verdict (length bytes.now)
            (items_checks bytes.now (items_of section self.old.standard self.old.extended))) }
        ensures standard { OnTrue result
            (self.new.standard ≡ standard_after section self.old.standard bytes.now) }
        ensures extended { OnTrue result (self.new.extended
            ≡ extended_known_after section self.old.standard self.old.extended bytes.now) }
    {
        let items = section.items(&self.standard, &self.extended);
        if !items.pass(bytes) {
            return false;
        }
        if section.closing_end(&self.standard, &self.extended) > bytes.len() {
            return false;
        }
        // It is that one already, and so the compiler knows it.
        self.section = section;
        let Ok(()) = self.close(bytes, true) else {
            return false;
        };
        self.section = section.next();
        true
    }

    /// The same of the sections of a part, from its flags on.
    #[inline(always)]
    fn pass_part(&mut self, half: Half, bytes: &[u8]) -> bool
        requires here { self.old.section ≡ Flags half }
        requires stands { Stands bytes.now (at_front self.old) }
        ensures stands { Stands bytes.now (at_front self.new) }
        ensures next { OnTrue result (self.new.section ≡ next (NameOffsets half)) }
    {
        if !self.pass(Section::Flags(half), bytes) {
            return false;
        }
        if !self.pass(Section::Numbers(half), bytes) {
            return false;
        }
        if !self.pass(Section::Offsets(half), bytes) {
            return false;
        }
        self.pass(Section::NameOffsets(half), bytes)
    }

    /// Goes through the sections up to the first that does not pass at once.
    fn pass_sections(&mut self, bytes: &[u8])
        requires here { self.old.section ≡ Magic }
        requires stands { Stands bytes.now (at_front self.old) }
        ensures { Stands bytes.now (at_front self.new) }
    {
        if !self.pass(Section::Magic, bytes) {
            return;
        }
        if !self.pass(Section::Header, bytes) {
            return;
        }
        if !self.pass(Section::Names, bytes) {
            return;
        }
        if !self.pass_part(Half::Standard, bytes) {
            return;
        }
        if !self.pass(Section::TableEnd, bytes) {
            return;
        }
        if !self.pass(Section::ExtendedHeader, bytes) {
            return;
        }
        let _passed = self.pass_part(Half::Extended, bytes);
    }

    /// The same of a stage at the first section; another stays as it is.
    fn start(&mut self, bytes: &[u8])
        requires { Stands bytes.now self.old }
        ensures { Stands bytes.now self.new }
    {
        if let Section::Magic = self.section {
            self.pass_sections(bytes);
            self.items = self.section.items(&self.standard, &self.extended);
        }
    }

    /// How many bytes the next check awaits: with fewer no further check is made.
    #[inline(always)]
    pub fn bytes_awaited(&self) -> usize
        requires within { self.now.items.at + item_size self.now.items.item * self.now.items.left
            ≤ most_entry_bytes }
        requires fits { end_of self.now.standard ≤ most_entry_bytes }
        requires extended_fits { end_of self.now.extended ≤ most_entry_bytes }
        ensures value { result ≡ bytes_awaited self.now }
        ensures waits { (bytes : List ℕ) → StandsAt bytes self.now → length bytes < result
            → Waits bytes self.now }
    {
        if self.items.left > 0 {
            return self.items.at + self.items.item.size();
        }
        self.section.closing_end(&self.standard, &self.extended)
    }

    /// Makes each check whose prefix is there.
    ///
    /// # Errors
    ///
    /// The first that fails.
    ///
    /// # Examples
    ///
    /// ```rust
    /// let mut stage = Stage::new();
    /// assert!(rt; stage.advance(b"\x7fELF") == Err(refused));
    /// ```
    pub fn advance(&mut self, bytes: &[u8]) -> Result<(), Refused>
        requires { Stands bytes.now self.old }
        ensures stands { OnOk result (Stands bytes.now self.new) }
        ensures waits { OnOk result (Waits bytes.now self.new) }
        ensures failed { IfErr result (λ refused. failure bytes.now ≡ Some refused) }
        ensures stood { IfErr result (λ refused. Stands bytes.now self.new) }
    {
        self.start(bytes);
        'steps: while self.bytes_awaited() <= bytes.len() {
            self.check_section(bytes)?;
        }
        Ok(())
    }

    /// The standard part that is known by then.
    pub fn standard(&self) -> Part
        ensures { result ≡ self.now.standard }
    {
        self.standard
    }

    /// The extended part that is known by then.
    pub fn extended(&self) -> Part
        ensures { result ≡ self.now.extended }
    {
        self.extended
    }

    /// Returns the place from which the offsets of the extended names are counted, as far as it is known by then.
    pub fn base(&self) -> usize
        ensures { result ≡ self.now.base }
    {
        self.base
    }

    /// Whether the bytes that came are a whole entry, if `advance` has refused none of them.
    pub fn is_whole(&self) -> bool
        ensures { result ≡ is_whole self.now.section }
    {
        matches!(self.section, Section::TableEnd | Section::End)
    }

    /// Why a byte more is refused, if as many came as an entry may have.
    pub fn fault_when_full(&self) -> Fault
        ensures { (bytes : List ℕ) → (byte : ℕ) → (more : List ℕ) → Stands bytes self.now
            → Waits bytes self.now → length bytes ≡ most_entry_bytes
            → failure (bytes ++ byte ∷ more) ≡ Some (refusal_at result (length bytes)) }
    {
        self.section.fault_when_full()
    }
}
