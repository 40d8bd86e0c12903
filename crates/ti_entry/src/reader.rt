//! A reader that keeps the pieces of an entry as they come, and makes each check at the byte that completes its prefix.
//!
//! It keeps at most [`MOST_ENTRY_BYTES`] in a buffer of its own and takes no other memory. A piece is refused at the byte
//! with which a check fails, and that refusal lasts. A piece is copied whole and its checks are made in one go. Where one
//! fails, the piece is taken again byte by byte. A piece that brings too few bytes for the next check is only copied.
//! Over all pieces the time is linear in their bytes.

ghost use Rattle.std.specs.Prelude.{◌≡◌, ℕ, List, ◌∷◌, ◌≤◌, ◌++◌, [], length, true, false, Some, None, Err};
ghost use Rattle.ti_base.specs.Limits.{most_entry_bytes};
ghost use Rattle.ti_layout.specs.declared.fault.Refused.{Refused};
ghost use Rattle.ti_layout.specs.Refusal.{failure};
ghost use Rattle.ti_layout.specs.Stages.{Stands, Waits};

use crate::entry::{Entry, entry_at};
use arrayvec::ArrayVec;
use std::fmt;
use std::marker::Model;
use ti_base::MOST_ENTRY_BYTES;
use ti_layout::{Refused, Stage};

/// The bytes of an entry that came so far, the check that is next, and the refusal that lasts.
#[derive(Drop)]
pub struct EntryReader {
    kept: ArrayVec<u8, MOST_ENTRY_BYTES>,
    stage: Stage,
    refusal: Option<Refused>,
}

impl Model for EntryReader {
    ghost use Rattle.ti_entry.specs.Reading.{Reading};
    ghost use Rattle.ti_entry.specs.Reading.{IsReading};

    ghost Value = { Reading };

    ghost view = { λ r. record { kept = r.kept.items; refusal = r.refusal } };

    ghost invariant = { λ r. IsReading r.kept.items r.stage r.refusal };
}

// It names the type alone, since the bytes that it keeps may be tens of thousands.
impl fmt::Debug for EntryReader {
    fn fmt<W: fmt::Write>(&self, f: &mut fmt::Formatter<W>) -> fmt::Result {
        f.write_str("EntryReader")
    }
}

impl EntryReader {
    ghost use Rattle.ti_entry.specs.Reading.{IsReadOf, new_reading, reading_after, final_answer, answer_under};

    /// A reader that was fed nothing.
    pub fn new() -> Self
        ensures { result ≡ new_reading }
    {
        EntryReader {
            kept: ArrayVec::new(),
            stage: Stage::new(),
            refusal: None,
        }
    }

    /// Takes a piece of any length after the bytes that are kept.
    ///
    /// # Errors
    ///
    /// The first check that fails on the bytes so far; those before the byte that decides it are kept. From then on this
    /// refusal is returned for every piece, and nothing changes.
    pub fn feed(&mut self, piece: &[u8]) -> Result<(), Refused>
        // What the piece makes of the reader.
        ensures fed { self.new ≡ reading_after self.old piece.now }
        // The refusal that it then holds, if any.
        ensures answer { result ≡ answer_under self.new.refusal tt }
        ensures most { length self.new.kept ≤ most_entry_bytes }
    {
        if let Some(refused) = self.refusal() {
            return Err(refused);
        }
        if piece.len() > 1 && self.take_at_once(piece) {
            return Ok(());
        }
        self.take_each(piece)
    }

    /// Takes a piece at once, and returns whether it did: if it has no room, or a check fails on it, nothing changes.
    fn take_at_once(&mut self, piece: &[u8]) -> bool
        requires { self.old.refusal ≡ None }
        ensures taken { result ≡ true → self.new ≡ reading_after self.old piece.now }
        ensures no_refusal { result ≡ true → self.new.refusal ≡ None }
        ensures same { result ≡ false → self.new ≡ self.old }
        ensures most { length self.new.kept ≤ most_entry_bytes }
    {
        let count = self.kept();
        let Ok(()) = self.kept.try_extend_from_slice(piece) else {
            return false;
        };
        if self.kept.as_slice().len() < self.stage.bytes_awaited() {
            return true;
        }
        let mut stage = self.stage;
        let Ok(()) = stage.advance(self.kept.as_slice()) else {
            self.kept.truncate(count);
            return false;
        };
        self.stage = stage;
        true
    }

    /// Takes a piece byte by byte, up to the one at which a check fails.
    fn take_each(&mut self, piece: &[u8]) -> Result<(), Refused>
        requires no_refusal { self.old.refusal ≡ None }
        requires none_failed { failure self.old.kept ≡ None }
        requires most { length self.old.kept ≤ most_entry_bytes }
        ensures fed { self.new ≡ reading_after self.old piece.now }
        ensures answer { result ≡ answer_under self.new.refusal tt }
        ensures most { length self.new.kept ≤ most_entry_bytes }
    {
        'bytes: for &byte in piece {
            self.take(byte)?;
        }
        Ok(())
    }

    /// Takes one byte.
    fn take(&mut self, byte: u8) -> Result<(), Refused>
        requires { self.old.refusal ≡ None }
        ensures fed { self.new ≡ reading_after self.old (byte ∷ []) }
        ensures answer { result ≡ answer_under self.new.refusal tt }
        ensures most { length self.new.kept ≤ most_entry_bytes }
    {
        if self.kept.is_full() {
            let refused = refusal_when_full(self.kept.as_slice(), &self.stage);
            self.refusal = Some(refused);
            return Err(refused);
        }
        self.kept.push(byte);
        if self.kept.as_slice().len() < self.stage.bytes_awaited() {
            return Ok(());
        }
        if let Err(refused) = self.stage.advance(self.kept.as_slice()) {
            self.kept.pop();
            self.refusal = Some(refused);
            return Err(refused);
        }
        Ok(())
    }

    /// How many bytes are kept.
    pub fn kept(&self) -> usize
        ensures count { result ≡ length self.now.kept }
        ensures most { result ≤ most_entry_bytes }
    {
        self.kept.len()
    }

    /// The bytes that are kept.
    pub fn bytes(&self) -> &[u8]
        ensures { result.now ≡ self.now.kept }
    {
        self.kept.as_slice()
    }

    /// The entry that the kept bytes spell. It makes no check and changes nothing, and more pieces may follow.
    ///
    /// # Errors
    ///
    /// The refusal of an earlier `feed`; else `Truncated` at the number of bytes kept, if these end before an entry does.
    pub fn finish(&self) -> Result<Entry<'_>, Refused>
        // The result in one equation: after a refusal that refusal, else what `read` returns of the kept bytes.
        ensures answer { result ≡ final_answer self.now }
        // After a refusal, that refusal.
        ensures lasting { (r : Refused) → self.now.refusal ≡ Some r → result ≡ Err r }
        // Else what `read` returns of the kept bytes.
        ensures read { self.now.refusal ≡ None → IsReadOf self.now.kept result }
    {
        if let Some(refused) = self.refusal {
            return Err(refused);
        }
        entry_at(self.kept.as_slice(), &self.stage)
    }

    /// The refusal that lasts.
    pub(crate) fn refusal(&self) -> Option<Refused>
        ensures value { result ≡ self.now.refusal }
        ensures none_failed { failure self.now.kept ≡ None }
        ensures most { length self.now.kept ≤ most_entry_bytes }
    {
        self.refusal
    }
}

/// Why a byte after as many as an entry may have is refused.
fn refusal_when_full(kept: &[u8], stage: &Stage) -> Refused
    requires full { length kept.now ≡ most_entry_bytes }
    requires stands { Stands kept.now stage.now }
    requires waits { Waits kept.now stage.now }
    ensures { (byte : ℕ) → (more : List ℕ) → failure (kept.now ++ byte ∷ more) ≡ Some result }
{
    Refused {
        fault: stage.fault_when_full(),
        place: kept.len(),
    }
}
