//! Texts that were tried over values, kept so that each is tried once for all entries that share it.
//!
//! Results are kept to save time alone: a report is the same with them and without them. At most [`MOST_QUIET_TEXTS`] and
//! [`MOST_SENT_TEXTS`] are kept, and those after them are tried each time.

ghost use Rattle.std.specs.Prelude.{◌≡◌, ◌≤◌, IfSome, length, true};
ghost use Rattle.ti_rules.specs.Trials.{AreSentForSets, IsQuiet, most_quiet_texts, most_sent_texts};
ghost use Rattle.ti_values.specs.Sent.{texts_of};

use crate::harmless::Harmless;
use std::alloc::{AllocError, Allocator, Global};
use std::marker::Model;
use std::mem::swap;
use ti_values::Range;

/// The most texts that are kept of which nothing is reported.
const MOST_QUIET_TEXTS: usize = 2048;

/// The most texts that are kept with what they send.
const MOST_SENT_TEXTS: usize = 256;

/// A text of which nothing is reported over a range: in each entry of a terminal of ECMA-48, or in each other one.
#[derive(Drop)]
struct QuietText<A: Allocator> {
    text: Vec<u8, A>,
    range: Range,
    ansi: bool,
}

impl<A: Allocator> Model for QuietText<A> {
    ghost use Rattle.std.specs.Prelude.{ℕ, Bool, List};
    ghost use Rattle.ti_values.specs.declared.range.Range.{Range as TheRange};
    ghost use Rattle.ti_rules.specs.Trials.{IsQuiet};

    ghost Value = { List ℕ × TheRange × Bool };

    ghost view = { λ q. (q.text.items, q.range, q.ansi) };

    ghost invariant = { λ q. IsQuiet q.ansi q.text.items q.range };
}

/// A text, and what it sends for all sets of attributes.
#[derive(Drop)]
struct SentText<A: Allocator> {
    text: Vec<u8, A>,
    sent: Vec<Vec<u8, A>, A>,
}

impl<A: Allocator> Model for SentText<A> {
    ghost use Rattle.std.specs.Prelude.{ℕ, List};
    ghost use Rattle.ti_rules.specs.Trials.{AreSentForSets};
    ghost use Rattle.ti_values.specs.Sent.{texts_of};

    ghost Value = { List ℕ × List (List ℕ) };

    ghost view = { λ s. (s.text.items, texts_of s.sent.items) };

    ghost invariant = { λ s. AreSentForSets s.text.items (texts_of s.sent.items) };
}

/// The texts that were tried for the entries so far.
#[derive(Drop)]
pub struct Trials<A: Allocator = Global> {
    quiet: Vec<QuietText<A>, A>,
    sent: Vec<SentText<A>, A>,
    harmless: Harmless<A>,
    ghost few_quiet: { length quiet.items ≤ most_quiet_texts },
    ghost few_sent: { length sent.items ≤ most_sent_texts },
}

impl<A: Allocator> QuietText<A> {
    /// Whether it is of such an entry, this text and this range.
    fn is_of(&self, ansi: bool, text: &[u8], range: Range) -> bool
        ensures { result ≡ true → IsQuiet ansi text.now range }
    {
        if self.ansi != ansi {
            return false;
        }
        if self.range != range {
            return false;
        }
        self.text.as_slice() == text
    }
}

impl<A: Allocator> Trials<A> {
    /// None so far, which takes no memory.
    pub fn new(alloc: A) -> Self
    where
        A: Copy,
    {
        Trials {
            quiet: Vec::new(alloc),
            sent: Vec::new(alloc),
            harmless: Harmless::new(alloc),
        }
    }

    /// Exchanges the strings in which nothing was found for others.
    pub(crate) fn exchange(&mut self, harmless: &mut Harmless<A>) {
        swap(&mut self.harmless, harmless);
    }

    /// Whether a text is kept as one of which nothing is reported.
    pub(crate) fn is_quiet(&self, ansi: bool, text: &[u8], range: Range) -> bool
        ensures { result ≡ true → IsQuiet ansi text.now range }
    {
        for quiet in &self.quiet {
            if quiet.is_of(ansi, text, range) {
                return true;
            }
        }
        false
    }

    /// Keeps a text of which nothing is reported, if there is room.
    pub(crate) fn keep_quiet(
        &mut self,
        alloc: A,
        ansi: bool,
        text: &[u8],
        range: Range,
    ) -> Result<(), AllocError>
    where
        A: Copy,
        requires { IsQuiet ansi text.now range }
    {
        if self.quiet.len() >= MOST_QUIET_TEXTS {
            return Ok(());
        }
        let text = text.to_vec(alloc)?;
        self.quiet.push(QuietText { text, range, ansi })?;
        Ok(())
    }

    /// Returns the bytes that a text sends for all sets of attributes, if they are kept.
    pub(crate) fn sent_for(&self, text: &[u8]) -> Option<&[Vec<u8, A>]>
        ensures { IfSome result (λ sent. AreSentForSets text.now (texts_of sent.now)) }
    {
        for kept in &self.sent {
            if kept.text.as_slice() == text {
                return Some(kept.sent.as_slice());
            }
        }
        None
    }

    /// Keeps what a text sends for all sets of attributes, if there is room.
    pub(crate) fn keep_sent(
        &mut self,
        alloc: A,
        text: &[u8],
        sent: Vec<Vec<u8, A>, A>,
    ) -> Result<(), AllocError>
    where
        A: Copy,
        requires { AreSentForSets text.now (texts_of sent.items) }
    {
        if self.sent.len() >= MOST_SENT_TEXTS {
            return Ok(());
        }
        let text = text.to_vec(alloc)?;
        self.sent.push(SentText { text, sent })?;
        Ok(())
    }
}
