//! The judgements of a run of texts with the same bytes, so that each is made once for each use.
//!
//! A hostile entry may have hundreds of texts that share their bytes. What is kept saves time alone.

ghost use Rattle.std.specs.Prelude.{◌≡◌, IfSome, true};
ghost use Rattle.ti_rules.specs.Texts.{IsJudged};

use crate::text_remarks::TextRemarks;
use crate::usage::Usage;
use std::alloc::{AllocError, Allocator};
use std::marker::Model;

/// The judgement of a text.
#[derive(Drop)]
struct Judgement<'a, A: Allocator> {
    usage: Usage,
    text: &'a [u8],
    remarks: TextRemarks<A>,
}

impl<'a, A: Allocator> Model for Judgement<'a, A> {
    ghost use Rattle.std.specs.Prelude.{ℕ, List};
    ghost use Rattle.ti_rules.specs.declared.usage.Usage.{Usage as TheUsage};
    ghost use Rattle.ti_rules.specs.Remarks.{TextRemark as TheTextRemark};
    ghost use Rattle.ti_rules.specs.Texts.{IsJudged};

    ghost Value = { TheUsage × List ℕ × List TheTextRemark };

    ghost view = { λ j. (j.usage, j.text.now, j.remarks) };

    ghost invariant = { λ j. IsJudged j.usage j.text.now j.remarks };
}

/// The judgements of the texts so far that have the bytes of the last one.
#[derive(Drop)]
pub struct Judgements<'a, A: Allocator> {
    list: Vec<Judgement<'a, A>, A>,
}

impl<'a, A: Allocator> Judgement<'a, A> {
    /// Whether it is of these bytes, used so.
    fn is_of(&self, usage: Usage, text: &[u8]) -> bool
        ensures { result ≡ true → IsJudged usage text.now self.now.2 }
    {
        self.usage == usage && self.text == text
    }
}

impl<'a, A: Allocator> Judgements<'a, A> {
    /// None so far, which takes no memory.
    pub fn new(alloc: A) -> Self
    where
        A: Copy,
    {
        Judgements {
            list: Vec::new(alloc),
        }
    }

    /// Forgets those of other bytes.
    pub fn begin(&mut self, text: &[u8]) {
        if let Some(last) = self.list.last()
            && last.text != text
        {
            self.list.clear();
        }
    }

    /// The judgement of these bytes, used so, if it is kept.
    pub fn of(&self, usage: Usage, text: &[u8]) -> Option<&TextRemarks<A>>
        ensures { IfSome result (λ remarks. IsJudged usage text.now remarks.now) }
    {
        for judgement in &self.list {
            if judgement.is_of(usage, text) {
                return Some(&judgement.remarks);
            }
        }
        None
    }

    /// Keeps a judgement.
    pub fn keep(
        &mut self,
        usage: Usage,
        text: &'a [u8],
        remarks: TextRemarks<A>,
    ) -> Result<(), AllocError>
        requires { IsJudged usage text.now remarks }
    {
        self.list.push(Judgement {
            usage,
            text,
            remarks,
        })?;
        Ok(())
    }
}
