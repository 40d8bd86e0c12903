//! Texts that send other numbers for the first line and column than `cup` does.

ghost use Rattle.std.specs.Prelude.{IfOk, OnOk, option_map};
ghost use Rattle.ti_rules.specs.Origins.{AreOriginRemarks, AreOriginsBeside, IsOriginReport, IsSentAtOrigin};
ghost use Rattle.ti_rules.specs.inner.Growing.{Gains};
ghost use Rattle.ti_rules.specs.inner.Held.{motion_held};

use crate::finding::Finding;
use crate::lookup::text_named;
use crate::remark::NamedText;
use crate::report::Report;
use std::alloc::{AllocError, Allocator};
use ti_cap::Capability;
use ti_values::{Axes, Tried, is_short, numbers_differ, sent_by};
use ti_words::Text;

/// A text, and what it sends for 0.
#[derive(Clone, Copy)]
pub struct Motion<'t, 'a> {
    subject: NamedText<'a>,
    sent: &'t [u8],
}

/// Returns the bytes that a text sends if each parameter is 0; none if it is no capability, or is not tried.
fn sent_at_origin<A: Allocator + Copy>(
    alloc: A,
    text: &[u8],
) -> Result<Option<Vec<u8, A>>, AllocError>
    ensures { IfOk result (λ sent. IsSentAtOrigin text.now (option_map (λ bytes. bytes.items) sent)) }
{
    match Capability::parse(text) {
        Ok(capability) => {
            if !is_short(&capability) {
                return Ok(None);
            }
            let sent = sent_by(alloc, &capability, Tried::Number(0))?;
            Ok(Some(sent))
        }
        Err(_) => Ok(None),
    }
}

impl<'r, 'a, A: Allocator + Copy> Report<'r, 'a, A> {
    /// Adds the remark on `cup` and the text with a name, if that is there and sends other numbers.
    fn push_origin(
        &mut self,
        cup: Motion<'_, 'a>,
        row: (&'static str, Axes),
    ) -> Result<(), AllocError>
        ensures { OnOk result (Gains (IsOriginReport self.old.on.entry (motion_held cup.entry)
            (row.entry.0.now, row.entry.1)) self.old self.new) }
    {
        let Text::Value(text) = text_named(self.entry(), row.0) else {
            return Ok(());
        };
        let Some(sent) = sent_at_origin(self.allocator(), text)? else {
            return Ok(());
        };
        if !numbers_differ(row.1, cup.sent, sent.as_slice()) {
            return Ok(());
        }
        let name = row.0.as_bytes();
        self.push_on_two(
            cup.subject,
            NamedText { name, text },
            Finding::OriginDiffers,
        )?;
        Ok(())
    }

    /// Adds the remarks on `cup` and each text that sends one of its numbers.
    fn push_origins_beside(&mut self, cup: Motion<'_, 'a>) -> Result<(), AllocError>
        ensures { OnOk result
            (Gains (AreOriginsBeside self.old.on.entry (motion_held cup.entry)) self.old self.new) }
    {
        self.push_origin(cup, ("home", Axes::Both))?;
        self.push_origin(cup, ("vpa", Axes::Line))?;
        self.push_origin(cup, ("hpa", Axes::Column))?;
        self.push_origin(cup, ("csr", Axes::Lines))?;
        Ok(())
    }

    /// The same, if there is a `cup` that is tried.
    pub fn push_origins(&mut self) -> Result<(), AllocError>
        ensures { OnOk result (Gains (AreOriginRemarks self.old.on.entry) self.old self.new) }
    {
        let Text::Value(text) = text_named(self.entry(), "cup") else {
            return Ok(());
        };
        let Some(sent) = sent_at_origin(self.allocator(), text)? else {
            return Ok(());
        };
        let name = b"cup";
        self.push_origins_beside(Motion {
            subject: NamedText { name, text },
            sent: sent.as_slice(),
        })?;
        Ok(())
    }
}
