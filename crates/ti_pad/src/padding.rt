//! The settings that padding depends on, and how many pad bytes a mark becomes.

ghost use Rattle.std.specs.Prelude.{◌≡◌, ◌≤◌, ◌↔◌, ◌+◌, ◌*◌, ◌/◌, IsSome, IfSome};
ghost use Rattle.ti_base.specs.Limits.{greatest_rate, most_lines};
ghost use Rattle.ti_pad.specs.Padded.{count_of, tenths};
ghost use Rattle.ti_pad.specs.inner.Mark.{mark_of};

use crate::mark::Mark;
use crate::number::{first_digit, number};
use std::marker::Model;
use ti_base::{GREATEST_RATE, MOST_LINES};

/// The longest time of a mark in tenths of a millisecond: five digits and a decimal.
const MOST_TENTHS: u32 = 999_999;

/// The most pad bytes of a mark: its longest time at the greatest rate and the most lines.
pub(crate) const MOST_COUNT: u64 = 6_553_493_446_500;

/// A rate in bytes per second, the affected lines, whether the terminal has xon, and the pad byte.
#[derive(Clone, Copy, Debug)]
pub struct Padding {
    rate: u32,
    lines: u32,
    xon: bool,
    pad: u8,
}

impl Model for Padding {
    ghost use Rattle.std.specs.Prelude.{◌≤◌};
    ghost use Rattle.ti_pad.specs.Setting.{Setting};
    ghost use Rattle.ti_base.specs.Limits.{greatest_rate, most_lines};

    ghost Value = { Setting };

    ghost view = { λ p. record { rate = p.rate; lines = p.lines; xon = p.xon; pad = p.pad } };

    ghost invariant = { λ p. (p.rate ≤ greatest_rate) × (p.lines ≤ most_lines) };

    ghost inverse = { λ s. record { rate = s.rate; lines = s.lines; xon = s.xon; pad = s.pad } };
}

impl Padding {
    /// The padding for a line of this rate. `None` if the rate is above [`GREATEST_RATE`] or the lines are above
    /// [`MOST_LINES`].
    pub fn new(rate: u32, lines: u32, xon: bool, pad: u8) -> Option<Padding>
        ensures within { IsSome result ↔ ((rate ≤ greatest_rate) × (lines ≤ most_lines)) }
        ensures value { IfSome result
            (λ p. (p.rate ≡ rate) × (p.lines ≡ lines) × (p.xon ≡ xon) × (p.pad ≡ pad)) }
    {
        if rate > GREATEST_RATE || lines > MOST_LINES {
            return None;
        }
        Some(Padding {
            rate,
            lines,
            xon,
            pad,
        })
    }

    /// The pad byte.
    pub(crate) fn pad_byte(&self) -> u8
        ensures { result ≡ self.now.pad }
    {
        self.pad
    }

    /// How many pad bytes a mark becomes.
    pub(crate) fn count(&self, mark: &Mark<'_>) -> u64
        ensures value { result ≡ count_of self.now (mark_of mark.now) }
        ensures most { result ≤ MOST_COUNT }
    {
        if self.xon && !mark.flags.contains(&b'/') {
            return 0;
        }
        let lines = if mark.flags.contains(&b'*') {
            self.lines
        } else {
            1
        };
        byte_count(tenths_of(mark), lines, self.rate)
    }
}

/// The time of a mark in tenths of a millisecond.
pub fn tenths_of(mark: &Mark<'_>) -> u32
    ensures value { result ≡ tenths (mark_of mark.now) }
    ensures most { result ≤ MOST_TENTHS }
{
    10 * number(mark.whole) + first_digit(mark.decimals.unwrap_or(&[]))
}

/// The smallest count of bytes that takes so many tenths of a millisecond for each line. A tenth of a millisecond is
/// the 10000th part of a second.
fn byte_count(tenths: u32, lines: u32, rate: u32) -> u64
    requires tenths { tenths ≤ MOST_TENTHS }
    requires lines { lines ≤ most_lines }
    requires rate { rate ≤ greatest_rate }
    ensures value { result ≡ (tenths * lines * rate + 9999) / 10000 }
    ensures most { result ≤ MOST_COUNT }
{
    (u64::from(tenths) * u64::from(lines) * u64::from(rate)).div_ceil(10_000)
}
