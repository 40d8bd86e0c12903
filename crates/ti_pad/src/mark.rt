//! A padding mark as its spelled parts, which it lends from the text.

ghost use Rattle.std.specs.Prelude.{true, ◌≡◌, ◌≤◌, length};
ghost use Rattle.std.specs.Char.{is_ascii_digit};
ghost use Rattle.std.specs.List.{list_all};
ghost use Rattle.ti_pad.specs.inner.Decimals.{AreDecimals};

/// A mark: its whole milliseconds, its decimals if it has a point, and its flags.
#[derive(Clone, Copy)]
pub struct Mark<'a> {
    pub whole: &'a [u8],
    pub decimals: Option<&'a [u8]>,
    pub flags: &'a [u8],
    ghost few: { length whole.now ≤ 5 },
    ghost digits: { list_all is_ascii_digit whole.now ≡ true },
    ghost more_digits: { AreDecimals decimals },
}

/// A mark at the front of some bytes, and what stands after it.
#[derive(Clone, Copy)]
pub struct LeadingMark<'a> {
    pub mark: Mark<'a>,
    pub rest: &'a [u8],
}
