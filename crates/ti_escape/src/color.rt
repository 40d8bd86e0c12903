//! Parts of a line that stand out at a terminal.

ghost use Rattle.std.specs.Prelude.{◌≡◌, ◌++◌, OnErr, OnOk};
ghost use Rattle.ti_escape.specs.Colors.{closing, opening, rendition};

use std::alloc::{AllocError, Allocator};

/// Whether parts of lines stand out.
#[derive(Clone, Copy, PartialEq, Eq, Debug)]
pub enum Color {
    /// No part does: lines have no control sequence.
    Never,
    /// Parts do, by the control sequence SGR of ECMA-48.
    Always,
}

/// How a part of a line stands out.
#[derive(Clone, Copy, PartialEq, Eq, Debug)]
pub enum Style {
    /// In red.
    Red,
    /// In green.
    Green,
    /// Brighter than the rest.
    Bold,
    /// Fainter than the rest.
    Faint,
}

/// The control sequence that selects a style.
fn selection(style: Style) -> &'static [u8]
    ensures { result.now ≡ rendition style }
{
    match style {
        Style::Red => b"\x1b[31m",
        Style::Green => b"\x1b[32m",
        Style::Bold => b"\x1b[1m",
        Style::Faint => b"\x1b[2m",
    }
}

/// Appends what comes before a part in a style: a control sequence, or nothing without color. After an error the vector holds what
/// it held.
pub fn push_opening<A: Allocator>(
    out: &mut Vec<u8, A>,
    color: Color,
    style: Style,
) -> Result<(), AllocError>
    ensures text { OnOk result (out.new.items ≡ out.old.items ++ opening color style) }
    ensures kept { OnErr result (out.new.items ≡ out.old.items) }
{
    match color {
        Color::Never => Ok(()),
        Color::Always => out.extend_from_slice(selection(style)),
    }
}

/// Appends what comes after a part in a style: the control sequence that ends all of them, or nothing without color. After an error
/// the vector holds what it held.
pub fn push_closing<A: Allocator>(out: &mut Vec<u8, A>, color: Color) -> Result<(), AllocError>
    ensures text { OnOk result (out.new.items ≡ out.old.items ++ closing color) }
    ensures kept { OnErr result (out.new.items ≡ out.old.items) }
{
    match color {
        Color::Never => Ok(()),
        Color::Always => out.extend_from_slice(b"\x1b[m"),
    }
}
