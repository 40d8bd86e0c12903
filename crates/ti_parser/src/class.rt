//! The classes of bytes below 80.

ghost use Rattle.std.specs.Prelude.{◌≡◌};
ghost use Rattle.ti_parser.specs.Classes.{class_of};

/// What a byte below 80 can do.
#[derive(Clone, Copy, Debug, PartialEq, Eq)]
pub(crate) enum ByteClass {
    /// A control of C0 that is none of those below.
    Control,
    /// BEL.
    Bell,
    /// CAN or SUB.
    Cancel,
    /// ESC.
    Escape,
    /// From the space to `/`.
    Intermediate,
    /// A decimal digit.
    Digit,
    /// A colon or a semicolon.
    Separator,
    /// From `<` to `?`.
    Marker,
    /// From `@` to `~`.
    Final,
    /// DEL.
    Delete,
}

/// The class of a byte below 80.
#[tactic(auto, unfolding(crate::specs::Classes::class_of))]
pub(crate) fn class_of(byte: u8) -> ByteClass
    ensures { result ≡ class_of byte }
{
    match byte {
        0x07 => ByteClass::Bell,
        0x18 => ByteClass::Cancel,
        0x1a => ByteClass::Cancel,
        0x1b => ByteClass::Escape,
        ..0x20 => ByteClass::Control,
        0x20..0x30 => ByteClass::Intermediate,
        0x30..0x3a => ByteClass::Digit,
        0x3a..0x3c => ByteClass::Separator,
        0x3c..0x40 => ByteClass::Marker,
        0x40..0x7f => ByteClass::Final,
        _ => ByteClass::Delete,
    }
}
