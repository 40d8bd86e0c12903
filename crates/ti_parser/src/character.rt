//! What bytes above 7F are, in each coding.

ghost use Rattle.std.specs.Prelude.{◌≡◌, ◌≤◌, ◌<◌, IfSome};
ghost use Rattle.ti_parser.specs.Characters.{begins, byte_read, decoded, first, fits, followed, is_between, led, stray, upper, upper_read, utf8_read, whole};

use crate::reading::Coding;

/// How much of a character of UTF-8 has come.
#[derive(Clone, Copy, Debug, PartialEq, Eq)]
pub enum Begun {
    /// Nothing.
    Nothing,
    /// C2: the next byte ends a control of C1 or a character.
    Latin,
    /// One byte more ends the character.
    One,
    /// Two bytes are missing.
    Two,
    /// Three bytes are missing.
    Three,
    /// E0: no character is longer than it must be.
    AfterE0,
    /// ED: surrogates are no characters.
    AfterEd,
    /// F0: no character is longer than it must be.
    AfterF0,
    /// F4: the last character is 10FFFF.
    AfterF4,
}

/// What a byte is for the parser.
#[derive(Clone, Copy, Debug, PartialEq, Eq)]
pub(crate) enum Symbol {
    /// A part of a character that is not ended.
    Unfinished,
    /// A character beyond ASCII, or in place of a malformed one.
    Character,
    /// A byte below 80.
    Plain(u8),
    /// A control of C1, by the byte that follows an escape in its form of seven bits.
    Upper(u8),
}

/// A symbol, and the character that is begun.
#[derive(Clone, Copy, Debug, PartialEq, Eq)]
pub(crate) struct Decoded {
    /// What the byte is.
    pub symbol: Symbol,
    /// How much of a character has come.
    pub begun: Begun,
}

/// Whether a byte lies between two, which are included.
pub(crate) fn is_between(low: u8, high: u8, byte: u8) -> bool
    ensures { result ≡ is_between low high byte }
{
    low <= byte && byte <= high
}

/// A symbol that no character follows.
fn whole(symbol: Symbol) -> Decoded
    ensures { result ≡ whole symbol }
{
    Decoded {
        symbol,
        begun: Begun::Nothing,
    }
}

/// A character that is begun.
fn begins(begun: Begun) -> Decoded
    ensures { result ≡ begins begun }
{
    Decoded {
        symbol: Symbol::Unfinished,
        begun,
    }
}

/// A control of C1.
fn upper(byte: u8) -> Decoded
    requires { 64 ≤ byte }
    ensures { result ≡ upper byte }
{
    whole(Symbol::Upper(byte - 0x40))
}

/// Whether a byte goes on with the character.
fn fits(begun: Begun, byte: u8) -> bool
    ensures { result ≡ fits begun byte }
{
    match begun {
        Begun::Nothing => false,
        Begun::AfterE0 => is_between(0xa0, 0xbf, byte),
        Begun::AfterEd => is_between(0x80, 0x9f, byte),
        Begun::AfterF0 => is_between(0x90, 0xbf, byte),
        Begun::AfterF4 => is_between(0x80, 0x8f, byte),
        _ => is_between(0x80, 0xbf, byte),
    }
}

/// The character after a byte that goes on with it.
fn followed(begun: Begun, byte: u8) -> Decoded
    requires { 128 ≤ byte }
    ensures { result ≡ followed begun byte }
{
    match begun {
        Begun::Latin if byte < 0xa0 => upper(byte),
        Begun::Two => begins(Begun::One),
        Begun::Three => begins(Begun::Two),
        Begun::AfterE0 => begins(Begun::One),
        Begun::AfterEd => begins(Begun::One),
        Begun::AfterF0 => begins(Begun::Two),
        Begun::AfterF4 => begins(Begun::Two),
        _ => whole(Symbol::Character),
    }
}

/// The character that a byte from C2 to F4 begins.
fn led(byte: u8) -> Begun
    ensures { result ≡ led byte }
{
    match byte {
        0xc2 => Begun::Latin,
        ..0xe0 => Begun::One,
        0xe0 => Begun::AfterE0,
        0xed => Begun::AfterEd,
        ..0xf0 => Begun::Two,
        0xf0 => Begun::AfterF0,
        ..0xf4 => Begun::Three,
        _ => Begun::AfterF4,
    }
}

/// A byte that is no part of a character.
fn stray(coding: Coding, byte: u8) -> Decoded
    requires { 128 ≤ byte }
    ensures { result ≡ stray coding byte }
{
    match coding {
        Coding::Utf8WithC1 if byte < 0xa0 => upper(byte),
        _ => whole(Symbol::Character),
    }
}

/// A byte at the start of a character.
fn first(coding: Coding, byte: u8) -> Decoded
    requires { 128 ≤ byte }
    ensures { result ≡ first coding byte }
{
    if is_between(0xc2, 0xf4, byte) {
        begins(led(byte))
    } else {
        stray(coding, byte)
    }
}

/// A byte of UTF-8.
fn utf8_read(coding: Coding, begun: Begun, byte: u8) -> Decoded
    requires { 128 ≤ byte }
    ensures { result ≡ utf8_read coding begun byte }
{
    if fits(begun, byte) {
        followed(begun, byte)
    } else {
        first(coding, byte)
    }
}

/// A byte that is no UTF-8.
fn byte_read(within: bool, byte: u8) -> Decoded
    requires { 128 ≤ byte }
    ensures { result ≡ byte_read within byte }
{
    if byte < 0xa0 {
        upper(byte)
    } else if within {
        whole(Symbol::Plain(byte - 0x80))
    } else {
        whole(Symbol::Character)
    }
}

/// A byte from 80 on.
fn upper_read(coding: Coding, begun: Begun, within: bool, byte: u8) -> Decoded
    requires { 128 ≤ byte }
    ensures { result ≡ upper_read coding begun within byte }
{
    match coding {
        Coding::Bytes => byte_read(within, byte),
        Coding::Utf8 => utf8_read(coding, begun, byte),
        Coding::Utf8WithC1 => utf8_read(coding, begun, byte),
    }
}

/// What a byte is, by what came of a character and whether it stands within a function.
#[tactic(auto, unfolding(crate::specs::Characters::decoded))]
pub(crate) fn decode(coding: Coding, begun: Begun, within: bool, byte: u8) -> Decoded
    ensures { result ≡ decoded coding begun within byte }
{
    if byte < 0x80 {
        whole(Symbol::Plain(byte))
    } else {
        upper_read(coding, begun, within, byte)
    }
}
