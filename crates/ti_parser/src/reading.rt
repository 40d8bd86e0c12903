//! How a terminal may read bytes above 7F, and what it receives.

use crate::padding::Marks;

/// What bytes from 80 on are.
#[derive(Clone, Copy, Debug, PartialEq, Eq)]
pub enum Coding {
    /// UTF-8; a byte that is no part of a character is none of C1.
    Utf8,
    /// UTF-8 in which a byte from 80 to 9F that is no part of a character is one of C1.
    Utf8WithC1,
    /// Bytes: 80 to 9F is C1, and within a function A0 to FF is 20 to 7F.
    Bytes,
}

/// What controls do within a function.
#[derive(Clone, Copy, Debug, PartialEq, Eq)]
pub enum Within {
    /// A control of C1 ends the function that is underway, and its own starts. A string ignores controls of C0.
    StartsAnew,
    /// Controls of C0 and C1 are carried out, and the function goes on.
    GoesOn,
}

/// One way to read bytes.
#[derive(Clone, Copy, Debug, PartialEq, Eq)]
pub struct Reading {
    /// What bytes from 80 on are.
    pub coding: Coding,
    /// What controls do within a function.
    pub within: Within,
}

/// What the first parameter of a capability may be, if `%c` prints it as it is given.
#[derive(Clone, Copy, Debug, PartialEq, Eq)]
pub enum FirstCharacter {
    /// Any byte.
    Any,
    /// From the space to `~` but no `?`, such as the character that `rep` repeats.
    Printable,
    /// From `0` to `~`, such as the final byte by which `S0` designates a character set.
    Designator,
}

/// How a terminal receives what a capability is expanded to.
#[derive(Clone, Copy, Debug, PartialEq, Eq)]
pub struct Reception {
    /// How it reads bytes.
    pub reading: Reading,
    /// How padding marks were taken out before.
    pub marks: Marks,
    /// What the first parameter of the capability may be.
    pub first_character: FirstCharacter,
}
