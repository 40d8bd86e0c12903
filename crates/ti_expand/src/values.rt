//! The values of parameters and of the stack.

/// A number of 32 bits, or a text that is lent.
#[derive(Clone, Copy, Debug)]
pub enum Value<'a> {
    /// A number.
    Num(i32),
    /// The bytes of a text, at most [`ti_base::MOST_TEXT_BYTES`] of them if it is expanded.
    Text(&'a [u8]),
}
