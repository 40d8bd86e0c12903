//! The result of an expansion that succeeds.

/// How an expansion went: its counts are exact, those of the one path that the tests choose. C sees them in this order.
#[repr(C)]
#[derive(Clone, Copy, PartialEq, Eq, Debug)]
pub struct Run {
    /// The bytes of output.
    pub written: usize,
    /// The tokens that ran. The `%e` or `%;` that ends a passing over ran, and so did the `%e` that starts one.
    pub ran: usize,
    /// The tokens that were passed over.
    pub passed: usize,
    /// The greatest number of values on the stack after a token.
    pub peak: usize,
}
