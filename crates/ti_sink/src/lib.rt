//! What results are written to: a page of lines for people, and a document of JSON.
//!
//! A [`Page`] and a [`Printer`] are printable by their type, whatever is written to them: a byte that may not stand there is written
//! as a backslash and three octal digits, as in the notation of terminfo(5). Both remember whether memory was refused, so their calls
//! return nothing, and what writes to them needs no early return. The time of a call is linear in what it is given and in what it
//! writes. An empty page and an empty document take no memory, and a [`ShortPage`] never does.
#![tactic(auto)]

mod octal;
mod page;
mod printer;
mod short_page;

pub use page::Page;
pub use printer::Printer;
pub use short_page::ShortPage;
