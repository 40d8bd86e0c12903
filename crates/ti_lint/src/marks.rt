//! The padding marks of a text, and what looks like one.

ghost use Rattle.std.specs.Prelude.{◌≤◌, ◌↔◌, IsTrue, length};
ghost use Rattle.ti_lint.specs.Marks.{IsMark, IsFalseMark};

use ti_pad::starts_with_mark;

/// Whether a padding mark stands at a place. A key sends no padding.
pub fn is_mark(text: &[u8], place: usize) -> bool
    requires { place ≤ length text.now }
    ensures exact { IsTrue result ↔ IsMark text.now place }
{
    starts_with_mark(&text[place..])
}

/// Whether a `$<` stands at a place and starts no padding mark.
pub fn is_false_mark(text: &[u8], place: usize) -> bool
    requires { place ≤ length text.now }
    ensures exact { IsTrue result ↔ IsFalseMark text.now place }
{
    text[place..].starts_with(b"$<") && !is_mark(text, place)
}
