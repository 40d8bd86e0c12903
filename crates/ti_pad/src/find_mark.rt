//! Finding the padding mark at the front of some bytes.
//!
//! Each function is one part of the grammar and looks forward only, at each byte once. No byte after the first of a
//! mark is a `$`, so that asking at each place of a text is linear in the text. No memory is taken.

ghost use Rattle.std.specs.Prelude.{true, ◌≡◌, ◌≤◌, ◌↔◌, length, option_map, take_while, IfSome, IsTrue};
ghost use Rattle.std.specs.Char.{is_ascii_digit};
ghost use Rattle.std.specs.List.{list_all, prefix_len};
ghost use Rattle.ti_pad.specs.Marks.{bytes_after_front, bytes_after_number, bytes_after_whole, decimals_at, flags_at, mark_after_number as the_mark_after_number, mark_after_whole as the_mark_after_whole, mark_after_front as the_mark_after_front, mark_at, mark_bytes, StartsWithMark};
ghost use Rattle.ti_pad.specs.inner.Decimals.{AreDecimals, decimals_of};
ghost use Rattle.ti_pad.specs.inner.Mark.{LeavesAfter, found_mark};

use crate::mark::{LeadingMark, Mark};

/// The most digits before the point; a longer number is no mark.
const MOST_DIGITS: usize = 5;

/// How many digits stand at the front.
fn digit_count(bytes: &[u8]) -> usize
    ensures count { result ≡ prefix_len is_ascii_digit bytes.now }
    ensures within { result ≤ length bytes.now }
{
    bytes.iter().take_while(|b| b.is_ascii_digit()).count()
}

/// The digits at the front.
fn digits(bytes: &[u8]) -> &[u8]
    ensures longest { result.now ≡ take_while is_ascii_digit bytes.now }
    ensures digits { list_all is_ascii_digit result.now ≡ true }
{
    &bytes[..digit_count(bytes)]
}

/// The decimals at the front, if a point is there.
fn decimals(bytes: &[u8]) -> Option<&[u8]>
    ensures value { decimals_of result ≡ decimals_at bytes.now }
    ensures digits { AreDecimals result }
{
    let rest = bytes.strip_prefix(b".")?;
    Some(digits(rest))
}

/// The flags at the front, if a `>` follows them.
fn flags(bytes: &[u8]) -> Option<&'static [u8]>
    ensures { option_map (λ f. f.now) result ≡ flags_at bytes.now }
{
    if bytes.starts_with(b">") {
        Some(b"")
    } else if bytes.starts_with(b"*>") {
        Some(b"*")
    } else if bytes.starts_with(b"/>") {
        Some(b"/")
    } else if bytes.starts_with(b"*/>") {
        Some(b"*/")
    } else if bytes.starts_with(b"/*>") {
        Some(b"/*")
    } else {
        None
    }
}

/// The mark of these digits, if flags and a `>` stand after them.
fn mark_after_number<'a>(
    whole: &'a [u8],
    decimals: Option<&'a [u8]>,
    bytes: &'a [u8],
) -> Option<LeadingMark<'a>>
    requires whole { list_all is_ascii_digit whole.now ≡ true }
    requires decimals { AreDecimals decimals }
    ensures mark { found_mark result
        ≡ the_mark_after_number whole.now (decimals_of decimals.entry) bytes.now }
    ensures rest { IfSome result (LeavesAfter bytes_after_number bytes.now) }
    ensures decimals { IfSome result (λ f. f.mark.decimals ≡ decimals.entry) }
    ensures whole { IfSome result (λ f. f.mark.whole.now ≡ whole.now) }
{
    let count = decimals.unwrap_or(&[]).len();
    if whole.len() > MOST_DIGITS || (whole.is_empty() && count == 0) {
        return None;
    }
    let Some(flags) = flags(bytes) else {
        return None;
    };
    let mark = Mark {
        whole,
        decimals,
        flags,
    };
    Some(LeadingMark {
        mark,
        rest: &bytes[flags.len() + 1..],
    })
}

/// The mark after its whole milliseconds.
fn mark_after_whole<'a>(whole: &'a [u8], bytes: &'a [u8]) -> Option<LeadingMark<'a>>
    requires { list_all is_ascii_digit whole.now ≡ true }
    ensures mark { found_mark result ≡ the_mark_after_whole whole.now bytes.now }
    ensures rest { IfSome result (LeavesAfter bytes_after_whole bytes.now) }
    ensures whole { IfSome result (λ f. f.mark.whole.now ≡ whole.now) }
{
    match decimals(bytes) {
        Some(digits) => mark_after_number(whole, Some(digits), &bytes[digits.len() + 1..]),
        None => mark_after_number(whole, None, bytes),
    }
}

/// The mark after its `$<`.
fn mark_after_front(bytes: &[u8]) -> Option<LeadingMark<'_>>
    ensures mark { found_mark result ≡ the_mark_after_front bytes.now }
    ensures rest { IfSome result (LeavesAfter bytes_after_front bytes.now) }
{
    let whole = digits(bytes);
    mark_after_whole(whole, &bytes[whole.len()..])
}

/// The mark at the front.
pub fn mark_at_front(bytes: &[u8]) -> Option<LeadingMark<'_>>
    ensures mark { found_mark result ≡ mark_at bytes.now }
    ensures rest { IfSome result (LeavesAfter mark_bytes bytes.now) }
{
    let rest = bytes.strip_prefix(b"$<")?;
    mark_after_front(rest)
}

/// Whether a padding mark stands at the front.
pub fn starts_with_mark(bytes: &[u8]) -> bool
    ensures exact { IsTrue result ↔ StartsWithMark bytes.now }
{
    mark_at_front(bytes).is_some()
}
