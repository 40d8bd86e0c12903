//! The numbers that motions send: `\E[`, one number or two, and a final byte.

ghost use Rattle.std.specs.Prelude.{◌≡◌, ◌≤◌, length, option_map};
ghost use Rattle.std.specs.List.{prefix_len};
ghost use Rattle.ti_values.specs.Axes.{both_numbers, is_only_final, is_same_number, is_zero, last_number, numbers_differ, one_differs, one_number, significant, two_differ, two_numbers};

use crate::sequence::{after_text, past, starts_final, width_len};

/// Which numbers of `cup` a text sends.
#[derive(Clone, Copy, Debug)]
pub enum Axes {
    /// The line and the column, as `home` does.
    Both,
    /// The line, as `vpa` does.
    Line,
    /// The column, as `hpa` does.
    Column,
    /// Two lines, as `csr` does.
    Lines,
}

/// Whether a digit is 0.
fn is_zero(byte: u8) -> bool
    ensures { result ≡ is_zero byte }
{
    byte == b'0'
}

/// How many zeros stand at the front.
fn zeros_len(digits: &[u8]) -> usize
    ensures { result ≡ prefix_len is_zero digits.now }
{
    digits.iter().take_while(|byte| is_zero(**byte)).count()
}

/// The digits of a number without the zeros before it; a number that is left out is 1.
fn significant(digits: &[u8]) -> &[u8]
    ensures { result.now ≡ significant digits.now }
{
    match digits {
        [] => b"1",
        [..] => past(digits, zeros_len(digits)),
    }
}

/// Whether digits are those of the same number.
fn is_same_number(one: &[u8], other: &[u8]) -> bool
    ensures { result ≡ is_same_number one.now other.now }
{
    significant(one) == significant(other)
}

/// Whether bytes are one final byte.
fn is_only_final(bytes: &[u8]) -> bool
    ensures { result ≡ is_only_final bytes.now }
{
    starts_final(bytes) && bytes.len() == 1
}

/// The digits at the front, if only a final byte stands after them.
fn last_number(bytes: &[u8]) -> Option<&[u8]>
    ensures { option_map (λ digits. digits.now) result ≡ last_number bytes.now }
{
    let len = width_len(bytes);
    if !is_only_final(past(bytes, len)) {
        return None;
    }
    Some(&bytes[..len])
}

/// The number of a text that is one control sequence with one number.
fn one_number(text: &[u8]) -> Option<&[u8]>
    ensures { option_map (λ digits. digits.now) result ≡ one_number text.now }
{
    last_number(after_text(b"\x1b[", text)?)
}

/// The numbers of a text that is one control sequence with two numbers.
fn two_numbers(text: &[u8]) -> Option<(&[u8], &[u8])>
    ensures { option_map (λ numbers. (numbers.0.now, numbers.1.now)) result ≡ two_numbers text.now }
{
    let bytes = after_text(b"\x1b[", text)?;
    let len = width_len(bytes);
    let second = last_number(after_text(b";", past(bytes, len))?)?;
    Some((&bytes[..len], second))
}

/// The same, but the second number may be left out.
fn both_numbers(text: &[u8]) -> Option<(&[u8], &[u8])>
    ensures { option_map (λ numbers. (numbers.0.now, numbers.1.now)) result ≡ both_numbers text.now }
{
    if let Some(numbers) = two_numbers(text) {
        return Some(numbers);
    }
    let first = one_number(text)?;
    Some((first, b""))
}

/// Whether a number differs from another one, if there is one.
fn one_differs(number: &[u8], its: Option<&[u8]>) -> bool
    ensures { result ≡ one_differs number.now (option_map (λ digits. digits.now) its.entry) }
{
    match its {
        Some(its) => !is_same_number(number, its),
        None => false,
    }
}

/// Whether two numbers differ from two others, if there are two.
fn two_differ(first: &[u8], second: &[u8], its: Option<(&[u8], &[u8])>) -> bool
    ensures { result ≡ two_differ first.now second.now (option_map (λ numbers. (numbers.0.now, numbers.1.now)) its.entry) }
{
    match its {
        Some((its, other)) => !(is_same_number(first, its) && is_same_number(second, other)),
        None => false,
    }
}

/// Whether the numbers that a text sends differ from those that `cup` sends for the same line and column. Numbers are looked at if all
/// that is sent is one control sequence with nothing but these numbers.
pub fn numbers_differ(axes: Axes, cup: &[u8], its: &[u8]) -> bool
    ensures exact { result ≡ numbers_differ axes cup.now its.now }
{
    let Some((line, column)) = two_numbers(cup) else {
        return false;
    };
    match axes {
        Axes::Both => two_differ(line, column, both_numbers(its)),
        Axes::Line => one_differs(line, one_number(its)),
        Axes::Column => one_differs(column, one_number(its)),
        Axes::Lines => two_differ(line, line, two_numbers(its)),
    }
}
