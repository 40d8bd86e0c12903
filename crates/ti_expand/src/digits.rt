//! The digits of a number in a base. They are counted first, and then written where they are to stand: in base 10 by
//! `itoa`, else by a loop of its own.

ghost use Rattle.std.specs.Prelude.{◌≡◌, ◌+◌, ◌<◌, ◌≤◌, ◌++◌, Bool, false, length, take, drop};
ghost use Rattle.std.specs.Fmt.{digit_glyph};
ghost use Rattle.ti_expand.specs.Printed.{significant, digits_of, magnitude};

use std::marker::Model;
use ti_cap::Conversion;

/// The digit as ASCII.
#[inline]
fn glyph(digit: u32, upper: bool) -> u8
    requires { digit < 16 }
    ensures { result ≡ digit_glyph upper digit }
{
    if digit < 10 {
        b'0' + digit as u8
    } else if upper {
        b'A' + (digit as u8 - 10)
    } else {
        b'a' + (digit as u8 - 10)
    }
}

/// How many digits a number has; 0 has none.
#[inline]
fn digit_count(number: u32, base: u32) -> usize
    requires { (2 ≤ base) × (base ≤ 16) }
    ensures { (upper : Bool) → result ≡ length (significant base upper number) }
{
    let mut count = 0;
    let mut left = number;
    while left != 0 {
        left /= base;
        count += 1;
    }
    count
}

/// Writes the digits so that they end at a place, and returns where they start.
#[inline(always)]
fn write_radix(number: u32, base: u32, upper: bool, out: &mut [u8], end: usize) -> usize
    requires base { (2 ≤ base) × (base ≤ 16) }
    requires room { (length (significant base upper number) ≤ end) × (end ≤ length out.old) }
    ensures start { result + length (significant base upper number) ≡ end }
    ensures written { drop result out.new ≡ significant base upper number ++ drop end out.old }
    ensures before { take result out.new ≡ take result out.old }
{
    let mut at = end;
    let mut left = number;
    while left != 0 {
        at -= 1;
        out[at] = glyph(left % base, upper);
        left /= base;
    }
    at
}

/// Writes decimal digits so that they end at a place, and returns where they start; 0 has none.
#[inline]
fn write_decimal(number: u32, out: &mut [u8], end: usize) -> usize
    requires { (length (significant 10 false number) ≤ end) × (end ≤ length out.old) }
    ensures start { result + length (significant 10 false number) ≡ end }
    ensures written { drop result out.new ≡ significant 10 false number ++ drop end out.old }
    ensures before { take result out.new ≡ take result out.old }
{
    if number == 0 {
        return end;
    }
    itoa::write_digits(u64::from(number), out, end)
}

/// How many digits a conversion writes of an amount.
#[inline]
fn count_of(conversion: Conversion, amount: u32) -> usize
    ensures { result ≡ length (digits_of conversion amount) }
{
    match conversion {
        Conversion::Signed => digit_count(amount, 10),
        Conversion::Octal => digit_count(amount, 8),
        Conversion::LowerHex | Conversion::UpperHex => digit_count(amount, 16),
        Conversion::Text => 0,
    }
}

/// Writes the digits of a conversion so that they end at a place, and returns where they start.
#[inline]
fn write_digits(conversion: Conversion, amount: u32, out: &mut [u8], end: usize) -> usize
    requires { (length (digits_of conversion amount) ≤ end) × (end ≤ length out.old) }
    ensures start { result + length (digits_of conversion amount) ≡ end }
    ensures written { drop result out.new ≡ digits_of conversion amount ++ drop end out.old }
    ensures before { take result out.new ≡ take result out.old }
{
    // Where the base is known, the compiler divides by shifts.
    match conversion {
        Conversion::Signed => write_decimal(amount, out, end),
        Conversion::Octal => write_radix(amount, 8, false, out, end),
        Conversion::LowerHex => write_radix(amount, 16, false, out, end),
        Conversion::UpperHex => write_radix(amount, 16, true, out, end),
        Conversion::Text => end,
    }
}

/// The digits that a conversion writes of an amount, seen as their bytes.
#[derive(Drop)]
pub struct Digits {
    conversion: Conversion,
    amount: u32,
    count: usize,
}

impl Model for Digits {
    ghost use Rattle.std.specs.Prelude.{◌≡◌, ℕ, List, length};
    ghost use Rattle.ti_expand.specs.Printed.{digits_of};

    ghost Value = { List ℕ };

    ghost view = { λ digits. digits_of digits.conversion digits.amount };

    ghost invariant = { λ digits.
        digits.count ≡ length (digits_of digits.conversion digits.amount) };
}

impl Digits {
    /// The digits of a number: of `%d` those of its absolute value, else of its 32 bits. 0 has none.
    pub fn new(conversion: Conversion, number: i32) -> Digits
        ensures { result ≡ magnitude conversion number }
    {
        let amount = match conversion {
            Conversion::Signed => number.unsigned_abs(),
            _ => number.cast_unsigned(),
        };
        let count = count_of(conversion, amount);
        Digits {
            conversion,
            amount,
            count,
        }
    }

    /// How many they are.
    pub fn len(&self) -> usize
        ensures { result ≡ length self.now }
    {
        self.count
    }

    /// Puts them at a place, and returns the place after them.
    pub fn put(&self, out: &mut [u8], at: usize) -> usize
        requires { at + length self.now ≤ length out.old }
        ensures end { result ≡ at + length self.now }
        ensures written { take result out.new ≡ take at out.old ++ self.now }
        ensures rest { drop result out.new ≡ drop result out.old }
    {
        let end = at + self.count;
        let _start = write_digits(self.conversion, self.amount, out, end);
        end
    }
}
