//! Numbers in decimal digits.

ghost use Rattle.std.specs.Prelude.{◌≡◌, ◌≤◌, ◌<◌, length, take, true};
ghost use Rattle.std.specs.List.{list_all};
ghost use Rattle.std.specs.Char.{is_ascii_digit};
ghost use Rattle.std.specs.Str.Parse.{digits_value};

/// The number that at most five digits mean.
pub fn number(digits: &[u8]) -> u32
    requires few { length digits.now ≤ 5 }
    requires digits { list_all is_ascii_digit digits.now ≡ true }
    ensures value { result ≡ digits_value 10 digits.now }
    ensures most { result < 100000 }
{
    let mut value = 0u32;
    for digit in digits {
        value = value * 10 + u32::from(digit - b'0');
    }
    value
}

/// The first digit, or 0 if there is none.
pub fn first_digit(digits: &[u8]) -> u32
    requires { list_all is_ascii_digit digits.now ≡ true }
    ensures value { result ≡ digits_value 10 (take 1 digits.now) }
    ensures most { result < 10 }
{
    match digits {
        [first, ..] => u32::from(first - b'0'),
        [] => 0,
    }
}
