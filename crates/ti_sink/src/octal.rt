//! A byte as printable characters.

ghost use Rattle.std.specs.List.{list_all};
ghost use Rattle.std.specs.Prelude.{◌≡◌, true};
ghost use Rattle.ti_escape.specs.Laws.{is_printable};
ghost use Rattle.ti_escape.specs.Notation.{octal as the_octal};
ghost use Rattle.ti_sink.specs.Pages.{is_plain};

/// A backslash and the three octal digits of a byte.
pub fn octal(byte: u8) -> [u8; 4]
    ensures value { result ≡ the_octal byte }
    ensures printable { list_all is_printable result ≡ true }
    ensures plain { list_all is_plain result ≡ true }
{
    [
        b'\\',
        b'0' + byte / 64 % 8,
        b'0' + byte / 8 % 8,
        b'0' + byte % 8,
    ]
}
