//! Bytes that should not stand in the names of an entry.

ghost use Rattle.std.specs.Prelude.{◌≡◌, MatchOption};
ghost use Rattle.std.specs.Str.{IsUtf8};
ghost use Rattle.std.specs.Str.Lossy.{utf8_valid_len};
ghost use Rattle.ti_control.specs.Entries.{starts_c1, starts_control};
ghost use Rattle.ti_control.specs.Places.{IsFirstPlace};

/// Whether one of 80 to 9F stands at the front.
fn starts_c1(bytes: &[u8]) -> bool
    ensures { result ≡ starts_c1 bytes.now }
{
    match bytes {
        [byte, ..] => 0x80 <= *byte && *byte <= 0x9f,
        [] => false,
    }
}

/// Whether a control stands at the front: of C0, DEL, or of C1 in UTF-8.
fn starts_control(bytes: &[u8]) -> bool
    ensures { result ≡ starts_control bytes.now }
{
    match bytes {
        [byte, rest @ ..] => { *byte < 0x20 || *byte == 0x7f || (*byte == 0xc2 && starts_c1(rest)) }
        [] => false,
    }
}

/// The place of the first control in names.
pub fn first_control(names: &[u8]) -> Option<usize>
    ensures first { IsFirstPlace starts_control names.now result }
{
    'names: for place in 0..names.len() {
        if starts_control(&names[place..]) {
            return Some(place);
        }
    }
    None
}

/// How many bytes of names are well-formed UTF-8, if not all are.
pub fn first_malformed(names: &[u8]) -> Option<usize>
    ensures first { MatchOption result (IsUtf8 names.now) (λ at. ¬ (IsUtf8 names.now) × (at ≡ utf8_valid_len names.now)) }
{
    match std::str::from_utf8(names) {
        Ok(_) => None,
        Err(error) => Some(error.valid_up_to()),
    }
}
