//! The checks of the two headers: what they have to say before their sections are looked at.

ghost use Rattle.std.specs.Prelude.{◌≡◌, ◌+◌, ◌<◌, ◌≤◌, ◌∷◌, [], length, IfOk};
ghost use Rattle.ti_base.specs.Limits.{most_entry_bytes};
ghost use Rattle.ti_layout.specs.Layout.{standard, end_of, extended_from, extended_after};
ghost use Rattle.ti_layout.specs.Checks.{verdict, result_verdict, pad_checks};
ghost use Rattle.ti_layout.specs.Refusal.{magic_check, size_checks, room_check, extended_header_checks};

use crate::checks::check_pad;
use crate::fault::{Fault, Refused};
use crate::part::{Part, width_of};
use crate::section::SectionItem;
use ti_base::MOST_ENTRY_BYTES;

/// The first two bytes are the magic number of a format.
pub(crate) fn check_magic(bytes: &[u8]) -> Result<(), Refused>
    requires { 2 ≤ length bytes.now }
    ensures { result_verdict result ≡ verdict (length bytes.now) (magic_check bytes.now ∷ []) }
{
    if width_of(bytes).is_none() {
        return Err(Refused {
            fault: Fault::BadMagic,
            place: 0,
        });
    }
    Ok(())
}

/// The standard part: by its header the whole has at most as many bytes as an entry may have, and the names have one byte
/// beside their NUL.
pub(crate) fn sized_standard(bytes: &[u8]) -> Result<Part, Refused>
    requires { 12 ≤ length bytes.now }
    ensures verdict { result_verdict result
        ≡ verdict (length bytes.now) (size_checks (standard bytes.now)) }
    ensures words { IfOk result (λ s. s ≡ standard bytes.now) }
{
    let standard = Part::standard(bytes);
    if standard.end() > MOST_ENTRY_BYTES {
        return Err(Refused {
            fault: Fault::HeaderTooBig,
            place: 0,
        });
    }
    if standard.flags_from < 14 {
        return Err(Refused {
            fault: Fault::BadNames,
            place: 12,
        });
    }
    Ok(standard)
}

/// A byte follows the string table: the limit leaves room for the extended header, and the pad is 0.
pub(crate) fn check_start(bytes: &[u8], standard: &Part) -> Result<(), Refused>
    requires fits { end_of standard.now ≤ most_entry_bytes }
    requires there { end_of standard.now < length bytes.now }
    ensures { result_verdict result ≡ verdict (length bytes.now)
        (room_check standard.now ∷ pad_checks bytes.now (end_of standard.now)) }
{
    if standard.extended_from() + 10 > MOST_ENTRY_BYTES {
        return Err(Refused {
            fault: Fault::ExtendedTooBig,
            place: standard.end(),
        });
    }
    check_pad(bytes, standard.end())
}

/// The extended part: the last word of its header is not negative, and with it the entry has at most as many bytes as an
/// entry may have.
pub(crate) fn sized_extended(bytes: &[u8], standard: &Part) -> Result<Part, Refused>
    requires fits { end_of standard.now ≤ most_entry_bytes }
    requires there { extended_from standard.now + 10 ≤ length bytes.now }
    ensures verdict { result_verdict result
        ≡ verdict (length bytes.now) (extended_header_checks bytes.now standard.now) }
    ensures words { IfOk result (λ x. x ≡ extended_after standard.now bytes.now) }
{
    let from = standard.extended_from();
    SectionItem::Sign(Fault::BadExtendedHeader).check(bytes, from + 8)?;
    let extended = standard.extended(bytes);
    if extended.end() > MOST_ENTRY_BYTES {
        return Err(Refused {
            fault: Fault::ExtendedTooBig,
            place: from,
        });
    }
    Ok(extended)
}
