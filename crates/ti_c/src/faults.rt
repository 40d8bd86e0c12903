//! The numbers by which C knows the faults.

ghost use Rattle.std.specs.Prelude.{◌≡◌, ◌⊎◌, Some};
ghost use Rattle.ti_draft.specs.declared.fault.EncodeFault.TheVariants.{Memory};
ghost use Rattle.ti_c.specs.Numbers.{entry_number, capability_number, encode_number as the_encode_number};

use ti_cap::CapFault;
use ti_draft::EncodeFault;
use ti_entry::Fault;

/// No fault.
pub(crate) const DONE: u32 = 0;

/// More than nine parameters.
pub(crate) const TOO_MANY_PARAMETERS: u32 = 201;

/// A text among the parameters that is too long.
pub(crate) const TEXT_TOO_LONG: u32 = 202;

/// Less room than the output needs.
pub(crate) const OUT_TOO_SMALL: u32 = 203;

/// A capability that is not kept.
pub(crate) const DOES_NOT_FIT: u32 = 204;

/// A capability with variables, and none of them.
pub(crate) const NO_VARIABLES: u32 = 205;

/// A rate or a count of lines above its limit.
pub(crate) const BAD_PADDING: u32 = 301;

/// A padded text above its limit.
pub(crate) const TOO_MUCH: u32 = 302;

/// No capability has the name, or none stands at the place.
pub(crate) const NOT_NAMED: u32 = 401;

/// An array has less room than the entry requires.
pub(crate) const ROOM_TOO_SMALL: u32 = 402;

/// The number of an entry's fault.
pub(crate) fn entry_number(fault: Fault) -> u32
    ensures { result ≡ entry_number fault }
{
    match fault {
        Fault::Truncated => 1,
        Fault::BadMagic => 2,
        Fault::BadHeader => 3,
        Fault::HeaderTooBig => 4,
        Fault::BadNames => 5,
        Fault::BadFlag => 6,
        Fault::BadPad => 7,
        Fault::BadNumber => 8,
        Fault::BadOffset => 9,
        Fault::Unterminated => 10,
        Fault::BadExtendedHeader => 11,
        Fault::ExtendedTooBig => 12,
        Fault::BadExtendedName => 13,
        Fault::Trailing => 14,
    }
}

/// The number of a capability's fault.
pub(crate) fn capability_number(fault: CapFault) -> u32
    ensures { result ≡ capability_number fault }
{
    match fault {
        CapFault::TooLong => 101,
        CapFault::CutShort => 102,
        CapFault::UnknownEscape => 103,
        CapFault::BadParameter => 104,
        CapFault::BadVariable => 105,
        CapFault::BadConstant => 106,
        CapFault::BadFormat => 107,
        CapFault::StrayThen => 108,
        CapFault::StrayElse => 109,
        CapFault::StrayEnd => 110,
        CapFault::NoThen => 111,
        CapFault::NestTooDeep => 112,
        CapFault::StackTooDeep => 113,
    }
}

/// The number of the fault of an entry that is to be written; no call meets a refusal of memory.
pub(crate) fn encode_number(fault: EncodeFault) -> u32
    ensures { (the_encode_number fault ≡ Some result) ⊎ (fault ≡ Memory) }
{
    match fault {
        EncodeFault::BadName => 501,
        EncodeFault::NulInText => 502,
        EncodeFault::NumberOutOfRange => 503,
        EncodeFault::TooManyOrLong | EncodeFault::Memory => 504,
    }
}
