//! What stands in the way of the end of a control sequence: a space or a minus among its numbers.

ghost use Rattle.std.specs.Prelude.{◌≡◌, ◌==◌, ◌≤◌, drop, length};
ghost use Rattle.std.specs.List.{prefix_len};
ghost use Rattle.ti_values.specs.Sequences.{is_intermediate, is_parameter};
ghost use Rattle.ti_rules.specs.Splits.{has_split_by, is_first, is_split_by, sequence_finding, text_finding};

use crate::finding::Finding;

/// Whether a byte is one of the parameters of a control sequence, digits and `:` to `?`.
fn is_parameter(byte: u8) -> bool
    ensures { result ≡ is_parameter byte }
{
    0x30 <= byte && byte <= 0x3f
}

/// Whether a byte stands between the parameters and the end, a space or up to `/`.
fn is_intermediate(byte: u8) -> bool
    ensures { result ≡ is_intermediate byte }
{
    0x20 <= byte && byte <= 0x2f
}

/// How many bytes of parameters stand at the front.
fn parameter_len(bytes: &[u8]) -> usize
    ensures count { result ≡ prefix_len is_parameter bytes.now }
    ensures within { result ≤ length bytes.now }
{
    bytes.iter().take_while(|byte| is_parameter(**byte)).count()
}

/// How many intermediate bytes stand at the front.
fn intermediate_len(bytes: &[u8]) -> usize
    ensures count { result ≡ prefix_len is_intermediate bytes.now }
    ensures within { result ≤ length bytes.now }
{
    bytes
        .iter()
        .take_while(|byte| is_intermediate(**byte))
        .count()
}

/// Whether bytes start with the one that is given.
fn starts_with_byte(wanted: u8, bytes: &[u8]) -> bool
    ensures { result ≡ is_first (λ b. b == wanted) bytes.now }
{
    match bytes {
        [byte, ..] => *byte == wanted,
        [] => false,
    }
}

/// Whether bytes start with a parameter.
fn starts_parameter(bytes: &[u8]) -> bool
    ensures { result ≡ is_first is_parameter bytes.now }
{
    match bytes {
        [byte, ..] => is_parameter(*byte),
        [] => false,
    }
}

/// Whether a byte stands among the numbers of the control sequence whose introducer is before the bytes.
fn is_split_by(byte: u8, bytes: &[u8]) -> bool
    ensures { result ≡ is_split_by byte bytes.now }
{
    let rest = &bytes[parameter_len(bytes)..];
    starts_with_byte(byte, rest) && starts_parameter(&rest[intermediate_len(rest)..])
}

/// Whether that is so after some `\E[`.
#[tactic(auto, unfolding(crate::specs::Splits::has_split_by))]
fn has_split_by(byte: u8, bytes: &[u8]) -> bool
    ensures { result ≡ has_split_by byte bytes.now }
{
    let mut rest = bytes;
    'bytes: while let Some((_first, after)) = rest.split_first() {
        if rest.starts_with(b"\x1b[") && is_split_by(byte, &rest[2..]) {
            return true;
        }
        rest = after;
    }
    false
}

/// Returns the finding on what is sent and has a `\E[` that is not ended.
pub fn sequence_finding(sent: &[u8]) -> Finding
    ensures { result ≡ sequence_finding sent.now }
{
    if has_split_by(b' ', sent) {
        Finding::SpacedSequence
    } else if has_split_by(b'-', sent) {
        Finding::SignedSequence
    } else {
        Finding::UnendedSequence
    }
}

/// Returns the same on a text that is sent as it stands.
pub fn text_finding(text: &[u8]) -> Finding
    ensures { result ≡ text_finding text.now }
{
    if has_split_by(b' ', text) {
        Finding::SpacedText
    } else if has_split_by(b'-', text) {
        Finding::SignedText
    } else {
        Finding::UnendedText
    }
}
