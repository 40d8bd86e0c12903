//! A parsed capability, and the tape that gives its tokens.

ghost use Rattle.std.specs.Prelude.{◌≡◌, ℕ, ◌≤◌, ◌<◌, ◌++◌, [], ◌∷◌, List, length, take, drop, IfOk, IfErr, IfSome, IfNone};
ghost use Rattle.ti_base.specs.Limits.{most_capability_bytes, most_open, most_values};
ghost use Rattle.ti_cap.specs.Refusal.{IsRefusal, IsFaultless};
ghost use Rattle.ti_cap.specs.inner.Scan.{IsSure};
ghost use Rattle.ti_cap.specs.Capability.{HasCount, HasDepth, HasBound, HasNest, IsWellFormed, Spot, Takes, IsFirst, ArePlain, IsCapability, has_escape, whole};

use crate::language::{CapFault, CapRefused, Token};
use crate::lexer::read_token;
use crate::limits::Limits;
use crate::scan::{OpenExtents, Scan};
use std::marker::Model;
use ti_base::{MOST_CAPABILITY_BYTES, MOST_OPEN};

/// Nearly all capabilities nest no deeper, and less room takes less time to make.
pub const FEW_OPEN: usize = 4;

/// Bytes that are a capability.
#[derive(Debug, Drop)]
pub struct Capability<'a> {
    bytes: &'a [u8],
    limits: Limits,
}

impl<'a> Model for Capability<'a> {
    ghost use Rattle.std.specs.Prelude.{ℕ, List};

    ghost Value = { List ℕ };

    ghost use Rattle.ti_cap.specs.Capability.{IsCapability};

    ghost view = { λ c. c.bytes.now };

    ghost invariant = { λ c. IsCapability c.bytes.now 0 c.limits };
}

impl<'a> Capability<'a> {
    /// Reads bytes as a capability.
    ///
    /// # Examples
    ///
    /// ```rust
    /// let cup = Capability::parse(b"\x1b[%i%p1%d;%p2%dH")?;
    /// ```
    pub fn parse(bytes: &'a [u8]) -> Result<Self, CapRefused>
        ensures value { IfOk result (λ c. c ≡ bytes.now) }
        ensures tree { IfOk result (λ _. IsWellFormed bytes.now) }
        ensures accepted { IfOk result (λ _. IsFaultless bytes.now) }
        ensures refused { IfErr result (IsRefusal bytes.now) }
    {
        if bytes.len() > MOST_CAPABILITY_BYTES {
            return Err(CapRefused {
                fault: CapFault::TooLong,
                place: MOST_CAPABILITY_BYTES,
            });
        }
        let limits = match limits_of::<FEW_OPEN>(bytes, 0) {
            Ok(limits) => limits,
            Err(refused) if refused.fault == CapFault::NestTooDeep => {
                limits_of::<MOST_OPEN>(bytes, 0)?
            }
            Err(refused) => return Err(refused),
        };
        Ok(Capability { bytes, limits })
    }

    /// Bytes without escapes as a capability, which takes less than to parse them; none if there is an escape, or if they are
    /// too many.
    #[inline(always)]
    pub fn plain(bytes: &'a [u8]) -> Option<Self>
        ensures value { IfSome result (λ c. c ≡ bytes.now) }
        ensures plain { IfSome result (λ _. ArePlain bytes.now) }
        ensures accepted { IfSome result (λ _. IsFaultless bytes.now) }
        ensures exact { IfNone result
            (ArePlain bytes.now → most_capability_bytes < length bytes.now) }
    {
        let count = bytes.len();
        if count > MOST_CAPABILITY_BYTES || has_escape(bytes) {
            return None;
        }
        let limits = Limits {
            tokens: count,
            depth: 0,
            nest: 0,
            bound: count as u64,
        };
        Some(Capability { bytes, limits })
    }

    /// A capability whose limits are known.
    #[inline(always)]
    pub(crate) fn known(bytes: &'a [u8], limits: Limits) -> Self
        requires { IsCapability bytes.now 0 limits }
        ensures { result ≡ bytes.entry.now }
    {
        Capability { bytes, limits }
    }

    /// How many bytes it has.
    pub fn len(&self) -> usize
        ensures exact { result ≡ length self.now }
    {
        self.bytes.len()
    }

    /// How many tokens it has.
    pub fn token_count(&self) -> usize
        ensures exact { HasCount self.now result }
    {
        self.limits.tokens
    }

    /// The greatest height of the stack over all paths.
    pub fn depth(&self) -> usize
        ensures exact { HasDepth self.now result }
        ensures low { result ≤ most_values }
        ensures tree { IsWellFormed self.now }
    {
        self.limits.depth
    }

    /// The greatest number of conditionals that are open at once.
    pub fn nest(&self) -> usize
        ensures exact { HasNest self.now result }
        ensures few { result ≤ most_open }
    {
        self.limits.nest
    }
}

/// Whether an escape begins at some byte. Most capabilities begin with one, or soon come to it.
#[inline(always)]
fn has_escape(bytes: &[u8]) -> bool
    ensures { result ≡ has_escape bytes.now }
{
    bytes.iter().any(|byte| *byte == b'%')
}

/// The limits of a capability if no text is longer than `longest`, with room for so many open conditionals. With room for
/// fewer than may be open, that they nest too deep says only that more room is needed.
#[inline(never)]
fn limits_of<const ROOM: usize>(bytes: &[u8], longest: u16) -> Result<Limits, CapRefused>
    requires room { ROOM ≤ most_open }
    requires short { length bytes.now ≤ most_capability_bytes }
    ensures accepted { IfOk result (λ limits. IsCapability bytes.now longest limits) }
    ensures refused { IfErr result
        (λ refused. IsSure ROOM refused.fault → IsRefusal bytes.now refused) }
{
    let mut scan = Scan::new();
    let mut opens = [OpenExtents::FRESH; ROOM];
    let mut left = bytes;
    let mut tokens = 0;
    'reads: while !left.is_empty() {
        match read_token(left) {
            Err(fault) => {
                return Err(CapRefused {
                    fault,
                    place: bytes.len() - left.len(),
                })
            }
            Ok((token, long)) => match scan.take(&mut opens, token, longest) {
                Err(fault) => {
                    return Err(CapRefused {
                        fault,
                        place: bytes.len() - left.len(),
                    })
                }
                Ok(()) => left = &left[long..],
            },
        }
        tokens += 1;
    }
    if scan.is_in_first_test(&opens) {
        return Err(CapRefused {
            fault: CapFault::NoThen,
            place: bytes.len(),
        });
    }
    Ok(Limits {
        tokens,
        depth: scan.depth() as usize,
        nest: scan.nest(),
        bound: scan.bound(&opens),
    })
}

/// The tokens of a capability, one after the other. It goes forward only.
#[derive(Debug, Drop)]
pub struct Tape<'a> {
    bytes: &'a [u8],
    place: usize,
    maxima: Limits,
}

impl<'a> Model for Tape<'a> {
    ghost use Rattle.std.specs.Prelude.{take, drop};
    ghost use Rattle.ti_cap.specs.Capability.{Spot, IsTape};

    ghost Value = { Spot };

    ghost view = { λ t. record {
      taken = take t.place t.bytes.now;
      left = drop t.place t.bytes.now;
    } };

    ghost invariant = { λ t. IsTape t.bytes.now t.place t.maxima };
}

impl<'a> Capability<'a> {
    /// A tape at the first token.
    pub fn tape(&self) -> Tape<'a>
        ensures start { result ≡ record { taken = []; left = self.now } }
        ensures tree { IsWellFormed self.now }
    {
        Tape::fresh(self.bytes, self.limits)
    }

    /// The greatest number of bytes over all paths, if no text is longer than `longest`.
    #[inline(always)]
    pub fn bound(&self, longest: u16) -> u64
        ensures exact { HasBound self.now longest result }
        ensures tree { IsWellFormed self.now }
    {
        bound_of(self.bytes, &self.limits, longest)
    }
}

/// The greatest number of bytes over all paths of a capability with these limits.
#[inline(always)]
fn bound_of(bytes: &[u8], limits: &Limits, longest: u16) -> u64
    requires { IsCapability bytes.now 0 limits.now }
    ensures { HasBound bytes.now longest result }
{
    if longest == 0 {
        return limits.bound;
    }
    match limits_of::<MOST_OPEN>(bytes, longest) {
        Ok(limits) => limits.bound,
        Err(_) => unreachable!(),
    }
}

impl<'a> Tape<'a> {
    /// A tape at the first token of a capability with these limits.
    fn fresh(bytes: &'a [u8], maxima: Limits) -> Tape<'a>
        requires { IsCapability bytes.now 0 maxima }
        ensures { result ≡ record { taken = []; left = bytes.now } }
    {
        Tape {
            bytes,
            place: 0,
            maxima,
        }
    }

    /// The next token, or none at the end.
    #[inline(always)]
    pub fn token(&mut self) -> Option<Token>
        ensures none { IfNone result ((self.new ≡ self.old) × (self.old.left ≡ [])) }
        ensures some { IfSome result (λ token. Takes token self.old self.new) }
        ensures order { IfSome result (λ token. IsFirst token self.old self.new) }
    {
        if self.place >= self.bytes.len() {
            return None;
        }
        match read_token(&self.bytes[self.place..]) {
            Ok((token, long)) => {
                self.place += long;
                Some(token)
            }
            Err(_) => unreachable!(),
        }
    }

    /// Copies the bytes that are left to the front of a slice and takes all their tokens, if each byte of the capability is
    /// a token that writes it, and there is room. Returns how many they are.
    #[inline(always)]
    pub fn copy_plain(&mut self, out: &mut [u8]) -> Option<usize>
        ensures none { IfNone result ((self.new ≡ self.old) × (out.new ≡ out.old)) }
        ensures exact { IfNone result (ArePlain (whole self.old)
            → ¬ (length self.old.left ≤ length out.old)) }
        ensures plain { IfSome result (λ _. ArePlain (whole self.old)) }
        ensures taken { IfSome result
            (λ _. self.new ≡ record { taken = whole self.old; left = [] }) }
        ensures count { IfSome result (λ count. count ≡ length self.old.left) }
        ensures copied { IfSome result (λ count. take count out.new ≡ self.old.left) }
        ensures rest { IfSome result (λ count. drop count out.new ≡ drop count out.old) }
    {
        let left = &self.bytes[self.place..];
        let count = left.len();
        if self.maxima.tokens != self.bytes.len() || out.len() < count {
            return None;
        }
        out[..count].copy_from_slice(left);
        self.place = self.bytes.len();
        Some(count)
    }

    /// How many bytes were taken.
    pub fn at(&self) -> usize
        ensures exact { result ≡ length self.now.taken }
    {
        self.place
    }

    /// How many tokens the capability has.
    pub fn token_count(&self) -> usize
        ensures exact { HasCount (whole self.now) result }
    {
        self.maxima.tokens
    }

    /// The capability's depth.
    pub fn depth(&self) -> usize
        ensures exact { HasDepth (whole self.now) result }
        ensures low { result ≤ most_values }
        ensures tree { IsWellFormed (whole self.now) }
    {
        self.maxima.depth
    }

    /// The capability's bound.
    pub fn bound(&self, longest: u16) -> u64
        ensures exact { HasBound (whole self.now) longest result }
    {
        bound_of(self.bytes, &self.maxima, longest)
    }
}
