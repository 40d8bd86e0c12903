//! The state that parsing carries from token to token.
//!
//! It finds the greatest height and size over all paths in one pass. Where a test may go either way both are kept, and
//! where parts meet the greater goes on. At most one record an open conditional is needed, so the cost is constant a
//! token, and no memory is taken.

ghost use Rattle.std.specs.Prelude.{◌≡◌};

use crate::extent::Extent;
use crate::language::{CapFault, Op, Token};
use ti_base::MOST_VALUES;

/// The part of an open conditional in which a place lies. What follows a `%e` is an otherwise part until a `%t` comes.
#[derive(Clone, Copy)]
pub enum ConditionalPart {
    /// The test of the first arm.
    FirstTest,
    /// The body of an arm.
    Body,
    /// The part after a `%e`.
    Otherwise,
}

/// The extents of an open conditional. A part that it lacks has no height and no bytes.
#[derive(Clone, Copy)]
pub struct OpenExtents {
    /// Where the scan stands in it.
    part: ConditionalPart,
    /// The extent after its last test failed, while a body is read.
    failed: Extent,
    /// The greatest that its bodies ended with, if any did.
    done: Extent,
}

impl OpenExtents {
    /// A conditional in its first test.
    pub const FRESH: OpenExtents = OpenExtents {
        part: ConditionalPart::FirstTest,
        failed: Extent::NONE,
        done: Extent::NONE,
    };
}

/// The state of a scan. The open conditionals are kept apart, so that these counts stay in registers.
#[derive(Drop)]
pub struct Scan {
    /// How far the paths have come.
    here: Extent,
    /// The greatest height so far.
    depth: u32,
    /// How many conditionals are open.
    nesting: usize,
    /// The greatest number of open conditionals so far.
    nest: usize,
}

impl Scan {
    ghost use Rattle.std.specs.Prelude.{ℕ, ◌≡◌, ◌≤◌, ◌<◌, ◌+◌, ◌-◌, ◌^◌, List, length, map, Some, None, OnOk, OnErr, IfErr};
    ghost use Rattle.ti_base.specs.Limits.{most_open, most_values};
    ghost use Rattle.ti_cap.specs.declared.language.Token.{Token};
    ghost use Rattle.ti_cap.specs.declared.language.CapFault.{CapFault};
    ghost use Rattle.ti_cap.specs.declared.scan.OpenExtents.{OpenExtents};
    ghost use Rattle.ti_cap.specs.inner.Analysis.{no_findings, are_in_test};
    ghost use Rattle.ti_cap.specs.inner.Scan.{findings_of, fault_at, Brings, IsInOrder, IsSure, after_write, after_push, innermost_first, height_frame, greatest_end, greatest_size};

    /// No token yet.
    pub fn new() -> Self
        ensures start { (opens : List OpenExtents) → findings_of result opens ≡ no_findings }
        ensures order { (room : ℕ) → IsInOrder room result }
    {
        Scan {
            here: Extent { height: 0, size: 0 },
            depth: 0,
            nesting: 0,
            nest: 0,
        }
    }

    /// Goes on over a token, if no text is longer than `longest`, or says why it may not stand here.
    #[inline(always)]
    pub fn take<const ROOM: usize>(
        &mut self,
        opens: &mut [OpenExtents; ROOM],
        token: Token,
        longest: u16,
    ) -> Result<(), CapFault>
        requires room { ROOM ≤ most_open }
        requires low { self.old.here.height ≤ most_values }
        requires small { self.old.here.size < 2 ^ 31 }
        requires order { IsInOrder ROOM self.old }
        ensures refused { IfErr result
            (λ fault. IsSure ROOM fault → fault_at self.old opens.old token ≡ Some fault) }
        ensures taken { OnOk result (Brings longest token self.old opens.old self.new opens.new) }
        ensures fine { OnOk result (fault_at self.old opens.old token ≡ None) }
        ensures order { OnOk result (IsInOrder ROOM self.new) }
        ensures kept { OnErr result ((self.new ≡ self.old) × (opens.new ≡ opens.old)) }
    {
        match token {
            Token::Byte(_) => self.write(0, 1),
            Token::Store(_) => self.write(1, 0),
            Token::Increment => {}
            Token::Char => self.write(1, 1),
            Token::Print(format) => self.write(1, format.size(longest) as u32),
            Token::Param(_) | Token::Constant(_) | Token::Load(_) => return self.push(0),
            Token::Length | Token::Compute(Op::Not | Op::BitNot) => return self.push(1),
            Token::Compute(_) => return self.push(2),
            Token::CondOpen => return self.enter(opens),
            Token::CondThen => return self.test(opens),
            Token::CondElse => return self.turn(opens),
            Token::CondClose => return self.leave(opens),
        }
        Ok(())
    }

    /// Pops values, and writes bytes.
    #[inline(always)]
    fn write(&mut self, popped: u32, size: u32)
        requires { self.old.here.size + size < 2 ^ 32 }
        ensures { self.new ≡ after_write self.old popped size }
    {
        self.here.height = self.here.height.saturating_sub(popped);
        self.here.size += size;
    }

    /// Pops values, and pushes one.
    #[inline(always)]
    fn push(&mut self, popped: u32) -> Result<(), CapFault>
        requires { self.old.here.height ≤ most_values }
        ensures refused { IfErr result
            (λ fault. (fault ≡ CapFault.StackTooDeep)
            × (most_values < self.old.here.height - popped + 1)) }
        ensures taken { OnOk result (self.new ≡ after_push self.old popped) }
        ensures fine { OnOk result (self.old.here.height - popped + 1 ≤ most_values) }
        ensures kept { OnErr result (self.new ≡ self.old) }
    {
        let height = self.here.height.saturating_sub(popped) + 1;
        if height > MOST_VALUES as u32 {
            return Err(CapFault::StackTooDeep);
        }
        self.here.height = height;
        self.depth = self.depth.max(height);
        Ok(())
    }

    /// A conditional begins.
    #[inline(always)]
    fn enter<const ROOM: usize>(&mut self, opens: &mut [OpenExtents; ROOM]) -> Result<(), CapFault>
        requires room { ROOM ≤ most_open }
        requires low { self.old.here.height ≤ most_values }
        requires order { IsInOrder ROOM self.old }
        ensures refused { IfErr result
            (λ fault. IsSure ROOM fault → fault_at self.old opens.old Token.CondOpen ≡ Some fault) }
        ensures taken { OnOk result (Brings 0 Token.CondOpen self.old opens.old self.new opens.new) }
        ensures fine { OnOk result (fault_at self.old opens.old Token.CondOpen ≡ None) }
        ensures order { OnOk result (IsInOrder ROOM self.new) }
        ensures kept { OnErr result ((self.new ≡ self.old) × (opens.new ≡ opens.old)) }
    {
        if self.nesting >= ROOM {
            return Err(CapFault::NestTooDeep);
        }
        opens[self.nesting] = OpenExtents::FRESH;
        self.nesting += 1;
        self.nest = self.nest.max(self.nesting);
        Ok(())
    }

    /// A test ends: a path may fail here, and go on after the `%e` or `%;` to come.
    #[inline(always)]
    fn test<const ROOM: usize>(&mut self, opens: &mut [OpenExtents; ROOM]) -> Result<(), CapFault>
        requires low { self.old.here.height ≤ most_values }
        requires order { IsInOrder ROOM self.old }
        ensures refused { IfErr result
            (λ fault. fault_at self.old opens.old Token.CondThen ≡ Some fault) }
        ensures taken { OnOk result (Brings 0 Token.CondThen self.old opens.old self.new opens.new) }
        ensures fine { OnOk result (fault_at self.old opens.old Token.CondThen ≡ None) }
        ensures order { OnOk result (IsInOrder ROOM self.new) }
        ensures kept { OnErr result ((self.new ≡ self.old) × (opens.new ≡ opens.old)) }
    {
        if self.nesting == 0 {
            return Err(CapFault::StrayThen);
        }
        let open = &mut opens[self.nesting - 1];
        if matches!(open.part, ConditionalPart::Body) {
            return Err(CapFault::StrayThen);
        }
        self.here.height = self.here.height.saturating_sub(1);
        open.part = ConditionalPart::Body;
        open.failed = self.here;
        Ok(())
    }

    /// A body ends: what it ended with waits for the `%;`, and what its test failed with goes on.
    #[inline(always)]
    fn turn<const ROOM: usize>(&mut self, opens: &mut [OpenExtents; ROOM]) -> Result<(), CapFault>
        requires low { self.old.here.height ≤ most_values }
        requires order { IsInOrder ROOM self.old }
        ensures refused { IfErr result
            (λ fault. fault_at self.old opens.old Token.CondElse ≡ Some fault) }
        ensures taken { OnOk result (Brings 0 Token.CondElse self.old opens.old self.new opens.new) }
        ensures fine { OnOk result (fault_at self.old opens.old Token.CondElse ≡ None) }
        ensures order { OnOk result (IsInOrder ROOM self.new) }
        ensures kept { OnErr result ((self.new ≡ self.old) × (opens.new ≡ opens.old)) }
    {
        if self.nesting == 0 {
            return Err(CapFault::StrayElse);
        }
        let open = &mut opens[self.nesting - 1];
        match open.part {
            ConditionalPart::FirstTest => Err(CapFault::NoThen),
            ConditionalPart::Otherwise => Err(CapFault::StrayElse),
            ConditionalPart::Body => {
                open.part = ConditionalPart::Otherwise;
                open.done = self.here.max(open.done);
                self.here = open.failed;
                open.failed = Extent::NONE;
                self.depth = self.depth.max(self.here.height);
                Ok(())
            }
        }
    }

    /// A conditional ends: the greatest of what runs and what waits in it goes on.
    #[inline(always)]
    fn leave<const ROOM: usize>(&mut self, opens: &[OpenExtents; ROOM]) -> Result<(), CapFault>
        requires low { self.old.here.height ≤ most_values }
        requires order { IsInOrder ROOM self.old }
        ensures refused { IfErr result
            (λ fault. fault_at self.old opens.now Token.CondClose ≡ Some fault) }
        ensures taken { OnOk result (Brings 0 Token.CondClose self.old opens.now self.new opens.now) }
        ensures fine { OnOk result (fault_at self.old opens.now Token.CondClose ≡ None) }
        ensures order { OnOk result (IsInOrder ROOM self.new) }
        ensures kept { OnErr result (self.new ≡ self.old) }
    {
        if self.nesting == 0 {
            return Err(CapFault::StrayEnd);
        }
        let OpenExtents { part, failed, done } = opens[self.nesting - 1];
        if matches!(part, ConditionalPart::FirstTest) {
            return Err(CapFault::NoThen);
        }
        self.here = self.here.max(failed).max(done);
        self.depth = self.depth.max(self.here.height);
        self.nesting -= 1;
        Ok(())
    }

    /// The greatest height so far.
    #[inline(always)]
    pub fn depth(&self) -> u32
        ensures { result ≡ self.now.depth }
    {
        self.depth
    }

    /// The greatest number of open conditionals so far.
    #[inline(always)]
    pub fn nest(&self) -> usize
        ensures { result ≡ self.now.nest }
    {
        self.nest
    }

    /// The most bytes that any path writes, were this the end.
    #[tactic(auto, using(crate::proofs::ScanLemmas::greatest_end_size))]
    #[inline(always)]
    pub fn bound<const ROOM: usize>(&self, opens: &[OpenExtents; ROOM]) -> u64
        requires order { IsInOrder ROOM self.now }
        ensures { result ≡ greatest_size self.now opens.now }
    {
        u64::from(self.end(opens).size)
    }

    /// How far any path has come, were this the end.
    #[inline(always)]
    fn end<const ROOM: usize>(&self, opens: &[OpenExtents; ROOM]) -> Extent
        requires order { IsInOrder ROOM self.now }
        ensures { result ≡ greatest_end (innermost_first self.now.nesting opens.now) self.now.here }
    {
        opens[..self.nesting]
            .iter()
            .rev()
            .fold(self.here, |here, open| {
                here.max(open.failed).max(open.done)
            })
    }

    /// Whether a conditional is still in its first test.
    #[inline(always)]
    pub fn is_in_first_test<const ROOM: usize>(&self, opens: &[OpenExtents; ROOM]) -> bool
        requires order { IsInOrder ROOM self.now }
        ensures { result
            ≡ are_in_test (map height_frame (innermost_first self.now.nesting opens.now)) }
    {
        opens[..self.nesting]
            .iter()
            .rev()
            .fold(false, |found, open| {
                found || matches!(open.part, ConditionalPart::FirstTest)
            })
    }
}
