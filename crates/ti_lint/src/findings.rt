//! The findings of a capability, token by token.

ghost use Rattle.std.specs.Prelude.{◌≡◌, ◌↔◌, [], Some, length, IfSome, IfNone, IfOk, OnOk};
ghost use Rattle.ti_cap.specs.Capability.{Takes, IsFirst, IsWellFormed};
ghost use Rattle.ti_lint.specs.Findings.{IsFoundBefore, IsFoundAfter, IsFoundWithin};

use crate::backward::outlooks;
use crate::conditional::judge_conditional;
use crate::expected::Expected;
use crate::outlook::Outlook;
use crate::pass::Pass;
use crate::token_finding::TokenFinding;
use crate::tokens::tokens_of;
use std::alloc::{AllocError, Allocator, Global};
use std::marker::Model;
use ti_cap::{Capability, ParameterSet, Tape, Token};

/// A token, and what is wrong with it.
#[derive(Clone, Copy, Debug, PartialEq, Eq)]
pub struct Judged {
    /// The token.
    pub token: Token,
    /// The finding by what comes before it. No token has two such findings.
    pub before: Option<TokenFinding>,
    /// The finding by what comes after it. No token has two such findings.
    pub after: Option<TokenFinding>,
    /// The finding by the conditional that it is a part of. No token has two such findings.
    pub within: Option<TokenFinding>,
}

/// The tokens of a capability, each with what is wrong with it. It goes forward only.
#[derive(Drop)]
pub struct Findings<'a, A: Allocator = Global> {
    tape: Tape<'a>,
    pass: Pass,
    /// The outlook after each token that is left, that of the first one last.
    outlooks: Vec<Outlook, A>,
    /// All tokens.
    tokens: Vec<Token, A>,
    /// How many of them were taken.
    count: usize,
    expected: Expected,
    termcap: bool,
}

impl<'a, A: Allocator> Model for Findings<'a, A> {
    ghost use Rattle.std.specs.Prelude.{◌↔◌, IsTrue};
    ghost use Rattle.ti_cap.specs.Capability.{whole};
    ghost use Rattle.ti_lint.specs.Findings.{Underway, NamesNone};
    ghost use Rattle.ti_lint.specs.inner.Pass.{IsAt};
    ghost use Rattle.ti_lint.specs.inner.Outlook.{IsAhead};
    ghost use Rattle.ti_lint.specs.inner.Conditionals.{HasTokens};

    ghost Value = { Underway };

    ghost view = { λ f. record {
      spot = f.tape;
      expected = f.expected;
    } };

    ghost invariant = { λ f. IsAt f.tape f.pass × (IsTrue f.termcap ↔ NamesNone (whole f.tape))
        × IsAhead f.tape f.outlooks.items × HasTokens f.tape f.tokens.items f.count };
}

impl<'a, A: Allocator> Findings<'a, A> {
    ghost use Rattle.ti_lint.specs.declared.token_finding.TokenFinding.{TokenFinding};

    /// The findings of a capability, before its first token. It takes memory for each token, and for what comes after it.
    ///
    /// # Examples
    ///
    /// ```rust
    /// let mut findings = Findings::new(rt.alloc(), &Capability::parse(TSL)?, expected)?;
    /// ```
    pub fn new(
        alloc: A,
        capability: &Capability<'a>,
        expected: Expected,
    ) -> Result<Self, AllocError>
    where
        A: Copy,
        ensures start { IfOk result
            (λ findings. findings.spot ≡ record { taken = []; left = capability.now }) }
        ensures expected { IfOk result (λ findings. findings.expected ≡ expected) }
        ensures tree { OnOk result (IsWellFormed capability.now) }
    {
        let tape = capability.tape();
        let named = capability.parameters().named;
        let tokens = tokens_of(alloc, capability)?;
        let outlooks = outlooks(alloc, tokens.as_slice())?;
        Ok(Findings {
            tape,
            pass: Pass::new(),
            outlooks,
            tokens,
            count: 0,
            expected,
            termcap: named == ParameterSet::NONE,
        })
    }

    /// Takes the next token, or none at the end.
    pub fn token(&mut self) -> Option<Judged>
        // none exactly if no bytes are left, and nothing changes
        ensures none { IfNone result ((self.new ≡ self.old) × (self.old.spot.left ≡ [])) }

        // else the first of the tokens that are left is taken
        ensures takes { IfSome result (λ judged. Takes judged.token self.old.spot self.new.spot) }
        ensures order { IfSome result (λ judged. IsFirst judged.token self.old.spot self.new.spot) }
        ensures expected { self.new.expected ≡ self.old.expected }

        // and a finding is reported exactly if it holds
        ensures before { IfSome result (λ judged. (finding : TokenFinding)
            → (judged.before ≡ Some finding) ↔ IsFoundBefore self.old judged.token finding) }
        ensures after { IfSome result (λ judged. (finding : TokenFinding)
            → (judged.after ≡ Some finding) ↔ IsFoundAfter self.old judged.token finding) }
        ensures within { IfSome result (λ judged. (finding : TokenFinding)
            → (judged.within ≡ Some finding) ↔ IsFoundWithin self.old judged.token finding) }
    {
        let token = self.tape.token()?;
        let outlook = self.outlooks.pop()?;
        let here = self.pass.here();
        let before = here.judge(token, &self.expected, self.termcap);
        let after = outlook.judge(token, here);
        let within = judge_conditional(&self.tokens, self.count);
        self.pass.take(token);
        self.count += 1;
        Some(Judged {
            token,
            before,
            after,
            within,
        })
    }

    /// The bytes of the capability that were taken.
    pub fn at(&self) -> usize
        ensures exact { result ≡ length self.now.spot.taken }
    {
        self.tape.at()
    }
}
