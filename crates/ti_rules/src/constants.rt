//! Tests of constants, each reported with its value.

ghost use Rattle.std.specs.Prelude.{◌≡◌, ◌≤◌, length, IfNone, IfSome, OnOk};
ghost use Rattle.ti_base.specs.Limits.{most_capability_bytes};
ghost use Rattle.ti_cap.specs.declared.language.Token.TheVariants.{CondThen};
ghost use Rattle.ti_lint.specs.Conditionals.{IsConstantTest};
ghost use Rattle.ti_rules.specs.Constants.{IsTestReport, IsTestsReport};
ghost use Rattle.ti_rules.specs.Lines.{Adds};

use crate::finding::Finding;
use crate::remark::Evidence;
use crate::text_remarks::TextRemarks;
use std::alloc::{AllocError, Allocator};
use ti_cap::{Capability, Token};
use ti_expand::constant_value;
use ti_lint::{TokenFinding, constant_test};

/// The test of constants before a token, if it is a `%t`.
fn test_of(before: &[Token], token: Token) -> Option<&[Token]>
    requires { length before.now ≤ most_capability_bytes }
    ensures test { IfSome result (λ test. (found : IsConstantTest before.now)
        × (token ≡ CondThen) × (found.test ≡ test.now)) }
    ensures none { IfNone result (¬ ((token ≡ CondThen) × IsConstantTest before.now)) }
{
    match token {
        Token::CondThen => constant_test(before),
        _ => None,
    }
}

impl<A: Allocator + Copy> TextRemarks<A> {
    /// Adds the remark on a token that ends a test of constants.
    fn push_test(&mut self, before: &[Token], token: Token, place: usize) -> Result<(), AllocError>
        requires { length before.now ≤ most_capability_bytes }
        ensures { OnOk result (Adds (IsTestReport before.now token place) self.old self.new) }
    {
        let Some(test) = test_of(before, token) else {
            return Ok(());
        };
        let value = constant_value(self.allocator(), test)?;
        let mut places = Vec::new(self.allocator());
        places.push(place)?;
        let finding = Finding::Token(TokenFinding::ConstantCondition);
        self.push_at(places, finding, Evidence::Value(value))?;
        Ok(())
    }

    /// Adds the remarks on the tests of constants of a capability. It takes memory for each token.
    pub fn push_tests(&mut self, capability: &Capability<'_>) -> Result<(), AllocError>
        ensures { OnOk result (Adds (IsTestsReport capability.now) self.old self.new) }
    {
        let mut tape = capability.tape();
        let mut before = Vec::new(self.allocator());
        let mut place = 0;
        'tokens: while let Some(token) = tape.token() {
            self.push_test(before.as_slice(), token, place)?;
            before.push(token)?;
            place = tape.at();
        }
        Ok(())
    }
}
