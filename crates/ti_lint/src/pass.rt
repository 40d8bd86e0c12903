//! A pass over the tokens of a capability, along all paths at once.
//!
//! If a test may go either way both are kept, and where parts meet they are joined. The cost is constant a token.

ghost use Rattle.std.specs.Prelude.{◌≡◌};

use crate::facts::Facts;
use ti_base::MOST_OPEN;
use ti_cap::Token;

/// The state of an open conditional.
#[derive(Clone, Copy)]
pub struct OpenFacts {
    /// The facts after its failed tests, since its last `%e`.
    failed: Facts,
    /// The facts after its bodies.
    done: Facts,
}

impl OpenFacts {
    /// A conditional in its first test.
    const FRESH: OpenFacts = OpenFacts {
        failed: Facts::NONE,
        done: Facts::NONE,
    };
}

/// The state of the pass.
#[derive(Drop)]
pub struct Pass {
    /// The facts that hold on some path here.
    here: Facts,
    opens: [OpenFacts; MOST_OPEN],
    /// How many conditionals are open.
    nesting: usize,
}

impl Pass {
    ghost use Rattle.std.specs.Prelude.{◌<◌, ◌≤◌};
    ghost use Rattle.ti_base.specs.Limits.{most_open};
    ghost use Rattle.ti_cap.specs.declared.language.Token.{Token};
    ghost use Rattle.ti_lint.specs.inner.Pass.{first_pass, passed, IsTakeable};

    /// No token yet.
    pub fn new() -> Self
        ensures { result ≡ first_pass }
    {
        Pass {
            here: Facts::START,
            opens: [OpenFacts::FRESH; MOST_OPEN],
            nesting: 0,
        }
    }

    /// Returns the facts that hold on some path here.
    pub fn here(&self) -> &Facts
        ensures { result.now ≡ self.now.here }
    {
        &self.here
    }

    /// Goes on over a token that may stand here.
    pub fn take(&mut self, token: Token)
        requires takeable { IsTakeable token self.old.nesting }
        requires few { self.old.nesting ≤ most_open }
        ensures { self.new ≡ passed self.old token }
    {
        match token {
            Token::CondOpen => self.enter(),
            Token::CondThen => self.test(),
            Token::CondElse => self.turn(),
            Token::CondClose => self.leave(),
            _ => self.here.meet(token),
        }
    }

    /// A conditional begins.
    fn enter(&mut self)
        requires { self.old.nesting < most_open }
        ensures { self.new ≡ passed self.old Token.CondOpen }
    {
        self.opens[self.nesting] = OpenFacts::FRESH;
        self.nesting += 1;
    }

    /// A test ends: some paths fail here, and go on after the `%e` or `%;` to come.
    fn test(&mut self)
        requires some { 0 < self.old.nesting }
        requires few { self.old.nesting ≤ most_open }
        ensures { self.new ≡ passed self.old Token.CondThen }
    {
        self.here.meet(Token::CondThen);
        self.opens[self.nesting - 1].failed.join(&self.here);
    }

    /// A body ends: what it ended with waits for the `%;`, and what its test failed with goes on.
    fn turn(&mut self)
        requires some { 0 < self.old.nesting }
        requires few { self.old.nesting ≤ most_open }
        ensures { self.new ≡ passed self.old Token.CondElse }
    {
        let open = &mut self.opens[self.nesting - 1];
        open.done.join(&self.here);
        self.here = open.failed;
        open.failed = Facts::NONE;
    }

    /// A conditional ends: what waits in it joins what is here.
    fn leave(&mut self)
        requires some { 0 < self.old.nesting }
        requires few { self.old.nesting ≤ most_open }
        ensures { self.new ≡ passed self.old Token.CondClose }
    {
        let open = &self.opens[self.nesting - 1];
        self.here.join(&open.failed);
        self.here.join(&open.done);
        self.nesting -= 1;
    }
}
