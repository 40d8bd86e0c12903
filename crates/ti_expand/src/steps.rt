//! The flat pass, a token at a time.
//!
//! It works in room of the caller, as `expand_into` does, and takes no memory.

ghost use Rattle.std.specs.Prelude.{◌≡◌, ◌+◌, ◌↔◌, [], length, max, reverse, if◌then◌else◌, IfOk, IfSome, IfNone, OnOk};
ghost use Rattle.ti_cap.specs.Pass.{next_mode};
ghost use Rattle.ti_cap.specs.Capability.{IsWellFormed, Takes, IsFirst};
ghost use Rattle.ti_expand.specs.Meaning.{tests_zero};
ghost use Rattle.ti_expand.specs.Expands.{IsExpandFault};
ghost use Rattle.ti_expand.specs.Steps.{step_state, is_run_between, outcome_of, at_start};

use crate::counts::Run;
use crate::expansion::check;
use crate::fault::ExpandFault;
use crate::machine::Machine;
use crate::step::{Outcome, Step};
use crate::values::Value;
use crate::variables::Vars;
use std::fmt;
use std::marker::Model;
use ti_cap::{Capability, Mode, Tape};

/// A pass over a capability that stops after each token. It goes forward only.
#[derive(Drop)]
pub struct Steps<'r, 'p, 'a> {
    tape: Tape<'a>,
    machine: Machine<'r, 'r, 'p, 'a>,
    mode: Mode,
    ran: usize,
    passed: usize,
}

impl<'r, 'p, 'a> Model for Steps<'r, 'p, 'a> {
    ghost use Rattle.ti_expand.specs.Steps.{Underway};
    ghost use Rattle.ti_expand.specs.inner.Held.{held, IsPaused};

    ghost Value = { Underway };

    ghost view = { λ s. record {
      spot = s.tape;
      mode = s.mode;
      state = (held s.machine).state;
      ran = s.ran;
      passed = s.passed;
      peak = (held s.machine).highest;
    } };

    ghost invariant = { λ s. IsPaused s.tape.left s.mode (held s.machine) s.ran s.passed };
}

// It names the type alone.
impl<'r, 'p, 'a> fmt::Debug for Steps<'r, 'p, 'a> {
    fn fmt<W: fmt::Write>(&self, f: &mut fmt::Formatter<W>) -> fmt::Result {
        f.write_str("Steps")
    }
}

impl<'r, 'p, 'a> Steps<'r, 'p, 'a> {
    /// A pass at the first token, over these parameters and variables, in slices of the caller. It takes no memory: the
    /// stack slice needs as many places as the capability's depth, and the output slice as many bytes as its bound for the
    /// longest text among the parameters.
    ///
    /// # Errors
    /// Those of [`crate::expand_into`], each exactly if it holds there.
    pub fn new(
        capability: &Capability<'a>,
        parameters: &'p [Value<'a>; 9],
        vars: &'r mut Vars,
        stack: &'r mut [Value<'a>],
        out: &'r mut [u8],
    ) -> Result<Self, ExpandFault>
        // each fault comes exactly if it holds
        ensures faults { (fault : ExpandFault) → (result ≡ Err fault)
            ↔ IsExpandFault capability.now parameters.now (length stack.old) (length out.old) fault }

        // else the pass is at its start, and there is a tree that writes the capability
        ensures start { IfOk result
            (λ steps. steps ≡ at_start capability.now vars.old parameters.now) }
        ensures tree { OnOk result (IsWellFormed capability.now) }
    {
        let tape = capability.tape();
        check(&tape, parameters, stack.len(), out.len())?;
        let machine = Machine::new(parameters, vars, stack, out);
        Ok(Steps {
            tape,
            machine,
            mode: Mode::Run,
            ran: 0,
            passed: 0,
        })
    }

    /// Takes the next token, or none at the end.
    pub fn step(&mut self) -> Option<Step>
        // none exactly if no bytes are left, and nothing changes
        ensures none { IfNone result ((self.new ≡ self.old) × (self.old.spot.left ≡ [])) }

        // else the first of the tokens that are left is taken, and the mode and the state move as in `steps`
        ensures takes { IfSome result (λ step. Takes step.token self.old.spot self.new.spot) }
        ensures order { IfSome result (λ step. IsFirst step.token self.old.spot self.new.spot) }
        ensures mode { IfSome result (λ step. self.new.mode
            ≡ next_mode self.old.mode step.token (tests_zero self.old.state)) }
        ensures state { IfSome result (λ step. self.new.state
            ≡ step_state self.old.mode step.token self.old.state) }
        ensures outcome { IfSome result (λ step. step.outcome
            ≡ outcome_of (is_run_between self.old.mode self.new.mode)) }

        // and it is counted
        ensures ran { IfSome result (λ _. self.new.ran
            ≡ (if is_run_between self.old.mode self.new.mode
            then self.old.ran + 1 else self.old.ran)) }
        ensures passed { IfSome result (λ _. self.new.passed
            ≡ (if is_run_between self.old.mode self.new.mode
            then self.old.passed else self.old.passed + 1)) }
        ensures peak { IfSome result (λ _. self.new.peak
            ≡ max self.old.peak (length self.new.state.stack)) }
    {
        let token = self.tape.token()?;
        if self.mode.is_running() {
            self.mode = self.machine.meet(&token);
            self.ran += 1;
            return Some(Step {
                token,
                outcome: Outcome::Ran,
            });
        }
        self.mode = self.mode.next(&token, false);
        if self.mode.is_running() {
            self.ran += 1;
            return Some(Step {
                token,
                outcome: Outcome::Ran,
            });
        }
        self.passed += 1;
        Some(Step {
            token,
            outcome: Outcome::PassedOver,
        })
    }

    /// The bytes of the capability that were taken.
    pub fn at(&self) -> usize
        ensures { result ≡ length self.now.spot.taken }
    {
        self.tape.at()
    }

    /// The values on the stack, the top last.
    pub fn stack(&self) -> &[Value<'a>]
        ensures { reverse result.now ≡ self.now.state.stack }
    {
        self.machine.stack()
    }

    /// Returns the output so far.
    pub fn output(&self) -> &[u8]
        ensures { result.now ≡ self.now.state.output }
    {
        self.machine.output()
    }

    /// The variables.
    pub fn vars(&self) -> &Vars
        ensures { result.now ≡ self.now.state.variables }
    {
        self.machine.vars()
    }

    /// The counts so far.
    pub fn run(&self) -> Run
        ensures written { result.written ≡ length self.now.state.output }
        ensures ran { result.ran ≡ self.now.ran }
        ensures passed { result.passed ≡ self.now.passed }
        ensures peak { result.peak ≡ self.now.peak }
    {
        Run {
            written: self.machine.output().len(),
            ran: self.ran,
            passed: self.passed,
            peak: self.machine.highest(),
        }
    }
}
