//! The end of each request: its result or the line on its fault is written.

ghost use Rattle.std.specs.Prelude.{◌≡◌, ◌≢◌, ◌<◌, ◌≤◌, ◌⊎◌, ℕ, List, [], None, IfOk, IfSome, MatchResult, Option, unwrap_or};
ghost use Rattle.ti_tool.specs.FaultLines.{Told, fault_line as the_fault_line};
ghost use Rattle.ti_tool.specs.FileRuns.{Delivered};
ghost use Rattle.ti_tool.specs.Runs.{MayHaveWritten};
ghost use Rattle.ti_tool.specs.declared.fault.ToolFault.TheVariants as fault;
ghost use Rattle.ti_tool.specs.Voice.{IsAdvised};
ghost use Rattle.ti_tool.specs.inner.Files.{EndsFile, IsResultOrLine};

use crate::fault::ToolFault;
use crate::fault_line::{advised, fault_line};
use crate::noted::{Stop, write_noted};
use crate::outcome::Outcome;
use crate::voice::write_stop;
use std::alloc::{AllocError, Allocator};
use std::io::Write;
use ti_pad::write_out;
use ti_sink::ShortPage;

/// Reports that memory was refused.
pub fn report_memory<E: Write>(errors: &mut E)
    ensures { Told (the_fault_line fault.Memory) (E.contents errors.old) (E.contents errors.new) }
{
    let _ = write_out(errors, fault_line(&ToolFault::Memory).as_slice());
}

/// The end of a run: a result or the line on its fault, and the status.
#[derive(Clone, Copy)]
pub struct Ending<'a> {
    pub bytes: &'a [u8],
    pub line: &'a [u8],
    pub status: u8,
}

/// The line on a fault alone, and the status.
pub fn line_alone(line: &[u8], status: u8) -> Ending<'_>
    ensures nothing { result.bytes.now ≡ [] }
    ensures line { result.line.now ≡ line.now }
    ensures status { result.status ≡ status }
{
    Ending {
        bytes: b"",
        line,
        status,
    }
}

/// Reports a failed write, with the reason if advice is wanted.
fn report_stop<A: Allocator + Copy, E: Write>(
    alloc: A,
    has_advice: bool,
    stop: &Stop,
    errors: &mut E,
)
    ensures { (lines : List ℕ) × IsAdvised has_advice (the_fault_line (fault.Write stop.now.gone)) lines
        × Told lines (E.contents errors.old) (E.contents errors.new) }
{
    let mut page = ShortPage::new();
    if let Some(error) = &stop.error {
        write_stop(&mut page, alloc, error);
    }
    let lines = advised(has_advice, &fault_line(&ToolFault::Write(stop.gone)), &page);
    let _ = write_out(errors, lines.as_slice());
}

/// Writes a result and a line. The result is the status, or none if the results can't be written.
fn deliver<A: Allocator + Copy, W: Write, E: Write>(
    alloc: A,
    has_advice: bool,
    ending: Ending<'_>,
    output: &mut W,
    errors: &mut E,
) -> Option<u8>
    requires { IsResultOrLine ending.status ending.bytes.now ending.line.now }
    ensures known { ending.entry.status ≢ 2 → IfSome result (λ status. status ≢ 2) }
    ensures silent { IfSome result (λ status. status ≤ 1 → errors.new ≡ errors.old) }
    ensures unwritten { IfSome result (λ status. 1 < status → output.new ≡ output.old) }
    ensures delivered { Delivered has_advice (W.contents output.old) (W.contents output.new)
        (E.contents errors.old) (E.contents errors.new) result ending.entry.bytes.now ending.entry.line.now ending.entry.status }
{
    if let Err(stop) = write_noted(output, ending.bytes) {
        report_stop(alloc, has_advice, &stop, errors);
        return None;
    }
    let _ = write_out(errors, ending.line);
    Some(ending.status)
}

/// Writes what a file led to. The result is the status, or none if the results can't be written.
pub fn deliver_outcome<A: Allocator + Copy, W: Write, E: Write>(
    alloc: A,
    has_advice: bool,
    outcome: Result<Outcome<A>, AllocError>,
    output: &mut W,
    errors: &mut E,
) -> Option<u8>
    requires { IfOk outcome (λ o. EndsFile o.status o.bytes.items o.line.items) }
    ensures known { IfSome result (λ status. status ≢ 2) }
    ensures silent { IfSome result (λ status. status ≤ 1 → errors.new ≡ errors.old) }
    ensures unwritten { IfSome result (λ status. 1 < status → output.new ≡ output.old) }
    ensures delivered { let IsDelivered = Delivered has_advice
        (W.contents output.old) (W.contents output.new)
        (E.contents errors.old) (E.contents errors.new) result in
        MatchResult outcome (λ o. IsDelivered o.bytes.items o.line.items o.status)
        (λ _. IsDelivered [] (the_fault_line fault.Memory) 6) }
{
    match outcome {
        Ok(outcome) => {
            let ending = Ending {
                bytes: outcome.bytes.as_slice(),
                line: outcome.line.as_slice(),
                status: outcome.status,
            };
            deliver(alloc, has_advice, ending, output, errors)
        }
        Err(AllocError) => {
            report_memory(errors);
            Some(6)
        }
    }
}

/// Writes a result and a line, after which nothing comes. The result is the status.
pub fn deliver_last<A: Allocator + Copy, W: Write, E: Write>(
    alloc: A,
    has_advice: bool,
    ending: Ending<'_>,
    output: &mut W,
    errors: &mut E,
) -> u8
    requires { IsResultOrLine ending.status ending.bytes.now ending.line.now }
    ensures known { ending.entry.status ≢ 2 → result ≢ 2 }
    ensures silent { result ≤ 1 → errors.new ≡ errors.old }
    ensures unwritten { MayHaveWritten result ⊎ (output.new ≡ output.old) }
    ensures delivered { (answer : Option ℕ)
        × Delivered has_advice (W.contents output.old) (W.contents output.new)
        (E.contents errors.old) (E.contents errors.new) answer ending.entry.bytes.now ending.entry.line.now ending.entry.status
        × (result ≡ unwrap_or answer 5) × IfSome answer (λ s. 1 < s → output.new ≡ output.old) }
{
    deliver(alloc, has_advice, ending, output, errors).unwrap_or(5)
}
