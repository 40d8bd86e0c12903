//! A pass over a capability, of which each row goes to what writes it.

ghost use Rattle.std.specs.Prelude.{IfErr, OnOk};
ghost use Rattle.ti_trace.specs.Faults.{CanBeTraced, IsTraceFault};

use crate::fault::TraceFault;
use crate::options::TraceRows;
use std::alloc::Allocator;
use ti_base::MOST_VALUES;
use ti_cap::Capability;
use ti_expand::{ExpandFault, Outcome, Run, Steps, Value, Vars, longest_text};

/// How many bytes of a text on the stack are shown, so that a trace stays short if a long text lies there for many tokens.
pub const MOST_SHOWN: usize = 16;

/// A capability with its parameters, of which no text is too long, and room for its output.
#[derive(Drop)]
pub struct Ready<'r, 'a, A: Allocator> {
    pub bytes: &'a [u8],
    pub capability: Capability<'a>,
    pub parameters: &'r [Value<'a>; 9],
    pub bound: u64,
    pub room: Vec<u8, A>,
}

/// A capability that is to be traced, unless it is none or a text is too long.
pub fn prepare<'r, 'a, A: Allocator>(
    alloc: A,
    bytes: &'a [u8],
    parameters: &'r [Value<'a>; 9],
) -> Result<Ready<'r, 'a, A>, TraceFault>
    ensures accepted { OnOk result (CanBeTraced bytes.now parameters.now) }
    ensures refused { IfErr result (IsTraceFault bytes.now parameters.now) }
{
    let capability = match Capability::parse(bytes) {
        Ok(capability) => capability,
        Err(refused) => return Err(TraceFault::Cap(refused)),
    };
    let longest = match longest_text(parameters) {
        Ok(longest) => longest,
        Err(ExpandFault::TextTooLong { parameter }) => {
            return Err(TraceFault::TextTooLong(parameter));
        }
        Err(_) => unreachable!(),
    };
    let bound = capability.bound(longest);
    match Vec::from_elem(alloc, 0, bound as usize) {
        Ok(room) => Ok(Ready {
            bytes,
            capability,
            parameters,
            bound,
            room,
        }),
        Err(_) => Err(TraceFault::Memory),
    }
}

/// A token, or a run of bytes that stand for themselves, with its effect.
#[derive(Clone, Copy)]
pub struct Row<'r, 'a> {
    /// Where it starts.
    pub place: usize,
    pub spelling: &'r [u8],
    pub outcome: Outcome,
    /// The values after it, the bottom first.
    pub stack: &'r [Value<'a>],
    pub wrote: &'r [u8],
}

impl Row<'_, '_> {
    /// The word for whether it ran.
    pub fn run(&self) -> &'static str {
        match self.outcome {
            Outcome::Ran => "ran",
            Outcome::PassedOver => "passed",
        }
    }
}

/// What writes a trace.
pub trait Writer {
    fn row(&mut self, row: &Row<'_, '_>);

    fn totals(&mut self, output: &[u8], run: &Run, depth: usize, bound: u64);
}

/// The front of a text, as much as is shown of it.
pub fn front_of(text: &[u8]) -> &[u8] {
    &text[..MOST_SHOWN.min(text.len())]
}

/// Whether a byte that stands for itself is at a place.
fn is_byte_at(bytes: &[u8], place: usize) -> bool {
    bytes.get(place).is_some_and(|byte| *byte != b'%')
}

/// Takes all bytes that come next and stand for themselves.
fn take_bytes(bytes: &[u8], steps: &mut Steps<'_, '_, '_>) {
    'bytes: for _ in 0..bytes.len() {
        if !is_byte_at(bytes, steps.at()) || steps.step().is_none() {
            break;
        }
    }
}

/// Takes all tokens and writes their rows.
fn write_rows<W: Writer>(
    out: &mut W,
    bytes: &[u8],
    rows: TraceRows,
    steps: &mut Steps<'_, '_, '_>,
) {
    'rows: for _ in 0..bytes.len() {
        let (place, written) = (steps.at(), steps.output().len());
        let is_run = rows == TraceRows::Joined && is_byte_at(bytes, place);
        let Some(step) = steps.step() else { break };
        if is_run {
            take_bytes(bytes, steps);
        }
        out.row(&Row {
            place,
            spelling: bytes.get(place..steps.at()).unwrap_or(b""),
            outcome: step.outcome,
            stack: steps.stack(),
            wrote: steps.output().get(written..).unwrap_or(b""),
        });
    }
}

/// Writes the trace of a capability. Each variable starts as 0.
pub fn write_trace<A: Allocator, W: Writer>(ready: Ready<'_, '_, A>, rows: TraceRows, out: &mut W) {
    let Ready {
        bytes,
        capability,
        parameters,
        bound,
        mut room,
    } = ready;
    let mut vars = Vars::new();
    let mut stack = [Value::Num(0); MOST_VALUES];
    // It is not refused, since the stack and the room are as long as any capability needs.
    if let Ok(mut steps) = Steps::new(
        &capability,
        parameters,
        &mut vars,
        &mut stack,
        room.as_mut_slice(),
    ) {
        write_rows(out, bytes, rows, &mut steps);
        out.totals(steps.output(), &steps.run(), capability.depth(), bound);
    }
}
