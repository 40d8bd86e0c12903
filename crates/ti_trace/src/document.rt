//! The trace as JSON: an object for each token, and one with the totals.

ghost use Rattle.std.specs.List.{list_all};
ghost use Rattle.std.specs.Prelude.{◌≡◌, true, IfErr, IfOk, OnOk};
ghost use Rattle.ti_escape.specs.Laws.{is_printable};
ghost use Rattle.ti_trace.specs.Faults.{CanBeTraced, IsTraceFault};

use crate::fault::TraceFault;
use crate::options::TraceRows;
use crate::pass::{Row, Writer, front_of, prepare, write_trace};
use std::alloc::Allocator;
use ti_expand::{Run, Value};
use ti_sink::Printer;

/// Writes a value on the stack: a number, or the length of a text and its front.
fn write_value<A: Allocator>(printer: &mut Printer<A>, value: &Value<'_>) {
    match *value {
        Value::Num(number) => printer.integer(number),
        Value::Text(text) => {
            printer.begin_object();
            printer.count("length", text.len() as u64);
            printer.text("text", front_of(text));
            printer.end()
        }
    }
}

impl<A: Allocator> Writer for Printer<A> {
    fn row(&mut self, row: &Row<'_, '_>) {
        self.begin_object();
        self.count("place", row.place as u64);
        self.word("run", row.run());
        self.key("stack");
        self.begin_list();
        'values: for value in row.stack {
            write_value(self, value);
        }
        self.end();
        self.text("token", row.spelling);
        self.text("wrote", row.wrote);
        self.end()
    }

    fn totals(&mut self, output: &[u8], run: &Run, depth: usize, bound: u64) {
        self.begin_object();
        self.count("bound", bound);
        self.count("depth", depth as u64);
        self.count("height", run.peak as u64);
        self.text("output", output);
        self.count("passed", run.passed as u64);
        self.count("ran", run.ran as u64);
        self.count("written", run.written as u64);
        self.end()
    }
}

/// Returns the effect of a capability, token by token, as JSON: an array with an object for each token, and one with the totals, without
/// a space between tokens of JSON. Each variable starts as 0.
///
/// The object of a token has its `place`, `run` (`ran` or `passed`), the `stack` after it, the bottom first, the spelling of the
/// `token`, and what it `wrote`. A number on the stack is an integer; a text is an object with its `length` and, as `text`, at most
/// its first 16 bytes. The last object has `bound`, `depth`, `height`, `output`, `passed`, `ran` and `written`. Bytes are in the
/// notation of terminfo(5), so each byte of the document is a character from the space to `~`.
///
/// # Errors
/// Those of [`crate::trace`], each exactly if it holds there.
pub fn trace_json<A: Allocator + Copy>(
    alloc: A,
    capability: &[u8],
    parameters: &[Value<'_>; 9],
) -> Result<Vec<u8, A>, TraceFault>
    ensures accepted { OnOk result (CanBeTraced capability.now parameters.now) }
    ensures refused { IfErr result (IsTraceFault capability.now parameters.now) }
    ensures printable { IfOk result (λ out. list_all is_printable out.items ≡ true) }
{
    let ready = prepare(alloc, capability, parameters)?;
    let mut printer = Printer::new(alloc);
    printer.begin_list();
    write_trace(ready, TraceRows::Each, &mut printer);
    printer.end();
    match printer.finish() {
        Ok(bytes) => Ok(bytes),
        Err(_) => Err(TraceFault::Memory),
    }
}
