//! The lines of a trace.

ghost use Rattle.std.specs.Prelude.{◌≡◌, true, IfErr, IfOk, OnOk};
ghost use Rattle.ti_sink.specs.Pages.{is_page};
ghost use Rattle.ti_trace.specs.Faults.{CanBeTraced, IsTraceFault};

use crate::fault::TraceFault;
use crate::options::TraceOptions;
use crate::pass::{MOST_SHOWN, Row, Writer, front_of, prepare, write_trace};
use std::alloc::Allocator;
use ti_escape::{Form, Style};
use ti_expand::{Outcome, Run, Value};
use ti_sink::Page;

/// The names of the columns.
const HEADER: &str = "place\ttoken          \trun    \tstack                  \twrote\n";

/// The widths of the columns after the first.
const WIDTHS: [usize; 3] = [15, 7, 23];

#[derive(Drop)]
struct Lines<A: Allocator> {
    form: Form,
    page: Page<A>,
}

impl<A: Allocator> Lines<A> {
    fn value(&mut self, value: &Value<'_>) {
        match *value {
            Value::Num(number) => self.page.integer(number),
            Value::Text(text) => {
                self.page.put("s:");
                self.page.formed(self.form, front_of(text));
                if text.len() > MOST_SHOWN {
                    self.page.put(",..");
                    self.page.unsigned(text.len() as u64);
                }
            }
        }
    }

    /// The values on the stack with a comma between them, or `-` if there are none.
    fn stack(&mut self, values: &[Value<'_>]) {
        if values.is_empty() {
            self.page.put("-");
        }
        'values: for (index, value) in values.iter().enumerate() {
            if index > 0 {
                self.page.put(",");
            }
            self.value(value);
        }
    }

    /// A number at the right end of its column.
    fn place(&mut self, place: usize) {
        let shorter = [10000, 1000, 100, 10]
            .iter()
            .filter(|least| place < **least);
        self.page.blanks(shorter.count());
        self.page.unsigned(place as u64);
        self.page.put("\t")
    }

    fn columns(&mut self, row: &Row<'_, '_>) {
        self.place(row.place);
        let start = self.page.len();
        self.page.formed(Form::Notation, row.spelling);
        self.page.end_column(start, WIDTHS[0]);
        let start = self.page.len();
        self.page.put(row.run());
        self.page.end_column(start, WIDTHS[1]);
        let start = self.page.len();
        self.stack(row.stack);
        self.page.end_column(start, WIDTHS[2]);
        self.page.shown(self.form, row.wrote)
    }

    fn total(&mut self, label: &str, number: u64) {
        self.page.put(label);
        self.page.unsigned(number);
        self.page.put("\n")
    }
}

impl<A: Allocator> Writer for Lines<A> {
    /// The line of a token that was passed over is faint.
    fn row(&mut self, row: &Row<'_, '_>) {
        match row.outcome {
            Outcome::Ran => self.columns(row),
            Outcome::PassedOver => {
                self.page.open(Style::Faint);
                self.columns(row);
                self.page.close()
            }
        }
        self.page.put("\n")
    }

    fn totals(&mut self, output: &[u8], run: &Run, depth: usize, bound: u64) {
        self.page.put("output: ");
        self.page.shown(self.form, output);
        self.total("\nwritten: ", run.written as u64);
        self.total("ran: ", run.ran as u64);
        self.total("passed: ", run.passed as u64);
        self.total("height: ", run.peak as u64);
        self.total("depth: ", depth as u64);
        self.total("bound: ", bound)
    }
}

/// Returns the effect of a capability, token by token, as lines of text: a header, a line for each row, and the output with the
/// counts. Each variable starts as 0. A spelling is in the notation of terminfo(5); texts on the stack and the output are in
/// the form. With color the line of a token that was passed over is faint.
///
/// A row is about a token. If rows are joined, neighbours without an escape become one: its place is that of the first, its
/// stack that after the last.
///
/// # Errors
/// In this order: `Cap` if the bytes are no capability, `TextTooLong` with the lowest parameter whose text has more bytes
/// than [`ti_base::MOST_TEXT_BYTES`]; `Memory` if a growth is refused.
pub fn trace<A: Allocator + Copy>(
    alloc: A,
    capability: &[u8],
    parameters: &[Value<'_>; 9],
    options: &TraceOptions,
) -> Result<Vec<u8, A>, TraceFault>
    ensures accepted { OnOk result (CanBeTraced capability.now parameters.now) }
    ensures refused { IfErr result (IsTraceFault capability.now parameters.now) }
    ensures printable { IfOk result (λ out. is_page options.now.color out.items ≡ true) }
{
    let ready = prepare(alloc, capability, parameters)?;
    let (form, page) = (options.form, Page::new(alloc, options.color));
    let mut lines = Lines { form, page };
    lines.page.put(HEADER);
    write_trace(ready, options.rows, &mut lines);
    match lines.page.finish(options.color) {
        Ok(bytes) => Ok(bytes),
        Err(_) => Err(TraceFault::Memory),
    }
}
