//! The calls of the program with no option, one request each.

ghost use Rattle.std.specs.Prelude.{◌⊎◌, ◌≡◌, IfErr};
ghost use Rattle.ti_tool.specs.Calls.{DidCall, DidCheck, HasFailed, IsFailedWrite, IsFull, without_value as the_answer_without_value};
ghost use Rattle.ti_tool.specs.Results.{IsCapped, IsChecked, IsConverted, IsExpanded, IsShown};

use crate::call::carry_out;
use crate::fault::ToolFault;
use std::alloc::Allocator;
use std::io::{Read, Write};
use ti_expand::Value;
use ti_line::{
    Action, CapabilityAction, CapabilityResult, EntryAction, Expand, ParameterValues, TextName,
    Verdicts, list_options, naming_of, output_of,
};
use ti_names::NameTable;
use ti_pad::Padding;
use ti_words::Width;

/// An answer without its value.
fn without_value(answer: Result<bool, ToolFault>) -> Result<(), ToolFault>
    ensures { result ≡ the_answer_without_value answer }
{
    match answer {
        Ok(_) => Ok(()),
        Err(fault) => Err(fault),
    }
}

/// Expands what the reader gives as one capability, each byte of it as it stands, and writes the output as it stands, or
/// with `hex` the same in lower-case hex and a newline. Marks of padding stay as they are.
pub fn cap_run<A: Allocator + Copy, R: Read, W: Write>(
    alloc: A,
    reader: &mut R,
    parameters: &[Value<'_>; 9],
    hex: bool,
    writer: &mut W,
) -> Result<(), ToolFault>
    ensures did { DidCall (IsCapped parameters.now hex) IsFull
        (R.remaining reader.old) (R.remaining reader.new)
        (W.contents writer.old) (W.contents writer.new) result }
    // After a fault other than `Write` the writer is as it was.
    ensures unwritten { IfErr result (λ e. IsFailedWrite e ⊎ (writer.new ≡ writer.old)) }
{
    let action = Action::Capability(CapabilityAction {
        parameters: ParameterValues {
            values: *parameters,
        },
        result: CapabilityResult::Cap(output_of(hex, false)),
    });
    without_value(carry_out(alloc, &action, reader, writer))
}

/// Lists the entry that the reader gives, one line an item: the format, the names, then the flags, numbers and texts in
/// the order of their indices. A flag that is No and what is absent is not listed. Names are the common ones or as they
/// stand in the entry, and texts are in lower-case hex; `-` is a text without bytes.
pub fn show<A: Allocator + Copy, R: Read, W: Write>(
    alloc: A,
    reader: &mut R,
    writer: &mut W,
) -> Result<(), ToolFault>
    ensures did { DidCall IsShown HasFailed
        (R.remaining reader.old) (R.remaining reader.new)
        (W.contents writer.old) (W.contents writer.new) result }
    // After a fault other than `Write` the writer is as it was.
    ensures unwritten { IfErr result (λ e. IsFailedWrite e ⊎ (writer.new ≡ writer.old)) }
{
    let action = Action::Entry(EntryAction::Show(list_options(false, false)));
    without_value(carry_out(alloc, &action, reader, writer))
}

/// Analyses each text of the entry that the reader gives, and writes a line for each that is present, in the order of
/// [`show`]: its depth and bound, or its fault with the place. The bound is that of text parameters without bytes. The
/// result is whether no text has a fault.
pub fn check<A: Allocator + Copy, R: Read, W: Write>(
    alloc: A,
    reader: &mut R,
    writer: &mut W,
) -> Result<bool, ToolFault>
    ensures did { DidCheck IsChecked HasFailed
        (R.remaining reader.old) (R.remaining reader.new)
        (W.contents writer.old) (W.contents writer.new) result }
    // After a fault other than `Write` the writer is as it was.
    ensures unwritten { IfErr result (λ e. IsFailedWrite e ⊎ (writer.new ≡ writer.old)) }
{
    let action = Action::Entry(EntryAction::Check(Verdicts::All, naming_of(false, false, false)));
    carry_out(alloc, &action, reader, writer)
}

/// Expands one text of the entry that the reader gives, pads it, and writes the result as it stands, or with `hex` the
/// same in lower-case hex and a newline.
///
/// A name is `#` and one to five digits, which is the index of a text; else the common name of a text; else that of an
/// extended text, the first of those that have it.
pub fn expand_named<'x, A: Allocator + Copy, R: Read, W: Write>(
    alloc: A,
    reader: &mut R,
    name: &'x str,
    parameters: &[Value<'x>; 9],
    padding: &Padding,
    hex: bool,
    writer: &mut W,
) -> Result<(), ToolFault>
    ensures did { DidCall (IsExpanded name.entry.now parameters.now padding.now hex) HasFailed
        (R.remaining reader.old) (R.remaining reader.new)
        (W.contents writer.old) (W.contents writer.new) result }
    // After a fault other than `Write` the writer is as it was.
    ensures unwritten { IfErr result (λ e. IsFailedWrite e ⊎ (writer.new ≡ writer.old)) }
{
    let names = NameTable::Common;
    let action = Action::Entry(EntryAction::Expand(Expand {
        name: TextName { name, names },
        parameters: ParameterValues {
            values: *parameters,
        },
        padding: *padding,
        output: output_of(hex, false),
    }));
    without_value(carry_out(alloc, &action, reader, writer))
}

/// Writes the entry that the reader gives in its canonical layout: each text in its place without sharing, the extended
/// part only if there is an extended capability. What tic writes is canonical already and comes out as it came.
///
/// The entry is written in the format of `width`, or with none in its own. Nothing else of it changes.
pub fn convert<A: Allocator + Copy, R: Read, W: Write>(
    alloc: A,
    reader: &mut R,
    width: Option<Width>,
    writer: &mut W,
) -> Result<(), ToolFault>
    ensures did { DidCall (IsConverted width) HasFailed
        (R.remaining reader.old) (R.remaining reader.new)
        (W.contents writer.old) (W.contents writer.new) result }
    // After a fault other than `Write` the writer is as it was.
    ensures unwritten { IfErr result (λ e. IsFailedWrite e ⊎ (writer.new ≡ writer.old)) }
{
    let action = Action::Entry(EntryAction::Convert(width));
    without_value(carry_out(alloc, &action, reader, writer))
}
