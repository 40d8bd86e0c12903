//! The whole result of a call, and writing it.

ghost use Rattle.std.specs.Prelude.{◌≡◌, ◌++◌, [], codes, Ok, IfOk, IfErr};
ghost use Rattle.ti_tool.specs.declared.fault.ToolFault.TheVariants as fault;
ghost use Rattle.ti_escape.specs.Forms.{formed};
ghost use Rattle.ti_line.specs.Options.{output_bytes as the_output_bytes};
ghost use Rattle.ti_tool.specs.Calls.{IsFailedWrite, Wrote};

use crate::fault::ToolFault;
use std::alloc::{AllocError, Allocator};
use std::io::Write;
use ti_escape::{Form, formed_len, push_formed};
use ti_line::Output;
use ti_pad::write_out;

/// The bytes in a form, and a newline.
fn formed_line<A: Allocator + Copy>(
    alloc: A,
    form: Form,
    bytes: &[u8],
) -> Result<Vec<u8, A>, AllocError>
    ensures { IfOk result (λ line. line.items ≡ formed form bytes.now ++ codes "\n") }
{
    let Ok(len) = usize::try_from(formed_len(form, bytes) + 1) else {
        return Err(AllocError);
    };
    let mut line = Vec::with_capacity(alloc, len)?;
    push_formed(&mut line, form, bytes)?;
    line.push(b'\n')?;
    Ok(line)
}

/// The bytes as they stand, or in a form and a newline.
pub fn output_bytes<A: Allocator + Copy>(
    alloc: A,
    plain: Vec<u8, A>,
    output: Output,
) -> Result<Vec<u8, A>, ToolFault>
    ensures value { IfOk result (λ v. v.items ≡ the_output_bytes output plain.items) }
    ensures refused { IfErr result (λ e. e ≡ fault.Memory) }
{
    match output {
        Output::Raw => Ok(plain),
        Output::Line(form) => Ok(formed_line(alloc, form, plain.as_slice())?),
    }
}

/// Writes a result. Its fault says how many of its bytes the writer took.
pub fn write_result<W: Write>(writer: &mut W, bytes: &[u8]) -> Result<(), ToolFault>
    ensures written { Wrote (λ due. due ≡ Ok bytes.now)
        (W.contents writer.old) (W.contents writer.new) result }
    ensures fails { IfErr result IsFailedWrite }
    ensures nothing { bytes.now ≡ [] → writer.new ≡ writer.old }
{
    write_out(writer, bytes).map_err(ToolFault::Write)
}
