//! Texts that are not known.

ghost use Rattle.std.specs.Prelude.{◌≡◌, ◌∷◌, [], ℕ, List, IfOk, OnOk};
ghost use Rattle.ti_parser.specs.Covers.{IsOf};
ghost use Rattle.ti_parser.specs.declared.function.Function.{Function};
ghost use Rattle.ti_parser.specs.inner.Forms.{data_bytes};
ghost use Rattle.ti_parser.specs.inner.Receivers.{CoverMore, Lead};
ghost use Rattle.ti_parser.specs.inner.Texts.{AreBases, ArePlaced, IsBase, Spread, based, fronts, is_front, is_part};

use crate::padding::{Front, Marks, Part};
use crate::parsers::{Lost, insert, limit};
use crate::reading::Reception;
use crate::receiver::{Ahead, Receiver};
use std::alloc::{AllocError, Allocator};

/// Whether a text may lead into this part of a mark.
fn is_part(marks: Marks, part: Part) -> bool
    ensures { result ≡ is_part marks part }
{
    match (marks, part) {
        (Marks::Untouched, _) => false,
        (Marks::Tputs, Part::Whole(count)) => count == 1,
        (Marks::Tputs, Part::Point | Part::Star | Part::Slash) => false,
        (Marks::TiPad, Part::Whole(count)) => 0 < count && count < 6,
        _ => true,
    }
}

/// Whether the byte after a text may stand here.
fn is_front(marks: Marks, front: Front) -> bool
    ensures { result ≡ is_front marks front }
{
    match front {
        Front::Text => true,
        Front::Literal => matches!(marks, Marks::Tputs),
        Front::Mark(part) => is_part(marks, part),
    }
}

/// Where the byte after a text may stand.
fn fronts(marks: Marks) -> &'static [Front]
    ensures { result.now ≡ fronts marks }
{
    match marks {
        Marks::Untouched => &[Front::Text],
        Marks::Tputs => &[
            Front::Text,
            Front::Literal,
            Front::Mark(Part::Dollar),
            Front::Mark(Part::Open),
            Front::Mark(Part::Whole(1)),
            Front::Mark(Part::Decimals),
            Front::Mark(Part::Flags),
        ],
        Marks::TiPad => &[
            Front::Text,
            Front::Mark(Part::Dollar),
            Front::Mark(Part::Open),
            Front::Mark(Part::Whole(1)),
            Front::Mark(Part::Whole(2)),
            Front::Mark(Part::Whole(3)),
            Front::Mark(Part::Whole(4)),
            Front::Mark(Part::Whole(5)),
            Front::Mark(Part::Point),
            Front::Mark(Part::Decimals),
            Front::Mark(Part::Star),
            Front::Mark(Part::Slash),
            Front::Mark(Part::Flags),
        ],
    }
}

/// Adds the parser of a receiver as it is, and as it is after a byte of text, if a text says nothing to it.
fn add_base<A: Allocator>(
    marks: Marks,
    receiver: &Receiver,
    bases: &mut Vec<Receiver, A>,
) -> Result<(), Lost>
    ensures kept { OnOk result (CoverMore bases.old.items bases.new.items) }
    ensures base { OnOk result (IsBase marks bases.new.items receiver.now) }
{
    if !receiver.parser.state.is_text() || !is_front(marks, receiver.front) {
        return Err(Lost::ComputedByte);
    }
    insert(bases, receiver.placed(Front::Text, Ahead::Unknown))?;
    insert(bases, receiver.after_text())?;
    Ok(())
}

/// The parsers of receivers, and what a text makes of them.
fn bases_of<A: Allocator>(
    alloc: A,
    marks: Marks,
    here: &[Receiver],
) -> Result<Vec<Receiver, A>, Lost>
    ensures { IfOk result (λ bases. AreBases marks bases.items here.now) }
{
    let mut bases = Vec::new(alloc);
    for receiver in here {
        add_base(marks, receiver, &mut bases)?;
    }
    Ok(bases)
}

/// Adds a parser wherever the byte after a text may stand.
fn place<A: Allocator>(
    marks: Marks,
    base: &Receiver,
    after: &mut Vec<Receiver, A>,
) -> Result<(), AllocError>
    ensures kept { OnOk result (CoverMore after.old.items after.new.items) }
    ensures placed { OnOk result (ArePlaced base.now after.new.items (fronts marks)) }
{
    for front in fronts(marks) {
        insert(after, base.placed(*front, Ahead::Unknown))?;
    }
    Ok(())
}

/// The parsers wherever the byte after a text may stand.
fn spread<A: Allocator>(
    alloc: A,
    marks: Marks,
    bases: &[Receiver],
) -> Result<Vec<Receiver, A>, AllocError>
    ensures { IfOk result (λ after. Spread marks bases.now after.items) }
{
    let mut after = Vec::new(alloc);
    for base in bases {
        place(marks, base, &mut after)?;
    }
    Ok(after)
}

/// The parsers after a text that is not known. Within a string and outside of functions it changes no parser, so that only padding
/// marks play a part.
pub(crate) fn print_text<A: Allocator + Copy>(
    alloc: A,
    reception: Reception,
    here: &[Receiver],
) -> Result<Vec<Receiver, A>, Lost>
    ensures { IfOk result (λ after. (text : List ℕ) (sent : List Function) → IsOf data_bytes text
        → Lead reception text here.now sent after.items) }
{
    let bases = bases_of(alloc, reception.marks, here)?;
    let after = spread(alloc, reception.marks, &bases)?;
    let few = limit(alloc, after)?;
    Ok(few)
}
