//! The values that a text is tried over.

ghost use Rattle.std.specs.Prelude.{◌≡◌, ◌+◌, ◌++◌, map, IfOk, OnOk};
ghost use Rattle.std.specs.List.{flat_map};
ghost use Rattle.ti_values.specs.Ranges.{numbers, pairs, values};

use crate::tried::Tried;
use std::alloc::{AllocError, Allocator};

/// The values over which a text is tried.
#[derive(Clone, Copy, Debug, PartialEq, Eq)]
pub enum Range {
    /// The numbers from the first up to below the second, such as colors.
    Numbers(u16, u16),
    /// All places of a screen of so many lines and columns.
    Places(u16, u16),
    /// All regions of so many lines: each line with each one below it.
    Regions(u16),
    /// All sets of the nine attributes of `sgr`.
    Attributes,
}

/// The number of sets of nine attributes.
const SETS: u16 = 512;

/// Adds a number with each number from one up to below another.
fn push_pairs<A: Allocator>(
    list: &mut Vec<Tried, A>,
    first: u16,
    from: u16,
    end: u16,
) -> Result<(), AllocError>
    ensures { OnOk result (list.new.items ≡ list.old.items ++ pairs first from end) }
{
    'seconds: for second in from..end {
        list.push(Tried::Two(first, second))?;
    }
    Ok(())
}

/// Adds the numbers from one up to below another.
fn push_numbers<A: Allocator>(
    list: &mut Vec<Tried, A>,
    from: u16,
    end: u16,
) -> Result<(), AllocError>
    ensures { OnOk result
        (list.new.items ≡ list.old.items ++ map (λ n. Tried.Number n) (numbers from end)) }
{
    'numbers: for number in from..end {
        list.push(Tried::Number(number))?;
    }
    Ok(())
}

/// Adds all places of a screen.
fn push_places<A: Allocator>(
    list: &mut Vec<Tried, A>,
    lines: u16,
    columns: u16,
) -> Result<(), AllocError>
    ensures { OnOk result (list.new.items
        ≡ list.old.items ++ flat_map (λ line. pairs line 0 columns) (numbers 0 lines)) }
{
    'lines: for line in 0..lines {
        push_pairs(list, line, 0, columns)?;
    }
    Ok(())
}

/// Adds all regions of a screen.
fn push_regions<A: Allocator>(list: &mut Vec<Tried, A>, lines: u16) -> Result<(), AllocError>
    ensures { OnOk result (list.new.items
        ≡ list.old.items ++ flat_map (λ top. pairs top (top + 1) lines) (numbers 0 lines)) }
{
    'tops: for top in 0..lines {
        push_pairs(list, top, top + 1, lines)?;
    }
    Ok(())
}

/// Adds all sets of attributes.
fn push_sets<A: Allocator>(list: &mut Vec<Tried, A>) -> Result<(), AllocError>
    ensures { OnOk result (list.new.items
        ≡ list.old.items ++ map (λ set. Tried.Attributes set) (numbers 0 SETS)) }
{
    'sets: for set in 0..SETS {
        list.push(Tried::Attributes(set))?;
    }
    Ok(())
}

/// Adds all values of a range.
#[tactic(auto, unfolding(crate::specs::Ranges::values))]
fn push_values<A: Allocator>(list: &mut Vec<Tried, A>, range: Range) -> Result<(), AllocError>
    ensures { OnOk result (list.new.items ≡ list.old.items ++ values range) }
{
    match range {
        Range::Numbers(from, end) => push_numbers(list, from, end),
        Range::Places(lines, columns) => push_places(list, lines, columns),
        Range::Regions(lines) => push_regions(list, lines),
        Range::Attributes => push_sets(list),
    }
}

/// All values of a range, in their order.
///
/// # Errors
///
/// Memory was refused.
pub fn values_of<A: Allocator>(alloc: A, range: Range) -> Result<Vec<Tried, A>, AllocError>
    ensures all { IfOk result (λ list. list.items ≡ values range) }
{
    let mut list = Vec::new(alloc);
    push_values(&mut list, range)?;
    Ok(list)
}
