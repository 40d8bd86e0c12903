//! What is known of the paths that come to a place, and of those that wait in open conditionals.

ghost use Rattle.std.specs.Prelude.{List, ◌≡◌, ◌++◌, ◌∷◌, [], IfOk, OnOk};
ghost use Rattle.ti_expand.specs.State.{State};
ghost use Rattle.ti_parser.specs.inner.Receivers.{IsAmong, Moment};
ghost use Rattle.ti_parser.specs.Tops.{AreTops, no_tops};
ghost use Rattle.ti_parser.specs.inner.Paths.{PointMore};

use crate::parsers::{Lost, unite};
use crate::reading::FirstCharacter;
use crate::receiver::Receiver;
use crate::tops::Tops;
use std::alloc::{AllocError, Allocator};
use std::marker::Model;

/// What is known of the paths that come to a place.
#[derive(Drop)]
pub(crate) struct Point<A: Allocator> {
    /// The parsers that they lead to.
    pub parsers: Vec<Receiver, A>,
    /// What is known of their stacks.
    pub tops: Tops,
}

/// The paths that wait in an open conditional.
#[derive(Drop)]
pub(crate) struct OpenPoints<A: Allocator> {
    /// After its failed tests, since its last `%e`.
    failed: Point<A>,
    /// After its bodies.
    done: Point<A>,
}

impl<A: Allocator> Model for OpenPoints<A> {
    ghost use Rattle.ti_parser.specs.Paths.{Waiting};

    ghost Value = { Waiting };

    ghost view = { λ w. record {
      failed = record { parsers = w.failed.parsers.items; tops = w.failed.tops };
      done = record { parsers = w.done.parsers.items; tops = w.done.tops };
    } };
}

/// A place to which no path comes.
pub(crate) fn nowhere<A: Allocator>(alloc: A) -> Point<A>
    ensures parsers { result.parsers.items ≡ [] }
    ensures tops { result.tops ≡ no_tops }
{
    Point {
        parsers: Vec::new(alloc),
        tops: Tops::at_start(FirstCharacter::Any),
    }
}

/// What is known on the paths of both.
fn joined_tops<A: Allocator>(left: &Point<A>, right: &Point<A>) -> Tops
    ensures left { (m : Moment) (s : State) → IsAmong left.now.parsers.items m
        → AreTops left.now.tops s → AreTops result s }
    ensures right { (m : Moment) (s : State) → IsAmong right.now.parsers.items m
        → AreTops right.now.tops s → AreTops result s }
{
    if left.parsers.is_empty() {
        return right.tops;
    }
    if right.parsers.is_empty() {
        return left.tops;
    }
    left.tops.joined(right.tops)
}

/// The paths of both.
pub(crate) fn union<A: Allocator>(
    alloc: A,
    left: Point<A>,
    right: &Point<A>,
) -> Result<Point<A>, Lost>
    ensures left { IfOk result (λ both. PointMore
        (record { parsers = left.parsers.items; tops = left.tops })
        (record { parsers = both.parsers.items; tops = both.tops })) }
    ensures right { IfOk result (λ both. PointMore
        (record { parsers = right.now.parsers.items; tops = right.now.tops })
        (record { parsers = both.parsers.items; tops = both.tops })) }
{
    let tops = joined_tops(&left, right);
    let parsers = unite(alloc, left.parsers, &right.parsers)?;
    Ok(Point { parsers, tops })
}

impl<A: Allocator> OpenPoints<A> {
    /// What waits.
    pub(crate) fn new(failed: Point<A>, done: Point<A>) -> Self
        ensures { result ≡ record {
          failed = record { parsers = failed.parsers.items; tops = failed.tops };
          done = record { parsers = done.parsers.items; tops = done.tops };
        } }
    {
        OpenPoints { failed, done }
    }

    /// The paths after failed tests, and those after bodies.
    pub(crate) fn into_parts(self) -> (Point<A>, Point<A>)
        ensures { self ≡ record {
          failed = record { parsers = result.0.parsers.items; tops = result.0.tops };
          done = record { parsers = result.1.parsers.items; tops = result.1.tops };
        } }
    {
        (self.failed, self.done)
    }
}

/// Adds what waits in a conditional.
pub(crate) fn push_open<A: Allocator>(
    opens: &mut Vec<OpenPoints<A>, A>,
    waiting: OpenPoints<A>,
) -> Result<(), AllocError>
    ensures { OnOk result (opens.new.items ≡ opens.old.items ++ waiting ∷ []) }
{
    opens.push(waiting)?;
    Ok(())
}

/// Takes what waits in the innermost conditional.
pub(crate) fn pop_open<A: Allocator>(
    opens: &mut Vec<OpenPoints<A>, A>,
) -> Result<(Point<A>, Point<A>), Lost>
    ensures { IfOk result (λ parts. opens.old.items ≡ opens.new.items ++ record {
      failed = record { parsers = parts.0.parsers.items; tops = parts.0.tops };
      done = record { parsers = parts.1.parsers.items; tops = parts.1.tops };
    } ∷ []) }
{
    match opens.pop() {
        None => Err(Lost::NotTried),
        Some(waiting) => Ok(waiting.into_parts()),
    }
}
