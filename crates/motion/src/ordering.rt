//! What a cycle orders of the segment.
ghost use Rattle.std.specs.Prelude.{◌≡◌, ◌<◌, ◌≤◌, Some};
ghost use Rattle.moves.specs.Sheet.{axis_at};
ghost use Rattle.motion.specs.Causes.{LawfulNoted};
ghost use Rattle.motion.specs.Ordering.{Noted, RefusedUpto, followed_unless, ordered, ordered_upto, refusal_of};
ghost use Rattle.motion.specs.World.{world};
ghost use Rattle.segment.specs.Calls.{follow_reason};
ghost use Rattle.std.specs.Result.{result_err};
ghost use Rattle.trail.specs.declared.memory.Trail.{Trail};

use crate::segments::look_at;
use moves::{AxisNumber, BlockNumber, Failure, MAX_AXES, Table};
use records::Cause;
use segment::Segment;
use turns::Under;

/// Orders an axis to a position, or says as a cause why it does not follow.
pub fn follow<S: Segment>(segment: &mut S, axis: AxisNumber, position: i32) -> Result<(), Cause>
    requires there { axis < (S.Segment.shows segment.old).count }
    ensures noted { Noted (follow_reason (S.Segment.shows segment.old) axis position) (result_err result) }
    ensures cause { LawfulNoted (result_err result) }
    ensures row { S.Segment.shows segment.new ≡ followed_unless (follow_reason (S.Segment.shows segment.old) axis position) (S.Segment.shows segment.old) axis position }
    ensures count { (S.Segment.shows segment.new).count ≡ (S.Segment.shows segment.old).count }
{
    segment.follow(axis.index(), position)?;
    Ok(())
}

// Why a follow was refused, if it was.
fn refusal_of(answer: Result<(), Cause>) -> Option<Failure>
    requires { LawfulNoted (result_err answer) }
    ensures { result ≡ result_err answer }
{
    answer.err().map(Failure::of)
}

// The axis follows under the command of this block, its active one.
fn order_under<S: Segment>(
    segment: &mut S,
    table: &mut Table,
    axis: AxisNumber,
    block: BlockNumber,
) -> Option<Failure>
    requires there { axis < (S.Segment.shows segment.old).count }
    requires active { (axis_at table.old axis).active ≡ Some block }
    ensures world { (trail : Trail) → world (S.Segment.shows segment.new) table.new trail ≡ ordered (world (S.Segment.shows segment.old) table.old trail) axis }
    ensures noted { (trail : Trail) → Noted (refusal_of (world (S.Segment.shows segment.old) table.old trail) axis) result }
    ensures count { (S.Segment.shows segment.new).count ≡ (S.Segment.shows segment.old).count }
{
    let under = Under {
        axis: table.axis(axis),
        block: table.block(block),
    };
    let next = under.stepped();
    let position = look_at(segment, axis).demand + next.motion().velocity;
    table.keep(axis, next);
    refusal_of(follow(segment, axis, position))
}

/// The axis follows if it has an active command; why not, if it is refused.
#[tactic(auto, unfolding(crate::specs::Ordering::ordered, crate::specs::Ordering::refusal_of))]
pub fn order<S: Segment>(segment: &mut S, table: &mut Table, axis: AxisNumber) -> Option<Failure>
    requires there { axis < (S.Segment.shows segment.old).count }
    ensures world { (trail : Trail) → world (S.Segment.shows segment.new) table.new trail ≡ ordered (world (S.Segment.shows segment.old) table.old trail) axis }
    ensures noted { (trail : Trail) → Noted (refusal_of (world (S.Segment.shows segment.old) table.old trail) axis) result }
    ensures count { (S.Segment.shows segment.new).count ≡ (S.Segment.shows segment.old).count }
{
    match table.axis(axis).active {
        Some(block) => order_under(segment, table, axis, block),
        None => None,
    }
}

/// The first axes follow, in their order; why each was refused, if it was.
pub fn order_all<S: Segment>(
    segment: &mut S,
    table: &mut Table,
    count: usize,
) -> [Option<Failure>; MAX_AXES]
    requires there { count ≤ (S.Segment.shows segment.old).count }
    ensures world { (trail : Trail) → world (S.Segment.shows segment.new) table.new trail ≡ ordered_upto (world (S.Segment.shows segment.old) table.old trail) count }
    ensures noted { (trail : Trail) → RefusedUpto (world (S.Segment.shows segment.old) table.old trail) result count }
    ensures count { (S.Segment.shows segment.new).count ≡ (S.Segment.shows segment.old).count }
{
    // Fixed memory, and a loop over numbers: the number of the axis is what its calls take.
    let mut refusals = [None; MAX_AXES];
    for axis in 0..count {
        refusals[axis] = order(segment, table, AxisNumber::of(axis as u8));
    }
    refusals
}
