//! What each axis does after the segment's cycle.
ghost use Rattle.std.specs.Prelude.{◌≡◌, ◌+◌, ◌*◌, ◌<◌, ◌≤◌, length, None};
ghost use Rattle.moves.specs.Room.{Takes, Wrote};
ghost use Rattle.moves.specs.Sheet.{axis_at};
ghost use Rattle.motion.specs.Causes.{LawfulNoted};
ghost use Rattle.motion.specs.Settling.{handed, settled, settled_upto};
ghost use Rattle.motion.specs.World.{world};
ghost use Rattle.trail.specs.Held.{held_words};

use crate::failing::fail;
use crate::segments::look_at;
use moves::{AxisNumber, Ending, Failure, MAX_AXES, OutOfRange, Place, Table};
use records::{AxisState, Cause};
use segment::Segment;
use trail::Trail;
use turns::{Turn, Under, next_of};

// Why an axis was refused, as a cause.
fn cause_of(refusal: Option<Failure>) -> Option<Cause>
    ensures cause { result ≡ refusal }
    ensures lawful { LawfulNoted result }
{
    refusal.map(Cause::from)
}

/// The first command that waits on an axis begins, if one does.
#[tactic(auto, unfolding(crate::specs::Settling::handed))]
pub fn hand_over<S: Segment>(
    segment: &mut S,
    table: &mut Table,
    trail: &mut Trail,
    axis: AxisNumber,
)
    requires there { axis < (S.Segment.shows segment.old).count }
    requires room { Takes trail.old 6 }
    ensures world { world (S.Segment.shows segment.new) table.new trail.new ≡ handed (world (S.Segment.shows segment.old) table.old trail.old) axis }
    ensures wrote { Wrote 6 trail.old trail.new }
    ensures idle { (axis_at table.old axis).active ≡ None → length (held_words trail.new) ≤ length (held_words trail.old) + 5 }
    ensures count { (S.Segment.shows segment.new).count ≡ (S.Segment.shows segment.old).count }
{
    let old = table.axis(axis);
    let look = look_at(segment, axis);
    let first = table.block(old.queue.at(0));
    match next_of(old, first, look) {
        Ok(None) => {
            let next = old.with_state(old.rest_state());
            table.enter(trail, axis, next);
        }
        Ok(Some(start)) => {
            let demand = Place::of(look.demand);
            let queue = old.queue.shifted();
            table.start(trail, axis, start.block, start.target, demand, queue);
        }
        Err(OutOfRange) => fail(
            segment,
            table,
            trail,
            axis,
            Failure::of(Cause::RangeAtBegin),
        ),
    }
}

/// An axis takes its turn, after its follow was refused or not.
#[tactic(auto, unfolding(crate::specs::Settling::settled))]
pub fn settle<S: Segment>(
    segment: &mut S,
    table: &mut Table,
    trail: &mut Trail,
    axis: AxisNumber,
    refusal: Option<Failure>,
)
    requires there { axis < (S.Segment.shows segment.old).count }
    requires room { Takes trail.old 8 }
    ensures world { world (S.Segment.shows segment.new) table.new trail.new ≡ settled (world (S.Segment.shows segment.old) table.old trail.old) axis refusal }
    ensures wrote { Wrote 7 trail.old trail.new }
    ensures count { (S.Segment.shows segment.new).count ≡ (S.Segment.shows segment.old).count }
{
    let under = Under::of(table, axis);
    let look = look_at(segment, axis);
    match under.turn(look, cause_of(refusal)) {
        Turn::Rest => {}
        Turn::Fail { cause } => fail(segment, table, trail, axis, Failure::of(cause)),
        Turn::Enable => {
            let next = under.axis.with_state(AxisState::Standstill);
            table.enter(trail, axis, next);
        }
        Turn::Finish { block } => {
            table.finish(trail, axis, block, Place::of(look.actual));
            hand_over(segment, table, trail, axis);
        }
        Turn::Yield { block } => {
            table.retire(trail, axis, block, Ending::aborted());
            hand_over(segment, table, trail, axis);
        }
    }
}

/// The first axes take their turns, in their order.
pub fn settle_all<S: Segment>(
    segment: &mut S,
    table: &mut Table,
    trail: &mut Trail,
    count: usize,
    refusals: [Option<Failure>; MAX_AXES],
)
    requires there { count ≤ (S.Segment.shows segment.old).count }
    requires room { Takes trail.old (7 * count + 1) }
    ensures world { world (S.Segment.shows segment.new) table.new trail.new ≡ settled_upto (world (S.Segment.shows segment.old) table.old trail.old) refusals count }
    ensures wrote { Wrote (7 * count) trail.old trail.new }
    ensures count { (S.Segment.shows segment.new).count ≡ (S.Segment.shows segment.old).count }
{
    // Over numbers, as the orders are given: the number of the axis is what its calls take.
    for axis in 0..count {
        settle(
            segment,
            table,
            trail,
            AxisNumber::of(axis as u8),
            refusals[axis],
        );
    }
}
