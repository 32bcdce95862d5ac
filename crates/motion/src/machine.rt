//! A drive segment and the table of the commands for its axes, together.
ghost use Rattle.std.specs.Prelude.{◌≡◌, ◌+◌, ◌*◌, ◌<◌, ◌≤◌, length, None};
ghost use Rattle.moves.specs.Room.{Takes, Wrote};
ghost use Rattle.moves.specs.Sheet.{axis_at};
ghost use Rattle.motion.specs.Ordering.{Noted, RefusedUpto, ordered, ordered_upto, refusal_of};
ghost use Rattle.motion.specs.Settling.{handed, settled, settled_upto};
ghost use Rattle.motion.specs.World.{machine_world, axes_of, failed};
ghost use Rattle.trail.specs.declared.memory.Trail.{Trail};
ghost use Rattle.trail.specs.Held.{held_words};

use crate::{failing, ordering, settling};
use moves::{AxisNumber, Failure, MAX_AXES, Table};
use segment::Segment;
use trail::Trail;

/// A drive segment, and the table of the commands for its axes.
// That a call leaves the number of axes as it is, each contract says in one clause: the next call's number rests on it.
#[derive(Drop)]
pub struct Machine<S> {
    pub segment: S,
    pub table: Table,
}

impl<S: Segment> Machine<S> {
    /// Errorstop: the axis's commands end in error with one cause, it halts, and its power is off.
    pub fn fail(&mut self, trail: &mut Trail, axis: AxisNumber, cause: Failure)
        requires there { axis < axes_of S.Segment.shows self.old }
        requires room { Takes trail.old 6 }
        ensures world { machine_world S.Segment.shows self.new trail.new ≡ failed (machine_world S.Segment.shows self.old trail.old) axis cause }
        ensures wrote { Wrote 6 trail.old trail.new }
        ensures count { axes_of S.Segment.shows self.new ≡ axes_of S.Segment.shows self.old }
    {
        failing::fail(&mut self.segment, &mut self.table, trail, axis, cause);
    }

    /// The axis follows if it has an active command; why not, if it is refused.
    pub fn order(&mut self, axis: AxisNumber) -> Option<Failure>
        requires there { axis < axes_of S.Segment.shows self.old }
        ensures world { (trail : Trail) → machine_world S.Segment.shows self.new trail ≡ ordered (machine_world S.Segment.shows self.old trail) axis }
        ensures noted { (trail : Trail) → Noted (refusal_of (machine_world S.Segment.shows self.old trail) axis) result }
        ensures count { axes_of S.Segment.shows self.new ≡ axes_of S.Segment.shows self.old }
    {
        ordering::order(&mut self.segment, &mut self.table, axis)
    }

    /// The first axes follow, in their order; why each was refused, if it was.
    pub fn order_all(&mut self, count: usize) -> [Option<Failure>; MAX_AXES]
        requires there { count ≤ axes_of S.Segment.shows self.old }
        ensures world { (trail : Trail) → machine_world S.Segment.shows self.new trail ≡ ordered_upto (machine_world S.Segment.shows self.old trail) count }
        ensures noted { (trail : Trail) → RefusedUpto (machine_world S.Segment.shows self.old trail) result count }
        ensures count { axes_of S.Segment.shows self.new ≡ axes_of S.Segment.shows self.old }
    {
        ordering::order_all(&mut self.segment, &mut self.table, count)
    }

    /// The first command that waits on an axis begins, if one does.
    pub fn hand_over(&mut self, trail: &mut Trail, axis: AxisNumber)
        requires there { axis < axes_of S.Segment.shows self.old }
        requires room { Takes trail.old 6 }
        ensures world { machine_world S.Segment.shows self.new trail.new ≡ handed (machine_world S.Segment.shows self.old trail.old) axis }
        ensures wrote { Wrote 6 trail.old trail.new }
        ensures idle { (axis_at self.old.table axis).active ≡ None → length (held_words trail.new) ≤ length (held_words trail.old) + 5 }
        ensures count { axes_of S.Segment.shows self.new ≡ axes_of S.Segment.shows self.old }
    {
        settling::hand_over(&mut self.segment, &mut self.table, trail, axis);
    }

    /// An axis takes its turn, after its follow was refused or not.
    pub fn settle(&mut self, trail: &mut Trail, axis: AxisNumber, refusal: Option<Failure>)
        requires there { axis < axes_of S.Segment.shows self.old }
        requires room { Takes trail.old 8 }
        ensures world { machine_world S.Segment.shows self.new trail.new ≡ settled (machine_world S.Segment.shows self.old trail.old) axis refusal }
        ensures wrote { Wrote 7 trail.old trail.new }
        ensures count { axes_of S.Segment.shows self.new ≡ axes_of S.Segment.shows self.old }
    {
        settling::settle(&mut self.segment, &mut self.table, trail, axis, refusal);
    }

    /// The first axes take their turns, in their order.
    pub fn settle_all(
        &mut self,
        trail: &mut Trail,
        count: usize,
        refusals: [Option<Failure>; MAX_AXES],
    )
        requires there { count ≤ axes_of S.Segment.shows self.old }
        requires room { Takes trail.old (7 * count + 1) }
        ensures world { machine_world S.Segment.shows self.new trail.new ≡ settled_upto (machine_world S.Segment.shows self.old trail.old) refusals count }
        ensures wrote { Wrote (7 * count) trail.old trail.new }
        ensures count { axes_of S.Segment.shows self.new ≡ axes_of S.Segment.shows self.old }
    {
        settling::settle_all(&mut self.segment, &mut self.table, trail, count, refusals);
    }
}
