//! An axis fails.
ghost use Rattle.std.specs.Prelude.{◌≡◌, ◌<◌};
ghost use Rattle.moves.specs.Room.{Takes, Wrote};
ghost use Rattle.motion.specs.World.{world, failed};

use crate::segments::power_off;
use moves::{AxisNumber, Ending, Failure, Table};
use records::AxisState;
use segment::Segment;
use trail::Trail;

/// Errorstop: the axis's commands end in error with one cause, it halts, and its power is off.
#[tactic(auto, unfolding(crate::specs::World::failed))]
pub fn fail<S: Segment>(
    segment: &mut S,
    table: &mut Table,
    trail: &mut Trail,
    axis: AxisNumber,
    cause: Failure,
)
    requires there { axis < (S.Segment.shows segment.old).count }
    requires room { Takes trail.old 6 }
    ensures world { world (S.Segment.shows segment.new) table.new trail.new ≡ failed (world (S.Segment.shows segment.old) table.old trail.old) axis cause }
    ensures wrote { Wrote 6 trail.old trail.new }
    ensures count { (S.Segment.shows segment.new).count ≡ (S.Segment.shows segment.old).count }
{
    table.quell(trail, axis, Ending::error(cause), AxisState::ErrorStop);
    power_off(segment, axis);
}
