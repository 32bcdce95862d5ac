//! A follow and its cycle, over any segment.
ghost use Rattle.segment.specs.Calls.{Looked};
ghost use Rattle.segment.specs.Cycle.{Cycled};
ghost use Rattle.segment.specs.Laws.Faults.{FaultsLockOut};
ghost use Rattle.segment.specs.Laws.Follow.{FollowIsShown, Moved};

use crate::axis::AxisLook;
use crate::meaning::Segment;
use crate::refusal::Refusal;

// Runs a cycle, and answers how an axis then looks.
fn look_after_cycle<S: Segment>(segment: &mut S, axis: usize) -> Result<AxisLook, Refusal>
    ensures cycled { Cycled (S.Segment.shows segment.old) (S.Segment.shows segment.new) }
    ensures looked { Looked (S.Segment.shows segment.new) axis result }
{
    segment.cycle();
    segment.look(axis)
}

/// Orders an axis to a position, runs a cycle, and answers how the axis then looks.
#[tactic(auto, using(crate::proofs::Follows::follow_is_shown, crate::proofs::Locks::faults_lock_out))]
pub fn follow_and_cycle<S: Segment>(
    segment: &mut S,
    axis: usize,
    position: i32,
) -> Result<AxisLook, Refusal>
    ensures moved { Moved (S.Segment.shows segment.old) axis position result (S.Segment.shows segment.new) }
    ensures shown { FollowIsShown }
    ensures locked { FaultsLockOut }
{
    segment.follow(axis, position)?;
    look_after_cycle(segment, axis)
}
