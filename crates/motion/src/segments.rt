//! Calls of a segment on an axis that it has: none of them is refused.
ghost use Rattle.std.specs.Prelude.{◌≡◌, ◌<◌, ◌≤◌};
ghost use Rattle.segment.specs.Calls.{powered, unpowered, tripped, cleared};
ghost use Rattle.segment.specs.Row.{Sound, changed};

use moves::AxisNumber;
use segment::{AxisLook, Segment};

// That the segment has the axis ties a number to this segment. A struct that lends the two together would be made anew at each
// call for this one clause, so each function asks for it.

// Each is one call of the segment with its answer unwrapped: no plainer as one function that takes the call.

/// The six things that an axis shows.
pub fn look_at<S: Segment>(segment: &S, axis: AxisNumber) -> AxisLook
    requires there { axis < (S.Segment.shows segment.now).count }
    ensures look { result ≡ (S.Segment.shows segment.now).at axis }
    ensures sound { Sound result }
{
    segment.look(axis.index()).unwrap()
}

/// Asks for power, which then comes in a cycle; an axis with a fault gets none.
pub fn power_on<S: Segment>(segment: &mut S, axis: AxisNumber)
    requires there { axis < (S.Segment.shows segment.old).count }
    ensures { S.Segment.shows segment.new ≡ changed powered (S.Segment.shows segment.old) axis }
{
    segment.power_on(axis.index()).unwrap();
}

/// Takes power away at once.
pub fn power_off<S: Segment>(segment: &mut S, axis: AxisNumber)
    requires there { axis < (S.Segment.shows segment.old).count }
    ensures { S.Segment.shows segment.new ≡ changed unpowered (S.Segment.shows segment.old) axis }
{
    segment.power_off(axis.index()).unwrap();
}

/// Sets a fault, unless there is one, and takes power away.
pub fn trip<S: Segment>(segment: &mut S, axis: AxisNumber, code: u8)
    requires there { axis < (S.Segment.shows segment.old).count }
    requires least { 1 ≤ code }
    requires most { code ≤ 15 }
    ensures { S.Segment.shows segment.new ≡ changed (tripped code) (S.Segment.shows segment.old) axis }
{
    segment.trip(axis.index(), code).unwrap();
}

/// Takes a fault away.
pub fn clear<S: Segment>(segment: &mut S, axis: AxisNumber)
    requires there { axis < (S.Segment.shows segment.old).count }
    ensures { S.Segment.shows segment.new ≡ changed cleared (S.Segment.shows segment.old) axis }
{
    segment.clear(axis.index()).unwrap();
}
