//! The beginning of a move.
ghost use Rattle.ramp.specs.Begin.{Begun};
ghost use Rattle.ramp.specs.Laws.Run.{NeverPasses, StaysBounded};

use crate::motion::Motion;

impl Motion {
    /// The farthest that a target may be where a move begins, in increments.
    pub const FARTHEST: u32 = 300_000_000;

    /// The largest velocity either way, in increments per cycle.
    pub const FASTEST: u32 = 10_000;

    /// A move that begins at a velocity, or none where the distance or the velocity is outside its limits.
    pub fn begin(distance_to_go: i32, velocity: i32) -> Option<Motion>
        ensures begun { Begun distance_to_go velocity result }
        ensures passes { NeverPasses }
        ensures bounded { StaysBounded }
    {
        if distance_to_go.unsigned_abs() > Self::FARTHEST {
            return None;
        }
        if velocity.unsigned_abs() > Self::FASTEST {
            return None;
        }
        Some(Motion {
            distance_to_go,
            velocity,
        })
    }
}
