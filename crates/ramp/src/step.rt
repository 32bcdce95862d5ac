//! The next step of a move.
ghost use Rattle.std.specs.Prelude.{◌≡◌, ◌≤◌, pos, ◌≤ℤ◌, ◌-ℤ◌, neg_ℤ, unsigned_abs};
ghost use Rattle.ramp.specs.Near.{Near};
ghost use Rattle.ramp.specs.Next.{braking_rate, next_ahead, next_step};
ghost use Rattle.ramp.specs.Cases.{RampCases};
ghost use Rattle.ramp.specs.Laws.Stopping.{StoppingGrows};
ghost use Rattle.ramp.specs.Laws.RampStep.{StepIsLargest};

use crate::motion::Motion;
use crate::rate::{Ramp, Rate};
use crate::way::Way;

impl Ramp {
    /// By how much a step may be smaller than the one before it: as much as it may be larger.
    fn deceleration(self) -> Rate
        ensures { result.increments ≡ braking_rate self }
    {
        self.max_acceleration
    }
}

impl Motion {
    /// The move with its signs turned: what was behind is ahead.
    fn turned(self) -> Motion
        ensures distance { result.distance_to_go ≡ neg_ℤ self.distance_to_go }
        ensures velocity { result.velocity ≡ neg_ℤ self.velocity }
    {
        Motion {
            distance_to_go: -self.distance_to_go,
            velocity: -self.velocity,
        }
    }

    /// The step towards a target that lies ahead or is reached.
    fn step_to(self, ramp: Ramp) -> i32
        requires { pos 0 ≤ℤ self.distance_to_go }
        ensures { result ≡ next_ahead (unsigned_abs self.distance_to_go) self.velocity ramp }
    {
        let deceleration = ramp.deceleration();
        if self.velocity < 0 {
            return (self.velocity + deceleration.increments as i32).min(0);
        }
        let speed = self.velocity as u32;
        let fastest = speed + ramp.max_acceleration.increments;
        let slowest = speed.saturating_sub(deceleration.increments);
        let cap = Rate {
            increments: fastest.min(ramp.max_velocity.increments),
        };
        let way = Way {
            distance: self.distance_to_go as u32,
            deceleration,
        };
        way.step_on(slowest, cap) as i32
    }

    /// The step towards a target on either side.
    fn step_towards(self, ramp: Ramp) -> i32
        ensures { result ≡ next_step self ramp }
    {
        if self.distance_to_go < 0 {
            return -self.turned().step_to(ramp);
        }
        self.step_to(ramp)
    }

    /// The next step of the move, which is then its velocity, and the distance that remains after it.
    // A pair, as the rules of the ramp answer: the caller books the step and what remains where it keeps them.
    pub fn ramp_step(self, ramp: Ramp) -> (i32, i32)
        ensures step { result.0 ≡ next_step self ramp }
        ensures remaining { result.1 ≡ self.distance_to_go -ℤ result.0 }
        ensures near { Near result.1 result.0 }
        ensures largest { StepIsLargest }
        ensures grows { StoppingGrows }
        ensures cases { RampCases }
    {
        let step = self.step_towards(ramp);
        (step, self.distance_to_go - step)
    }
}
