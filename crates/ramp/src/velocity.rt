//! The next step of a velocity.
ghost use Rattle.std.specs.Prelude.{◌≡◌, ◌≤◌, pos, unsigned_abs};
ghost use Rattle.ramp.specs.Near.{Near};
ghost use Rattle.ramp.specs.VelocityStep.{velocity_step};
ghost use Rattle.ramp.specs.Laws.VelocityStep.{StepIsNearest};

use crate::rate::Rate;

/// The velocity moved towards a goal by at most the acceleration.
pub fn velocity_step(velocity: i32, goal: i32, max_acceleration: Rate) -> i32
    ensures step { result ≡ velocity_step velocity goal max_acceleration.increments }
    ensures near { unsigned_abs velocity ≤ 10000 → unsigned_abs goal ≤ 10000 → Near (pos 0) result }
    ensures nearest { StepIsNearest }
{
    let change = max_acceleration.increments as i32;
    goal.clamp(
        velocity.saturating_sub(change),
        velocity.saturating_add(change),
    )
}
