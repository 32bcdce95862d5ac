//! The ramp step for a caller in C, to be measured.
#![tactic(auto)]

ghost use Rattle.std.specs.Prelude.{◌≡◌, ◌-ℤ◌};
ghost use Rattle.ramp_bench.specs.Measured.{measured_step};

use ramp::{Motion, Ramp, Rate};

/// A step, and the distance that remains after it.
#[derive(Clone, Copy)]
#[repr(C)]
pub struct Stepped {
    /// The step.
    pub step: i32,
    /// The distance to go after it.
    pub remaining: i32,
}

/// The next step of a move.
// C's interface: the two rates come one by one, and a struct stands for the pair, which has no layout of C's.
#[unsafe(no_mangle)]
pub extern "C" fn ramp_bench_step(
    motion: Motion,
    max_velocity: Rate,
    max_acceleration: Rate,
) -> Stepped
    ensures step { result.step ≡ measured_step motion max_velocity max_acceleration }
    ensures remaining { result.remaining ≡ motion.distance_to_go -ℤ result.step }
{
    let (step, remaining) = motion.ramp_step(Ramp {
        max_velocity,
        max_acceleration,
    });
    Stepped { step, remaining }
}
