//! The limits that a step keeps to, whatever its block holds.
ghost use Rattle.std.specs.Prelude.{◌≡◌, ◌≤◌, unsigned_abs};
ghost use Rattle.turns.specs.Steps.{held_rate, held_velocity, goal_of};

use crate::under::Under;
use moves::Block;
use ramp::{Motion, Rate};

// The largest velocity either way, in increments per cycle.
const FASTEST: i32 = Motion::FASTEST as i32;

/// A rate, held to its limits.
pub fn held_rate(increments: u32) -> Rate
    ensures { result.increments ≡ held_rate increments }
{
    let increments = increments.clamp(1, Rate::MOST);
    Rate { increments }
}

/// A velocity, held to its limits.
pub fn held_velocity(velocity: i32) -> i32
    ensures held { result ≡ held_velocity velocity }
    ensures limit { unsigned_abs result ≤ 10000 }
{
    velocity.clamp(-FASTEST, FASTEST)
}

/// The velocity that the block's command leads to: that of a run, and else 0.
pub fn goal_of(block: Block) -> i32
    ensures goal { result ≡ goal_of block }
    ensures limit { unsigned_abs result ≤ 10000 }
{
    if block.is_run() {
        return held_velocity(block.value);
    }
    0
}

impl Under {
    /// The velocity that the command leads to: that of a run, and else 0.
    pub fn goal(&self) -> i32
        ensures goal { result ≡ goal_of self.now.block }
        ensures limit { unsigned_abs result ≤ 10000 }
    {
        goal_of(self.block)
    }
}
