//! How fast a velocity may become, and how fast it may change.
ghost use Rattle.std.specs.Prelude.{◌≡◌, ◌≤◌, MatchOption};
ghost use Rattle.ramp.specs.Limits.{LawfulRate};

/// A top speed in increments per cycle, or a change of velocity in increments per cycle from one cycle to the next.
#[derive(Clone, Copy, PartialEq, Eq, Debug)]
#[repr(C)]
pub struct Rate {
    /// From 1 to 10,000.
    pub increments: u32,
    ghost least: { 1 ≤ increments },
    ghost most: { increments ≤ 10000 },
}

impl Rate {
    /// The largest rate, in increments.
    pub const MOST: u32 = 10_000;

    /// The rate of so many increments, or none where they are not from 1 to 10,000.
    // An Option, and no TryFrom: the one refusal would need an error type that says no more than None.
    pub fn new(increments: u32) -> Option<Rate>
        ensures { MatchOption result (LawfulRate increments → ⊥) (λ rate. rate.increments ≡ increments) }
    {
        if increments < 1 || increments > Self::MOST {
            return None;
        }
        Some(Rate { increments })
    }
}

/// The limits of a move.
#[derive(Clone, Copy, PartialEq, Eq, Debug)]
#[repr(C)]
pub struct Ramp {
    /// How fast the move goes at most; one that begins faster brakes down to it.
    pub max_velocity: Rate,
    /// By how much a step may be larger or smaller than the one before it.
    pub max_acceleration: Rate,
}
