//! A move under way.
ghost use Rattle.ramp.specs.Near.{Near};

/// Where a move stands: always so near to its target that no step leads out of the numbers.
#[derive(Clone, Copy, PartialEq, Eq, Debug)]
#[repr(C)]
pub struct Motion {
    /// The target minus the demand, in increments.
    pub distance_to_go: i32,
    /// The step before, in increments per cycle.
    pub velocity: i32,
    ghost near: { Near distance_to_go velocity },
}
