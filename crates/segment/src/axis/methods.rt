//! Which positions an axis may be ordered to.
ghost use Rattle.std.specs.Prelude.{◌≡◌, ◌+ℤ◌, Some, None, MatchResult};
ghost use Rattle.segment.specs.Calls.{in_range, in_range_or_none, ready_reason};
ghost use Rattle.segment.specs.Row.{is_position};

use super::{AxisLook, Power};
use crate::refusal::Reason;

/// No position lies farther from 0, in increments.
pub const REACH: i32 = 100_000_000;

/// Whether a number is a position: it lies no farther from 0 than `REACH`.
pub fn is_position(position: i32) -> bool
    ensures { result ≡ is_position position }
{
    (-REACH..=REACH).contains(&position)
}

impl AxisLook {
    /// Whether a position lies in the axis's range.
    pub fn in_range(self, position: i32) -> bool
        ensures { result ≡ in_range self position }
    {
        self.low <= position && position <= self.high
    }

    /// The position, if it lies in the axis's range.
    pub fn position_at(self, position: i32) -> Option<i32>
        ensures { result ≡ in_range_or_none self position }
    {
        if self.in_range(position) {
            Some(position)
        } else {
            None
        }
    }

    /// The demand plus a distance, if it lies in the axis's range.
    pub fn position_by(self, distance: i32) -> Option<i32>
        ensures { result ≡ in_range_or_none self (self.demand +ℤ distance) }
    {
        let position = self.demand.checked_add(distance)?;
        self.position_at(position)
    }

    /// Whether the axis may follow to a position, or why not: a fault, no power, or out of its range.
    pub fn ready(self, position: i32) -> Result<(), Reason>
        ensures { MatchResult result (λ _. ready_reason self position ≡ None) (λ e. ready_reason self position ≡ Some e) }
    {
        if self.fault != 0 {
            return Err(Reason::Faulted);
        }
        if self.power != Power::On {
            return Err(Reason::PowerNotOn);
        }
        if !self.in_range(position) {
            return Err(Reason::OutOfRange);
        }
        Ok(())
    }
}
