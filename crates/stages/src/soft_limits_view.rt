//! What soft limits make of the axes below them.
ghost use Rattle.std.specs.Prelude.{◌≡◌};
ghost use Rattle.stages.specs.Narrowed.{narrowed, axis_sound, narrowed_keeps_calls, outside, Admitted};

use crate::handing_up::up;
use crate::limits::Limits;
use crate::view::View;
use segment::{AxisLook, Power, Reason, Refusal, Segment};

impl Limits {
    // Whether the position lies outside the limits.
    fn excludes(self, position: i32) -> bool
        ensures { result ≡ outside self position }
    {
        position < self.low || self.high < position
    }

    // Refuses an order beyond the limits to an axis that has power and no fault; all else is left to the segment below.
    fn admit(self, look: AxisLook, position: i32) -> Result<(), Refusal>
        ensures { Admitted self look position result }
    {
        if look.fault == 0 && look.power == Power::On && self.excludes(position) {
            return Err(Refusal::new(Reason::OutOfRange));
        }
        Ok(())
    }
}

impl View for Limits {
    ghost sees = { λ v _. narrowed v };

    ghost sound = { λ v _. axis_sound v };

    ghost keeps_calls = { λ v. narrowed_keeps_calls v };

    fn shown(&self, _axis: usize, look: AxisLook) -> AxisLook {
        AxisLook {
            low: look.low.max(self.low),
            high: look.high.min(self.high),
            ..look
        }
    }

    fn ordered<S: Segment>(&self, below: &S, axis: usize, position: i32) -> Result<i32, Refusal> {
        let look = up(below.look(axis))?;
        self.admit(look, position)?;
        Ok(position)
    }
}
