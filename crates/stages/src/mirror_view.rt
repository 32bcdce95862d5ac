//! What a mirror makes of the axes below it.
ghost use Rattle.std.specs.Prelude.{◌≡◌, neg_ℤ};
ghost use Rattle.segment.specs.Row.{Position};
ghost use Rattle.stages.specs.Mirrored.{in_mask, turned_if, order_below, turned_sound, turned_keeps_calls};

use crate::mirror::TurnedAxes;
use crate::view::View;
use segment::{AxisLook, Refusal, Segment};

const MASK_BITS: usize = 8;

// The position seen from the other side.
fn negated(position: i32) -> i32
    requires { Position position }
    ensures { result ≡ neg_ℤ position }
{
    -position
}

impl TurnedAxes {
    // Whether the mask has the axis.
    #[tactic(auto, using(crate::proofs::Mirrored::past))]
    fn turns(self, axis: usize) -> bool
        ensures { result ≡ in_mask self.mask axis }
    {
        axis < MASK_BITS && (self.mask >> axis) % 2 == 1
    }

    // Where an axis is ordered below, to be seen at the position; the smallest `i32` goes as the next one, which is out of range too.
    fn order_for(self, axis: usize, position: i32) -> i32
        ensures { result ≡ order_below (in_mask self.mask axis) position }
    {
        if self.turns(axis) {
            -position.max(-i32::MAX)
        } else {
            position
        }
    }
}

impl View for TurnedAxes {
    ghost sees = { λ v axis. turned_if (in_mask v.mask axis) };

    ghost sound = { λ v axis. turned_sound (in_mask v.mask axis) };

    ghost keeps_calls = { λ v. turned_keeps_calls v.mask };

    fn shown(&self, axis: usize, look: AxisLook) -> AxisLook {
        if !self.turns(axis) {
            return look;
        }
        AxisLook {
            demand: negated(look.demand),
            actual: negated(look.actual),
            low: negated(look.high),
            high: negated(look.low),
            ..look
        }
    }

    fn ordered<S: Segment>(&self, _below: &S, axis: usize, position: i32) -> Result<i32, Refusal> {
        Ok(self.order_for(axis, position))
    }
}
