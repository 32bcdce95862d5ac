//! A stage is a segment.
ghost use Rattle.segment.specs.Row.{mapped};
ghost use Rattle.stages.specs.View.{seen_sound};

use crate::handing_up::up;
use crate::stage::Stage;
use crate::view::View;
use segment::{AxisLook, Refusal, Segment};

impl<V: View, S: Segment> Segment for Stage<V, S> {
    ghost shows = { λ s. mapped (V.View.sees s.view) (S.Segment.shows s.below) };

    ghost sound = { λ s. seen_sound (V.View.sees s.view) (V.View.sound s.view) (S.Segment.shows s.below) (S.Segment.sound s.below) };

    fn axes(&self) -> usize {
        self.below.axes()
    }

    fn look(&self, axis: usize) -> Result<AxisLook, Refusal> {
        let look = up(self.below.look(axis))?;
        Ok(self.view.shown(axis, look))
    }

    fn power_on(&mut self, axis: usize) -> Result<(), Refusal> {
        up(self.below.power_on(axis))
    }

    fn power_off(&mut self, axis: usize) -> Result<(), Refusal> {
        up(self.below.power_off(axis))
    }

    fn follow(&mut self, axis: usize, position: i32) -> Result<(), Refusal> {
        let order = self.view.ordered(&self.below, axis, position)?;
        up(self.below.follow(axis, order))
    }

    fn trip(&mut self, axis: usize, code: u8) -> Result<(), Refusal> {
        up(self.below.trip(axis, code))
    }

    fn clear(&mut self, axis: usize) -> Result<(), Refusal> {
        up(self.below.clear(axis))
    }

    fn cycle(&mut self) {
        self.below.cycle();
    }
}
