//! A cycle of all axes.
ghost use Rattle.sequencer.specs.Calls.{WasCycled};
ghost use Rattle.sequencer.specs.Whole.{world_of};

use super::Sequencer;
use crate::refusal::Refusal;
use segment::Segment;
use trail::Trail;

impl<S: Segment> Sequencer<S> {
    /// Runs a cycle: the axes follow their commands, the segment cycles, and each axis takes its turn.
    pub fn cycle(&mut self, trail: &mut Trail) -> Result<(), Refusal>
        ensures { WasCycled (world_of S.Segment.shows self.old trail.old) result (world_of S.Segment.shows self.new trail.new) }
    {
        self.check_cycle(trail)?;
        let machine = &mut self.machine;
        machine.table.tick(trail);
        let count = machine.segment.axes();
        let refusals = machine.order_all(count);
        machine.segment.cycle();
        machine.settle_all(trail, count, refusals);
        machine.table.sized();
        Ok(())
    }
}
