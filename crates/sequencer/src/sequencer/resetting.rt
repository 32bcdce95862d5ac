//! An axis leaves errorstop.
ghost use Rattle.sequencer.specs.Calls.{WasReset};
ghost use Rattle.sequencer.specs.Whole.{world_of};

use super::Sequencer;
use crate::refusal::Refusal;
use motion::clear;
use records::AxisState;
use segment::Segment;
use trail::Trail;

impl<S: Segment> Sequencer<S> {
    /// Clears the fault of an axis in errorstop: it is disabled, and power is to be asked for anew.
    #[tactic(auto, unfolding(crate::specs::Calls::reset_world))]
    pub fn reset(&mut self, trail: &mut Trail, axis: usize) -> Result<(), Refusal>
        ensures { WasReset (world_of S.Segment.shows self.old trail.old) axis result (world_of S.Segment.shows self.new trail.new) }
    {
        let axis = self.check_reset(trail, axis)?;
        let table = &mut self.machine.table;
        let next = table
            .axis(axis)
            .with_request(false)
            .with_state(AxisState::Disabled);
        table.enter(trail, axis, next);
        table.sized();
        clear(&mut self.machine.segment, axis);
        Ok(())
    }
}
