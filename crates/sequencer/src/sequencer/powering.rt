//! Power goes on and off.
ghost use Rattle.sequencer.specs.Calls.{PoweredOn, PoweredOff};
ghost use Rattle.sequencer.specs.Whole.{world_of};

use super::Sequencer;
use crate::refusal::Refusal;
use motion::{power_off, power_on};
use moves::Ending;
use records::AxisState;
use segment::Segment;
use trail::Trail;

impl<S: Segment> Sequencer<S> {
    /// Asks for power on an axis, which is at standstill once power came.
    #[tactic(auto, unfolding(crate::specs::Calls::powered_on))]
    pub fn power_on(&mut self, trail: &mut Trail, axis: usize) -> Result<(), Refusal>
        ensures { PoweredOn (world_of S.Segment.shows self.old trail.old) axis result (world_of S.Segment.shows self.new trail.new) }
    {
        let axis = self.check_power(trail, axis)?;
        self.machine.table.request(axis, true);
        power_on(&mut self.machine.segment, axis);
        Ok(())
    }

    /// Takes power away: the axis's commands end aborted, and it is disabled at once.
    #[tactic(auto, unfolding(crate::specs::Calls::powered_off))]
    pub fn power_off(&mut self, trail: &mut Trail, axis: usize) -> Result<(), Refusal>
        ensures { PoweredOff (world_of S.Segment.shows self.old trail.old) axis result (world_of S.Segment.shows self.new trail.new) }
    {
        let axis = self.check_power(trail, axis)?;
        let table = &mut self.machine.table;
        table.request(axis, false);
        table.quell(trail, axis, Ending::aborted(), AxisState::Disabled);
        table.sized();
        power_off(&mut self.machine.segment, axis);
        Ok(())
    }
}
