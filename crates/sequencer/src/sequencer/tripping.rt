//! An axis is led to errorstop.
ghost use Rattle.sequencer.specs.Calls.{WasTripped};
ghost use Rattle.sequencer.specs.Whole.{world_of};

use super::Sequencer;
use crate::refusal::Refusal;
use motion::{look_at, trip};
use moves::Failure;
use records::Cause;
use segment::Segment;
use trail::Trail;

impl<S: Segment> Sequencer<S> {
    /// Sets a fault on an axis, unless it has one: its commands end in error, and it is in errorstop.
    #[tactic(auto, unfolding(crate::specs::Calls::tripped_world))]
    pub fn trip(&mut self, trail: &mut Trail, axis: usize, code: u32) -> Result<(), Refusal>
        ensures { WasTripped (world_of S.Segment.shows self.old trail.old) axis code result (world_of S.Segment.shows self.new trail.new) }
    {
        let axis = self.check_trip(trail, axis, code)?;
        trip(&mut self.machine.segment, axis, code as u8);
        if self.machine.table.axis(axis).is_errorstop() {
            return Ok(());
        }
        let fault = look_at(&self.machine.segment, axis).fault;
        let cause = Failure::of(Cause::Drive { fault });
        let machine = &mut self.machine;
        machine.fail(trail, axis, cause);
        machine.table.sized();
        Ok(())
    }
}
