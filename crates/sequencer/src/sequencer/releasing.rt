//! A block is released.
ghost use Rattle.std.specs.Prelude.{◌≡◌};
ghost use Rattle.moves.specs.Axes.{is_block};
ghost use Rattle.moves.specs.Room.{Takes};
ghost use Rattle.moves.specs.Sheet.{axis_at, sheet};
ghost use Rattle.sequencer.specs.Calls.{Released, freed};
ghost use Rattle.sequencer.specs.Whole.{world_of};

use super::Sequencer;
use crate::refusal::Refusal;
use moves::{Axis, AxisNumber, BlockNumber, Table};
use records::AxisState;
use segment::Segment;
use trail::Trail;

// The axis goes to standstill if the stop of the block holds it, which is so of no axis past the last.
fn free_axis(table: &mut Table, trail: &mut Trail, axis: u8, block: BlockNumber)
    requires room { Takes trail.old 1 }
    ensures { sheet table.new trail.new ≡ freed (is_block (axis_at table.old axis).stop block) (sheet table.old trail.old) axis }
{
    let axes: &[Axis] = &table.axes;
    if usize::from(axis) >= axes.len() {
        return;
    }
    let axis = AxisNumber::of(axis);
    let held = table.axis(axis);
    if held.stop == Some(block.into()) {
        table.enter(trail, axis, held.with_state(AxisState::Standstill));
    }
}

impl<S: Segment> Sequencer<S> {
    /// Releases a block whose command ended: the block is idle, and an axis that its stop held is at standstill.
    #[tactic(auto, unfolding(crate::specs::Calls::released))]
    pub fn release(&mut self, trail: &mut Trail, block: usize) -> Result<(), Refusal>
        ensures { Released (world_of S.Segment.shows self.old trail.old) block result (world_of S.Segment.shows self.new trail.new) }
    {
        let block = self.check_release(trail, block)?;
        let table = &mut self.machine.table;
        let axis = table.block(block).axis;
        table.idle(block);
        free_axis(table, trail, axis, block);
        table.sized();
        Ok(())
    }
}
