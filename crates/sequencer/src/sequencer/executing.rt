//! A block is given a command.
ghost use Rattle.std.specs.Prelude.{◌≡◌, false};
ghost use Rattle.moves.specs.Room.{Takes};
ghost use Rattle.moves.specs.Sheet.{sheet};
ghost use Rattle.sequencer.specs.Calls.{Executed, executed};
ghost use Rattle.sequencer.specs.Executable.{Executable};
ghost use Rattle.sequencer.specs.Takes.{taken};
ghost use Rattle.sequencer.specs.Whole.{world_of};

use super::Sequencer;
use crate::limits::waits;
use crate::refusal::Refusal;
use motion::look_at;
use moves::{AxisNumber, Block, BlockNumber, Ending, Instruction, Place, Table};
use records::BufferMode;
use segment::Segment;
use trail::Trail;

// The command of a block begins at once: the others end aborted.
fn take_over(
    table: &mut Table,
    trail: &mut Trail,
    axis: AxisNumber,
    block: BlockNumber,
    target: Option<Place>,
    demand: Place,
)
    requires room { Takes trail.old 8 }
    ensures { sheet table.new trail.new ≡ taken false (sheet table.old trail.old) axis block target demand }
{
    let queue = table.axis(axis).queue.cleared();
    table.empty(trail, axis, Ending::aborted());
    table.start(trail, axis, block, target, demand, queue);
}

impl<S: Segment> Sequencer<S> {
    // A block takes a command for an axis, which begins at once or waits.
    fn take(
        &mut self,
        trail: &mut Trail,
        block: BlockNumber,
        axis: AxisNumber,
        instruction: Instruction,
        mode: BufferMode,
    )
        requires { Executable (world_of S.Segment.shows self.old trail.old) block axis instruction mode }
        ensures { world_of S.Segment.shows self.new trail.new ≡ executed (world_of S.Segment.shows self.old trail.old) block axis instruction mode }
    {
        let table = &mut self.machine.table;
        let waits = waits(mode, table.axis(axis));
        table.accept(trail, axis, block, instruction, mode);
        if waits {
            table.join(axis, block);
            table.sized();
            return;
        }
        let look = look_at(&self.machine.segment, axis);
        let aim = Block::of(axis.into(), instruction, mode).place(look);
        let demand = Place::of(look.demand);
        take_over(table, trail, axis, block, aim.unwrap_or(None), demand);
        table.sized();
    }

    /// Gives an idle block a command for an axis, which begins at once or waits for those before it.
    pub fn execute(
        &mut self,
        trail: &mut Trail,
        block: usize,
        axis: usize,
        instruction: Instruction,
        mode: BufferMode,
    ) -> Result<(), Refusal>
        ensures { Executed (world_of S.Segment.shows self.old trail.old) block axis instruction mode result (world_of S.Segment.shows self.new trail.new) }
    {
        let (block, axis) = self.check_execute(trail, block, axis, instruction, mode)?;
        self.take(trail, block, axis, instruction, mode);
        Ok(())
    }
}
