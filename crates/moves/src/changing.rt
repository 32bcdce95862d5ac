//! Reading the table, and changes of it that no word tells.
ghost use Rattle.std.specs.Prelude.{◌≡◌, ◌<◌};
ghost use Rattle.moves.specs.Axes.{with_request, joined};
ghost use Rattle.moves.specs.Sheet.{axis_at, block_at, idle_block, new_table, with_axis, with_block};
ghost use Rattle.moves.specs.Sized.{Sized};

use crate::numbers::{AxisNumber, BlockNumber};
use crate::table::{Axis, Block, MAX_AXES, MAX_BLOCKS, Table};

impl Table {
    /// The table of a new sequencer: its blocks are idle, and its axes disabled.
    pub fn new() -> Table
        ensures { result ≡ new_table }
    {
        Table {
            blocks: [Block::idle(); MAX_BLOCKS],
            axes: [Axis::disabled(); MAX_AXES],
            cycles: 0,
        }
    }

    /// A block.
    pub fn block(&self, block: BlockNumber) -> Block
        ensures { result ≡ block_at self.now block }
    {
        self.blocks[block.index()]
    }

    /// What is kept of an axis.
    pub fn axis(&self, axis: AxisNumber) -> Axis
        ensures { result ≡ axis_at self.now axis }
    {
        self.axes[axis.index()]
    }

    /// Does nothing but say what the types of the axes keep to, since contracts see a table as plain values.
    pub fn sized(&self)
        ensures { Sized self.now }
    {
        for axis in &self.axes {
            axis.sized();
        }
    }

    /// A block has no command any more.
    pub fn idle(&mut self, block: BlockNumber)
        ensures { self.new ≡ with_block self.old block idle_block }
    {
        self.blocks[block.index()] = Block::idle();
    }

    /// An axis is written anew, and no word tells it: for a change that leaves its state as it is.
    pub fn keep(&mut self, axis: AxisNumber, next: Axis)
        ensures { self.new ≡ with_axis self.old axis next }
    {
        self.axes[axis.index()] = next;
    }

    /// Power is asked for on an axis, or no longer.
    pub fn request(&mut self, axis: AxisNumber, requested: bool)
        ensures { self.new ≡ with_axis self.old axis (with_request (axis_at self.old axis) requested) }
    {
        let next = self.axis(axis).with_request(requested);
        self.keep(axis, next);
    }

    /// The command of a block waits on an axis, behind the others.
    pub fn join(&mut self, axis: AxisNumber, block: BlockNumber)
        requires waiting { (axis_at self.old axis).waiting < 4 }
        ensures { self.new ≡ with_axis self.old axis (joined (axis_at self.old axis) block) }
    {
        let next = self.axis(axis).joined(block);
        self.keep(axis, next);
    }
}
