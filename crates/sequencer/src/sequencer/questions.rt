//! Questions, which change nothing.
ghost use Rattle.std.specs.Prelude.{◌≡◌, IfOk};
ghost use Rattle.moves.specs.Sized.{Sized};
ghost use Rattle.sequencer.specs.Questions.{block_answer, axis_answer, AxisLimits};
ghost use Rattle.sequencer.specs.Whole.{segment_of, table_of};

use super::Sequencer;
use super::checks::block_there;
use crate::outputs::{AxisAnswer, BlockOutputs};
use crate::refusal::Refusal;
use segment::Segment;

impl<S: Segment> Sequencer<S> {
    /// The outputs of a block.
    pub fn block(&self, block: usize) -> Result<BlockOutputs, Refusal>
        ensures { result ≡ block_answer (table_of self.now) block }
    {
        let block = block_there(block)?;
        Ok(self.machine.table.block(block).status.into())
    }

    /// What the sequencer keeps of an axis.
    pub fn axis(&self, axis: usize) -> Result<AxisAnswer, Refusal>
        ensures answer { result ≡ axis_answer (S.Segment.shows (segment_of self.now)) (table_of self.now) axis }
        ensures limits { IfOk result AxisLimits }
        ensures sized { Sized (table_of self.now) }
    {
        let axis = self.axis_there(axis)?;
        Ok(self.machine.table.axis(axis).into())
    }
}
