//! A command comes.
ghost use Rattle.std.specs.Prelude.{◌≡◌, true};
ghost use Rattle.moves.specs.Blocks.{command_of};
ghost use Rattle.moves.specs.Moves.{accepted};
ghost use Rattle.moves.specs.Room.{Takes, Wrote};
ghost use Rattle.moves.specs.Sheet.{sheet};
ghost use Rattle.words.specs.Words.{may_be};

use crate::instruction::Instruction;
use crate::numbers::{AxisNumber, BlockNumber};
use crate::table::{Block, Table};
use crate::telling::tell;
use records::{BufferMode, Record};
use trail::Trail;

impl Table {
    /// A block takes a command for an axis: it waits.
    #[tactic(auto, unfolding(crate::specs::Moves::accepted))]
    pub fn accept(
        &mut self,
        trail: &mut Trail,
        axis: AxisNumber,
        block: BlockNumber,
        instruction: Instruction,
        mode: BufferMode,
    )
        requires mode { may_be (command_of instruction) mode ≡ true }
        requires room { Takes trail.old 1 }
        ensures sheet { sheet self.new trail.new ≡ accepted (sheet self.old trail.old) axis block instruction mode }
        ensures wrote { Wrote 1 trail.old trail.new }
    {
        self.blocks[block.index()] = Block::of(axis.into(), instruction, mode);
        tell(
            trail,
            Record::Accept {
                axis: axis.into(),
                block: block.into(),
                command: instruction.command(),
                mode,
            },
        );
    }
}
