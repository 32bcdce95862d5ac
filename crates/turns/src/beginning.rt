//! What comes after a command that ended.
ghost use Rattle.std.specs.Prelude.{◌≡◌};
ghost use Rattle.segment.specs.Row.{Sound};
ghost use Rattle.moves.specs.Blocks.{block_aim};
ghost use Rattle.turns.specs.Turns.{next_by, next_of};

use crate::turn::Start;
use moves::{Axis, Block, BlockNumber, OutOfRange};
use segment::AxisLook;

// The start of the first that waits, whose block has this number.
pub(crate) fn next_by<N: Copy>(
    first: N,
    block: Block,
    look: AxisLook,
) -> Result<Option<Start<N>>, OutOfRange>
    requires { Sound look }
    ensures { result ≡ next_by first (block_aim block look) }
{
    let target = block.place(look)?;
    Ok(Some(Start {
        block: first,
        target,
    }))
}

/// What comes after a command that ended, where the block is that of the first that waits: nothing, or its start.
#[tactic(auto, unfolding(crate::specs::Turns::next_of))]
pub fn next_of(
    axis: Axis,
    block: Block,
    look: AxisLook,
) -> Result<Option<Start<BlockNumber>>, OutOfRange>
    requires { Sound look }
    ensures { result ≡ next_of axis block look }
{
    let Some(first) = axis.queue.first() else {
        return Ok(None);
    };
    next_by(first, block, look)
}
