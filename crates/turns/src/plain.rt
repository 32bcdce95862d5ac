//! The decisions over what is kept of an axis in plain numbers, whatever these are.
ghost use Rattle.std.specs.Prelude.{◌≡◌, ◌≤◌, unsigned_abs, slice_index, slice_index_or};
ghost use Rattle.ramp.specs.Near.{Near};
ghost use Rattle.segment.specs.Row.{Sound};
ghost use Rattle.moves.specs.declared.table.Table.{Table};
ghost use Rattle.moves.specs.Sheet.{block_at, idle_block};
ghost use Rattle.turns.specs.Steps.{step_of, remaining, stepped};
ghost use Rattle.turns.specs.Turns.{active_block, reached, yields, enables, faults, turn_under, turn_by, turn_of, next_of};

use crate::beginning::next_by;
use crate::rates::goal_of;
use crate::turn::{Start, Turn};
use crate::under::Under;
use moves::{Axis, Block, OutOfRange, PlainAxis, is_disabled, is_errorstop};
use ramp::Motion;
use records::Cause;
use segment::{AxisLook, Power};

// The block of a number; past the last an idle one.
fn block_in(blocks: &[Block], number: u8) -> Block
    ensures { result ≡ slice_index_or blocks.now number idle_block }
{
    match blocks.get(usize::from(number)) {
        Some(block) => *block,
        None => Block::idle(),
    }
}

/// The block of the active command among those of a table; an idle one where none is active, or its number is past the
/// last.
pub fn active_block(blocks: &[Block], active: Option<u8>) -> Block
    ensures { (table : Table) → table.blocks ≡ blocks.now → result ≡ active_block table active }
{
    match active {
        Some(number) => block_in(blocks, number),
        None => Block::idle(),
    }
}

/// The block of the first command that waits, among those of a table; an idle one where its number is past the last.
pub fn first_block(blocks: &[Block], axis: PlainAxis) -> Block
    ensures { (table : Table) → table.blocks ≡ blocks.now → result ≡ block_at table (slice_index axis.queue 0) }
{
    block_in(blocks, axis.queue[0])
}

/// Whether the command of the block is reached: with step 0 and actual equal to demand, a move also with nothing to
/// go; a run never is.
pub fn reached(axis: PlainAxis, block: Block, look: AxisLook) -> bool
    ensures { result ≡ reached axis block look }
{
    let arrived = !block.is_move() | (axis.distance_to_go == 0);
    !block.is_run() & (axis.velocity == 0) & (look.actual == look.demand) & arrived
}

/// Whether the command of the block is a run at its velocity, and another one waits.
pub fn yields(axis: PlainAxis, block: Block) -> bool
    ensures { result ≡ yields axis block }
{
    block.is_run() & (axis.velocity == goal_of(block)) & (0 < axis.waiting)
}

/// Whether the axis is disabled, and the power that was asked for is on.
pub fn enables(axis: PlainAxis, look: AxisLook) -> bool
    ensures { result ≡ enables axis look }
{
    is_disabled(axis.state) & axis.enable_requested & (look.power == Power::On)
}

/// Whether the axis has a fault and is not yet in errorstop.
pub fn faults(axis: PlainAxis, look: AxisLook) -> bool
    ensures { result ≡ faults axis look }
{
    (look.fault != 0) & !is_errorstop(axis.state)
}

// The turn under the active command, whose block has this number.
fn turn_under<N: Copy>(active: Option<N>, axis: PlainAxis, block: Block, look: AxisLook) -> Turn<N>
    ensures { result ≡ turn_under active axis block look }
{
    let Some(number) = active else {
        return Turn::Rest;
    };
    if reached(axis, block, look) {
        return Turn::Finish { block: number };
    }
    if yields(axis, block) {
        return Turn::Yield { block: number };
    }
    Turn::Rest
}

// The turn of an axis whose active block has this number, after its follow was refused or not.
pub(crate) fn turn_by<N: Copy>(
    active: Option<N>,
    axis: PlainAxis,
    block: Block,
    look: AxisLook,
    refusal: Option<Cause>,
) -> Turn<N>
    ensures { result ≡ turn_by active axis block look refusal }
{
    if faults(axis, look) {
        let cause = Cause::Drive { fault: look.fault };
        return Turn::Fail { cause };
    }
    if let Some(cause) = refusal {
        return Turn::Fail { cause };
    }
    if enables(axis, look) {
        return Turn::Enable;
    }
    turn_under(active, axis, block, look)
}

/// The turn of an axis with this block active, after its follow was refused or not.
#[tactic(auto, unfolding(crate::specs::Turns::turn_of))]
pub fn turn_of(axis: PlainAxis, block: Block, look: AxisLook, refusal: Option<Cause>) -> Turn<u8>
    ensures { result ≡ turn_of axis block look refusal }
{
    turn_by(axis.active, axis, block, look, refusal)
}

// An axis that moves so, under the command of the block.
fn moving(axis: PlainAxis, block: Block) -> Under
    requires { Near axis.distance_to_go axis.velocity }
    ensures velocity { result.axis.velocity ≡ axis.velocity }
    ensures distance { result.axis.distance_to_go ≡ axis.distance_to_go }
    ensures block { result.block ≡ block }
{
    let motion = Motion {
        distance_to_go: axis.distance_to_go,
        velocity: axis.velocity,
    };
    let axis = Axis::disabled().with_motion(motion);
    Under { axis, block }
}

/// The next step of the axis, and the distance that then remains; 0 where the command is no move.
#[tactic(auto, unfolding(crate::specs::Steps::step_of))]
pub fn step(axis: PlainAxis, block: Block) -> (i32, i32)
    requires near { Near axis.distance_to_go axis.velocity }
    ensures step { result.0 ≡ step_of axis block }
    ensures remaining { result.1 ≡ remaining axis block }
    ensures near { Near result.1 result.0 }
    ensures limit { unsigned_abs result.0 ≤ 10000 }
{
    let next = moving(axis, block).step();
    (next.velocity, next.distance_to_go)
}

/// The axis after its step.
pub fn stepped(mut axis: PlainAxis, block: Block) -> PlainAxis
    requires near { Near axis.distance_to_go axis.velocity }
    ensures stepped { result ≡ stepped axis block }
    ensures near { Near result.distance_to_go result.velocity }
{
    let (velocity, distance_to_go) = step(axis, block);
    axis.velocity = velocity;
    axis.distance_to_go = distance_to_go;
    axis
}

/// What comes after a command that ended, where the block is that of the first that waits: nothing, or its start.
#[tactic(auto, unfolding(crate::specs::Turns::next_of))]
pub fn next_of(
    axis: PlainAxis,
    block: Block,
    look: AxisLook,
) -> Result<Option<Start<u8>>, OutOfRange>
    requires { Sound look }
    ensures { result ≡ next_of axis block look }
{
    if axis.waiting == 0 {
        return Ok(None);
    }
    next_by(axis.queue[0], block, look)
}
