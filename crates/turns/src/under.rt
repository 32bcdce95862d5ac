//! An axis under a command.
ghost use Rattle.std.specs.Prelude.{◌≡◌};
ghost use Rattle.moves.specs.Sheet.{axis_at};
ghost use Rattle.turns.specs.Turns.{active_block};

use moves::{Axis, AxisNumber, Block, Table};

/// What is kept of an axis, and the block of its active command; an idle one where none is active.
#[derive(Clone, Copy)]
pub struct Under {
    pub axis: Axis,
    pub block: Block,
}

impl Under {
    /// The axis of a table, under its active command.
    pub fn of(table: &Table, axis: AxisNumber) -> Under
        ensures axis { result.axis ≡ axis_at table.now axis }
        ensures block { result.block ≡ active_block table.now (axis_at table.now axis).active }
    {
        let axis = table.axis(axis);
        let block = match axis.active {
            Some(block) => table.block(block),
            None => Block::idle(),
        };
        Under { axis, block }
    }
}
