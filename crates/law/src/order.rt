//! The calls of a sequencer as values.
use moves::Instruction;
use records::BufferMode;

/// One call with its arguments.
// An enum and no closure: an order is data, which a list of orders and the history of a run hold.
#[derive(Clone, Copy)]
pub enum Order {
    /// Ask for power on an axis.
    PowerOn {
        axis: usize,
    },
    /// Take power away from an axis.
    PowerOff {
        axis: usize,
    },
    /// Give a command to a block, for an axis.
    Execute {
        block: usize,
        axis: usize,
        instruction: Instruction,
        mode: BufferMode,
    },
    /// Make a block idle again.
    Release {
        block: usize,
    },
    /// Leave errorstop.
    Reset {
        axis: usize,
    },
    /// Set a fault on an axis, with a code from 1 to 15.
    Trip {
        axis: usize,
        code: u32,
    },
    /// Serve all axes once.
    Cycle,
}
