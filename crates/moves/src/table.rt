//! The sequencer's table: its blocks, and what it keeps of each axis.
use crate::numbers::BlockNumber;
pub use crate::queue::MAX_WAITING;
use crate::queue::Queue;
use records::{AxisState, BufferMode, Cause, Command};
use std::marker::Model;

/// How many blocks there are.
pub const MAX_BLOCKS: usize = 32;

/// How many axes there can be.
pub const MAX_AXES: usize = 8;

/// Where a block's command stands.
#[derive(Clone, Copy, PartialEq, Eq, Debug)]
pub enum Status {
    /// The block has no command.
    Idle,
    /// Its command waits for those before it.
    Waiting,
    /// Its command moves the axis.
    Active,
    /// Its command did what was ordered.
    Done,
    /// Another call took its command's place.
    Aborted,
    /// Its command failed.
    Error {
        /// Why it failed.
        cause: Cause,
    },
}

/// A block: a command and where it stands. A value that the command does not use is 0, and in an idle block all are.
// No function rests on which axis a block names, or on which stop an axis remembers, so both are plain numbers.
#[derive(Clone, Copy)]
pub struct Block {
    pub status: Status,
    /// The axis that the command moves.
    pub axis: u8,
    /// The command; none in an idle block.
    pub command: Option<Command>,
    pub mode: BufferMode,
    /// The position, the distance or the velocity ordered, in increments or increments per cycle.
    pub value: i32,
    /// The top speed of a move, in increments per cycle.
    pub max_velocity: u32,
    /// The most by which the velocity changes from one cycle to the next, in increments per cycle.
    pub max_acceleration: u32,
}

/// What the sequencer keeps of an axis.
#[derive(Clone, Copy)]
pub struct Axis {
    pub state: AxisState,
    /// The step of the last cycle, in increments per cycle.
    pub velocity: i32,
    /// The target of the active move minus the demand, in increments; 0 where no move is active.
    pub distance_to_go: i32,
    /// Whether power was asked for.
    pub enable_requested: bool,
    /// The block whose command is active; none in standstill, disabled and errorstop.
    pub active: Option<BlockNumber>,
    /// The blocks whose commands wait.
    pub queue: Queue,
    /// The block whose stop brought the present state stopping; none in another state.
    pub stop: Option<u8>,
}

// No step of an axis leads out of the numbers.
impl Model for Axis {
    ghost use Rattle.ramp.specs.Near.{Near};
    ghost use Rattle.moves.specs.Kept.{Kept};

    ghost Value = { Kept };

    ghost view = { λ y. record { state = y.state; velocity = y.velocity; distance_to_go = y.distance_to_go; enable_requested = y.enable_requested; active = y.active; queue = y.queue.blocks; waiting = y.queue.waiting; stop = y.stop } };

    ghost invariant = { λ y. Near y.distance_to_go y.velocity };

    ghost inverse = { λ y. record { state = y.state; velocity = y.velocity; distance_to_go = y.distance_to_go; enable_requested = y.enable_requested; active = y.active; queue = record { blocks = y.queue; waiting = y.waiting }; stop = y.stop } };
}

/// Blocks, axes, and the count of cycles modulo 2^28.
// Fixed memory: the machine has just so many blocks and axes, and a cycle may not ask for memory. The trail is no part of it: the
// caller owns it and lends it to each call. Held by a reference, it would put a clause on that reference into each contract.
#[derive(Clone, Copy)]
pub struct Table {
    pub blocks: [Block; MAX_BLOCKS],
    pub axes: [Axis; MAX_AXES],
    pub cycles: u32,
}
