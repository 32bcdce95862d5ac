//! What a question answers.
ghost use Rattle.std.specs.Prelude.{◌≡◌};
ghost use Rattle.sequencer.specs.Questions.{outputs_of, axis_values, AxisLimits};

use moves::{Axis, Status};
use records::{AxisState, Cause};

/// The outputs of a block.
// No plainer without `error`: users read PLCopen's outputs by these names, and `Status` is the enum.
#[derive(Clone, Copy, PartialEq, Eq, Debug)]
pub struct BlockOutputs {
    /// The command waits or is active.
    pub busy: bool,
    /// The command moves its axis.
    pub active: bool,
    /// The command did what was ordered.
    pub done: bool,
    /// Another call took the command's place.
    pub command_aborted: bool,
    /// The command failed.
    pub error: bool,
    /// Why it failed.
    pub cause: Option<Cause>,
}

// No output is on.
const SILENT: BlockOutputs = BlockOutputs {
    busy: false,
    active: false,
    done: false,
    command_aborted: false,
    error: false,
    cause: None,
};

impl From<Status> for BlockOutputs {
    ghost from_gives = { λ status r. r ≡ outputs_of status };

    fn from(status: Status) -> BlockOutputs {
        match status {
            Status::Idle => SILENT,
            Status::Waiting => BlockOutputs {
                busy: true,
                ..SILENT
            },
            Status::Active => BlockOutputs {
                busy: true,
                active: true,
                ..SILENT
            },
            Status::Done => BlockOutputs {
                done: true,
                ..SILENT
            },
            Status::Aborted => BlockOutputs {
                command_aborted: true,
                ..SILENT
            },
            Status::Error { cause } => BlockOutputs {
                error: true,
                cause: Some(cause),
                ..SILENT
            },
        }
    }
}

/// What the sequencer answers of an axis.
#[derive(Clone, Copy, PartialEq, Eq, Debug)]
pub struct AxisAnswer {
    pub state: AxisState,
    /// The step of the last cycle, in increments per cycle.
    pub velocity: i32,
    /// The target of the active move minus the demand, in increments; 0 where no move is active.
    pub distance_to_go: i32,
    /// How many commands wait.
    pub waiting: u8,
    /// The block whose command is active.
    pub active: Option<u8>,
}

impl From<Axis> for AxisAnswer {
    ghost from_gives = { λ axis r. (r ≡ axis_values axis) × AxisLimits r };

    fn from(axis: Axis) -> AxisAnswer {
        AxisAnswer {
            state: axis.state,
            velocity: axis.velocity,
            distance_to_go: axis.distance_to_go,
            waiting: axis.queue.waiting(),
            active: axis.active.map(u8::from),
        }
    }
}
