//! The sequencer's table and the moves by which table and trail change together.
#![tactic(auto)]

pub mod accepting;
pub mod aim;
pub mod axes;
pub mod beginning;
pub mod changing;
pub mod commands;
pub mod ending;
pub mod entering;
pub mod failure;
pub mod instruction;
pub mod numbers;
pub mod place;
pub mod plain;
pub mod queue;
pub mod states;
pub mod statuses;
pub mod table;
pub mod telling;
pub mod ticking;

// The aims also go by the name of what they come of.
pub use aim as aiming;
pub use aim::OutOfRange;
pub use commands::{is_move, is_run, state_under, stop_under};
pub use failure::{Ending, Failure};
pub use instruction::Instruction;
pub use numbers::{AxisNumber, Below, BlockNumber};
pub use place::Place;
pub use plain::{
    PlainAxis, halted_in, under_command, with_state, without_active, without_commands,
};
pub use queue::{MAX_WAITING, Queue};
pub use states::{is_disabled, is_errorstop, rest_state, takes_commands};
pub use table::{Axis, Block, MAX_AXES, MAX_BLOCKS, Status, Table};
pub use telling::tell;
