//! What an instruction is in a block, and what a command makes of an axis.
ghost use Rattle.std.specs.Prelude.{◌≡◌};
ghost use Rattle.moves.specs.Blocks.{command_of, waiting_block, block_of, is_move, is_run, state_under, stop_under};
ghost use Rattle.moves.specs.Sheet.{idle_block};

use crate::instruction::Instruction;
use crate::table::{Block, Status};
use records::{AxisState, BufferMode, Command};

impl Instruction {
    /// The command of the instruction.
    pub fn command(self) -> Command
        ensures { result ≡ command_of self }
    {
        match self {
            Instruction::Absolute { .. } => Command::Absolute,
            Instruction::Relative { .. } => Command::Relative,
            Instruction::Velocity { .. } => Command::Velocity,
            Instruction::Halt { .. } => Command::Halt,
            Instruction::Stop { .. } => Command::Stop,
        }
    }
}

impl Block {
    /// A block without a command: each of its values is 0.
    pub fn idle() -> Block
        ensures { result ≡ idle_block }
    {
        Block {
            status: Status::Idle,
            axis: 0,
            command: None,
            mode: BufferMode::Aborting,
            value: 0,
            max_velocity: 0,
            max_acceleration: 0,
        }
    }

    // A block that waits, with these values.
    fn waiting(
        axis: u8,
        command: Command,
        mode: BufferMode,
        value: i32,
        max_velocity: u32,
        max_acceleration: u32,
    ) -> Block
        ensures { result ≡ waiting_block axis command mode value max_velocity max_acceleration }
    {
        Block {
            status: Status::Waiting,
            axis,
            command: Some(command),
            mode,
            value,
            max_velocity,
            max_acceleration,
        }
    }

    // The mode is no part of the instruction: an execute takes it as an argument of its own.

    /// The block of an instruction for an axis: its command waits, and each value that it does not use is 0.
    pub fn of(axis: u8, instruction: Instruction, mode: BufferMode) -> Block
        ensures { result ≡ block_of axis instruction mode }
    {
        let command = instruction.command();
        match instruction {
            Instruction::Absolute {
                position,
                max_velocity,
                max_acceleration,
            } => Block::waiting(
                axis,
                command,
                mode,
                position,
                max_velocity,
                max_acceleration,
            ),
            Instruction::Relative {
                distance,
                max_velocity,
                max_acceleration,
            } => Block::waiting(
                axis,
                command,
                mode,
                distance,
                max_velocity,
                max_acceleration,
            ),
            Instruction::Velocity {
                velocity,
                max_acceleration,
            } => Block::waiting(axis, command, mode, velocity, 0, max_acceleration),
            Instruction::Halt { max_acceleration } | Instruction::Stop { max_acceleration } => {
                Block::waiting(axis, command, mode, 0, 0, max_acceleration)
            }
        }
    }

    /// Whether the block's command is a move to a target.
    pub fn is_move(self) -> bool
        ensures { result ≡ is_move self.command }
    {
        is_move(self.command)
    }

    /// Whether the block's command is a run at a velocity.
    pub fn is_run(self) -> bool
        ensures { result ≡ is_run self.command }
    {
        is_run(self.command)
    }
}

/// Whether the command is a move to a target.
pub fn is_move(command: Option<Command>) -> bool
    ensures { result ≡ is_move command }
{
    matches!(command, Some(Command::Absolute | Command::Relative))
}

/// Whether the command is a run at a velocity.
pub fn is_run(command: Option<Command>) -> bool
    ensures { result ≡ is_run command }
{
    command == Some(Command::Velocity)
}

/// The state of an axis under the command.
pub fn state_under(command: Option<Command>) -> AxisState
    ensures { result ≡ state_under command }
{
    match command {
        Some(Command::Velocity) => AxisState::ContinuousMotion,
        Some(Command::Stop) => AxisState::Stopping,
        Some(Command::Absolute | Command::Relative | Command::Halt) | None =>
            AxisState::DiscreteMotion,
    }
}

/// The block to remember under the command: that of a stop.
pub fn stop_under(command: Option<Command>, block: u8) -> Option<u8>
    ensures { result ≡ stop_under command block }
{
    if command == Some(Command::Stop) {
        return Some(block);
    }
    None
}
