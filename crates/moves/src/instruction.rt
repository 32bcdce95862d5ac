//! What a command is ordered to do.

/// A command with its values. Velocities are in increments per cycle, accelerations in increments per cycle from one
/// cycle to the next, positions and distances in increments.
#[derive(Clone, Copy)]
pub enum Instruction {
    /// Move to a position.
    Absolute {
        position: i32,
        max_velocity: u32,
        max_acceleration: u32,
    },
    /// Move by a distance, from where the axis is ordered to be when the move begins.
    Relative {
        distance: i32,
        max_velocity: u32,
        max_acceleration: u32,
    },
    /// Run at a velocity.
    Velocity {
        velocity: i32,
        max_acceleration: u32,
    },
    /// Come to a standstill that another command may replace.
    Halt {
        max_acceleration: u32,
    },
    /// Come to a standstill that holds the axis until its block is released.
    Stop {
        max_acceleration: u32,
    },
}
