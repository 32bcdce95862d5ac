//! Limits of a command's values, and what an execute asks of its axis.
ghost use Rattle.std.specs.Prelude.{◌≡◌};
ghost use Rattle.sequencer.specs.Refusals.{is_rate, is_velocity, is_distance, is_aborting, is_lawful, waits, is_outside};

use moves::{Axis, Instruction};
use ramp::{Motion, Rate};
use records::BufferMode;
use segment::AxisLook;

// The farthest position and the longest distance, in increments.
const MAX_DISTANCE: u32 = 200_000_000;

// A top speed or an acceleration.
fn is_rate(increments: u32) -> bool
    ensures { result ≡ is_rate increments }
{
    Rate::new(increments).is_some()
}

// Two functions of one comparison each: with the limit as an argument a caller could exchange the two.
fn is_velocity(velocity: i32) -> bool
    ensures { result ≡ is_velocity velocity }
{
    velocity.unsigned_abs() <= Motion::FASTEST
}

// A position or a distance.
fn is_distance(increments: i32) -> bool
    ensures { result ≡ is_distance increments }
{
    increments.unsigned_abs() <= MAX_DISTANCE
}

fn is_aborting(mode: BufferMode) -> bool
    ensures { result ≡ is_aborting mode }
{
    mode == BufferMode::Aborting
}

// Whether each value is within its limits, and a stop is not buffered.
pub(crate) fn within_limits(instruction: Instruction, mode: BufferMode) -> bool
    ensures { result ≡ is_lawful instruction mode }
{
    match instruction {
        Instruction::Absolute {
            position,
            max_velocity,
            max_acceleration,
        } => is_distance(position) & is_rate(max_velocity) & is_rate(max_acceleration),
        Instruction::Relative {
            distance,
            max_velocity,
            max_acceleration,
        } => is_distance(distance) & is_rate(max_velocity) & is_rate(max_acceleration),
        Instruction::Velocity {
            velocity,
            max_acceleration,
        } => is_velocity(velocity) & is_rate(max_acceleration),
        Instruction::Halt { max_acceleration } => is_rate(max_acceleration),
        Instruction::Stop { max_acceleration } => is_aborting(mode) & is_rate(max_acceleration),
    }
}

// Whether a command waits: a buffered one does if the axis has an active one.
pub(crate) fn waits(mode: BufferMode, axis: Axis) -> bool
    ensures { result ≡ waits mode axis }
{
    (mode == BufferMode::Buffered) & axis.active.is_some()
}

// Whether the target is out of range: of an absolute, and of a relative that begins at once.
pub(crate) fn is_outside(instruction: Instruction, waits: bool, look: AxisLook) -> bool
    ensures { result ≡ is_outside instruction waits look }
{
    match instruction {
        Instruction::Absolute { position, .. } => !look.in_range(position),
        Instruction::Relative { distance, .. } => !waits & look.position_by(distance).is_none(),
        Instruction::Velocity { .. } | Instruction::Halt { .. } | Instruction::Stop { .. } => false,
    }
}
