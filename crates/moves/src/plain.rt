//! What is kept of an axis in plain numbers, and what becomes of it: none of the limits of an `Axis` is asked for.
ghost use Rattle.std.specs.Prelude.{◌≡◌};
ghost use Rattle.moves.specs.Axes.{with_state, halted_in, under_command, without_active, without_commands};

use crate::axes::stop_in;
use crate::commands::{state_under, stop_under};
use crate::queue::MAX_WAITING;
use crate::table::Axis;
use records::{AxisState, Command};
use std::marker::Model;

/// What is kept of an axis, in any numbers.
// Contracts see it as they see an `Axis`, which is one that keeps to its limits.
#[derive(Clone, Copy)]
pub struct PlainAxis {
    pub state: AxisState,
    /// The step of the last cycle, in increments per cycle.
    pub velocity: i32,
    /// The target of the active move minus the demand, in increments.
    pub distance_to_go: i32,
    /// Whether power was asked for.
    pub enable_requested: bool,
    /// The block whose command is active.
    pub active: Option<u8>,
    /// The blocks whose commands wait, the first to begin first: so many as `waiting` says.
    pub queue: [u8; MAX_WAITING],
    pub waiting: u8,
    /// The block whose stop brought the present state stopping.
    pub stop: Option<u8>,
}

impl Model for PlainAxis {
    ghost use Rattle.moves.specs.Kept.{Kept};

    ghost Value = { Kept };

    ghost view = { λ y. record { state = y.state; velocity = y.velocity; distance_to_go = y.distance_to_go; enable_requested = y.enable_requested; active = y.active; queue = y.queue; waiting = y.waiting; stop = y.stop } };

    ghost inverse = { λ y. record { state = y.state; velocity = y.velocity; distance_to_go = y.distance_to_go; enable_requested = y.enable_requested; active = y.active; queue = y.queue; waiting = y.waiting; stop = y.stop } };
}

impl From<Axis> for PlainAxis {
    ghost from_gives = { λ axis r. r ≡ axis };

    fn from(axis: Axis) -> PlainAxis {
        PlainAxis {
            state: axis.state,
            velocity: axis.velocity,
            distance_to_go: axis.distance_to_go,
            enable_requested: axis.enable_requested,
            active: axis.active.map(u8::from),
            queue: axis.queue.numbers(),
            waiting: axis.queue.waiting(),
            stop: axis.stop,
        }
    }
}

/// The axis in another state, which keeps the block of a stop in the state stopping only.
pub fn with_state(mut axis: PlainAxis, state: AxisState) -> PlainAxis
    ensures { result ≡ with_state axis state }
{
    axis.state = state;
    axis.stop = stop_in(state, axis.stop);
    axis
}

/// The axis in this state, with velocity and distance to go 0.
pub fn halted_in(state: AxisState, mut axis: PlainAxis) -> PlainAxis
    ensures { result ≡ halted_in state axis }
{
    axis.velocity = 0;
    axis.distance_to_go = 0;
    with_state(axis, state)
}

/// The axis under the command of a block: it keeps its velocity.
pub fn under_command(
    mut axis: PlainAxis,
    block: u8,
    command: Option<Command>,
    distance_to_go: i32,
    queue: [u8; MAX_WAITING],
    waiting: u8,
) -> PlainAxis
    ensures { result ≡ under_command axis block command distance_to_go queue waiting }
{
    axis.state = state_under(command);
    axis.distance_to_go = distance_to_go;
    axis.active = Some(block);
    axis.queue = queue;
    axis.waiting = waiting;
    axis.stop = stop_under(command, block);
    axis
}

/// The axis with no command active.
pub fn without_active(axis: PlainAxis) -> PlainAxis
    ensures { result ≡ without_active axis }
{
    PlainAxis {
        active: None,
        ..axis
    }
}

/// The axis with no command active and none waiting.
pub fn without_commands(axis: PlainAxis) -> PlainAxis
    ensures { result ≡ without_commands axis }
{
    PlainAxis {
        waiting: 0,
        ..without_active(axis)
    }
}
