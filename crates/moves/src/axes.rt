//! What an axis becomes when its commands come and go.
ghost use Rattle.std.specs.Prelude.{◌≡◌, ◌<◌, ◌≤◌, unsigned_abs};
ghost use Rattle.moves.specs.Axes.{stop_in, with_state, with_request, with_motion, halted_in, under_command, joined};
ghost use Rattle.moves.specs.Axes.{without_active, without_commands};
ghost use Rattle.moves.specs.Sheet.{disabled_axis};
ghost use Rattle.moves.specs.Sized.{SizedAxis};
ghost use Rattle.std.specs.Prelude.{replicate};

use crate::commands::{state_under, stop_under};
use crate::numbers::BlockNumber;
use crate::queue::Queue;
use crate::table::Axis;
use ramp::Motion;
use records::{AxisState, Command};

// The block of a stop is remembered in the state stopping only.
pub(crate) fn stop_in(state: AxisState, stop: Option<u8>) -> Option<u8>
    ensures { result ≡ stop_in state stop }
{
    if state == AxisState::Stopping {
        return stop;
    }
    None
}

impl Axis {
    /// The axis of a new sequencer: disabled, without a command.
    pub fn disabled() -> Axis
        ensures { result ≡ disabled_axis (replicate 4 0) }
    {
        Axis {
            state: AxisState::Disabled,
            velocity: 0,
            distance_to_go: 0,
            enable_requested: false,
            active: None,
            queue: Queue::new(),
            stop: None,
        }
    }

    // Does nothing but say what the type keeps to, since contracts see an axis as a plain value.
    pub(crate) fn sized(&self)
        ensures { SizedAxis self.now }
    {
        let _ = &self.velocity;
        let _ = self.active.map(BlockNumber::index);
        self.queue.sized();
    }

    /// The axis in another state, which keeps the block of a stop in the state stopping only.
    pub fn with_state(mut self, state: AxisState) -> Axis
        ensures { result ≡ with_state self state }
    {
        self.state = state;
        self.stop = stop_in(state, self.stop);
        self
    }

    /// The axis with power asked for, or not.
    pub fn with_request(mut self, requested: bool) -> Axis
        ensures { result ≡ with_request self requested }
    {
        self.enable_requested = requested;
        self
    }

    /// How the axis moves.
    pub fn motion(self) -> Motion
        ensures velocity { result.velocity ≡ self.velocity }
        ensures distance { result.distance_to_go ≡ self.distance_to_go }
    {
        Motion {
            distance_to_go: self.distance_to_go,
            velocity: self.velocity,
        }
    }

    /// The axis with another motion.
    pub fn with_motion(mut self, motion: Motion) -> Axis
        ensures { result ≡ with_motion self motion.velocity motion.distance_to_go }
    {
        self.velocity = motion.velocity;
        self.distance_to_go = motion.distance_to_go;
        self
    }

    /// The axis in this state, with velocity and distance to go 0.
    pub fn halted_in(mut self, state: AxisState) -> Axis
        ensures { result ≡ halted_in state self }
    {
        self.velocity = 0;
        self.distance_to_go = 0;
        self.with_state(state)
    }

    // The axis under the command of a block, with this queue behind it: it keeps its velocity.
    pub(crate) fn under(
        mut self,
        block: BlockNumber,
        command: Option<Command>,
        distance_to_go: i32,
        queue: Queue,
    ) -> Axis
        requires { unsigned_abs distance_to_go ≤ 300000000 }
        ensures { result ≡ under_command self block command distance_to_go queue.blocks queue.waiting }
    {
        self.state = state_under(command);
        self.distance_to_go = distance_to_go;
        self.active = Some(block);
        self.queue = queue;
        self.stop = stop_under(command, block.into());
        self
    }

    // The axis with one command more that waits, behind the others.
    pub(crate) fn joined(mut self, block: BlockNumber) -> Axis
        requires { self.waiting < 4 }
        ensures { result ≡ joined self block }
    {
        self.queue = self.queue.joined(block);
        self
    }

    /// The axis with no command active.
    pub fn without_active(mut self) -> Axis
        ensures { result ≡ without_active self }
    {
        self.active = None;
        self
    }

    /// The axis with no command active and none waiting.
    pub fn without_commands(mut self) -> Axis
        ensures { result ≡ without_commands self }
    {
        self.active = None;
        self.queue = self.queue.cleared();
        self
    }
}
