//! How far an axis steps in a cycle.
ghost use Rattle.std.specs.Prelude.{◌≡◌, true, false};
ghost use Rattle.moves.specs.Blocks.{is_move};
ghost use Rattle.turns.specs.Steps.{step_of, remaining, stepped};

use crate::rates::held_rate;
use crate::under::Under;
use moves::Axis;
use ramp::{Motion, Ramp, velocity_step};

impl Under {
    // The motion after the step of a move.
    fn move_step(&self) -> Motion
        requires moves { is_move self.now.block.command ≡ true }
        ensures step { result.velocity ≡ step_of self.now.axis self.now.block }
        ensures remaining { result.distance_to_go ≡ remaining self.now.axis self.now.block }
    {
        let max_velocity = held_rate(self.block.max_velocity);
        let max_acceleration = held_rate(self.block.max_acceleration);
        let motion = self.axis.motion();
        let (velocity, distance_to_go) = motion.ramp_step(Ramp {
            max_velocity,
            max_acceleration,
        });
        Motion {
            distance_to_go,
            velocity,
        }
    }

    // The motion after the step of a command that is no move: nothing remains to go.
    fn run_step(&self) -> Motion
        requires runs { is_move self.now.block.command ≡ false }
        ensures step { result.velocity ≡ step_of self.now.axis self.now.block }
        ensures remaining { result.distance_to_go ≡ remaining self.now.axis self.now.block }
    {
        let max_acceleration = held_rate(self.block.max_acceleration);
        let motion = self.axis.motion();
        let velocity = velocity_step(motion.velocity, self.goal(), max_acceleration);
        Motion {
            distance_to_go: 0,
            velocity,
        }
    }

    /// The motion of the axis after its next step: its velocity is the step, and nothing remains to go where the
    /// command is no move.
    pub fn step(&self) -> Motion
        ensures step { result.velocity ≡ step_of self.now.axis self.now.block }
        ensures remaining { result.distance_to_go ≡ remaining self.now.axis self.now.block }
    {
        if self.block.is_move() {
            return self.move_step();
        }
        self.run_step()
    }

    /// The axis after its step.
    pub fn stepped(&self) -> Axis
        ensures { result ≡ stepped self.now.axis self.now.block }
    {
        self.axis.with_motion(self.step())
    }
}
