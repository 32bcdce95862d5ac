//! What an axis does after the segment's cycle.
ghost use Rattle.std.specs.Prelude.{◌≡◌};
ghost use Rattle.turns.specs.Turns.{reached, yields, enables, faults, turn_of};

use crate::plain;
use crate::turn::Turn;
use crate::under::Under;
use moves::BlockNumber;
use records::Cause;
use segment::AxisLook;

impl Under {
    /// Whether the command is reached: with step 0 and actual equal to demand, a move also with nothing to go; a run
    /// never is.
    pub fn reached(&self, look: AxisLook) -> bool
        ensures { result ≡ reached self.now.axis self.now.block look }
    {
        plain::reached(self.axis.into(), self.block, look)
    }

    /// Whether the command is a run at its velocity, and another one waits.
    pub fn yields(&self) -> bool
        ensures { result ≡ yields self.now.axis self.now.block }
    {
        plain::yields(self.axis.into(), self.block)
    }

    /// Whether the axis is disabled, and the power that was asked for is on.
    pub fn enables(&self, look: AxisLook) -> bool
        ensures { result ≡ enables self.now.axis look }
    {
        plain::enables(self.axis.into(), look)
    }

    /// Whether the axis has a fault and is not yet in errorstop.
    pub fn faults(&self, look: AxisLook) -> bool
        ensures { result ≡ faults self.now.axis look }
    {
        plain::faults(self.axis.into(), look)
    }

    /// The turn of the axis, after its follow was refused or not.
    #[tactic(auto, unfolding(crate::specs::Turns::turn_of))]
    pub fn turn(&self, look: AxisLook, refusal: Option<Cause>) -> Turn<BlockNumber>
        ensures { result ≡ turn_of self.now.axis self.now.block look refusal }
    {
        plain::turn_by(
            self.axis.active,
            self.axis.into(),
            self.block,
            look,
            refusal,
        )
    }
}
