//! Where a block's command leads from where its axis is.
ghost use Rattle.std.specs.Prelude.{◌≡◌};
ghost use Rattle.segment.specs.Row.{Sound};
ghost use Rattle.moves.specs.Blocks.{aimed, block_aim};

use crate::place::Place;
use crate::table::Block;
use records::Command;
use segment::AxisLook;

/// The target of the command that is to begin lies outside its axis's range.
#[derive(Clone, Copy, PartialEq, Eq, Debug)]
pub struct OutOfRange;

// A target in the axis's range, or none there.
fn aimed(target: Option<i32>) -> Result<Option<i32>, OutOfRange>
    ensures { result ≡ aimed target }
{
    let target = target.ok_or(OutOfRange)?;
    Ok(Some(target))
}

impl Block {
    /// The target of the block's command, if it has one, where it begins on an axis that looks so.
    pub fn aim(self, look: AxisLook) -> Result<Option<i32>, OutOfRange>
        ensures { result ≡ block_aim self look }
    {
        match self.command {
            Some(Command::Absolute) => aimed(look.position_at(self.value)),
            Some(Command::Relative) => aimed(look.position_by(self.value)),
            Some(Command::Velocity | Command::Halt | Command::Stop) | None => Ok(None),
        }
    }

    /// The same as a place, on an axis of a segment.
    // A look that anyone may make is not sound; one that a segment shows is, and there this is asked for.
    pub fn place(self, look: AxisLook) -> Result<Option<Place>, OutOfRange>
        requires { Sound look }
        ensures { result ≡ block_aim self look }
    {
        let target = self.aim(look)?;
        Ok(target.map(Place::of))
    }
}
