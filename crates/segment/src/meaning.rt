//! What every segment means by its calls.
ghost use Rattle.std.specs.Prelude.{◌≡◌};
ghost use Rattle.segment.specs.Calls.{Looked, PoweredOn, PoweredOff, Followed, Tripped, Cleared};
ghost use Rattle.segment.specs.Cycle.{Cycled};
ghost use Rattle.segment.specs.Row.{Row, SoundRow};

use crate::axis::AxisLook;
use crate::refusal::Refusal;

/// A row of 1 to 8 axes. A refused call leaves the row as it was.
pub trait Segment {
    // What the segment means: how many axes it has, and how each looks.
    ghost shows: { Self → Row };

    // That every row is sound.
    ghost sound: { (s : Self) → SoundRow (shows s) };

    /// How many axes there are.
    fn axes(&self) -> usize
        ensures { result ≡ (shows self.now).count };

    /// The six things that an axis shows.
    fn look(&self, axis: usize) -> Result<AxisLook, Refusal>
        ensures { Looked (shows self.now) axis result };

    /// Asks for power, which then comes in a cycle; an axis with a fault gets none.
    fn power_on(&mut self, axis: usize) -> Result<(), Refusal>
        ensures { PoweredOn (shows self.old) axis result (shows self.new) };

    /// Takes power away at once.
    fn power_off(&mut self, axis: usize) -> Result<(), Refusal>
        ensures { PoweredOff (shows self.old) axis result (shows self.new) };

    /// Orders an axis to a position.
    fn follow(&mut self, axis: usize, position: i32) -> Result<(), Refusal>
        ensures { Followed (shows self.old) axis position result (shows self.new) };

    /// Sets a fault, unless there is one, and takes power away.
    fn trip(&mut self, axis: usize, code: u8) -> Result<(), Refusal>
        ensures { Tripped (shows self.old) axis code result (shows self.new) };

    /// Takes a fault away.
    fn clear(&mut self, axis: usize) -> Result<(), Refusal>
        ensures { Cleared (shows self.old) axis result (shows self.new) };

    /// Serves all axes once.
    fn cycle(&mut self)
        ensures { Cycled (shows self.old) (shows self.new) };
}
