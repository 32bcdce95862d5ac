//! An axis enters a state.
ghost use Rattle.std.specs.Prelude.{◌≡◌};
ghost use Rattle.moves.specs.Moves.{entered, quelled};
ghost use Rattle.moves.specs.Room.{Takes, Wrote};
ghost use Rattle.moves.specs.Sheet.{sheet};

use crate::failure::Ending;
use crate::numbers::AxisNumber;
use crate::table::{Axis, Table};
use crate::telling::tell;
use records::{AxisState, Record};
use trail::Trail;

impl Table {
    /// An axis is written anew, and where its state is another, a word tells it.
    #[tactic(auto, unfolding(crate::specs::Moves::entered))]
    pub fn enter(&mut self, trail: &mut Trail, axis: AxisNumber, next: Axis)
        requires room { Takes trail.old 1 }
        ensures sheet { sheet self.new trail.new ≡ entered (sheet self.old trail.old) axis next }
        ensures wrote { Wrote 1 trail.old trail.new }
    {
        let old = self.axis(axis).state;
        let new = next.state;
        self.keep(axis, next);
        if old == new {
            return;
        }
        tell(
            trail,
            Record::State {
                axis: axis.into(),
                old,
                new,
            },
        );
    }

    /// All commands of an axis end, and the axis halts in a state.
    #[tactic(auto, unfolding(crate::specs::Moves::quelled))]
    pub fn quell(&mut self, trail: &mut Trail, axis: AxisNumber, ending: Ending, state: AxisState)
        requires room { Takes trail.old 6 }
        ensures sheet { sheet self.new trail.new ≡ quelled (sheet self.old trail.old) axis ending state }
        ensures wrote { Wrote 6 trail.old trail.new }
    {
        self.empty(trail, axis, ending);
        let next = self.axis(axis).halted_in(state);
        self.enter(trail, axis, next);
    }
}
