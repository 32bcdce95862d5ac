//! A command ends.
ghost use Rattle.std.specs.Prelude.{◌≡◌};
ghost use Rattle.moves.specs.Moves.{ended, ended_upto, ended_active, emptied, retired, finished};
ghost use Rattle.moves.specs.Room.{Takes, Wrote};
ghost use Rattle.moves.specs.Sheet.{sheet};

use crate::failure::Ending;
use crate::numbers::{AxisNumber, BlockNumber};
use crate::place::Place;
use crate::queue::Queue;
use crate::table::Table;
use crate::telling::tell;
use records::{Outcome, Record};
use trail::Trail;

impl Table {
    /// The command of a block ends.
    #[tactic(auto, unfolding(crate::specs::Moves::ended))]
    pub fn end(&mut self, trail: &mut Trail, axis: AxisNumber, block: BlockNumber, ending: Ending)
        requires room { Takes trail.old 1 }
        ensures sheet { sheet self.new trail.new ≡ ended (sheet self.old trail.old) axis block ending }
        ensures wrote { Wrote 1 trail.old trail.new }
        ensures axes { self.new.axes ≡ self.old.axes }
    {
        let outcome = Outcome::from(ending);
        let ending = &mut self.blocks[block.index()];
        ending.status = outcome.into();
        tell(
            trail,
            Record::End {
                axis: axis.into(),
                block: block.into(),
                outcome,
            },
        );
    }

    // The commands of a queue end, in their order.
    fn end_queue(&mut self, trail: &mut Trail, axis: AxisNumber, queue: Queue, ending: Ending)
        requires room { Takes trail.old queue.waiting }
        ensures sheet { sheet self.new trail.new ≡ ended_upto (sheet self.old trail.old) axis queue.blocks ending queue.waiting }
        ensures wrote { Wrote queue.waiting trail.old trail.new }
        ensures axes { self.new.axes ≡ self.old.axes }
    {
        for block in queue.as_slice() {
            self.end(trail, axis, *block, ending);
        }
    }

    // The active command ends, if there is one.
    #[tactic(auto, unfolding(crate::specs::Moves::ended_active))]
    fn end_active(
        &mut self,
        trail: &mut Trail,
        axis: AxisNumber,
        active: Option<BlockNumber>,
        ending: Ending,
    )
        requires room { Takes trail.old 1 }
        ensures sheet { sheet self.new trail.new ≡ ended_active (sheet self.old trail.old) axis active ending }
        ensures wrote { Wrote 1 trail.old trail.new }
        ensures axes { self.new.axes ≡ self.old.axes }
    {
        if let Some(block) = active {
            self.end(trail, axis, block, ending);
        }
    }

    /// All commands of an axis end, the active one first.
    #[tactic(auto, unfolding(crate::specs::Moves::emptied))]
    pub fn empty(&mut self, trail: &mut Trail, axis: AxisNumber, ending: Ending)
        requires room { Takes trail.old 5 }
        ensures sheet { sheet self.new trail.new ≡ emptied (sheet self.old trail.old) axis ending }
        ensures wrote { Wrote 5 trail.old trail.new }
    {
        let old = self.axis(axis);
        self.end_active(trail, axis, old.active, ending);
        self.end_queue(trail, axis, old.queue, ending);
        self.keep(axis, old.without_commands());
    }

    /// The active command of an axis, that of a block, ends.
    #[tactic(auto, unfolding(crate::specs::Moves::retired))]
    pub fn retire(
        &mut self,
        trail: &mut Trail,
        axis: AxisNumber,
        block: BlockNumber,
        ending: Ending,
    )
        requires room { Takes trail.old 1 }
        ensures sheet { sheet self.new trail.new ≡ retired (sheet self.old trail.old) axis block ending }
        ensures wrote { Wrote 1 trail.old trail.new }
    {
        let next = self.axis(axis).without_active();
        self.end(trail, axis, block, ending);
        self.keep(axis, next);
    }

    /// The active command of an axis, that of a block, did what was ordered; the axis stands at this place.
    #[tactic(auto, unfolding(crate::specs::Moves::finished))]
    pub fn finish(&mut self, trail: &mut Trail, axis: AxisNumber, block: BlockNumber, place: Place)
        requires room { Takes trail.old 2 }
        ensures sheet { sheet self.new trail.new ≡ finished (sheet self.old trail.old) axis block place }
        ensures wrote { Wrote 2 trail.old trail.new }
    {
        let next = self.axis(axis).without_active();
        self.end(trail, axis, block, Ending::done());
        let position = place.into();
        tell(trail, Record::Place { position });
        self.keep(axis, next);
    }
}
