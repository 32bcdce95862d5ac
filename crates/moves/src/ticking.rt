//! A cycle is counted.
ghost use Rattle.std.specs.Prelude.{◌≡◌};
ghost use Rattle.moves.specs.Moves.{next_cycle, ticked};
ghost use Rattle.moves.specs.Room.{Takes, Wrote};
ghost use Rattle.moves.specs.Sheet.{sheet};

use crate::table::Table;
use crate::telling::tell;
use records::Record;
use trail::Trail;

// Cycles are counted modulo this.
const ROUND: u32 = 1 << 28;

fn next_cycle(cycles: u32) -> u32
    ensures { result ≡ next_cycle cycles }
{
    (cycles % ROUND + 1) % ROUND
}

impl Table {
    /// A cycle is counted.
    #[tactic(auto, unfolding(crate::specs::Moves::ticked))]
    pub fn tick(&mut self, trail: &mut Trail)
        requires room { Takes trail.old 1 }
        ensures sheet { sheet self.new trail.new ≡ ticked (sheet self.old trail.old) }
        ensures wrote { Wrote 1 trail.old trail.new }
        ensures axes { self.new.axes ≡ self.old.axes }
    {
        let count = next_cycle(self.cycles);
        self.cycles = count;
        tell(trail, Record::Cycle { count });
    }
}
