//! How a sequencer is made, and a look at its segment.
ghost use Rattle.std.specs.Prelude.{◌≡◌};
ghost use Rattle.moves.specs.Sheet.{new_table};
ghost use Rattle.sequencer.specs.Whole.{segment_of, table_of};

use super::Sequencer;
use motion::Machine;
use moves::Table;

impl<S> Sequencer<S> {
    /// A sequencer over a segment: its blocks are idle, and its axes disabled.
    pub fn new(segment: S) -> Sequencer<S>
        ensures table { table_of result ≡ new_table }
        ensures segment { segment_of result ≡ segment }
    {
        let table = Table::new();
        let machine = Machine { segment, table };
        Sequencer { machine }
    }

    /// The segment, for questions that only it can answer.
    pub fn segment(&self) -> &S
        ensures { result.now ≡ segment_of self.now }
    {
        &self.machine.segment
    }
}
