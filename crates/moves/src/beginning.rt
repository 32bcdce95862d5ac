//! A command begins.
ghost use Rattle.std.specs.Prelude.{◌≡◌, ◌≤◌, unsigned_abs};
ghost use Rattle.moves.specs.Blocks.{distance_to};
ghost use Rattle.moves.specs.Moves.{begun, started};
ghost use Rattle.moves.specs.Room.{Takes, Wrote};
ghost use Rattle.moves.specs.Sheet.{sheet};

use crate::numbers::{AxisNumber, BlockNumber};
use crate::place::Place;
use crate::queue::Queue;
use crate::table::{Status, Table};
use crate::telling::tell;
use records::Record;
use trail::Trail;

// How far the target is from the demand; 0 without a target.
fn distance_to(target: &Option<Place>, demand: Place) -> i32
    ensures distance { result ≡ distance_to target.now demand }
    ensures near { unsigned_abs result ≤ 300000000 }
{
    match target {
        Some(place) => i32::from(*place) - i32::from(demand),
        None => 0,
    }
}

impl Table {
    /// The command of a block begins, with its target if it has one.
    #[tactic(auto, unfolding(crate::specs::Moves::begun))]
    pub fn begin(
        &mut self,
        trail: &mut Trail,
        axis: AxisNumber,
        block: BlockNumber,
        target: Option<Place>,
    )
        requires room { Takes trail.old 2 }
        ensures sheet { sheet self.new trail.new ≡ begun (sheet self.old trail.old) axis block target }
        ensures wrote { Wrote 2 trail.old trail.new }
        ensures axes { self.new.axes ≡ self.old.axes }
    {
        let beginning = &mut self.blocks[block.index()];
        beginning.status = Status::Active;
        tell(
            trail,
            Record::Begin {
                axis: axis.into(),
                block: block.into(),
            },
        );
        if let Some(place) = target {
            let position = place.into();
            tell(trail, Record::Target { position });
        }
    }

    /// The command of a block begins and leads an axis from this demand, with this queue behind it.
    #[tactic(auto, unfolding(crate::specs::Moves::started))]
    pub fn start(
        &mut self,
        trail: &mut Trail,
        axis: AxisNumber,
        block: BlockNumber,
        target: Option<Place>,
        demand: Place,
        queue: Queue,
    )
        requires room { Takes trail.old 3 }
        ensures sheet { sheet self.new trail.new ≡ started (sheet self.old trail.old) axis block target demand queue.blocks queue.waiting }
        ensures wrote { Wrote 3 trail.old trail.new }
    {
        let command = self.block(block).command;
        let distance = distance_to(&target, demand);
        let next = self.axis(axis).under(block, command, distance, queue);
        self.begin(trail, axis, block, target);
        self.enter(trail, axis, next);
    }
}
