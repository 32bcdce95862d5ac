//! A list of orders, from a new sequencer on.
ghost use Rattle.std.specs.Prelude.{◌≡◌};
ghost use Rattle.law.specs.Laws.Law.{Played};
ghost use Rattle.law.specs.Runs.{new_world};
ghost use Rattle.sequencer.specs.Whole.{world_of};
ghost use Rattle.trail.specs.Held.{held_room};

use crate::calling::call;
use crate::order::Order;
use segment::Segment;
use sequencer::Sequencer;
use trail::Trail;

// Where a run begins: a new sequencer over a segment, and an emptied trail.
#[tactic(auto, using(crate::proofs::Played::new_is))]
fn begin<S: Segment>(segment: S, trail: &mut Trail) -> Sequencer<S>
    ensures { world_of S.Segment.shows result trail.new ≡ new_world (S.Segment.shows segment) (held_room trail.old) }
{
    trail.clear();
    Sequencer::new(segment)
}

/// Makes a sequencer over a segment, empties the trail, and makes the calls that the orders name, one after the other;
/// a refused one is passed over. The law of every run holds at every point.
pub fn play<S: Segment>(segment: S, orders: &[Order], trail: &mut Trail) -> Sequencer<S>
    ensures { Played (new_world (S.Segment.shows segment) (held_room trail.old)) orders.now (world_of S.Segment.shows result trail.new) }
{
    let mut sequencer = begin(segment, trail);
    for order in orders {
        let _ = call(&mut sequencer, trail, *order);
    }
    sequencer
}
