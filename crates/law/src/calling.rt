//! The call that an order names.
ghost use Rattle.law.specs.Laws.Law.{Always};
ghost use Rattle.law.specs.Runs.{Obeyed, Step, entry};
ghost use Rattle.sequencer.specs.Whole.{world_of};

use crate::order::Order;
use segment::Segment;
use sequencer::{Refusal, Sequencer};
use trail::Trail;

// Obeys an order by just the call that it names.
fn obey<S: Segment>(
    sequencer: &mut Sequencer<S>,
    trail: &mut Trail,
    order: Order,
) -> Result<(), Refusal>
    ensures { Obeyed (world_of S.Segment.shows sequencer.old trail.old) order result (world_of S.Segment.shows sequencer.new trail.new) }
{
    match order {
        Order::PowerOn { axis } => sequencer.power_on(trail, axis),
        Order::PowerOff { axis } => sequencer.power_off(trail, axis),
        Order::Execute {
            block,
            axis,
            instruction,
            mode,
        } => sequencer.execute(trail, block, axis, instruction, mode),
        Order::Release { block } => sequencer.release(trail, block),
        Order::Reset { axis } => sequencer.reset(trail, axis),
        Order::Trip { axis, code } => sequencer.trip(trail, axis, code),
        Order::Cycle => sequencer.cycle(trail),
    }
}

/// Makes the call that an order names. Whatever run of calls led here, it is a run still, and the law of every run
/// holds after it.
pub fn call<S: Segment>(
    sequencer: &mut Sequencer<S>,
    trail: &mut Trail,
    order: Order,
) -> Result<(), Refusal>
    ensures step { Step (world_of S.Segment.shows sequencer.old trail.old) order result (world_of S.Segment.shows sequencer.new trail.new) }
    ensures law { Always (world_of S.Segment.shows sequencer.old trail.old) (entry order result) (world_of S.Segment.shows sequencer.new trail.new) }
{
    obey(sequencer, trail, order)
}
