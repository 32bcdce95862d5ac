//! The sequencer: a drive segment, and the table of its blocks and axes.
ghost use Rattle.moves.specs.Sized.{Few, ActiveNamed, QueueNamed, AllNear};

mod checks;
pub mod cycling;
pub mod executing;
pub mod making;
pub mod powering;
pub mod questions;
pub mod releasing;
pub mod resetting;
pub mod tripping;

use motion::Machine;

/// Commands in 32 blocks over a segment.
// The types of the table keep to the four facts; here they are said to whoever has a sequencer and sees plain values.
#[derive(Drop)]
pub struct Sequencer<S> {
    pub(crate) machine: Machine<S>,
    ghost few: { Few machine.table },
    ghost active: { ActiveNamed machine.table },
    ghost queued: { QueueNamed machine.table },
    ghost near: { AllNear machine.table },
}
