//! What an axis does after the segment's cycle.
use moves::Place;
use records::Cause;

/// The first case that applies to an axis, with the number of a block as the axis has it.
// An enum and no closure: it is decided before anything changes, and the definition names each case.
#[derive(Clone, Copy)]
pub enum Turn<N> {
    /// Nothing changes.
    Rest,
    /// The axis goes to errorstop.
    Fail {
        /// Why.
        cause: Cause,
    },
    /// Power came: the axis goes from disabled to standstill.
    Enable,
    /// The active command, of this block, is done.
    Finish {
        block: N,
    },
    /// The active command, of this block, runs at its velocity, and another one waits.
    Yield {
        block: N,
    },
}

/// How the next command begins.
#[derive(Clone, Copy)]
pub struct Start<N> {
    /// The block of the command.
    pub block: N,
    /// Its target, if it has one.
    pub target: Option<Place>,
}
