//! The mirror, and how it is made.
ghost use Rattle.std.specs.Prelude.{◌≡◌};

use crate::stage::Stage;

/// The axes that a mirror turns round.
#[derive(Clone, Copy)]
pub struct TurnedAxes {
    // Bit k is set where axis k is turned round.
    pub(crate) mask: u8,
}

/// A segment in which some axes of the one below are turned round.
pub type Mirror<S> = Stage<TurnedAxes, S>;

impl<S> Mirror<S> {
    /// Turns those axes round whose bit is set in the mask; a bit past the last axis does nothing.
    pub fn new(below: S, mask: u8) -> Mirror<S>
        ensures below { result.below ≡ below }
        ensures mask { result.view.mask ≡ mask }
    {
        Stage {
            view: TurnedAxes { mask },
            below,
        }
    }
}
