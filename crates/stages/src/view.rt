//! What a stage makes of the axes below it.
ghost use Rattle.std.specs.Prelude.{◌≡◌, ℕ};
ghost use Rattle.segment.specs.declared.axis.AxisLook.{AxisLook};
ghost use Rattle.segment.specs.Row.{Sound};
ghost use Rattle.stages.specs.View.{KeepsCalls, Ordered};

use segment::{AxisLook, Refusal, Segment};

/// How a stage shows each axis below it, and where it orders an axis below.
pub trait View {
    // How an axis is seen that looks so below.
    ghost sees: { Self → ℕ → AxisLook → AxisLook };

    // That a sound axis is seen as a sound one.
    ghost sound: { (v : Self) (axis : ℕ) (look : AxisLook) → Sound look → Sound (sees v axis look) };

    /// What is shown of an axis that looks so below.
    fn shown(&self, axis: usize, look: AxisLook) -> AxisLook
        requires { Sound look }
        ensures { result ≡ sees self.now axis look };

    /// Where an axis is ordered below, to be seen at the position, or why the order is refused.
    fn ordered<S: Segment>(&self, below: &S, axis: usize, position: i32) -> Result<i32, Refusal>
        ensures { Ordered (sees self.now) (S.Segment.shows below.now) axis position result };

    // That every call but a follow may simply be handed down.
    ghost keeps_calls: { (v : Self) → KeepsCalls (sees v) };
}
