//! Braking from a speed, step by step.
ghost use Rattle.std.specs.Prelude.{◌≡◌, ◌<◌, ◌≤◌, IsTrue, ◌↔◌};
ghost use Rattle.ramp.specs.Series.{Series};
ghost use Rattle.ramp.specs.Stopping.{stopping, NoneStopsAbove};

use crate::rate::Rate;
use crate::way::Way;

/// The steps of an axis that brakes to a standstill: the first is its speed, each other is the deceleration below the
/// one before it, and all are above 0.
#[derive(Clone, Copy)]
pub(crate) struct Braking {
    way: Way,
    speed: Rate,
    /// How many steps there are.
    count: u32,
    /// The first step plus the last.
    ends: u32,
    ghost series: { Series way.deceleration.increments speed.increments count ends },
}

impl Braking {
    /// Braking from a speed on the way to a target.
    pub(crate) fn from(speed: Rate, way: Way) -> Braking
        ensures speed { result.speed ≡ speed }
        ensures way { result.way ≡ way }
    {
        let first = speed.increments;
        let deceleration = way.deceleration.increments;
        let count = (first - 1) / deceleration + 1;
        let last = (first - 1) % deceleration + 1;
        let ends = first + last;
        Braking {
            way,
            speed,
            count,
            ends,
        }
    }

    /// Whether the steps lead at most to the target.
    // Twice the stopping distance is the number of steps times the sum of the first and the last.
    #[tactic(auto, using(crate::proofs::Series::series_sum))]
    pub(crate) fn stops(self) -> bool
        ensures { IsTrue result ↔ (stopping self.way.deceleration.increments self.speed.increments ≤ self.way.distance) }
    {
        self.count * self.ends <= 2 * self.way.distance
    }

    /// Where they lead past the target, a lower speed that is below none that does not.
    // So many steps stop within the distance only if their ends sum up to at most its double shared out among them.
    // What they have above that is taken off both ends, so half of it, rounded up, is taken off the speed.
    pub(crate) fn slower(self) -> Rate
        requires some { 1 ≤ self.way.distance }
        requires fast { self.way.distance < stopping self.way.deceleration.increments self.speed.increments }
        ensures less { result.increments < self.speed.increments }
        ensures above { NoneStopsAbove self.way.distance self.way.deceleration.increments result.increments }
    {
        let excess = self.ends - 2 * self.way.distance / self.count;
        Rate {
            increments: self.speed.increments - (excess + 1) / 2,
        }
    }
}
