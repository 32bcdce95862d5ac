//! The way to a target, and the largest step on it.
ghost use Rattle.std.specs.Prelude.{◌≡◌, ◌≤◌, max, IsTrue, ◌↔◌};
ghost use Rattle.ramp.specs.Stopping.{stopping};
ghost use Rattle.ramp.specs.RampStep.{largest_step};
ghost use Rattle.ramp.specs.Laws.RampStep.{Largest};

use crate::braking::Braking;
use crate::rate::Rate;

/// The way of an axis to a target that lies ahead or is reached.
#[derive(Clone, Copy)]
pub(crate) struct Way {
    /// How far the target is, in increments.
    pub(crate) distance: u32,
    /// By how much a step may be smaller than the one before it.
    pub(crate) deceleration: Rate,
    ghost near: { distance ≤ 350000000 },
}

impl Way {
    /// Whether an axis that makes the step now, and brakes from then on, stops within the distance.
    fn stops(self, step: Rate) -> bool
        ensures { IsTrue result ↔ (stopping self.deceleration.increments step.increments ≤ self.distance) }
    {
        Braking::from(step, self).stops()
    }

    /// The largest step up to the cap that stops within the distance.
    // A rule of the project: a loop downward that yields the step by break. The next to try comes of the braking from the
    // last, so no range or iterator has the steps in store.
    fn largest_step(self, cap: Rate) -> Rate
        requires { 1 ≤ self.distance }
        ensures { Largest self.distance self.deceleration.increments cap.increments result.increments }
    {
        let mut step = cap;
        loop {
            let braking = Braking::from(step, self);
            if braking.stops() {
                break step;
            }
            step = braking.slower();
        }
    }

    /// The largest step up to the cap that stops within the distance, or the slowest where that is larger.
    #[tactic(auto, using(crate::proofs::Largest::choosing))]
    pub(crate) fn step_on(self, slowest: u32, cap: Rate) -> u32
        requires { slowest ≤ 9999 }
        ensures step { result ≡ max (largest_step self.distance self.deceleration.increments cap.increments) slowest }
        ensures limit { result ≤ 10000 }
    {
        if self.stops(cap) {
            return cap.increments.max(slowest);
        }
        let faster = Rate {
            increments: slowest + 1,
        };
        if !self.stops(faster) {
            return slowest;
        }
        self.largest_step(cap).increments
    }
}
