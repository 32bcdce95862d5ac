//! Numbers of reasons, and refusals that are made and handed up.
ghost use Rattle.std.specs.Prelude.{◌≡◌, ◌+◌, min};
ghost use Rattle.segment.specs.Refusal.{reason_number, Own};

use super::{Reason, Refusal};

const DEEPEST: u8 = 15;

impl From<Reason> for u8 {
    ghost from_gives = { λ reason number. number ≡ reason_number reason };

    fn from(reason: Reason) -> u8 {
        reason as u8
    }
}

impl From<Reason> for Refusal {
    ghost from_gives = { λ reason refusal. Own reason refusal };

    fn from(reason: Reason) -> Refusal {
        Refusal::new(reason)
    }
}

impl Refusal {
    /// A refusal by the segment that is asked itself.
    pub fn new(reason: Reason) -> Refusal
        ensures reason { result.reason ≡ reason }
        ensures depth { result.depth ≡ 0 }
    {
        Refusal { reason, depth: 0 }
    }

    /// The same refusal, one stage further up; past 15 stages are counted no more.
    pub fn handed_up(self) -> Refusal
        ensures reason { result.reason ≡ self.reason }
        ensures depth { result.depth ≡ min (self.depth + 1) 15 }
    {
        let depth = (self.depth + 1).min(DEEPEST);
        Refusal {
            reason: self.reason,
            depth,
        }
    }
}
