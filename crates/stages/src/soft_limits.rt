//! The soft limits, and how they are made.
ghost use Rattle.std.specs.Prelude.{◌≡◌, IfOk, MatchResult};
ghost use Rattle.stages.specs.Making.{MadeOf, SettingRefused};

use crate::limits::Limits;
use crate::stage::Stage;
use segment::{Reason, Refusal, is_position};

/// A segment in which every axis keeps to one pair of limits besides its own range.
pub type SoftLimits<S> = Stage<Limits, S>;

impl Limits {
    // Two positions as limits; another number is refused as a setting.
    pub(crate) fn new(low: i32, high: i32) -> Result<Limits, Refusal>
        ensures { MatchResult result (λ limits. MadeOf low high limits) (λ refusal. SettingRefused low high refusal) }
    {
        if !is_position(low) || !is_position(high) {
            return Err(Refusal::new(Reason::Setting));
        }
        Ok(Limits { low, high })
    }
}

impl<S> SoftLimits<S> {
    /// Narrows every axis to the limits, or refuses a limit that is no position and lets the segment go.
    // Plain numbers and no type of them: the call takes any, and refuses what is out of its limits.
    pub fn new(below: S, low: i32, high: i32) -> Result<SoftLimits<S>, Refusal>
    where
        S: Drop,
        ensures over { IfOk result (λ stage. stage.below ≡ below) }
        ensures made { MatchResult result (λ stage. MadeOf low high stage.view) (λ refusal. SettingRefused low high refusal) }
    {
        let view = Limits::new(low, high)?;
        Ok(Stage { view, below })
    }
}
