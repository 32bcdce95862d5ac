//! Why a drive segment refuses a call, and how many stages handed the refusal up.
ghost use Rattle.std.specs.Prelude.{◌≤◌};

pub mod methods;

/// The reason of a refusal; its number is the one that the trail and the messages show.
#[derive(Clone, Copy, PartialEq, Eq, Debug)]
pub enum Reason {
    /// The segment has no axis of that number.
    NoSuchAxis = 11,
    /// The axis has a fault, at a follow.
    Faulted = 12,
    /// The axis's power is not on, at a follow.
    PowerNotOn = 13,
    /// The position lies outside the axis's range, at a follow.
    OutOfRange = 15,
    /// A trip code is not 1 to 15.
    TripCode = 16,
    /// A setting lies outside its limits, when a segment is made.
    Setting = 17,
}

/// A refusal on its way up through the stages.
#[derive(Clone, Copy, PartialEq, Eq, Debug)]
pub struct Refusal {
    /// Why the call was refused.
    pub reason: Reason,
    /// How many stages handed it up, counted to 15.
    pub depth: u8,
    ghost shallow: { depth ≤ 15 },
}
