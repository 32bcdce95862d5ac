//! The states of a drive by CiA 402.

pub mod arrows;
pub mod display;

/// A drive's state.
#[derive(Clone, Copy, PartialEq, Eq, Debug)]
pub enum DriveState {
    /// The drive starts up.
    NotReadyToSwitchOn,
    /// Started up; power is not asked for.
    SwitchOnDisabled,
    /// Power is asked for.
    ReadyToSwitchOn,
    /// Power is there; the drive does not move yet.
    SwitchedOn,
    /// The drive follows.
    OperationEnabled,
    /// A fault arose; the drive comes to rest.
    FaultReactionActive,
    /// At rest under a fault.
    Fault,
}
