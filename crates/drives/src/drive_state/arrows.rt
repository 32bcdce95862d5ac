//! Which state a call makes of a drive's, and the power that a state shows.
ghost use Rattle.std.specs.Prelude.{◌≡◌};
ghost use Rattle.drives.specs.Cia402.{power_of, state_cycled, state_off, state_cleared};

use super::DriveState;
use segment::Power;

impl DriveState {
    // What an axis shows of its power.
    pub(crate) fn power(self, enable_requested: bool) -> Power
        ensures { result ≡ power_of self enable_requested }
    {
        match self {
            DriveState::OperationEnabled => Power::On,
            DriveState::FaultReactionActive | DriveState::Fault => Power::Off,
            _ if enable_requested => Power::Coming,
            _ => Power::Off,
        }
    }

    // The state after a cycle.
    pub(crate) fn cycled(self, enable_requested: bool) -> DriveState
        ensures { result ≡ state_cycled self enable_requested }
    {
        match self {
            DriveState::NotReadyToSwitchOn => DriveState::SwitchOnDisabled,
            DriveState::SwitchOnDisabled if enable_requested => DriveState::ReadyToSwitchOn,
            DriveState::SwitchOnDisabled => DriveState::SwitchOnDisabled,
            DriveState::ReadyToSwitchOn => DriveState::SwitchedOn,
            DriveState::SwitchedOn => DriveState::OperationEnabled,
            DriveState::OperationEnabled => DriveState::OperationEnabled,
            DriveState::FaultReactionActive => DriveState::Fault,
            DriveState::Fault => DriveState::Fault,
        }
    }

    // The state after a power off.
    pub(crate) fn switched_off(self) -> DriveState
        ensures { result ≡ state_off self }
    {
        match self {
            DriveState::ReadyToSwitchOn | DriveState::SwitchedOn | DriveState::OperationEnabled => {
                DriveState::SwitchOnDisabled
            }
            other => other,
        }
    }

    // The state after a clear.
    pub(crate) fn cleared(self) -> DriveState
        ensures { result ≡ state_cleared self }
    {
        match self {
            DriveState::FaultReactionActive | DriveState::Fault => DriveState::SwitchOnDisabled,
            other => other,
        }
    }
}
