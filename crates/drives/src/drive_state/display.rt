//! A drive's state prints as its words in the profile.
ghost use Rattle.std.specs.Prelude.{Some};
ghost use Rattle.drives.specs.Names.{state_name};

use super::DriveState;
use std::fmt;

impl fmt::Display for DriveState {
    ghost output = { λ state. Some (state_name state) };

    fn fmt<W: fmt::Write>(&self, f: &mut fmt::Formatter<W>) -> fmt::Result {
        f.write_str(match *self {
            DriveState::NotReadyToSwitchOn => "not ready to switch on",
            DriveState::SwitchOnDisabled => "switch on disabled",
            DriveState::ReadyToSwitchOn => "ready to switch on",
            DriveState::SwitchedOn => "switched on",
            DriveState::OperationEnabled => "operation enabled",
            DriveState::FaultReactionActive => "fault reaction active",
            DriveState::Fault => "fault",
        })
    }
}
