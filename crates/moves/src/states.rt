//! What the state of an axis allows.
ghost use Rattle.std.specs.Prelude.{◌≡◌};
ghost use Rattle.moves.specs.Axes.{is_disabled, is_errorstop, takes_commands, rest_state};

use crate::table::Axis;
use records::AxisState;

/// Whether an axis in this state is disabled.
pub fn is_disabled(state: AxisState) -> bool
    ensures { result ≡ is_disabled state }
{
    state == AxisState::Disabled
}

/// Whether an axis in this state is in errorstop.
pub fn is_errorstop(state: AxisState) -> bool
    ensures { result ≡ is_errorstop state }
{
    state == AxisState::ErrorStop
}

/// Whether an axis in this state takes commands: in standstill, discrete and continuous motion only.
pub fn takes_commands(state: AxisState) -> bool
    ensures { result ≡ takes_commands state }
{
    matches!(
        state,
        AxisState::Standstill | AxisState::DiscreteMotion | AxisState::ContinuousMotion
    )
}

/// The state of an axis when its last command is done: a stop holds it.
pub fn rest_state(state: AxisState) -> AxisState
    ensures { result ≡ rest_state state }
{
    if state == AxisState::Stopping {
        return AxisState::Stopping;
    }
    AxisState::Standstill
}

impl Axis {
    /// Whether the axis is disabled.
    pub fn is_disabled(self) -> bool
        ensures { result ≡ is_disabled self.state }
    {
        is_disabled(self.state)
    }

    /// Whether the axis is in errorstop.
    pub fn is_errorstop(self) -> bool
        ensures { result ≡ is_errorstop self.state }
    {
        is_errorstop(self.state)
    }

    /// Whether the axis takes commands: in standstill, discrete and continuous motion only.
    pub fn takes_commands(self) -> bool
        ensures { result ≡ takes_commands self.state }
    {
        takes_commands(self.state)
    }

    /// The state of the axis when its last command is done: a stop holds it.
    pub fn rest_state(self) -> AxisState
        ensures { result ≡ rest_state self.state }
    {
        rest_state(self.state)
    }
}
