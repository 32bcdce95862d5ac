//! An axis whose drive goes by the states of CiA 402.
ghost use Rattle.std.specs.Prelude.{◌≡◌, true};
ghost use Rattle.segment.specs.Row.{Position};
ghost use Rattle.drives.specs.Fitting.{fitting};

use crate::drive_state::DriveState;
use crate::settings::Lag;

/// An axis that powers up state by state, and whose measured position lags behind.
#[derive(Clone, Copy)]
pub struct Cia402Axis {
    pub(crate) state: DriveState,
    // Beside the state, since the request is asked for by itself.
    pub(crate) enable_requested: bool,
    // A number, as in the look that the axis shows.
    pub(crate) fault: u8,
    pub(crate) demand: i32,
    pub(crate) actual: i32,
    pub(crate) low: i32,
    pub(crate) high: i32,
    pub(crate) lag: Lag,
    ghost fits: { fitting state enable_requested fault ≡ true },
    ghost demand_in: { Position demand },
    ghost actual_in: { Position actual },
    ghost low_in: { Position low },
    ghost high_in: { Position high },
}
