//! An axis with no drive below it.
ghost use Rattle.std.specs.Prelude.{◌≡◌, ◌≤◌, true};
ghost use Rattle.segment.specs.Row.{Position};
ghost use Rattle.drives.specs.Rest.{rests};

use segment::AxisLook;

/// An axis that does at once what it is told.
#[derive(Clone, Copy)]
pub struct VirtualAxis {
    pub(crate) look: AxisLook,
    ghost demand_in: { Position look.demand },
    ghost actual_in: { Position look.actual },
    ghost low_in: { Position look.low },
    ghost high_in: { Position look.high },
    ghost code: { look.fault ≤ 15 },
    ghost rest: { rests look.fault look.power ≡ true },
}
