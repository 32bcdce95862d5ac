//! What a segment shows of an axis.

pub mod display;
pub mod methods;

/// The power of an axis.
#[derive(Clone, Copy, PartialEq, Eq, Debug)]
pub enum Power {
    /// The axis does not follow.
    Off,
    /// Power was asked for and is not there yet.
    Coming,
    /// The axis follows.
    On,
}

/// The six things that a segment shows of an axis. Positions are whole increments.
#[derive(Clone, Copy, PartialEq, Eq, Debug)]
pub struct AxisLook {
    /// Its power.
    pub power: Power,
    /// The position last ordered.
    pub demand: i32,
    /// The position measured.
    pub actual: i32,
    /// 0, or the fault's code, 1 to 15.
    // No plainer as an `Option`: `Some(0)` would have to be ruled out besides, and CiA 402's own error code has 0 for none.
    pub fault: u8,
    /// The lowest position that may be ordered.
    pub low: i32,
    /// The highest position that may be ordered.
    pub high: i32,
}
