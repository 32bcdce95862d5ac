//! A pair of limits, as soft limits have it.
ghost use Rattle.segment.specs.Row.{Position};

/// The lowest and the highest position that may be ordered; low above high leaves none.
#[derive(Clone, Copy)]
pub struct Limits {
    pub(crate) low: i32,
    pub(crate) high: i32,
    ghost low_in: { Position low },
    ghost high_in: { Position high },
}
