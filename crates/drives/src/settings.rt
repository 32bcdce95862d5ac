//! What a segment is made from, once it is checked.
ghost use Rattle.std.specs.Prelude.{pos, ◌≤ℤ◌};
ghost use Rattle.segment.specs.Row.{Position};

/// The most that a lag may be, in increments per cycle.
pub const MAX_LAG: i32 = 100_000;

// Where the axes of a new segment start, and their range: three positions.
#[derive(Clone, Copy)]
pub(crate) struct Settings {
    pub(crate) start: i32,
    pub(crate) low: i32,
    pub(crate) high: i32,
    ghost start_in: { Position start },
    ghost low_in: { Position low },
    ghost high_in: { Position high },
}

// The most that a drive's measured position moves in a cycle.
#[derive(Clone, Copy)]
pub(crate) struct Lag {
    pub(crate) increments: i32,
    ghost some: { pos 1 ≤ℤ increments },
    ghost most: { increments ≤ℤ pos 100000 },
}
