//! How far an axis steps, and what it does after the segment's cycle: decisions that change nothing.
#![tactic(auto)]

pub mod beginning;
pub mod deciding;
pub mod plain;
pub mod rates;
pub mod stepping;
pub mod turn;
pub mod under;

// The names at the root are those of an axis in plain numbers, but for `next_of`: `plain` has its like.
pub use beginning::next_of;
pub use plain::{
    active_block, enables, faults, first_block, reached, step, stepped, turn_of, yields,
};
pub use rates::{goal_of, held_rate, held_velocity};
pub use turn::{Start, Turn};
pub use under::Under;
