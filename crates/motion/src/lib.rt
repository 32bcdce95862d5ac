//! Table, trail and segment together: errorstop, the orders of a cycle, and what its axes do after it.
#![tactic(auto)]

pub mod failing;
pub mod machine;
pub mod ordering;
pub mod segments;
pub mod settling;

pub use failing::fail;
pub use machine::Machine;
pub use ordering::{follow, order, order_all};
pub use segments::{clear, look_at, power_off, power_on, trip};
pub use settling::{hand_over, settle, settle_all};
