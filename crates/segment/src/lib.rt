//! Drive segments: a row of axes, what each call makes of it, and why a call is refused.
#![tactic(auto)]

pub mod axis;
pub mod meaning;
pub mod moving;
pub mod refusal;

pub use axis::methods::{REACH, is_position};
pub use axis::{AxisLook, Power};
pub use meaning::Segment;
pub use moving::follow_and_cycle;
pub use refusal::{Reason, Refusal};
