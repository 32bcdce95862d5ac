//! Stages over any drive segment: a view of its axes makes one; the mirror and the soft limits are two.
#![tactic(auto)]

mod handing_up;
pub mod limits;
pub mod mirror;
pub mod mirror_view;
pub mod soft_limits;
pub mod soft_limits_view;
pub mod stage;
pub mod stage_segment;
pub mod view;

pub use limits::Limits;
pub use mirror::{Mirror, TurnedAxes};
pub use soft_limits::SoftLimits;
pub use stage::Stage;
pub use view::View;

// The two views also go by the names of the segments that they make.
pub use mirror_view as mirror_segment;
pub use soft_limits_view as soft_limits_segment;
