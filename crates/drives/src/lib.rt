//! The two segments at the bottom: rows of virtual axes and of CiA 402 drives.
#![tactic(auto)]

pub mod bank;
pub mod cia402;
pub mod cia402_drive;
pub mod drive;
pub mod drive_state;
pub mod making;
pub mod row;
pub mod settings;
pub mod virtual_axis;
pub mod virtual_drive;

pub use bank::Bank;
pub use cia402::Cia402Axis;
pub use drive_state::DriveState;
pub use making::{cia402_segment, virtual_segment};
pub use virtual_axis::VirtualAxis;
