//! The sequencer: commands in 32 blocks, over any drive segment, with a trail of what they did.
#![tactic(auto)]

mod limits;
pub mod outputs;
pub mod refusal;
pub mod sequencer;

pub use outputs::{AxisAnswer, BlockOutputs};
pub use refusal::Refusal;
pub use sequencer::Sequencer;
