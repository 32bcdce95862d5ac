//! The law that holds at every point of every run of a sequencer, and the calls that carry it.
#![tactic(auto)]

pub mod calling;
pub mod order;
pub mod playing;

pub use calling::call;
pub use order::Order;
pub use playing::play;
