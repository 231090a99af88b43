//! The devices at the far end of a link: a reader of messages, and sinks of packets, plain or gathering, each a link of one pipe.
#![tactic(auto)]

mod ahead;
pub mod fixed;
mod settle;
mod since;
pub mod sink;
mod space;
mod standing;
mod store;

pub use fixed::sinks_fixed;
pub use reader::{Reader, reader_fixed};
pub use sink::Sink;
pub use space::Space;
