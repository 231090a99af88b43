//! The device notice buffer: 64 blocks of 64 bytes in a lent buffer, filled in turn as notices arrive, taken oldest first.
#![tactic(auto)]

pub mod block;
pub mod board;
pub mod calls;
pub mod law;
pub mod looks;
pub mod notice;

pub use block::{BLOCK, BUFFER};
pub use board::Notices;
pub use law::each_once;
pub use notice::Notice;
