//! Why a call is refused: the seventeen refusals, their numbers, who brings each about, and what each points at.
#![tactic(auto)]

pub mod reason;
pub mod text;

pub use reason::{Party, Refusal, Spot};
