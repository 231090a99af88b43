//! A place for a link of one of two kinds: what stands there is chosen when the program runs.
#![tactic(auto)]

pub mod carry;
pub mod place;

pub use place::Choice;
