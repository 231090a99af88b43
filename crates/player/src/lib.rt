//! Plays a scenario: builds its devices, carries out its commands and writes their answers as text.
#![tactic(auto)]

pub mod answer;
pub mod build;
pub mod glance;

pub use answer::carry_out;
pub use build::{build_device, build_pile};
pub use glance::{Glance, fnv};
