//! The scenario language: its text read into typed commands, and what can be wrong with it.
#![tactic(auto)]

pub mod command;
pub mod fault;
pub mod read;

pub use command::{Command, Device, Kind, Line, Script};
pub use fault::{Fault, Wrong};
pub use read::read_script;
