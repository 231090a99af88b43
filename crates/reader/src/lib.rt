//! The reader: a link of one inward pipe, over given bytes and message lengths.
#![tactic(auto)]

mod cursor;
pub mod fixed;
pub mod reader;
mod text;

pub use fixed::reader_fixed;
pub use reader::Reader;
