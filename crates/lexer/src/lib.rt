//! What the words of a scenario say: a line cut into words, a word into parts, and bytes; numbers are handed on.
#![tactic(auto)]

pub mod data;
pub mod parts;
pub mod words;

pub use data::{Data, generate, read_data, read_hex};
pub use numeral::{read_u8, read_u16, read_u32, read_u64};
pub use parts::{Stop, part_at};
pub use words::Words;
