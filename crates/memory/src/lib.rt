//! Host memory: buffers in its pages, the walk to a byte, packets in and out, and the judging of places.
#![tactic(auto)]

mod buffer;
mod judge;
mod packets;
mod pages;
mod theorems;

pub use buffer::{Buffer, Kind};
pub use judge::{BadEntry, Part, judge_pieces, judge_size};
pub use pages::PAGE;
pub use theorems::{faults_are_one, packets_are_kept, strays_have_no_place, walk_crosses_pages};
