//! Layers over links: loss, busy, and two links side by side. Each is a link over any link.
#![tactic(auto)]

pub mod fault;
pub mod layer;
pub mod pattern;

pub use fault::{Fault, Silent, Unready};
pub use joint::Joint;
pub use layer::Layer;
pub use pattern::Pattern;

/// A link that loses what a pattern says: each Poll, Fetch, Send and Collect takes a bit, and on 1 nothing passes down.
pub type Loss<L> = Layer<L, Silent>;

/// A link that is not ready when a pattern says so: each Poll and Collect takes a bit, and on 1 nothing passes down.
pub type Busy<L> = Layer<L, Unready>;
