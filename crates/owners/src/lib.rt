//! Who owns each page of host memory: claiming, releasing, and bytes put to pages that nobody owns.
#![tactic(auto)]

mod claims;
mod naming;
mod puts;
mod releases;
mod table;
mod theorems;

pub use table::{Owner, Owners};
pub use theorems::taken_pages_are_one;
