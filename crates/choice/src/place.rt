//! One of two links.

/// One of two links.
#[derive(Drop)]
pub enum Choice<A, B> {
    First(A),
    Second(B),
}
