//! Tests of the notice buffer and the ring at their bounds.
#![tactic(auto)]

#[cfg(test)]
mod tests;
