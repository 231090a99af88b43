//! Tests of link and layers at their bounds, over the lamp.
#![tactic(auto)]

#[cfg(test)]
mod packets;
#[cfg(test)]
mod piles;
