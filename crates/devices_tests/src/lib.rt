//! Tests of the window, the reader and the sinks at their bounds.
#![tactic(auto)]

// The runs of many calls use `assert!`: with `assert_eq!` their check takes twice the time.

#[cfg(test)]
mod numbers;
#[cfg(test)]
mod reading;
#[cfg(test)]
mod sinking;
#[cfg(test)]
mod space;
#[cfg(test)]
mod windows;
