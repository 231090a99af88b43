//! Tests of the scenario language: texts that cannot be read, and whole scenarios with their answers.
#![tactic(auto)]

#[cfg(test)]
mod tests;
