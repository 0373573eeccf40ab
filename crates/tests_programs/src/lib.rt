//! Tests of the two programs, and of what the C library does for its calls.
#![tactic(auto)]

#[cfg(test)]
mod tests;
