//! Tests of paths: in a block, and over blocks.
#![tactic(auto)]

#[cfg(test)]
mod tests;
