//! Tests of `files_car` and `dagcbor_blocks`: CAR files, and the store that keeps them.
#![tactic(auto)]

#[cfg(test)]
mod tests;
