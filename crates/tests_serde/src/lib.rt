//! Types as a user of `types_serde` writes them, and tests: the bytes that each is written as,
//! the values that are read from bytes, and the bytes that are rejected. The types are in a module
//! beside the tests, so that they are proved once.
#![tactic(auto)]

#[cfg(test)]
mod tests;
#[cfg(test)]
mod types;
