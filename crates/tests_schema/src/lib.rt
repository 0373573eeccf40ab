//! Tests of types that are made of schemas, in a crate of their own.
#![tactic(auto)]

#[cfg(test)]
mod tests;
