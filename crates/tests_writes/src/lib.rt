//! Tests of what is written: values of the library's types, calls of a `Serializer`, CIDs. They do
//! not depend on readers of types, so they run beside the proofs of those.
#![tactic(auto)]

#[cfg(test)]
mod tests;
