//! Tests of `serde_ipld_dagcbor`: readers, sources, sinks and streams, however little they show or
//! take at once, and bytes that are cut off.
#![tactic(auto)]

#[cfg(test)]
mod tests;
