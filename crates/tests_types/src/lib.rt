//! Tests of `serde_ipld_dagcbor`: tables of bytes and results, public calls, and types by hand.
//! What is only written is tested in `tests_writes`.
#![tactic(auto)]

#[cfg(test)]
mod tests;
