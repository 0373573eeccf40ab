//! Tests of `text_cid`.
#![tactic(auto)]

#[cfg(test)]
mod tests;
